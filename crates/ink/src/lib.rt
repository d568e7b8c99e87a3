// The ink of a row, and the indices that have a given one.
#![tactic(auto)]

ghost use Rattle.std.specs.Prelude.{◌≡◌, ◌+◌, ◌*◌, ◌≤◌, length};
ghost use Rattle.areas.specs.Area.{part, entries};
ghost use Rattle.areas.specs.Widths.{word_width, index_width};
ghost use Rattle.ink.specs.Ink.{has_ink, ink_at, ink_of};

use areas::widths::{COLOUR_WORD, LIGHTS_WORD, WORD_WIDTH};

// Whether the row at place `at` has the ink asked: its light count is 0, since a lit row's colour word is a packed normal, and
// its colour word is the one asked. Asks for a row that lies in the area: its room has been judged by then.
fn has_ink(words: &[u32], at: usize, colour: u32) -> bool
    requires { at + word_width ≤ length words.now }
    ensures { result ≡ has_ink colour (part words.now at word_width) }
{
    (words[at + LIGHTS_WORD] == 0) & (words[at + COLOUR_WORD] == colour)
}

// Whether the index `i` is that of a row in use that has the ink. Asks for rows that lie in the area, as above.
fn ink_at(words: &[u32], rows: u32, i: u32, colour: u32) -> bool
    requires { rows * word_width ≤ length words.now }
    ensures { result ≡ ink_at colour (entries word_width rows words.now) i }
{
    (i < rows) && has_ink(words, areas::place(WORD_WIDTH, i), colour)
}

// How many of the first `used` indices are of rows that have the ink. Asks for rows and indices that lie in their areas,
// as above. A `for`, whose ink test is compiled to a sum: `filter` and `count` jump at it, which takes up to five times as long.
// It stays a function of its own: taken into a large caller, the loop has two instructions more.
#[inline(never)]
pub fn count_ink(words: &[u32], rows: u32, indices: &[u32], used: u32, colour: u32) -> u32
    requires { (rows * word_width ≤ length words.now) × (used * index_width ≤ length indices.now) }
    ensures { result ≡ ink_of colour (entries word_width rows words.now) (entries index_width used indices.now) }
{
    let used = &indices[..used as usize];
    let mut count = 0;
    for i in used {
        if ink_at(words, rows, *i, colour) {
            count += 1;
        }
    }
    count
}
