// Reads and judges the header.
ghost use Rattle.std.specs.Prelude.{◌≡◌, ◌≤◌};
ghost use Rattle.numbers.specs.Choice.{all};
ghost use Rattle.trace.specs.Header.{is_second, is_trace, header_size, first_length, lengths_of, within_tests};

use crate::rooms;
use crate::rooms::Lengths;
use crate::script::word;

// Whether a script begins with GST2: the letters as one word, as the definition has them.
#[tactic(auto, unfolding(crate::specs::Header::is_second))]
fn is_second(s: &[u8]) -> bool
    ensures { result ≡ is_second s.now }
{
    word(s, 0) == 0x32545347
}

// Whether a script begins with GST1 or GST2.
#[tactic(auto, unfolding(crate::specs::Header::is_trace))]
pub fn is_trace(s: &[u8]) -> bool
    ensures { result ≡ is_trace s.now }
{
    (word(s, 0) == 0x31545347) | is_second(s)
}

// How many bytes the header has: as many as that of GST1 where it does not begin with GST2.
#[tactic(auto, unfolding(crate::specs::Header::header_size, numbers::specs::Choice::pick))]
pub fn size_of(s: &[u8]) -> usize
    ensures { result ≡ header_size s.now }
{
    if is_second(s) {
        rooms::SECOND_HEADER
    } else {
        rooms::FIRST_HEADER
    }
}

// The word at which the lengths begin.
#[tactic(auto, unfolding(crate::specs::Header::first_length, numbers::specs::Choice::pick))]
fn first_length(s: &[u8]) -> u8
    ensures { (result ≡ first_length s.now) × (result ≤ 2) }
{
    if is_second(s) { 2 } else { 1 }
}

// The lengths of the areas.
pub fn lengths_of(s: &[u8]) -> Lengths
    ensures { result ≡ lengths_of s.now }
{
    let k = first_length(s);
    Lengths {
        matrices: word(s, k) as usize,
        viewports: word(s, k + 1) as usize,
        scales: word(s, k + 2) as usize,
        lights: word(s, k + 3) as usize,
        lookats: word(s, k + 4) as usize,
        fogs: word(s, k + 5) as usize,
        floats: word(s, k + 6) as usize,
        words: word(s, k + 7) as usize,
        indices: word(s, k + 8) as usize,
        runs: word(s, k + 9) as usize,
    }
}

// Whether the program serves areas of these lengths.
pub fn served(l: Lengths) -> bool
    ensures { result ≡ all (within_tests l) }
{
    (l.matrices <= rooms::MATRICES)
        & (l.viewports <= rooms::VIEWPORTS)
        & (l.scales <= rooms::SCALES)
        & (l.lights <= rooms::LIGHTS)
        & (l.lookats <= rooms::LOOKATS)
        & (l.fogs <= rooms::FOGS)
        & (l.floats <= rooms::FLOATS)
        & (l.words <= rooms::WORDS)
        & (l.indices <= rooms::INDICES)
        & (l.runs <= rooms::RUNS)
}
