// A script of bytes: read from an input into a fixed room, and its words, low byte first.
#![tactic(auto)]

ghost use Rattle.std.specs.Prelude.{◌≡◌, ◌≤◌, length, get_or, IfOk};
ghost use Rattle.input.specs.Words.{word_at};

use std::io;
use std::io::Read;

// The byte at `at`, 0 past the end.
fn byte(s: &[u8], at: usize) -> u8
    ensures { result ≡ get_or s.now at 0 }
{
    s.get(at).copied().unwrap_or(0)
}

// Word k.
pub fn word(s: &[u8], k: u8) -> u32
    ensures { result ≡ word_at s.now k }
{
    let at = usize::from(k) * 4;
    u32::from_le_bytes([
        byte(s, at),
        byte(s, at + 1),
        byte(s, at + 2),
        byte(s, at + 3),
    ])
}

// Reads until the end of the input, or until there is no more room, and answers how many bytes it read. Not the library's reading to the
// end, which asks for a Vec, nor `io::copy` into the slice: of an input whose bytes are not known beforehand its contract gives no count.
pub fn read_full(from: &mut impl Read, bytes: &mut [u8]) -> io::Result<usize>
    ensures { IfOk result (λ n. n ≤ length bytes.new) }
{
    let mut n = 0;
    while n < bytes.len() {
        let got = from.read(&mut bytes[n..])?;
        if got == 0 {
            break;
        }
        n = n + got;
    }
    Ok(n)
}
