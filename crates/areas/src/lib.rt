// A lent area: numbers in a slice, read as entries of one width that stand end to end. No Vec: the caller lends it, and the state
// counts the entries in use.
#![tactic(auto)]

ghost use Rattle.std.specs.Prelude.{◌≡◌, ℕ, ◌+◌, ◌*◌, ◌≤◌, length};
ghost use Rattle.areas.specs.Area.{room, part, put, matches};

use crate::widths::MOST;

pub mod widths;

// How many entries of `width` numbers an area of `len` numbers has room for.
pub fn room_of(width: u32, len: usize) -> usize
    ensures { result ≡ room width len }
{
    len.checked_div(width as usize)
        .unwrap_or(0)
        .min(MOST as usize)
}

// Where entry `k` begins.
pub fn place(width: u32, k: u32) -> usize
    ensures { result ≡ k * width }
{
    (k as usize) * (width as usize)
}

// `entry` written from place `at` on; what would lie past the area's end is not written.
pub fn put<T: Copy>(area: &mut [T], at: usize, entry: &[T])
    ensures { area.new ≡ put area.old at entry.now }
{
    let n = area.len();
    let start = at.min(n);
    let wide = entry.len().min(n - start);
    area[start..start + wide].copy_from_slice(&entry[..wide]);
}

// The `width` numbers from place `from` on written again from `to` on. Asks that both lie in the area: the room of an entry
// has been judged by then, and a test of the range would cost.
pub fn copy<T: Copy>(area: &mut [T], from: usize, to: usize, width: usize)
    requires { (from + width ≤ length area.old) × (to + width ≤ length area.old) }
    ensures { area.new ≡ put area.old to (part area.old from width) }
{
    area.copy_within(from..from + width, to);
}

// Whether the numbers from place `at` on are those of `entry`, each by `==`: floats by float comparison, where zeros of either sign
// are equal and a NaN never is. Where the area ends before the entry does, they are not.
#[tactic(auto, using(crate::proofs::Sames::same_is))]
pub fn same<T: PartialEq>(area: &[T], at: usize, entry: &[T]) -> bool
    ensures { result ≡ matches T.eq (part area.now at (length entry.now)) entry.now }
{
    area[at.min(area.len())..].starts_with(entry)
}
