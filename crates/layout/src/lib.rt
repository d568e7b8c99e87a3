// What gbi.h lays out in bytes, big-endian, read from a place of a slice. Short data is judged before anything is read,
// so these ask for the bytes that they read: a test of each would be paid at every vertex. Data is a slice and a place in it, as the
// commands have it.
#![tactic(auto)]

ghost use Rattle.std.specs.Prelude.{◌≡◌, ◌+◌, ◌≤◌, ◌<◌, length};
ghost use Rattle.numbers.specs.Choice.{pick};
ghost use Rattle.layout.specs.Layout.{half_at, word_at, signed_at, ratio_at, marked_at, entries_at, row_at, matrix_at, exact_at, noes, inexact_at, vertex_at, triple_at, viewport_at, colour_at, axis_at, direction_at, light_at};

use crate::records::{Light, Vertex, Viewport};
use numbers::entry::Entry;
use numbers::ratio::{Whole, by};

pub mod records;

// The 16 bits at `at`, high byte first.
pub fn half(s: &[u8], at: usize) -> u16
    requires { at + 2 ≤ length s.now }
    ensures { result ≡ half_at s.now at }
{
    u16::from_be_bytes([s[at], s[at + 1]])
}

// The four bytes at `at`, the first lowest.
pub fn colour_word(s: &[u8], at: usize) -> u32
    requires { at + 4 ≤ length s.now }
    ensures { result ≡ word_at s.now at }
{
    u32::from_le_bytes([s[at], s[at + 1], s[at + 2], s[at + 3]])
}

// The half at `at`, read with its sign.
fn signed_half(s: &[u8], at: usize) -> i16
    requires { at + 2 ≤ length s.now }
    ensures { result ≡ signed_at s.now at }
{
    numbers::signed::signed_half(half(s, at))
}

// Entry `k` of a matrix at `at`, its whole part among the first 32 bytes, its fraction among the next 32; and whether it is exact.
#[tactic(auto, using(crate::proofs::Signed::handed), unfolding(crate::specs::Layout::marked_at, crate::specs::Layout::entry_at, crate::specs::Layout::exact_at))]
fn entry(s: &[u8], at: usize, k: usize) -> Entry
    requires { (at + 64 ≤ length s.now) × (k < 16) }
    ensures { result ≡ marked_at s.now at k }
{
    numbers::entry::matrix_entry(signed_half(s, at + 2 * k), half(s, at + 32 + 2 * k))
}

// Entries `k` to `k + 3`.
#[tactic(auto, unfolding(crate::specs::Layout::entries_at))]
fn entries(s: &[u8], at: usize, k: usize) -> [Entry; 4]
    requires { (at + 64 ≤ length s.now) × (k + 4 ≤ 16) }
    ensures { result ≡ entries_at s.now at k }
{
    [
        entry(s, at, k),
        entry(s, at, k + 1),
        entry(s, at, k + 2),
        entry(s, at, k + 3),
    ]
}

// The values of entries `k` to `k + 3`.
#[tactic(auto, unfolding(crate::specs::Layout::row_at, crate::specs::Layout::entries_at, crate::specs::Layout::marked_at))]
fn row(s: &[u8], at: usize, k: usize) -> [f32; 4]
    requires { (at + 64 ≤ length s.now) × (k + 4 ≤ 16) }
    ensures { result ≡ row_at s.now at k }
{
    let [a, b, c, d] = entries(s, at, k);
    [a.value, b.value, c.value, d.value]
}

// A matrix: the 64 bytes from `at` on.
#[tactic(auto, unfolding(crate::specs::Layout::matrix_at))]
pub fn matrix(s: &[u8], at: usize) -> [[f32; 4]; 4]
    requires { at + 64 ≤ length s.now }
    ensures { result ≡ matrix_at s.now at }
{
    [row(s, at, 0), row(s, at, 4), row(s, at, 8), row(s, at, 12)]
}

// 1 for an entry that is not exact.
#[tactic(auto, unfolding(numbers::specs::Choice::pick))]
fn lost(e: Entry) -> u32
    ensures { (result ≡ pick e.exact 0 1) × (result ≤ 1) }
{
    !e.exact as u32
}

// How many of the entries `k` to `k + 3` are not exact.
fn row_inexact(s: &[u8], at: usize, k: usize) -> u32
    requires { (at + 64 ≤ length s.now) × (k + 4 ≤ 16) }
    ensures { (result ≡ noes (λ j. exact_at s.now at (k + j)) 4) × (result ≤ 4) }
{
    let [a, b, c, d] = entries(s, at, k);
    lost(a) + lost(b) + lost(c) + lost(d)
}

// How many of a matrix's sixteen entries are not exact. In `matrix`'s order and without a loop, so that the compiler reads
// each entry once for both.
pub fn inexact(s: &[u8], at: usize) -> u32
    requires { at + 64 ≤ length s.now }
    ensures { result ≡ inexact_at s.now at }
{
    row_inexact(s, at, 0) + row_inexact(s, at, 4) + row_inexact(s, at, 8) + row_inexact(s, at, 12)
}

// A half read with its sign, as a float.
fn whole(s: &[u8], at: usize) -> f32
    requires { at + 2 ≤ length s.now }
    ensures { result ≡ ratio_at s.now at 1 }
{
    signed_half(s, at).to_f32()
}

// A vertex: the 16 bytes from `at` on, of which bytes 6 and 7 are ignored.
#[tactic(auto, unfolding(crate::specs::Layout::vertex_at))]
pub fn vertex(s: &[u8], at: usize) -> Vertex
    requires { at + 16 ≤ length s.now }
    ensures { result ≡ vertex_at s.now at }
{
    let pos = [whole(s, at), whole(s, at + 2), whole(s, at + 4)];
    let st = [whole(s, at + 8), whole(s, at + 10)];
    let colour = colour_word(s, at + 12);
    Vertex { pos, st, colour }
}

// x, y and z at `at`: x and y divided by 4, z by 1024.
#[tactic(auto, using(crate::proofs::Signed::handed), unfolding(crate::specs::Layout::triple_at))]
fn triple(s: &[u8], at: usize) -> [f32; 3]
    requires { at + 6 ≤ length s.now }
    ensures { result ≡ triple_at s.now at }
{
    [
        by::<4, _>(signed_half(s, at)),
        by::<4, _>(signed_half(s, at + 2)),
        by::<1024, _>(signed_half(s, at + 4)),
    ]
}

// A viewport: the 16 bytes from `at` on, of which the fourth scale and the fourth translation are ignored.
#[tactic(auto, unfolding(crate::specs::Layout::viewport_at))]
pub fn viewport(s: &[u8], at: usize) -> Viewport
    requires { at + 16 ≤ length s.now }
    ensures { result ≡ viewport_at s.now at }
{
    let scale = triple(s, at);
    let translation = triple(s, at + 8);
    Viewport { scale, translation }
}

// A colour: three bytes from `at` on, each divided by 255.
#[tactic(auto, unfolding(crate::specs::Layout::colour_at))]
pub fn colour(s: &[u8], at: usize) -> [f32; 3]
    requires { at + 3 ≤ length s.now }
    ensures { result ≡ colour_at s.now at }
{
    [
        by::<255, _>(s[at]),
        by::<255, _>(s[at + 1]),
        by::<255, _>(s[at + 2]),
    ]
}

// A signed byte divided by 127.
fn axis(s: &[u8], at: usize) -> f32
    requires { at < length s.now }
    ensures { result ≡ axis_at s.now at }
{
    by::<127, _>(numbers::signed::signed_byte(s[at]))
}

// A direction: three signed bytes from `at` on, each divided by 127.
#[tactic(auto, unfolding(crate::specs::Layout::direction_at))]
pub fn direction(s: &[u8], at: usize) -> [f32; 3]
    requires { at + 3 ≤ length s.now }
    ensures { result ≡ direction_at s.now at }
{
    [axis(s, at), axis(s, at + 1), axis(s, at + 2)]
}

// A light: of the 11 bytes from `at` on, the colour at 0 to 2 and the direction at 8 to 10.
#[tactic(auto, unfolding(crate::specs::Layout::light_at))]
pub fn light(s: &[u8], at: usize) -> Light
    requires { at + 11 ≤ length s.now }
    ensures { result ≡ light_at s.now at }
{
    let direction = direction(s, at + 8);
    let colour = colour(s, at);
    Light { direction, colour }
}
