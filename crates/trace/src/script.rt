// Reads a script: words, and the op at a place with its arguments and data.
ghost use Rattle.std.specs.Prelude.{◌≡◌, ◌%◌, ◌<◌, length, IfOk};
ghost use Rattle.trace.specs.Script.{args_of, size_of, data_of, call_of, call_at, Ahead};

use crate::ops::{Cut, Op, Shape};
pub use input::word;

// The seven words from an op's first argument on. An op reads as many as it has arguments. Names, no array: commands take them one by one.
#[derive(Clone, Copy)]
pub struct Args {
    pub a: u32,
    pub b: u32,
    pub c: u32,
    pub d: u32,
    pub e: u32,
    pub f: u32,
    pub g: u32,
}

// An op. Its data are the bytes from `from` up to `to`, where the next op stands.
#[derive(Clone, Copy)]
pub struct Call {
    // Any number, since `step` and `write` take any call: one that names no op does nothing.
    pub op: u8,
    pub args: Args,
    pub from: usize,
    pub to: usize,
}

// The low 8 bits. A cast has to fit, so each width says its own remainder, here and below.
pub fn octet(x: u32) -> u8
    ensures { result ≡ x % 256 }
{
    (x % 256) as u8
}

// The low 16 bits.
pub fn half(x: u32) -> u16
    ensures { result ≡ x % 65536 }
{
    (x % 65536) as u16
}

fn args_of(s: &[u8]) -> Args
    ensures { result ≡ args_of s.now }
{
    Args {
        a: word(s, 0),
        b: word(s, 1),
        c: word(s, 2),
        d: word(s, 3),
        e: word(s, 4),
        f: word(s, 5),
        g: word(s, 6),
    }
}

// How many bytes the words of an op take.
#[tactic(auto, unfolding(crate::specs::Script::size_of, numbers::specs::Choice::pick))]
fn size_of(h: Shape) -> usize
    ensures { result ≡ size_of h }
{
    let n = (h.arguments as usize) * 4;
    if h.bytes { n + 4 } else { n }
}

// How many bytes of data an op has.
#[tactic(auto, unfolding(crate::specs::Script::data_of, numbers::specs::Choice::pick))]
fn data_of(h: Shape, s: &[u8]) -> usize
    ensures { result ≡ data_of h s.now }
{
    if h.bytes {
        word(s, h.arguments) as usize
    } else {
        0
    }
}

// The op at `at`, of the shape h. Asks for a place in the script, at which the caller's loop stands.
pub fn call_of(h: Shape, s: &[u8], at: usize) -> Result<Call, Cut>
    requires { at < length s.now }
    ensures value { result ≡ call_of h s.now at }
    ensures ahead { IfOk result (Ahead at (length s.now)) }
{
    let rest = &s[at + 1..];
    let size = size_of(h);
    if rest.len() < size {
        return Err(Cut::Short);
    }
    let n = data_of(h, rest);
    if rest.len() - size < n {
        return Err(Cut::Short);
    }
    let from = at + 1 + size;
    Ok(Call {
        op: s[at],
        args: args_of(rest),
        from,
        to: from + n,
    })
}

// The op at `at`, of the shape that its number says.
pub fn call_at(s: &[u8], at: usize) -> Result<Call, Cut>
    requires { at < length s.now }
    ensures value { result ≡ call_at s.now at }
    ensures ahead { IfOk result (Ahead at (length s.now)) }
{
    let op = Op::try_from(s[at])?;
    call_of(op.shape(), s, at)
}
