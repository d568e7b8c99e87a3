// Writes to `out`, which is standard output, and complaints to `err`, standard error.
ghost use Rattle.std.specs.Prelude.{◌≡◌};
ghost use Rattle.std.specs.Float.{binary32, binary64};
ghost use Rattle.std.specs.Float.Ieee.{to_bits};
ghost use Rattle.std.proofs.Common.{of_z};
ghost use Rattle.std.specs.Int.{w16};
ghost use Rattle.std.specs.Fn.{FnOnceReturnsAt};
ghost use Rattle.stage.specs.Answers.{number, values};

use stage::{Answer, Counts};
use std::io;
use trace::ops::{Cut, Op};

pub fn text(out: &impl Print, s: &[u8]) -> io::Result<()> {
    out.write_all(s)
}

// A number by its bits: those of one NaN for any NaN.
pub(crate) trait Word: Copy {
    type Bits;

    ghost word: { Self → Self.Bits };

    fn word(self) -> Self::Bits
        ensures { result ≡ word self };
}

impl Word for u32 {
    type Bits = u32;

    ghost word = { λ x. x };

    fn word(self) -> u32 {
        self
    }
}

impl Word for i16 {
    type Bits = u32;

    ghost word = { of_z w16 };

    fn word(self) -> u32 {
        self.cast_unsigned() as u32
    }
}

impl Word for f32 {
    type Bits = u32;

    ghost word = { to_bits binary32 };

    fn word(self) -> u32 {
        if self.is_nan() {
            0x7fc00000
        } else {
            self.to_bits()
        }
    }
}

impl Word for f64 {
    type Bits = u64;

    ghost word = { to_bits binary64 };

    fn word(self) -> u64 {
        if self.is_nan() {
            0x7ff8000000000000
        } else {
            self.to_bits()
        }
    }
}

// A number as a value in a line, after a space: a float by the digits of its bits, or `nan`, and any other in decimal.
pub(crate) trait Shown: Copy {
    fn show(self, out: &impl Print) -> io::Result<()>;
}

// 1 for yes and 0 for no.
impl Shown for bool {
    fn show(self, out: &impl Print) -> io::Result<()> {
        (self as u8).show(out)
    }
}

// An impl for each type, here and below: one for all that print would take in the floats, which go by their bits.
impl Shown for u8 {
    fn show(self, out: &impl Print) -> io::Result<()> {
        print!(out; " {self}")
    }
}

impl Shown for u32 {
    fn show(self, out: &impl Print) -> io::Result<()> {
        print!(out; " {self}")
    }
}

// By its 16 bits, as it is hashed.
impl Shown for i16 {
    fn show(self, out: &impl Print) -> io::Result<()> {
        let bits = self.word();
        if bits < 32768 {
            print!(out; " {bits}")
        } else {
            // It has 16 bits, so nothing is cut off.
            let size = 65536u32.saturating_sub(bits);
            print!(out; " -{size}")
        }
    }
}

impl Shown for f32 {
    fn show(self, out: &impl Print) -> io::Result<()> {
        if self.is_nan() {
            return text(out, b" nan");
        }
        let bits = self.word();
        print!(out; " {bits:08x}")
    }
}

impl Shown for f64 {
    fn show(self, out: &impl Print) -> io::Result<()> {
        if self.is_nan() {
            return text(out, b" nan");
        }
        let bits = self.word();
        print!(out; " {bits:016x}")
    }
}

// A number that there may be, or `-` for none.
impl<T: Shown> Shown for Option<T> {
    fn show(self, out: &impl Print) -> io::Result<()> {
        match self {
            Some(x) => x.show(out),
            None => text(out, b" -"),
        }
    }
}

// Numbers, each after a space.
pub(crate) fn row<T: Shown>(out: &impl Print, xs: &[T]) -> io::Result<()> {
    for x in xs {
        x.show(out)?;
    }
    Ok(())
}

// The number of an answer (docs/REFERENCE.md 3). No From: `Answer` is the stage's.
fn number_of(a: Answer) -> u32
    ensures { result ≡ number a }
{
    match a {
        Answer::Done | Answer::Told(_) | Answer::AllOutside(_) | Answer::FirstInside(..) => 0,
        Answer::BadLoad(..) => 1,
        Answer::BadCull(..) => 2,
        Answer::NotLoaded(_) => 3,
        Answer::NoCode(_) => 4,
        Answer::BadModify(..) => 5,
        Answer::NeverLoaded(_) => 6,
        Answer::ShortData(_) => 7,
        Answer::ShortArea(_) => 8,
        Answer::NoRoom(_) => 9,
        Answer::BadState => 10,
    }
}

// Hands what is returned with the number to `f`, which asks that it may be called.
fn with_values<R, F: FnOnce(&[u32]) -> R>(a: Answer, f: F) -> R
    requires { F.IsAlwaysCallable f }
    ensures { FnOnceReturnsAt F.FnOnce f (values a) result }
{
    match a {
        Answer::Done => f(&[]),
        Answer::Told(n) => f(&[n]),
        Answer::AllOutside(plane) => f(&[1, plane]),
        Answer::FirstInside(left, right, bottom, top) => f(&[0, left, right, bottom, top]),
        Answer::BadLoad(count, first) => f(&[count, first]),
        Answer::BadCull(first, last) => f(&[first, last]),
        Answer::NotLoaded(slot) => f(&[slot]),
        Answer::NoCode(slot) => f(&[slot]),
        Answer::BadModify(slot, attribute) => f(&[slot, attribute]),
        Answer::NeverLoaded(slot) => f(&[slot]),
        Answer::ShortData(length) => f(&[length]),
        Answer::ShortArea(table) => f(&[table]),
        Answer::NoRoom(table) => f(&[table]),
        Answer::BadState => f(&[]),
    }
}

// The name of an op, after a space.
fn name_of(op: Op) -> &'static str {
    match op {
        Op::Open => " open",
        Op::Matrix => " matrix",
        Op::Force => " force",
        Op::Pop => " pop",
        Op::Geom => " geom",
        Op::Viewport => " viewport",
        Op::Texture => " texture",
        Op::Fog => " fog",
        Op::Lightnum => " lightnum",
        Op::Light => " light",
        Op::Lookat => " lookat",
        Op::Load => " load",
        Op::Cull => " cull",
        Op::Depth => " depth",
        Op::Modify => " modify",
        Op::Draw => " draw",
        Op::Ucode => " ucode",
        Op::Ink => " ink",
        Op::Explain => " explain",
        Op::Lend => " lend",
        Op::Mark => " mark",
        Op::Poke => " poke",
        Op::Write => " write",
    }
}

pub(crate) fn counts(out: &impl Print, c: Counts) -> io::Result<()> {
    let counts = [
        c.matrices,
        c.viewports,
        c.scales,
        c.lights,
        c.lookats,
        c.fogs,
        c.rows,
        c.indices,
        c.runs,
    ];
    row(out, &counts)
}

// The line of op number i; `mark` shows the counts. Of any number, as a call's is.
pub fn answered(out: &impl Print, i: usize, op: u8, a: Answer, c: Counts) -> io::Result<()> {
    // No command has the number 0 or 0x13; what lies beyond the ops has no name at all.
    let name = match Op::try_from(op) {
        Ok(op) => name_of(op),
        Err(_) if op == 0 || op == 0x13 => " none",
        Err(_) => "",
    };
    let number = number_of(a);
    print!(out; "{i}{name} {number}")?;
    with_values(a, |values| row(out, values))?;
    if op == Op::Mark.number() {
        counts(out, c)?;
    }
    println!(out)
}

// A sentence on standard error: why a trace is not replayed, or not to its end.
pub fn complain(err: &impl Print, s: &[u8]) -> io::Result<()> {
    err.write_all(b"replay: ")?;
    err.write_all(s)
}

pub fn too_long(err: &impl Print, most: usize) -> io::Result<()> {
    println!(err; "replay: the trace is longer than {most} bytes")
}

// The script stops at op number i, at the byte `at`, which is an op that is cut short, or none.
pub fn stopped(err: &impl Print, i: usize, at: usize, cut: Cut) -> io::Result<()> {
    let why = match cut {
        Cut::Short => "cut short",
        Cut::Unknown => "unknown",
    };
    println!(err; "replay: op {i}, at byte {at}, is {why}; it and what follows was not replayed")
}
