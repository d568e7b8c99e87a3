// Writes answers to standard output: a float by its bits in hexadecimal, any NaN as `nan`.
use std::io;

// A function for each word of the output, here and below.
pub fn space(out: &impl Print) -> io::Result<()> {
    out.write_all(b" ")
}

pub fn end(out: &impl Print) -> io::Result<()> {
    out.write_all(b"\n")
}

pub fn none(out: &impl Print) -> io::Result<()> {
    out.write_all(b"none")
}

pub fn truth(out: &impl Print, b: bool) -> io::Result<()> {
    if b {
        out.write_all(b"yes")
    } else {
        out.write_all(b"no")
    }
}

pub fn bits(out: &impl Print, x: u8) -> io::Result<()> {
    print!(out; "{x:02x}")
}

// Two widths, two functions, here and below: a trait over both would be longer than they are.
pub fn single(out: &impl Print, x: f32) -> io::Result<()> {
    if x.is_nan() {
        return out.write_all(b"nan");
    }
    let bits = x.to_bits();
    print!(out; "{bits:08x}")
}

pub fn double(out: &impl Print, x: f64) -> io::Result<()> {
    if x.is_nan() {
        return out.write_all(b"nan");
    }
    let bits = x.to_bits();
    print!(out; "{bits:016x}")
}

// One after the other, with a space between two.
pub fn singles(out: &impl Print, xs: &[f32]) -> io::Result<()> {
    for (k, x) in xs.iter().enumerate() {
        if k > 0 {
            space(out)?;
        }
        single(out, *x)?;
    }
    Ok(())
}

pub fn unknown(out: &impl Print, op: u8, at: usize) -> io::Result<()> {
    println!(out; "vectors: no function has the number {op}, at byte {at}")
}

pub fn too_long(out: &impl Print) -> io::Result<()> {
    println!(out; "vectors: the script is too long")
}

pub fn cut_short(out: &impl Print, at: usize) -> io::Result<()> {
    println!(out; "vectors: the script is cut short in the record at byte {at}")
}
