// The entries of a table, a line each, as far as they lie inside their area.
use crate::show::{self, Shown};
use std::io;

// `count` entries of `width` numbers.
pub(crate) fn entries<T: Shown>(
    out: &impl Print,
    name: &str,
    xs: &[T],
    width: usize,
    count: u32,
) -> io::Result<()> {
    // `chunks_exact` asks for a width above 0.
    if width == 0 {
        return Ok(());
    }
    for (k, entry) in xs.chunks_exact(width).take(count as usize).enumerate() {
        print!(out; "{name} {k}")?;
        show::row(out, entry)?;
        println!(out)?;
    }
    Ok(())
}

// `count` entries of table 7, whose numbers stand in two areas.
pub(crate) fn rows(out: &impl Print, floats: &[f32], words: &[u32], count: u32) -> io::Result<()> {
    let halves = floats
        .chunks_exact(vertex::FLOATS)
        .zip(words.chunks_exact(vertex::WORDS));
    for (k, (front, back)) in halves.take(count as usize).enumerate() {
        print!(out; "t7 {k}")?;
        show::row(out, front)?;
        show::row(out, back)?;
        println!(out)?;
    }
    Ok(())
}
