// The dump: the state, the entries in use, the slots, and a hash of each area.
use crate::{hash, show, slots, tables};
use stage::{Counts, State};
use std::io;

// The areas of the tables, lent or not; those of table 7 are `floats` and `words`. Not `trace::rooms::Areas`, which is lent for
// writing: a caller may have these for reading alone.
#[derive(Clone, Copy)]
struct Areas<'a> {
    matrices: &'a [f32],
    viewports: &'a [f32],
    scales: &'a [f32],
    lights: &'a [f32],
    lookats: &'a [f32],
    fogs: &'a [i16],
    floats: &'a [f32],
    words: &'a [u32],
    indices: &'a [u32],
    runs: &'a [u32],
}

impl Areas<'_> {
    // The entries in use of each table.
    fn tables(&self, out: &impl Print, c: Counts) -> io::Result<()> {
        tables::entries(out, "t1", self.matrices, 16, c.matrices)?;
        tables::entries(out, "t2", self.viewports, 6, c.viewports)?;
        tables::entries(out, "t3", self.scales, 4, c.scales)?;
        tables::entries(out, "t4", self.lights, 6, c.lights)?;
        tables::entries(out, "t5", self.lookats, 6, c.lookats)?;
        tables::entries(out, "t6", self.fogs, 2, c.fogs)?;
        tables::rows(out, self.floats, self.words, c.rows)?;
        tables::entries(out, "t8", self.indices, 1, c.indices)?;
        tables::entries(out, "t9", self.runs, 8, c.runs)
    }

    // The hash of each area.
    fn hashes(&self, out: &impl Print) -> io::Result<()> {
        let hashes = [
            hash::of(self.matrices),
            hash::of(self.viewports),
            hash::of(self.scales),
            hash::of(self.lights),
            hash::of(self.lookats),
            hash::of(self.fogs),
            hash::of(self.floats),
            hash::of(self.words),
            hash::of(self.indices),
            hash::of(self.runs),
        ];
        for (k, h) in hashes.iter().enumerate() {
            println!(out; "area {k} {h}")?;
        }
        Ok(())
    }
}

fn settings(out: &impl Print, s: &State) -> io::Result<()> {
    let t = s.texture;
    print!(out;
        "state {} {} {} {}",
        s.depth, s.geometry, s.microcode, s.defined as u8
    )?;
    print!(out; " {} {} {} {} {}", t.tile, t.level, t.on as u8, t.sc, t.tc)?;
    println!(out; " {} {} {}", s.fogmul, s.fogoff, s.lights.number)
}

fn line(out: &impl Print, name: &str, xs: &[f32]) -> io::Result<()> {
    print!(out; "{name}")?;
    show::row(out, xs)?;
    println!(out)
}

// A light's direction and its colour.
fn lights(out: &impl Print, directions: &[f32], colours: &[f32]) -> io::Result<()> {
    let both = directions.chunks_exact(3).zip(colours.chunks_exact(3));
    for (k, (direction, colour)) in both.enumerate() {
        print!(out; "light {k}")?;
        show::row(out, direction)?;
        show::row(out, colour)?;
        println!(out)?;
    }
    Ok(())
}

// The state's own lines. Of a stack deeper than 32 there are 32 matrices.
fn state(out: &impl Print, s: &State) -> io::Result<()> {
    settings(out, s)?;
    tables::entries(out, "stack", &s.stack, 16, s.depth)?;
    line(out, "proj", &s.projection)?;
    line(out, "vp", &s.viewport)?;
    lights(out, &s.lights.directions, &s.lights.colours)?;
    line(out, "ambient", &s.lights.ambient)?;
    tables::entries(out, "look", &s.lookat.axes, 3, 2)
}

// Before the opening there is no state to show, no entry and no slot.
fn whole(out: &impl Print, s: &State, areas: Areas) -> io::Result<()> {
    println!(out; "end\nopen {}", s.opened as u8)?;
    if s.opened {
        print!(out; "counts")?;
        show::counts(out, s.counts)?;
        println!(out)?;
        state(out, s)?;
        areas.tables(out, s.counts)?;
        slots::lines(out, s)?;
    }
    areas.hashes(out)
}

// Writes the dump.
pub fn write(
    out: &impl Print,
    s: State,
    matrices: &[f32],
    viewports: &[f32],
    scales: &[f32],
    lights: &[f32],
    lookats: &[f32],
    fogs: &[i16],
    floats: &[f32],
    words: &[u32],
    indices: &[u32],
    runs: &[u32],
) -> io::Result<()> {
    let areas = Areas {
        matrices,
        viewports,
        scales,
        lights,
        lookats,
        fogs,
        floats,
        words,
        indices,
        runs,
    };
    whole(out, &s, areas)
}
