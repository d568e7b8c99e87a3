// The slots that differ from the opening's, a line each.
use crate::show::Shown;
use stage::State;
use std::io;

// What a slot has; by default nothing, as at the opening.
#[derive(Clone, Copy, Default, PartialEq)]
struct Slot {
    row: Option<u32>,
    loaded: bool,
    drawn: bool,
    code: Option<u8>,
    z: Option<f64>,
}

fn line(out: &impl Print, k: usize, slot: Slot) -> io::Result<()> {
    if slot == Slot::default() {
        return Ok(());
    }
    print!(out; "slot {k}")?;
    slot.row.show(out)?;
    slot.loaded.show(out)?;
    slot.drawn.show(out)?;
    slot.code.show(out)?;
    slot.z.show(out)?;
    println!(out)
}

// By an index: eight columns of the state go on together.
pub(crate) fn lines(out: &impl Print, s: &State) -> io::Result<()> {
    for k in 0..256 {
        let slot = Slot {
            row: s.ever[k].then_some(s.row[k]),
            loaded: s.loaded[k],
            drawn: s.drawn[k],
            code: s.coded[k].then_some(s.code[k]),
            z: s.deep[k].then_some(s.z[k]),
        };
        line(out, k, slot)?;
    }
    Ok(())
}
