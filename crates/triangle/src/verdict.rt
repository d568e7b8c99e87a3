// What is to be done with a draw: its judge, in stages, over the numbers that it looks at. The refusals stand in the
// order of docs/REFERENCE.md 3.
ghost use Rattle.std.specs.Prelude.{◌≡◌, ◌+◌, leb};
ghost use Rattle.areas.specs.Area.{room};
ghost use Rattle.triangle.specs.Steps.{closes, loaded, draw_judged, draw_slots, draw_areas, draw_last};

use crate::run::Last;
use crate::slot::Corner;
use areas::widths::{INDEX_WIDTH, RUN_WIDTH};

// Why a draw is refused: the state is not sound, or refusals 6, 8 and 9 with the slot, or the table.
#[derive(Clone, Copy)]
pub enum Refusal {
    Unsound,
    Never(u32),
    Short(u32),
    Full(u32),
}

// A triangle to record: the rows of its corners, in their order, how many runs are appended, 0 or 1 and a number since
// it is added, and the start and the count of the last run then.
#[derive(Clone, Copy)]
pub struct Record {
    pub rows: [u32; 3],
    pub more: u32,
    pub start: u32,
    pub count: u32,
}

// Of tables 7, 8 and 9 the entries in use, and of 8 and 9 how many numbers the areas have.
#[derive(Clone, Copy)]
pub struct Tables {
    pub rows: u32,
    pub indices: u32,
    pub runs: u32,
    pub indexlen: usize,
    pub runlen: usize,
}

// Whether the last run, if there is one, ends where the indices in use do.
fn ends(last: Option<Last>, indices: u32) -> bool
    ensures { result ≡ closes last indices }
{
    match last {
        Some(run) => u64::from(run.start) + u64::from(run.count) == u64::from(indices),
        None => true,
    }
}

// Whether an area of `len` numbers has room for `used` entries of so many numbers, and for `more`.
fn roomy(used: u32, more: u32, width: u32, len: usize) -> bool
    ensures { result ≡ leb (used + more) (room width len) }
{
    decide::judge::holds(used, more, areas::room_of(width, len))
}

// The last run, and room for the triangle.
fn judge_last(rows: [u32; 3], t: Tables, last: Option<Last>) -> Result<Record, Refusal>
    ensures { result ≡ draw_last rows t last }
{
    if !ends(last, t.indices) {
        return Err(Refusal::Unsound);
    }
    if !roomy(t.indices, 3, INDEX_WIDTH, t.indexlen) {
        return Err(Refusal::Full(8));
    }
    if let Some(run) = last {
        if run.same {
            return Ok(Record {
                rows,
                more: 0,
                start: run.start,
                count: run.count + 3,
            });
        }
    }
    if !roomy(t.runs, 1, RUN_WIDTH, t.runlen) {
        return Err(Refusal::Full(9));
    }
    Ok(Record {
        rows,
        more: 1,
        start: t.indices,
        count: 3,
    })
}

// The areas hold what is in use.
fn judge_areas(rows: [u32; 3], t: Tables, last: Option<Last>) -> Result<Record, Refusal>
    ensures { result ≡ draw_areas rows t last }
{
    if !roomy(t.indices, 0, INDEX_WIDTH, t.indexlen) {
        return Err(Refusal::Short(8));
    }
    if !roomy(t.runs, 0, RUN_WIDTH, t.runlen) {
        return Err(Refusal::Short(9));
    }
    judge_last(rows, t, last)
}

// The row of a corner.
fn row_of(corner: Corner) -> Result<u32, Refusal>
    ensures { result ≡ loaded corner }
{
    corner.row.ok_or(Refusal::Never(corner.slot))
}

// The three slots were loaded, and have a row in use.
fn judge_slots(
    a: Corner,
    b: Corner,
    c: Corner,
    t: Tables,
    last: Option<Last>,
) -> Result<Record, Refusal>
    ensures { result ≡ draw_slots a b c t last }
{
    let x = row_of(a)?;
    let y = row_of(b)?;
    let z = row_of(c)?;
    if !((x < t.rows) & (y < t.rows) & (z < t.rows)) {
        return Err(Refusal::Unsound);
    }
    judge_areas([x, y, z], t, last)
}

// The state's own numbers are `sound`. Where `both` sides are culled there is nothing to record.
pub fn judge(
    sound: bool,
    both: bool,
    a: Corner,
    b: Corner,
    c: Corner,
    t: Tables,
    last: Option<Last>,
) -> Result<Option<Record>, Refusal>
    ensures { result ≡ draw_judged sound both a b c t last }
{
    if !sound {
        return Err(Refusal::Unsound);
    }
    if both {
        return Ok(None);
    }
    Ok(Some(judge_slots(a, b, c, t, last)?))
}
