// The judge of a change, and the numbers that an accepted one comes to. Nothing is written before it is through.
ghost use Rattle.std.specs.Prelude.{◌≡◌};
ghost use Rattle.change.specs.Decoded.{appends};
ghost use Rattle.change.specs.Steps.{InRange, row_room, comes_to, roomy, change_judged};

use crate::Change;
use areas::widths::{FLOAT_WIDTH, WORD_WIDTH};

// What the state has of the slot: whether it is loaded, whether it was drawn since its row was made, and its row. No Option of the
// row: past the judge it is read without asking again.
#[derive(Clone, Copy)]
pub struct Slot {
    pub loaded: bool,
    pub drawn: bool,
    pub row: u32,
}

// What the judge looks at of tables 3 and 7: the entries in use, how many there is room for, and the place of the unit
// scale entry plus 1, or 0 where there is none yet: the state's own number, whose form is fixed.
#[derive(Clone, Copy)]
pub struct Tables {
    pub scales: u32,
    pub scaleroom: usize,
    pub rows: u32,
    pub rowroom: usize,
    pub unit: u32,
}

// What an accepted change comes to: the slot's row, the counts and the mark of the unit scale entry then.
#[derive(Clone, Copy)]
pub struct Moved {
    pub row: u32,
    pub rows: u32,
    pub scales: u32,
    pub unit: u32,
}

// Why a change is refused: Unknown is refusal 5, NoRow 10, Short 8 and Full 9, the last two with the table's number.
#[derive(Clone, Copy)]
pub enum Refusal {
    Unknown,
    NoRow,
    Short(u32),
    Full(u32),
}

// How many rows two areas of so many numbers have room for: the lesser room counts.
pub fn row_room(floats: usize, words: usize) -> usize
    ensures { result ≡ row_room floats words }
{
    areas::room_of(FLOAT_WIDTH, floats).min(areas::room_of(WORD_WIDTH, words))
}

// Whether the change needs a unit scale entry that is not there yet.
#[tactic(auto, unfolding(crate::specs::Decoded::appends))]
fn appends_unit(c: Change, unit: u32) -> bool
    ensures { result ≡ appends c unit }
{
    match c {
        Change::Texture(_, _) => unit == 0,
        _ => false,
    }
}

// The numbers that the change comes to: a slot that was drawn gets a copy of its row at the end. Asks for counts in their
// range, which the state's own numbers are by then.
#[tactic(auto, unfolding(crate::specs::Steps::comes_to, numbers::specs::Choice::pick))]
fn moved_by(c: Change, s: Slot, t: Tables) -> Moved
    requires { InRange t }
    ensures { result ≡ comes_to c s t }
{
    let fresh = appends_unit(c, t.unit);
    Moved {
        row: if s.drawn { t.rows } else { s.row },
        rows: if s.drawn { t.rows + 1 } else { t.rows },
        scales: if fresh { t.scales + 1 } else { t.scales },
        unit: if fresh { t.scales + 1 } else { t.unit },
    }
}

// Refusals 8 and 9, tables 3 and 7. Asks for counts in their range.
#[tactic(auto, unfolding(crate::specs::Steps::roomy, numbers::specs::Choice::unless))]
fn judge_room(c: Change, s: Slot, t: Tables) -> Result<(Change, Moved), Refusal>
    requires { InRange t }
    ensures { result ≡ roomy c s t }
{
    if t.scaleroom < (t.scales as usize) {
        return Err(Refusal::Short(3));
    }
    if t.rowroom < (t.rows as usize) {
        return Err(Refusal::Short(7));
    }
    let m = moved_by(c, s, t);
    if t.scaleroom < (m.scales as usize) {
        return Err(Refusal::Full(3));
    }
    if t.rowroom < (m.rows as usize) {
        return Err(Refusal::Full(7));
    }
    Ok((c, m))
}

// Refusal 5, for a slot that is not loaded or an attribute that is not known, then 10 for the slot's row, then the areas.
// Asks for counts in their range.
#[tactic(auto, unfolding(crate::specs::Steps::change_judged, numbers::specs::Choice::unless))]
pub(crate) fn judge(asked: Option<Change>, s: Slot, t: Tables) -> Result<(Change, Moved), Refusal>
    requires { InRange t }
    ensures { result ≡ change_judged asked s t }
{
    let c = asked.ok_or(Refusal::Unknown)?;
    if !s.loaded {
        return Err(Refusal::Unknown);
    }
    if t.rows <= s.row {
        return Err(Refusal::NoRow);
    }
    judge_room(c, s, t)
}
