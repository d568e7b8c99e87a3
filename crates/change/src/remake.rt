// A row written anew with a change: in its place, or in a copy behind all rows in use.
ghost use Rattle.std.specs.Prelude.{◌≡◌, [], ◌∷◌, ◌+◌, ◌-◌, ◌*◌, ◌≤◌, ltb, length};
ghost use Rattle.numbers.specs.Choice.{pick};
ghost use Rattle.areas.specs.Area.{part, put, write};
ghost use Rattle.areas.specs.Widths.{scale_width};
ghost use Rattle.change.specs.Decoded.{unit_entry};
ghost use Rattle.change.specs.Steps.{InRange, RoomsOf, change_judged, remade};

use crate::Change;
use crate::judge::{Moved, Refusal, Slot, Tables};
use crate::row::RowNumber;
use areas::widths::SCALE_WIDTH;

// Row `from` written again as row `to`, where that is another row. Asks for what `remake_row` asks for. With the test the copy goes
// one way alone; without it, or by `!=`, both ways are compiled in, and a caller's loop of modifies copies all of the state each time.
fn move_row<T: RowNumber>(area: &mut [T], from: u32, to: u32)
    requires { (from ≤ to) × (to * T.WIDTH + T.WIDTH ≤ length area.old) }
    ensures { area.new ≡ put area.old (to * T.WIDTH) (part area.old (from * T.WIDTH) T.WIDTH) }
{
    if from < to {
        let start = areas::place(T::WIDTH, from);
        areas::copy(area, start, areas::place(T::WIDTH, to), T::WIDTH as usize);
    }
}

// Row `from`, with the change, written as row `to`, which is the same row or one behind all rows in use; `unit` is the place of the
// unit scale entry plus 1, or 0 where there is none. Asks for rows that lie in the area, since both have been judged by then.
fn remake_row<T: RowNumber>(area: &mut [T], from: u32, to: u32, unit: u32, c: Change)
    requires { (from ≤ to) × (to * T.WIDTH + T.WIDTH ≤ length area.old) }
    ensures { area.new ≡ write T.WIDTH to (T.after c (unit - 1) (part area.old (from * T.WIDTH) T.WIDTH) ∷ []) area.old }
{
    let width = T::WIDTH as usize;
    let at = areas::place(T::WIDTH, to);
    move_row(area, from, to);
    T::change(&mut area[at..at + width], c, unit.saturating_sub(1));
}

// The unit scale entry written behind those in use, where there is to be one more.
#[tactic(auto, unfolding(numbers::specs::Choice::pick))]
fn append_unit(scales: &mut [f32], used: u32, then: u32)
    ensures { scales.new ≡ pick (ltb used «then») (write scale_width used (unit_entry ∷ []) scales.old) scales.old }
{
    if used < then {
        let entry = [1.0f32, 1.0, 0.0, 0.0];
        areas::put(scales, areas::place(SCALE_WIDTH, used), &entry);
    }
}

// The change judged, and written where it is accepted: the unit scale entry, and the row. Asks for counts in their range and for the
// rooms of the three areas, which its callers have at hand.
pub fn remake(
    asked: Option<Change>,
    s: Slot,
    t: Tables,
    scales: &mut [f32],
    floats: &mut [f32],
    words: &mut [u32],
) -> Result<(Change, Moved), Refusal>
    requires { InRange t × RoomsOf t scales.old floats.old words.old }
    ensures { (result ≡ change_judged asked s t) × ((scales.new, floats.new, words.new) ≡ remade result s t (scales.old, floats.old, words.old)) }
{
    let (c, m) = crate::judge::judge(asked, s, t)?;
    append_unit(scales, t.scales, m.scales);
    remake_row(floats, s.row, m.row, m.unit, c);
    remake_row(words, s.row, m.row, m.unit, c);
    Ok((c, m))
}
