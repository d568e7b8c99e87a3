// An entry appended to a table, unless the last entry compares equal to it.
ghost use Rattle.std.specs.Prelude.{◌≡◌, length, replicate, leb, ◌&&◌, [], ◌∷◌, ◌≤◌, Ok, Err};
ghost use Rattle.std.specs.Float.Ieee.{eq};
ghost use Rattle.numbers.specs.Choice.{pick, unless};
ghost use Rattle.areas.specs.Area.{entries, matches, room, put};
ghost use Rattle.areas.specs.Widths.{most, matrix_width, viewport_width};
ghost use Rattle.matrix.specs.Math.{zero, identity, laid};
ghost use Rattle.decide.specs.Append.{final, only_if};
ghost use Rattle.decide.specs.Steps.{Ended, ended, Put, put_by};

use areas::widths::{MATRIX_WIDTH, VIEWPORT_WIDTH};

// Whether the last of `used` entries of `width` numbers compares equal to `entry`. Asks that the entry be as wide as the
// table's, which every caller's is by its type. Width, count and entry one by one, here and below: the three are promised of any
// width, and of a slice as entry.
pub fn last_is(floats: &[f32], width: u32, used: u32, entry: &[f32]) -> bool
    requires { length entry.now ≡ width }
    ensures { result ≡ matches eq (final (entries width used floats.now)) entry.now }
{
    if used == 0 {
        return entry.is_empty();
    }
    areas::same(floats, areas::place(width, used - 1), entry)
}

// `entry` goes to the end of the table, unless it is there last: the entries in use then, or None where there is no room for it.
// Asks for an entry of the table's width, as above.
pub fn append(floats: &mut [f32], width: u32, used: u32, entry: &[f32]) -> Option<u32>
    requires { length entry.now ≡ width }
    ensures { record { count = result; area = floats.new } ≡ ended width used entry.now floats.old }
{
    if last_is(floats, width, used, entry) {
        return Some(used);
    }
    if !crate::judge::holds(used, 1, areas::room_of(width, floats.len())) {
        return None;
    }
    areas::put(floats, areas::place(width, used), entry);
    Some(used + 1)
}

// `entry` appended where `need` says so: the count then. Asks for a count that does not wrap, which the state's judge has seen to.
// A mark and no Option: the entry is there in both cases.
pub fn put_if<T: Copy>(need: bool, area: &mut [T], width: u32, used: u32, entry: &[T]) -> u32
    requires { used ≤ most }
    ensures { record { count = result; area = area.new } ≡ put_by width used (only_if need (entry.now ∷ [])) area.old }
{
    if !need {
        return used;
    }
    areas::put(area, areas::place(width, used), entry);
    used + 1
}

// Identity as first matrix and zeros as first viewport, where both areas have room; else the number of the first table that has none.
pub fn put_first(matrices: &mut [f32], viewports: &mut [f32]) -> Result<(), u32>
    ensures short { result ≡ unless (leb 1 (room matrix_width (length matrices.old))) (Err 1) (unless (leb 1 (room viewport_width (length viewports.old))) (Err 2) (Ok tt)) }
    ensures matrices { matrices.new ≡ pick (leb 1 (room matrix_width (length matrices.old)) && leb 1 (room viewport_width (length viewports.old))) (put matrices.old 0 (laid identity)) matrices.old }
    ensures viewports { viewports.new ≡ pick (leb 1 (room matrix_width (length matrices.old)) && leb 1 (room viewport_width (length viewports.old))) (put viewports.old 0 (replicate 6 zero)) viewports.old }
{
    if areas::room_of(MATRIX_WIDTH, matrices.len()) < 1 {
        return Err(1);
    }
    if areas::room_of(VIEWPORT_WIDTH, viewports.len()) < 1 {
        return Err(2);
    }
    let one = matrix::math::to_flat(matrix::math::identity());
    let none = [0.0f32; 6];
    areas::put(matrices, 0, &one);
    areas::put(viewports, 0, &none);
    Ok(())
}
