// Slots and the corners of a triangle, and its sides.
ghost use Rattle.std.specs.Prelude.{◌≡◌, ◌+◌, ◌≤◌, length};
ghost use Rattle.areas.specs.Area.{put};
ghost use Rattle.triangle.specs.Slot.{corners};
ghost use Rattle.triangle.specs.Steps.{corner_at, sides_of};

use decide::family::Family;

// A corner of a triangle: its slot, and that slot's row if it was ever loaded.
#[derive(Clone, Copy)]
pub struct Corner {
    pub slot: u32,
    pub row: Option<u32>,
}

// What a geometry mode word says of the sides of a triangle: both are culled, one at least is, the front only is.
#[derive(Clone, Copy)]
pub struct Sides {
    pub both: bool,
    pub cull: bool,
    pub swap: bool,
}

// The corner at a slot, one of so many, of which the mark and the row are read at its number modulo so many: the mark beside
// the row, as in the state.
pub fn corner_at(slots: u32, slot: u32, mark: bool, row: u32) -> Corner
    ensures { result ≡ corner_at slots slot mark row }
{
    Corner {
        slot,
        row: ((slot < slots) & mark).then_some(row),
    }
}

// The sides by the family's bits front and back.
pub fn sides_of(f: Family, geometry: u32) -> Sides
    ensures { result ≡ sides_of f geometry }
{
    let front = decide::judge::has_flag(f.front, geometry);
    let back = decide::judge::has_flag(f.back, geometry);
    Sides {
        both: front & back,
        cull: front | back,
        swap: front & !back,
    }
}

// The rows x, y, z from place `at` on, the first and the last exchanged where `swap` says so. Asks for room, which a
// draw has judged before it writes: a test of each index would cost. Three stores: made as an array they would
// be copied by a call.
pub fn put_corners(indices: &mut [u32], at: usize, swap: bool, x: u32, y: u32, z: u32)
    requires { at + 3 ≤ length indices.old }
    ensures { indices.new ≡ put indices.old at (corners swap x y z) }
{
    indices[at] = decide::number::if_else(swap, z, x);
    indices[at + 1] = y;
    indices[at + 2] = decide::number::if_else(swap, x, z);
}
