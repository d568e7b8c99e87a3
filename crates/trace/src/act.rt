// What a trace's own acts do to the lengths and to the areas of whole numbers: lend and write.
ghost use Rattle.std.specs.Prelude.{◌≡◌, ◌&&◌, [], ◌∷◌, ◌%◌, set, eqb};
ghost use Rattle.areas.specs.Area.{put};
ghost use Rattle.numbers.specs.Choice.{pick};
ghost use Rattle.numbers.specs.Ratio.{signed};
ghost use Rattle.trace.specs.Acts.{length_list, lent_after, written_to};

use crate::ops::Op;
use crate::rooms::Lengths;
use crate::script;
use crate::script::Call;

// The lengths with n for that of an area, as the format numbers them. From 10 on there is no area.
fn with_length(l: Lengths, area: u32, n: usize) -> Lengths
    ensures { length_list result ≡ set (length_list l) area n }
{
    let mut r = l;
    match area {
        0 => r.matrices = n,
        1 => r.viewports = n,
        2 => r.scales = n,
        3 => r.lights = n,
        4 => r.lookats = n,
        5 => r.fogs = n,
        6 => r.floats = n,
        7 => r.words = n,
        8 => r.indices = n,
        9 => r.runs = n,
        _ => {}
    }
    r
}

// The lengths lent after the op c.
#[tactic(auto, unfolding(crate::specs::Acts::lent_after, numbers::specs::Choice::pick))]
pub fn lent_after(l: Lengths, c: Call) -> Lengths
    ensures { length_list result ≡ lent_after c (length_list l) }
{
    if c.op == Op::Lend.number() {
        with_length(l, c.args.a, c.args.b as usize)
    } else {
        l
    }
}

// Whether the op c writes to an area.
fn writes_to(c: Call, area: u32) -> bool
    ensures { result ≡ (eqb c.op 35 && eqb c.args.a area) }
{
    c.op == Op::Write.number() && c.args.a == area
}

// A number written at a place, where it is asked and the place lies in the area.
#[tactic(auto, unfolding(areas::specs::Area::put, numbers::specs::Choice::pick))]
fn write_at<T: Copy>(area: &mut [T], on: bool, at: usize, value: T)
    ensures { area.new ≡ pick on (put area.old at (value ∷ [])) area.old }
{
    if on && at < area.len() {
        area[at] = value;
    }
}

// The areas of whole numbers after the op c: `write` stores the value's low 16 bits in area 5. Four slices: of ten areas it would
// have to say that six stay.
pub fn write(c: Call, fogs: &mut [i16], words: &mut [u32], indices: &mut [u32], runs: &mut [u32])
    ensures fogs_after { fogs.new ≡ written_to 5 c (signed 16 (c.args.c % 65536)) fogs.old }
    ensures words_after { words.new ≡ written_to 7 c c.args.c words.old }
    ensures indices_after { indices.new ≡ written_to 8 c c.args.c indices.old }
    ensures runs_after { runs.new ≡ written_to 9 c c.args.c runs.old }
{
    let at = c.args.b as usize;
    let value = c.args.c;
    let half = numbers::signed::signed_half(script::half(value));
    write_at(fogs, writes_to(c, 5), at, half);
    write_at(words, writes_to(c, 7), at, value);
    write_at(indices, writes_to(c, 8), at, value);
    write_at(runs, writes_to(c, 9), at, value);
}
