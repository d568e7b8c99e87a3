// What the driver does by itself to a state: poke. What it does to areas and lengths is `trace::act`.
ghost use Rattle.std.specs.Prelude.{◌≡◌};
ghost use Rattle.player.specs.Acts.{count_list, count_after, counts_of, poked_state};

use stage::{Counts, State};

// The counts with n entries in use of a table, 1 to 9, as the format numbers them.
fn with_count(c: Counts, table: u32, n: u32) -> Counts
    ensures { result ≡ counts_of (count_after table n (count_list c)) }
{
    let mut r = c;
    match table {
        1 => r.matrices = n,
        2 => r.viewports = n,
        3 => r.scales = n,
        4 => r.lights = n,
        5 => r.lookats = n,
        6 => r.fogs = n,
        7 => r.rows = n,
        8 => r.indices = n,
        9 => r.runs = n,
        _ => {}
    }
    r
}

// The state tampered with: fields have the format's numbers. An index of a slot over 255 is taken by its low 8 bits; 5, 6 and from 8 on there is no field.
#[tactic(auto, unfolding(crate::specs::Acts::poked_state))]
pub fn poked(s: State, field: u32, index: u32, value: u32) -> State
    ensures { result ≡ poked_state s field index value }
{
    let mut r = s;
    let i = (index % 256) as usize;
    match field {
        0 => r.opened = value % 2 == 1,
        1 => r.depth = value,
        2 => r.lights.number = value,
        3 => {
            let counts = with_count(r.counts, index, value);
            r.counts = counts;
        }
        4 => {
            r.row[i] = value;
            r.ever[i] = true;
        }
        7 => r.loaded[i] = value % 2 == 1,
        _ => {}
    }
    r
}
