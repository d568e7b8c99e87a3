// The entries of table 4 for the lights in force: each light with its direction folded, and the ambient colour last.
ghost use Rattle.std.specs.Prelude.{◌≡◌, ◌+◌, ◌<◌, ◌≤◌};
ghost use Rattle.areas.specs.Area.{write};
ghost use Rattle.areas.specs.Widths.{light_width};
ghost use Rattle.fold.specs.Direction.{three};
ghost use Rattle.fold.specs.Lights.{light_entry, ambient_entry, light_entries};

use areas::widths::LIGHT_WIDTH;

// Three of the numbers of eight triples. Asks for a place that has them, since a slice's `first_chunk` would answer an Option.
fn three_of(f: [f32; 24], at: usize) -> [f32; 3]
    requires { at + 3 ≤ 24 }
    ensures { result ≡ three f at }
{
    [f[at], f[at + 1], f[at + 2]]
}

// The entry of light k. Asks for one of the eight lights.
#[tactic(auto, unfolding(crate::specs::Lights::light_entry, crate::specs::Direction::folded))]
fn light_entry(m: [[f32; 4]; 4], directions: [f32; 24], colours: [f32; 24], k: u32) -> [f32; 6]
    requires { k < 8 }
    ensures { result ≡ light_entry m directions colours k }
{
    let at = 3 * (k as usize);
    let [x, y, z] = crate::direction::fold_direction(m, three_of(directions, at));
    let [r, g, b] = three_of(colours, at);
    [x, y, z, r, g, b]
}

// The ambient colour's entry: its direction is 0.
fn ambient_entry(ambient: [f32; 3]) -> [f32; 6]
    ensures { result ≡ ambient_entry ambient }
{
    let [r, g, b] = ambient;
    [0.0, 0.0, 0.0, r, g, b]
}

// Writes the entries of `number` lights and of the ambient colour from entry `used` on. Asks for at most seven lights:
// a state with more is refused before its lights are read.
pub fn fold_lights(
    lights: &mut [f32],
    used: u32,
    m: [[f32; 4]; 4],
    directions: [f32; 24],
    colours: [f32; 24],
    ambient: [f32; 3],
    number: u32,
)
    requires { number ≤ 7 }
    ensures { lights.new ≡ write light_width used (light_entries m directions colours ambient number) lights.old }
{
    let first = areas::place(LIGHT_WIDTH, used);
    for k in 0..number {
        let entry = light_entry(m, directions, colours, k);
        areas::put(lights, first + areas::place(LIGHT_WIDTH, k), &entry);
    }
    let last = ambient_entry(ambient);
    areas::put(lights, first + areas::place(LIGHT_WIDTH, number), &last);
}
