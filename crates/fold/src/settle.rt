// Lights and lookat axes folded into their tables where they are due: the count then. Two functions: of the lights several entries,
// of the axes one. Both ask for a count that does not
// wrap, and for at most seven lights, which the state's judge has seen to. An entry is worked out only where it is due, and
// `put_if` takes one that is there. The state's own `Lights` stands in a crate above
// this one, and has what a folding leaves too.
ghost use Rattle.std.specs.Prelude.{◌≡◌, [], ◌∷◌, ◌≤◌};
ghost use Rattle.areas.specs.Widths.{most, light_width, lookat_width};
ghost use Rattle.decide.specs.Append.{only_if};
ghost use Rattle.decide.specs.Steps.{Put, put_by};
ghost use Rattle.fold.specs.Lights.{light_entries};
ghost use Rattle.fold.specs.Lookat.{lookat_entry};

use areas::widths::LOOKAT_WIDTH;

pub fn lights_if(
    due: bool,
    lights: &mut [f32],
    used: u32,
    m: [[f32; 4]; 4],
    directions: [f32; 24],
    colours: [f32; 24],
    ambient: [f32; 3],
    number: u32,
) -> u32
    requires { (used ≤ most) × (number ≤ 7) }
    ensures { record { count = result; area = lights.new } ≡ put_by light_width used (only_if due (light_entries m directions colours ambient number)) lights.old }
{
    if !due {
        return used;
    }
    crate::lights::fold_lights(lights, used, m, directions, colours, ambient, number);
    used + number + 1
}

pub fn lookat_if(due: bool, lookats: &mut [f32], used: u32, m: [[f32; 4]; 4], axes: [f32; 6]) -> u32
    requires { used ≤ most }
    ensures { record { count = result; area = lookats.new } ≡ put_by lookat_width used (only_if due (lookat_entry m axes ∷ [])) lookats.old }
{
    if !due {
        return used;
    }
    let entry = crate::lookat::lookat_entry(m, axes);
    areas::put(lookats, areas::place(LOOKAT_WIDTH, used), &entry);
    used + 1
}
