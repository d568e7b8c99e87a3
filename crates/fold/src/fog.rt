// The place of a fog pair among those of table 6.
ghost use Rattle.std.specs.Prelude.{◌≡◌, [], ◌∷◌, ◌≤◌};
ghost use Rattle.areas.specs.Area.{entries};
ghost use Rattle.areas.specs.Widths.{fog_width};
ghost use Rattle.fold.specs.Fog.{find};

use areas::widths::FOG_WIDTH;

// The place of the first equal pair of the `used` in use, or `used`, where it is appended then: a place in both cases, so no Option.
pub fn fog_place(fogs: &[i16], used: u32, multiplier: i16, offset: i16) -> u32
    ensures { (result ≡ find (entries fog_width used fogs.now) (multiplier ∷ offset ∷ [])) × (result ≤ used) }
{
    let pair = [multiplier, offset];
    (0..used)
        .find(|k| areas::same(fogs, areas::place(FOG_WIDTH, *k), &pair))
        .unwrap_or(used)
}
