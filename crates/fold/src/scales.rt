// The entry of table 3 for the texture scales in force.
ghost use Rattle.std.specs.Prelude.{◌≡◌};
ghost use Rattle.areas.specs.Area.{entries};
ghost use Rattle.areas.specs.Widths.{scale_width};
ghost use Rattle.fold.specs.Scales.{scale_entry, same_scale};

use areas::widths::SCALE_WIDTH;
use numbers::ratio::by;

// The coordinate pair, then the texgen pair.
pub fn scales_of(sc: u16, tc: u16) -> [f32; 4]
    ensures { result ≡ scale_entry sc tc }
{
    [
        by::<2097152, _>(sc),
        by::<2097152, _>(tc),
        by::<65536, _>(sc),
        by::<65536, _>(tc),
    ]
}

// Whether the last of `used` entries has the coordinate pair of `entry`, by float comparison.
pub fn scale_is(scales: &[f32], used: u32, entry: [f32; 4]) -> bool
    ensures { result ≡ same_scale (entries scale_width used scales.now) entry }
{
    let pair = &entry[..2];
    let last = used.checked_sub(1);
    last.is_some_and(|k| areas::same(scales, areas::place(SCALE_WIDTH, k), pair))
}
