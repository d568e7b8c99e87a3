// A vertex row changed in place or in a copy: the change asked for, what it does to a row's numbers, and the judge that
// stands before it.
#![tactic(auto)]

ghost use Rattle.std.specs.Prelude.{◌≡◌, ◌<◌, ◌≤◌, ◌^◌};
ghost use Rattle.std.specs.Float.{binary32};
ghost use Rattle.numbers.specs.Ratio.{signed, of_ratio};
ghost use Rattle.change.specs.Decoded.{decoded, depth_after};

use numbers::ratio::by;

pub mod judge;
pub mod remake;
mod row;

// A change of a row, with its decoded values: the colour word; s and t; screen x and y; screen z, and the slot's own.
#[derive(Clone, Copy)]
pub enum Change {
    Colour(u32),
    Texture(f32, f32),
    Screen(f32, f32),
    Depth(f32, f64),
}

// A half read with its sign, divided by D, which asks for what `by` asks for.
fn half_by<const D: u32>(h: u16) -> f32
    requires { (0 < D) × (D ≤ 2 ^ 24) }
    ensures { result ≡ of_ratio binary32 (signed 16 h) D }
{
    by::<D, _>(numbers::signed::signed_half(h))
}

// The change that an attribute number and a value word ask for, where they ask for one.
#[tactic(auto, unfolding(crate::specs::Decoded::decoded, numbers::specs::Choice::pick))]
pub fn decode(attribute: u32, value: u32) -> Option<Change>
    ensures { result ≡ decoded attribute value }
{
    let high = (value >> 16) as u16;
    let low = (value & 0xFFFF) as u16;
    match attribute {
        0x10 => Some(Change::Colour(value.swap_bytes())),
        0x14 => {
            let s = half_by::<32>(high);
            let t = half_by::<32>(low);
            Some(Change::Texture(s, t))
        }
        0x18 => {
            let x = half_by::<4>(high);
            let y = half_by::<4>(low);
            Some(Change::Screen(x, y))
        }
        0x1C => {
            let z = numbers::ratio::by_67108864(value);
            let own = numbers::ratio::wide_by_65536(value);
            Some(Change::Depth(z, own))
        }
        _ => None,
    }
}

// A slot's screen z after the change: only a depth changes it, and only where there is one. The mark goes beside the value, as in
// the state.
#[tactic(auto, unfolding(crate::specs::Decoded::depth_after, numbers::specs::Choice::pick))]
pub fn depth_after(c: Change, deep: bool, z: f64) -> f64
    ensures { result ≡ depth_after c deep z }
{
    match c {
        Change::Depth(_, own) => { if deep { own } else { z } }
        _ => z,
    }
}
