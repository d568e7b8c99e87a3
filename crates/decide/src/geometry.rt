// What a load reads off the geometry mode word, by the flags of a family.
ghost use Rattle.std.specs.Prelude.{◌≡◌};
ghost use Rattle.decide.specs.Family.{lit, foggy, texgen_mode};

use crate::family::Family;

// A name for each flag that a load asks for: the definitions have the same two.
// Lit, by the word.
pub fn is_lit(f: Family, geometry: u32) -> bool
    ensures { result ≡ lit f geometry }
{
    crate::judge::has_flag(f.lighting, geometry)
}

// Fogged, by the word.
pub fn is_foggy(f: Family, geometry: u32) -> bool
    ensures { result ≡ foggy f geometry }
{
    crate::judge::has_flag(f.fog, geometry)
}

// 0 none, 1 texgen, 2 linear texgen, as a row's texgen word has it; only where lit.
#[tactic(auto, unfolding(crate::specs::Family::texgen_mode, numbers::specs::Choice::pick))]
pub fn texgen_mode(f: Family, geometry: u32) -> u32
    ensures { result ≡ texgen_mode f geometry }
{
    let on = is_lit(f, geometry) & crate::judge::has_flag(f.texgen, geometry);
    if !on {
        return 0;
    }
    if crate::judge::has_flag(f.linear, geometry) {
        2
    } else {
        1
    }
}
