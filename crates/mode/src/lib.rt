// The geometry mode word: what a mode word leaves of it, and two neighbouring mode words as one.
#![tactic(auto)]

ghost use Rattle.std.specs.Prelude.{◌≡◌};
ghost use Rattle.mode.specs.Word.{geometry_after, joined};

// The two masks of a geometry mode command: `off` has the bits that are kept, `on` those that are set then.
#[derive(Clone, Copy)]
pub struct ModeWord {
    pub off: u32,
    pub on: u32,
}

// The geometry mode word: (old AND off) OR on.
pub fn geometry_after(off: u32, on: u32, old: u32) -> u32
    ensures { result ≡ geometry_after off on old }
{
    (old & off) | on
}

// The one mode word that leaves the geometry mode word as `first` and then `second` do. A bit that `first` sets stays only if
// `second` keeps it. The marks of the lights are not in the word: docs/REFERENCE.md 7.
pub fn join(first: ModeWord, second: ModeWord) -> ModeWord
    ensures { result ≡ joined first second }
{
    ModeWord {
        off: first.off & second.off,
        on: (first.on & second.off) | second.on,
    }
}
