// What a family of microcodes sets apart: the flag values that the Rust keeps in GbiConstants, each a power of two, and
// whether a load prepares the combined matrix, that is, recomputes an undefined one and gives notice.
ghost use Rattle.std.specs.Prelude.{◌≡◌};
ghost use Rattle.decide.specs.Family.{family_of};

#[derive(Clone, Copy)]
pub struct Family {
    pub push: u32,
    pub load: u32,
    pub projection: u32,
    pub lighting: u32,
    pub fog: u32,
    pub texgen: u32,
    pub linear: u32,
    pub front: u32,
    pub back: u32,
    pub prepares: bool,
}

// The family of the microcode of that number: a number is what the state has of it.
pub fn family_of(microcode: u8) -> Family
    ensures { result ≡ family_of microcode }
{
    Family {
        push: 1,
        load: 2,
        projection: 4,
        lighting: 0x20000,
        fog: 0x10000,
        texgen: 0x40000,
        linear: 0x80000,
        front: 0x200,
        back: 0x400,
        prepares: true,
    }
}
