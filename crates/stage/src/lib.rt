// The geometry stage: its state, its answers and its commands, a file for each group of commands. docs/REFERENCE.md has the rules in
// words; a number in brackets behind a command's name is the section.
#![tactic(auto)]

pub mod draw;
pub mod load;
pub mod matrices;
pub mod modify;
pub mod settings;

// How many entries of each table are in use, tables 1 to 9.
#[derive(Clone, Copy, Default)]
pub struct Counts {
    pub matrices: u32,
    pub viewports: u32,
    pub scales: u32,
    pub lights: u32,
    pub lookats: u32,
    pub fogs: u32,
    pub rows: u32,
    pub indices: u32,
    pub runs: u32,
}

// What the texture command stores, as it was given.
#[derive(Clone, Copy, Default)]
pub struct Texture {
    pub tile: u8,
    pub level: u8,
    pub on: bool,
    pub sc: u16,
    pub tc: u16,
}

// The lights: eight slots, direction and colour apart, and the ambient colour. `number` are in use. `folded` says that
// some were folded since opening: then `top` is the model matrix that it was done with, `first` their place in table 4.
#[derive(Clone, Copy)]
pub struct Lights {
    pub number: u32,
    pub directions: [f32; 24],
    pub colours: [f32; 24],
    pub ambient: [f32; 3],
    pub changed: bool,
    pub folded: bool,
    pub top: [f32; 16],
    pub first: u32,
}

// The lookat axes S and T; the rest as for the lights, `place` in table 5.
#[derive(Clone, Copy)]
pub struct Lookat {
    pub axes: [f32; 6],
    pub changed: bool,
    pub folded: bool,
    pub top: [f32; 16],
    pub place: u32,
}

// All that the commands keep between them. A value under a cleared mark is 0, so that a state is determined. In this
// order a command takes out the columns that it writes, and where the compiler splits the state the rest costs no copy (docs/SPEED.md).
// Columns, and a value with a mark beside it where there may be none, here and above: docs/REFERENCE.md 2.1 and 19 fix these fields.
#[derive(Clone, Copy)]
pub struct State {
    // The model stack: `depth` matrices of sixteen numbers in use, the last of them the top.
    pub stack: [f32; 512],
    pub opened: bool,
    pub depth: u32,
    // 0 is F3dex2, 1 is F3dex2NoN.
    pub microcode: u8,
    pub fogmul: i16,
    pub fogoff: i16,
    // Whether the combined matrix is defined.
    pub defined: bool,
    pub geometry: u32,
    pub texture: Texture,
    pub lights: Lights,
    pub lookat: Lookat,
    pub viewport: [f32; 6],
    pub projection: [f32; 16],
    pub combined: [f32; 16],
    // The slots: whether each was loaded since opening, is loaded, has a clip code, its clip code, and whether it has a
    // screen z; and below, whether it was drawn since its row was made, its row, and its screen z.
    pub ever: [bool; 256],
    pub loaded: [bool; 256],
    pub coded: [bool; 256],
    pub code: [u8; 256],
    pub deep: [bool; 256],
    pub counts: Counts,
    pub drawn: [bool; 256],
    pub row: [u32; 256],
    pub z: [f64; 256],
    // The place of the unit scale entry plus 1, or 0 where there is none yet.
    pub unit: u32,
}

// What a command answers (3). No Result: it is one enum beside the state, by the rules (19). `Done`, `Told` and the explainer's two
// are number 0; the refusals stand in the order of their numbers, 1 to 10.
#[derive(Clone, Copy)]
pub enum Answer {
    Done,
    // The notice of a load, 1 for yes and 0 for no, or a count.
    Told(u32),
    // Culled: every slot lies outside this side plane, 0 to 3, the lowest such.
    AllOutside(u32),
    // Not culled: for each side plane, 0 to 3, the first slot that is not outside it.
    FirstInside(u32, u32, u32, u32),
    BadLoad(u32, u32),
    BadCull(u32, u32),
    NotLoaded(u32),
    NoCode(u32),
    BadModify(u32, u32),
    NeverLoaded(u32),
    ShortData(u32),
    ShortArea(u32),
    NoRoom(u32),
    BadState,
}

// What a command hands back. Each builds it itself: a function that took the state and handed it back would copy it.
#[derive(Clone, Copy)]
pub struct Answered {
    pub state: State,
    pub answer: Answer,
}
