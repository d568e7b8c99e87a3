// What a trace may ask of this program at most, and the lengths of the ten areas.

// A script has at most this many bytes, its header among them.
pub const SCRIPT: usize = 262144;

// The header GST1: four letters and ten lengths.
pub const FIRST_HEADER: usize = 44;

// The header GST2: four letters, the requests and thirteen lengths.
pub const SECOND_HEADER: usize = 60;

// The areas have at most these many numbers.
pub const MATRICES: usize = 8192;

pub const VIEWPORTS: usize = 3072;

pub const SCALES: usize = 4096;

pub const LIGHTS: usize = 24576;

pub const LOOKATS: usize = 6144;

pub const FOGS: usize = 1024;

pub const FLOATS: usize = 36864;

pub const WORDS: usize = 45056;

pub const INDICES: usize = 12288;

pub const RUNS: usize = 16384;

// A length, in numbers, for each area: tables 1 to 6, table 7's f32 and its u32, tables 8 and 9. Fields, no array: each length and bound
// stands beside the area of its name.
#[derive(Clone, Copy)]
pub struct Lengths {
    pub matrices: usize,
    pub viewports: usize,
    pub scales: usize,
    pub lights: usize,
    pub lookats: usize,
    pub fogs: usize,
    pub floats: usize,
    pub words: usize,
    pub indices: usize,
    pub runs: usize,
}

// The ten areas: tables 1 to 6, table 7's f32 and its u32, tables 8 and 9.
#[derive(Drop)]
pub struct Areas<'a> {
    pub matrices: &'a mut [f32],
    pub viewports: &'a mut [f32],
    pub scales: &'a mut [f32],
    pub lights: &'a mut [f32],
    pub lookats: &'a mut [f32],
    pub fogs: &'a mut [i16],
    pub floats: &'a mut [f32],
    pub words: &'a mut [u32],
    pub indices: &'a mut [u32],
    pub runs: &'a mut [u32],
}
