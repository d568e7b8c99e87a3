// How many numbers an entry of each table has, what a row's and a run's numbers are, and how many entries a table has at
// the most: the numbers of specs/Widths.antt, by the same names.

// The most entries of a table.
pub const MOST: u32 = 1_048_576;

// Numbers an entry, by table, 1 to 9; a row has f32 and u32.
pub const MATRIX_WIDTH: u32 = 16;

pub const VIEWPORT_WIDTH: u32 = 6;

pub const SCALE_WIDTH: u32 = 4;

pub const LIGHT_WIDTH: u32 = 6;

pub const LOOKAT_WIDTH: u32 = 6;

pub const FOG_WIDTH: u32 = 2;

pub const FLOAT_WIDTH: u32 = 9;

pub const WORD_WIDTH: u32 = 10;

pub const INDEX_WIDTH: u32 = 1;

pub const RUN_WIDTH: u32 = 8;

// The u32 of a row, by place.
pub const FLAGS_WORD: usize = 0;

pub const MATRIX_WORD: usize = 1;

pub const VIEWPORT_WORD: usize = 2;

pub const SCALE_WORD: usize = 3;

pub const COLOUR_WORD: usize = 4;

pub const LIGHT_WORD: usize = 5;

pub const LIGHTS_WORD: usize = 6;

pub const TEXGEN_WORD: usize = 7;

pub const FOG_WORD: usize = 8;

pub const LOOKAT_WORD: usize = 9;

// The f32 of a row, by place: the position from 0 on, s and t, the screen numbers.
pub const S_FLOAT: usize = 3;

pub const T_FLOAT: usize = 4;

pub const SCREEN_X: usize = 5;

pub const SCREEN_Y: usize = 6;

pub const SCREEN_Z: usize = 7;

// A run, by place: how many settings it begins with, where its indices start, and how many there are.
pub const SETTINGS_WIDE: usize = 6;

pub const START_FIELD: usize = 6;

pub const COUNT_FIELD: usize = 7;
