// The vertices of a load: the row of each in table 7, and what its slot gets, made from the vertex and from what the rows of
// a load share. The columns of the slots are lent; no state is here.
#![tactic(auto)]

ghost use Rattle.std.specs.Prelude.{◌≡◌, ◌+◌, ◌*◌, ◌≤◌, length};
ghost use Rattle.areas.specs.Area.{put};
ghost use Rattle.areas.specs.Widths.{float_width, word_width};
ghost use Rattle.layout.specs.Layout.{vertex_at};
ghost use Rattle.vertex.specs.Vertices.{floats_of, words_of, slot_of};
ghost use Rattle.vertex.specs.Steps.{RowsFit, Laid, Marked};

use areas::widths::{
    COLOUR_WORD, FOG_WORD, LIGHT_WORD, LIGHTS_WORD, LOOKAT_WORD, MATRIX_WORD, SCALE_WORD,
    TEXGEN_WORD, VIEWPORT_WORD,
};
use layout::records::Vertex;

// How many numbers a row has in each of its two areas.
pub const FLOATS: usize = areas::widths::FLOAT_WIDTH as usize;

pub const WORDS: usize = areas::widths::WORD_WIDTH as usize;

// What every row of a load shares: the numbers of its table entries, light count and texgen mode, fog as the row has it
// (0, or place + 1), and the viewport's scale and translation for z. The combined matrix is in no row, and goes beside it.
#[derive(Clone, Copy)]
pub struct Shared {
    pub matrix: u32,
    pub viewport: u32,
    pub scale: u32,
    pub light: u32,
    pub lights: u32,
    pub texgen: u32,
    pub fog: u32,
    pub lookat: u32,
    pub zscale: f32,
    pub ztranslation: f32,
}

// What a slot gets: its clip code and its screen z, where there is one.
#[derive(Clone, Copy)]
pub struct Slot {
    pub code: Option<u8>,
    pub z: Option<f64>,
}

// Stores the nine floats of the row of `v` from place `at` on, the screen numbers 0. Asks for their room. Number by number,
// here and below: a row made as an array and copied to its place takes `fill` half as long again.
fn store_floats(floats: &mut [f32], at: usize, v: Vertex)
    requires { at + float_width ≤ length floats.old }
    ensures { floats.new ≡ put floats.old at (floats_of v) }
{
    let [x, y, z] = v.pos;
    let [s, t] = v.st;
    floats[at] = x;
    floats[at + 1] = y;
    floats[at + 2] = z;
    floats[at + 3] = s;
    floats[at + 4] = t;
    floats[at + 5] = 0.0;
    floats[at + 6] = 0.0;
    floats[at + 7] = 0.0;
    floats[at + 8] = 0.0;
}

// Stores the row's ten words likewise: what the load's rows share and the colour word of `v`, the modify flags 0.
fn store_words(words: &mut [u32], at: usize, e: Shared, v: Vertex)
    requires { at + word_width ≤ length words.old }
    ensures { words.new ≡ put words.old at (words_of e v) }
{
    words[at] = 0;
    words[at + MATRIX_WORD] = e.matrix;
    words[at + VIEWPORT_WORD] = e.viewport;
    words[at + SCALE_WORD] = e.scale;
    words[at + COLOUR_WORD] = v.colour;
    words[at + LIGHT_WORD] = e.light;
    words[at + LIGHTS_WORD] = e.lights;
    words[at + TEXGEN_WORD] = e.texgen;
    words[at + FOG_WORD] = e.fog;
    words[at + LOOKAT_WORD] = e.lookat;
}

// What the slot of `v` gets, its position taken through m.
fn slot_of(m: [[f32; 4]; 4], e: Shared, v: Vertex) -> Slot
    ensures { result ≡ slot_of m e v }
{
    let [x, y, z] = v.pos;
    let p = matrix::math::mul_row_vec4([x, y, z, 1.0], m);
    let code = matrix::clip::clip_code(p);
    let depth = matrix::clip::screen_z(p, code.is_some(), e.zscale, e.ztranslation);
    Slot { code, z: depth }
}

// The vertex of 16 bytes from `at` on laid down as row `row`: what its slot gets. Asks for the row's room and for the
// bytes, which are judged once for all rows of a load: a test of each index would be paid at every number.
pub fn lay(
    floats: &mut [f32],
    words: &mut [u32],
    row: usize,
    m: [[f32; 4]; 4],
    e: Shared,
    data: &[u8],
    at: usize,
) -> Slot
    requires { ((row + 1) * float_width ≤ length floats.old) × ((row + 1) * word_width ≤ length words.old) × (at + 16 ≤ length «data».now) }
    ensures { (floats.new ≡ put floats.old (row * float_width) (floats_of (vertex_at «data».now at))) × (words.new ≡ put words.old (row * word_width) (words_of e (vertex_at «data».now at))) × (result ≡ slot_of m e (vertex_at «data».now at)) }
{
    let v = layout::vertex(data, at);
    store_floats(floats, row * FLOATS, v);
    store_words(words, row * WORDS, e, v);
    slot_of(m, e, v)
}

// The rows of a load, `count` of them from row `n` on, and all that the slots from `first` on get. Asks for what is judged once for
// all rows of a load, as `lay` does. One loop: two would be slower where a load is short. It goes by an index, since eight
// columns, two areas and the bytes go on together. The columns are the state's, lent one by one: a struct of them would be
// made and taken apart for this one call. The bytes come as a command has them, with the place where the first vertex lies.
pub fn fill(
    floats: &mut [f32],
    words: &mut [u32],
    row: &mut [u32; 256],
    ever: &mut [bool; 256],
    loaded: &mut [bool; 256],
    drawn: &mut [bool; 256],
    coded: &mut [bool; 256],
    code: &mut [u8; 256],
    deep: &mut [bool; 256],
    z: &mut [f64; 256],
    first: usize,
    n: usize,
    count: usize,
    m: [[f32; 4]; 4],
    e: Shared,
    data: &[u8],
    at: usize,
)
    requires { RowsFit n first count at «data».now floats.old words.old }
    ensures { Laid m e «data».now at first n count floats.old words.old coded.old code.old deep.old z.old floats.new words.new coded.new code.new deep.new z.new × Marked first n count row.old ever.old loaded.old drawn.old row.new ever.new loaded.new drawn.new }
{
    for i in 0..count {
        let s = lay(floats, words, n + i, m, e, data, at + 16 * i);
        let k = first + i;
        row[k] = (n + i) as u32;
        ever[k] = true;
        loaded[k] = true;
        drawn[k] = false;
        coded[k] = s.code.is_some();
        code[k] = s.code.unwrap_or(0);
        deep[k] = s.z.is_some();
        z[k] = s.z.unwrap_or(0.0);
    }
}
