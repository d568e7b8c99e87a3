// What a change makes of a row's numbers, of which there are two kinds: f32 and u32.
ghost use Rattle.std.specs.Prelude.{◌≡◌, ℕ, List, length};
ghost use Rattle.areas.specs.Widths.{float_width, word_width};
ghost use Rattle.change.specs.Decoded.{floats_after, words_after};
ghost use Rattle.change.specs.declared.Change.{Change};

use crate::Change;
use areas::widths::{
    COLOUR_WORD, FLAGS_WORD, FLOAT_WIDTH, FOG_WORD, LIGHT_WORD, LIGHTS_WORD, LOOKAT_WORD, S_FLOAT,
    SCALE_WORD, SCREEN_X, SCREEN_Y, SCREEN_Z, T_FLOAT, TEXGEN_WORD, WORD_WIDTH,
};

// A row's numbers of one kind: how many there are, and what they are after a change.
pub(crate) trait RowNumber: Copy {
    ghost WIDTH: { ℕ };

    ghost after: { Change → ℕ → List Self → List Self };

    const WIDTH: u32;

    // The change made in a row; `unit` is the place of the unit scale entry. Asks for a whole row.
    fn change(row: &mut [Self], c: Change, unit: u32)
        requires { length row.old ≡ WIDTH }
        ensures { row.new ≡ after c unit row.old };
}

impl RowNumber for f32 {
    ghost WIDTH = { float_width };

    ghost after = { λ c u l. floats_after c l };

    const WIDTH: u32 = FLOAT_WIDTH;

    #[tactic(auto, unfolding(crate::specs::Decoded::floats_after))]
    fn change(row: &mut [f32], c: Change, unit: u32) {
        match c {
            Change::Colour(_) => {}
            Change::Texture(s, t) => {
                row[S_FLOAT] = s;
                row[T_FLOAT] = t;
            }
            Change::Screen(x, y) => {
                row[SCREEN_X] = x;
                row[SCREEN_Y] = y;
            }
            Change::Depth(z, _) => {
                row[SCREEN_Z] = z;
            }
        }
    }
}

impl RowNumber for u32 {
    ghost WIDTH = { word_width };

    ghost after = { words_after };

    const WIDTH: u32 = WORD_WIDTH;

    #[tactic(auto, unfolding(crate::specs::Decoded::words_after))]
    fn change(row: &mut [u32], c: Change, unit: u32) {
        match c {
            Change::Colour(word) => {
                row[COLOUR_WORD] = word;
                row[LIGHT_WORD] = 0;
                row[LIGHTS_WORD] = 0;
                row[FOG_WORD] = 0;
            }
            Change::Texture(_, _) => {
                row[SCALE_WORD] = unit;
                row[TEXGEN_WORD] = 0;
                row[LOOKAT_WORD] = 0;
            }
            Change::Screen(_, _) => {
                row[FLAGS_WORD] |= 1;
            }
            Change::Depth(_, _) => {
                row[FLAGS_WORD] |= 2;
            }
        }
    }
}
