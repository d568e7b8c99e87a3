// Opening, the matrix stack, the viewport and the geometry mode.
ghost use Rattle.std.specs.Prelude.{◌≡◌, ◌+◌, ◌≤◌, length, false};
ghost use Rattle.decide.specs.Family.{family_of};
ghost use Rattle.stage.specs.Plan.{advance, outcome, carry, nothing, matrix_area, viewport_area, table_in};
ghost use Rattle.numbers.specs.Choice.{all};
ghost use Rattle.stage.specs.With.{with_counts};
ghost use Rattle.stage.specs.Sound.{count_tests, state_sound};
ghost use Rattle.stage.specs.Opening.{blank, opened, opening_edits, opening_plan, areas12};
ghost use Rattle.stage.specs.Matrices.{area1, area2, matrix_plan, force_plan, pop_plan, viewport_entry, viewport_plan, geometry_plan};
ghost use Rattle.stage.specs.Steps.{reads, early_in};

use crate::{Answer, Answered, Counts, Lights, Lookat, State, Texture};
use areas::widths::{MATRIX_WIDTH, MOST, VIEWPORT_WIDTH};

// No light set, and no lookat axis.
const NO_LIGHTS: Lights = Lights {
    number: 0,
    directions: [0.0; 24],
    colours: [0.0; 24],
    ambient: [0.0; 3],
    changed: false,
    folded: false,
    top: [0.0; 16],
    first: 0,
};

const NO_LOOKAT: Lookat = Lookat {
    axes: [0.0; 6],
    changed: false,
    folded: false,
    top: [0.0; 16],
    place: 0,
};

// A state with every other number zero, every other mark cleared and every slot empty.
fn blank_state(mark: bool, used: u32) -> State
    ensures { result ≡ with_counts (blank mark) (record { matrices = used; viewports = used; scales = 0; lights = 0; lookats = 0; fogs = 0; rows = 0; indices = 0; runs = 0 }) }
{
    State {
        opened: mark,
        microcode: 0,
        geometry: 0,
        fogmul: 0,
        fogoff: 0,
        depth: 0,
        stack: [0.0; 512],
        projection: [0.0; 16],
        combined: [0.0; 16],
        defined: false,
        viewport: [0.0; 6],
        texture: Texture::default(),
        lights: NO_LIGHTS,
        lookat: NO_LOOKAT,
        counts: Counts {
            matrices: used,
            viewports: used,
            ..Counts::default()
        },
        unit: 0,
        row: [0; 256],
        ever: [false; 256],
        loaded: [false; 256],
        drawn: [false; 256],
        coded: [false; 256],
        code: [0; 256],
        deep: [false; 256],
        z: [0.0; 256],
    }
}

// The state that opening hands back where there is room.
fn opened_state() -> State
    ensures { result ≡ with_counts opened (advance opening_edits (blank false).counts) }
{
    let one = matrix::math::to_flat(matrix::math::identity());
    let mut stack = [0.0f32; 512];
    areas::put(&mut stack, 0, &one);
    let mut s = blank_state(true, 1);
    s.depth = 1;
    s.stack = stack;
    s.projection = one;
    s.combined = one;
    s
}

// Whether the counts are in their ranges. A line each: a chain over an array of them would name all nine too.
fn sound_counts(c: Counts) -> bool
    ensures { result ≡ all (count_tests c) }
{
    (1 <= c.matrices)
        & (c.matrices <= MOST)
        & (1 <= c.viewports)
        & (c.viewports <= MOST)
        & (c.scales <= MOST)
        & (c.lights <= MOST)
        & (c.lookats <= MOST)
        & (c.fogs <= MOST)
        & (c.rows <= MOST)
        & (c.indices <= MOST)
        & (c.runs <= MOST)
}

// The entry of table 2 that 16 bytes hold. Asks for them, since the data has been judged by then.
fn viewport_at(data: &[u8], at: usize) -> [f32; 6]
    requires { at + 16 ≤ length «data».now }
    ensures { result ≡ viewport_entry «data».now at }
{
    let v = layout::viewport(data, at);
    let scale = v.scale;
    let translation = v.translation;
    [
        scale[0],
        scale[1],
        scale[2],
        translation[0],
        translation[1],
        translation[2],
    ]
}

impl State {
    // Whether the state's own numbers are in their ranges.
    pub fn sound(self) -> bool
        ensures { result ≡ state_sound self }
    {
        self.opened
            & (1 <= self.depth)
            & (self.depth <= 32)
            & (self.lights.number <= 7)
            & sound_counts(self.counts)
    }

    // Opening (4), the first state of a sequence: one identity matrix, a viewport of zeros, nothing else in use.
    pub fn opening(matrices: &mut [f32], viewports: &mut [f32]) -> Answered
        ensures { outcome result (matrices.new, viewports.new) ≡ carry areas12 (opening_plan matrices.old viewports.old) (blank false) (matrices.old, viewports.old) }
    {
        match decide::append::put_first(matrices, viewports) {
            Err(table) => Answered {
                state: blank_state(false, 0),
                answer: Answer::NoRoom(table),
            },
            Ok(()) => Answered {
                state: opened_state(),
                answer: Answer::Done,
            },
        }
    }

    // The refusal of a command that reads `need` bytes, where one is due before anything is made.
    pub(crate) fn reads(self, len: usize, at: usize, need: u32) -> Result<(), Answer>
        ensures { result ≡ reads self len at need }
    {
        if !self.sound() {
            return Err(Answer::BadState);
        }
        if !decide::judge::reaches(len, at, need as usize) {
            return Err(Answer::ShortData(need));
        }
        Ok(())
    }

    // The same of one that is lent a table too, with so many entries in use and such a room.
    fn early_in(
        self,
        len: usize,
        at: usize,
        need: u32,
        table: u32,
        used: u32,
        room: usize,
    ) -> Result<(), Answer>
        ensures { result ≡ early_in self len at need table used room }
    {
        self.reads(len, at, need)?;
        if !decide::judge::holds(used, 0, room) {
            return Err(Answer::ShortArea(table));
        }
        Ok(())
    }

    // Matrix (6): flags push 1, load 2, projection 4, after the exclusive-or with 1 of the command word; 64 bytes. It tells how many of the
    // sixteen entries are not exact, as forced matrix does, appended or not: it is about reading.
    pub fn matrix(mut self, flags: u8, data: &[u8], at: usize, matrices: &mut [f32]) -> Answered
        ensures { outcome result matrices.new ≡ carry area1 (matrix_plan (family_of self.microcode) self (table_in matrix_area self.counts matrices.old) flags «data».now at) self matrices.old }
    {
        let family = decide::family::family_of(self.microcode);
        let n = self.counts.matrices;
        let room = areas::room_of(MATRIX_WIDTH, matrices.len());
        let old = self.stack;
        let mut stack = self.stack;
        let answer = match self.early_in(data.len(), at, 64, 1, n, room) {
            Err(refusal) => refusal,
            Ok(()) => {
                let m = layout::matrix(data, at);
                let inexact = layout::inexact(data, at);
                let f = flags as u32;
                let p = self.projection;
                let t = decide::stack::take(family, f, m, &mut stack, p, self.depth);
                let projection = t.projection;
                let product = t.product;
                match decide::append::append(matrices, MATRIX_WIDTH, n, &product) {
                    None => {
                        stack = old;
                        Answer::NoRoom(1)
                    }
                    Some(used) => {
                        self.depth = t.depth;
                        self.projection = projection;
                        self.combined = product;
                        self.defined = true;
                        self.counts.matrices = used;
                        Answer::Told(inexact)
                    }
                }
            }
        };
        self.stack = stack;
        Answered {
            state: self,
            answer,
        }
    }

    // Forced matrix (6): 64 bytes become the combined matrix; the stack and the projection stay.
    pub fn force_matrix(mut self, data: &[u8], at: usize, matrices: &mut [f32]) -> Answered
        ensures { outcome result matrices.new ≡ carry area1 (force_plan self (table_in matrix_area self.counts matrices.old) «data».now at) self matrices.old }
    {
        let n = self.counts.matrices;
        let room = areas::room_of(MATRIX_WIDTH, matrices.len());
        let answer = match self.early_in(data.len(), at, 64, 1, n, room) {
            Err(refusal) => refusal,
            Ok(()) => {
                let m = matrix::math::to_flat(layout::matrix(data, at));
                let inexact = layout::inexact(data, at);
                match decide::append::append(matrices, MATRIX_WIDTH, n, &m) {
                    None => Answer::NoRoom(1),
                    Some(used) => {
                        self.combined = m;
                        self.defined = true;
                        self.counts.matrices = used;
                        Answer::Told(inexact)
                    }
                }
            }
        };
        Answered {
            state: self,
            answer,
        }
    }

    // Pop (6): any count in one step.
    pub fn pop_matrix(mut self, count: u32, matrices: &mut [f32]) -> Answered
        ensures { outcome result matrices.new ≡ carry area1 (pop_plan self (table_in matrix_area self.counts matrices.old) count) self matrices.old }
    {
        let n = self.counts.matrices;
        let room = areas::room_of(MATRIX_WIDTH, matrices.len());
        let answer = match self.early_in(0, 0, 0, 1, n, room) {
            Err(refusal) => refusal,
            Ok(()) => {
                let d = decide::stack::popped_depth(count, self.depth);
                if d == self.depth {
                    Answer::Done
                } else {
                    let stack = self.stack;
                    let p = self.projection;
                    let product = decide::stack::product_of(decide::stack::top_at(&stack, d), p);
                    match decide::append::append(matrices, MATRIX_WIDTH, n, &product) {
                        None => Answer::NoRoom(1),
                        Some(used) => {
                            self.depth = d;
                            self.combined = product;
                            self.defined = true;
                            self.counts.matrices = used;
                            Answer::Done
                        }
                    }
                }
            }
        };
        Answered {
            state: self,
            answer,
        }
    }

    // Viewport (7): 16 bytes.
    pub fn set_viewport(mut self, data: &[u8], at: usize, viewports: &mut [f32]) -> Answered
        ensures { outcome result viewports.new ≡ carry area2 (viewport_plan self (table_in viewport_area self.counts viewports.old) «data».now at) self viewports.old }
    {
        let n = self.counts.viewports;
        let room = areas::room_of(VIEWPORT_WIDTH, viewports.len());
        let answer = match self.early_in(data.len(), at, 16, 2, n, room) {
            Err(refusal) => refusal,
            Ok(()) => {
                let entry = viewport_at(data, at);
                match decide::append::append(viewports, VIEWPORT_WIDTH, n, &entry) {
                    None => Answer::NoRoom(2),
                    Some(used) => {
                        self.viewport = entry;
                        self.counts.viewports = used;
                        Answer::Done
                    }
                }
            }
        };
        Answered {
            state: self,
            answer,
        }
    }

    // Geometry mode (7): (old AND off) OR on. So `off` is a mask of the bits that are kept.
    pub fn modify_geometry_mode(mut self, off: u32, on: u32) -> Answered
        ensures { outcome result tt ≡ carry nothing (geometry_plan (family_of self.microcode) self off on) self tt }
    {
        let family = decide::family::family_of(self.microcode);
        let mut answer = Answer::BadState;
        if self.sound() {
            let old = self.geometry;
            let new = mode::geometry_after(off, on, old);
            let changed = self.lights.changed | decide::stack::relights(family, old, new);
            self.geometry = new;
            self.lights.changed = changed;
            answer = Answer::Done;
        }
        Answered {
            state: self,
            answer,
        }
    }
}
