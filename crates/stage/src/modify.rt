// Modify, and the ink count.
ghost use Rattle.std.specs.Prelude.{◌≡◌, ◌<◌, false, length, get_or};
ghost use Rattle.areas.specs.Area.{room};
ghost use Rattle.areas.specs.Widths.{scale_width};
ghost use Rattle.change.specs.Steps.{row_room};
ghost use Rattle.stage.specs.Plan.{outcome, carry, nothing, row_table, index_area, table_in};
ghost use Rattle.stage.specs.Modify.{modify_means, ink_plan};
ghost use Rattle.stage.specs.Steps.{modify_answer};

use crate::{Answer, Answered, State};
use areas::widths::{INDEX_WIDTH, SCALE_WIDTH};
use change::judge::{Refusal, Slot, Tables};

// The answer that a refusal of the judge stands for: a function, since a `From` could not take the slot and the attribute.
fn answer_of(r: Refusal, slot: u32, attribute: u32) -> Answer
    ensures { result ≡ modify_answer slot attribute r }
{
    match r {
        Refusal::Unknown => Answer::BadModify(slot, attribute),
        Refusal::NoRow => Answer::BadState,
        Refusal::Short(t) => Answer::ShortArea(t),
        Refusal::Full(t) => Answer::NoRoom(t),
    }
}

// The mark of a slot, where there is such a slot. It calls itself so that it is never taken into its caller: then it reads
// the caller's marks where they stand, and else a copy of them is made first.
fn mark_at(marks: &[bool; 256], slot: u32) -> bool
    ensures { slot < 256 → result ≡ get_or marks.now slot false }
{
    let k = (slot % 256) as usize;
    if 256 <= slot {
        let m = mark_at(marks, slot / 256);
        return m & marks[k];
    }
    marks[k]
}

impl State {
    // What the judge of a change looks at of tables 3 and 7, whose areas have so many numbers.
    fn tables37(self, scales: usize, floats: usize, words: usize) -> Tables
        ensures { result ≡ record { scales = self.counts.scales; scaleroom = room scale_width scales; rows = self.counts.rows; rowroom = row_room floats words; unit = self.unit } }
    {
        Tables {
            scales: self.counts.scales,
            scaleroom: areas::room_of(SCALE_WIDTH, scales),
            rows: self.counts.rows,
            rowroom: change::judge::row_room(floats, words),
            unit: self.unit,
        }
    }

    // Modify (12): attributes 0x10, 0x14, 0x18 and 0x1C. All is judged before anything is written.
    pub fn modify_vertex(
        mut self,
        slot: u32,
        attribute: u32,
        value: u32,
        scales: &mut [f32],
        floats: &mut [f32],
        words: &mut [u32],
    ) -> Answered
        ensures { outcome result (scales.new, floats.new, words.new) ≡ modify_means self slot attribute value (scales.old, floats.old, words.old) }
    {
        let loaded = self.loaded;
        let there = mark_at(&loaded, slot);
        let deep = self.deep;
        let deeply = mark_at(&deep, slot);
        let mut drawn = self.drawn;
        let mut row = self.row;
        let mut z = self.z;
        let mut answer = Answer::BadState;
        if self.sound() {
            let k = (slot % 256) as usize;
            // A slot that there is not is refused as one that is not loaded.
            let s = Slot {
                loaded: there & (slot < 256),
                drawn: drawn[k],
                row: row[k],
            };
            let t = self.tables37(scales.len(), floats.len(), words.len());
            let asked = change::decode(attribute, value);
            answer = match change::remake::remake(asked, s, t, scales, floats, words) {
                Err(r) => answer_of(r, slot, attribute),
                Ok((c, m)) => {
                    row[k] = m.row;
                    drawn[k] = false;
                    z[k] = change::depth_after(c, deeply, z[k]);
                    self.unit = m.unit;
                    self.counts.scales = m.scales;
                    self.counts.rows = m.rows;
                    Answer::Done
                }
            };
        }
        self.drawn = drawn;
        self.row = row;
        self.z = z;
        Answered {
            state: self,
            answer,
        }
    }

    // What the ink count answers; the state stays.
    fn inked(self, colour: u32, floats: &[f32], words: &[u32], indices: &[u32]) -> Answer
        ensures { outcome (record { state = self; answer = result }) tt ≡ carry nothing (ink_plan self (row_table self.counts.rows floats.now words.now) (table_in index_area self.counts indices.now) colour) self tt }
    {
        if !self.sound() {
            return Answer::BadState;
        }
        let rows = self.counts.rows;
        let used = self.counts.indices;
        if !decide::judge::holds(rows, 0, change::judge::row_room(floats.len(), words.len())) {
            return Answer::ShortArea(7);
        }
        if !decide::judge::holds(used, 0, areas::room_of(INDEX_WIDTH, indices.len())) {
            return Answer::ShortArea(8);
        }
        Answer::Told(ink::count_ink(words, rows, indices, used, colour))
    }

    // Ink count (15): how many indices in use are of rows in use that are unlit and have the colour word, its bytes as the row has
    // them: those of modify's value the other way round. A lit row's colour word is a packed normal, and no ink.
    pub fn ink_count(
        mut self,
        colour: u32,
        floats: &[f32],
        words: &[u32],
        indices: &[u32],
    ) -> Answered
        ensures { outcome result tt ≡ carry nothing (ink_plan self (row_table self.counts.rows floats.now words.now) (table_in index_area self.counts indices.now) colour) self tt }
    {
        let answer = self.inked(colour, floats, words, indices);
        Answered {
            state: self,
            answer,
        }
    }
}
