// The cull test, its explainer, the depth test and draw.
ghost use Rattle.std.specs.Prelude.{◌≡◌, [], ◌∷◌};
ghost use Rattle.reason.specs.Reason.{told};
ghost use Rattle.stage.specs.Answers.{number, values};
ghost use Rattle.stage.specs.Plan.{outcome, carry, nothing, pick};
ghost use Rattle.stage.specs.Sound.{limit};
ghost use Rattle.stage.specs.declared.Answer.TheVariants.{NotLoaded, NoCode};
ghost use Rattle.stage.specs.Draw.{cull_plan, explain_plan, depth_plan, draw_means};
ghost use Rattle.stage.specs.Steps.{draw_answer, corners_at};

use crate::{Answer, Answered, State};
use areas::widths::RUN_WIDTH;
use reason::Reason;
use triangle::slot::Corner;
use triangle::verdict::{Refusal, Tables};
use triangle::{run, slot, verdict};

// The refusal of a slot that is not loaded, or has no clip code.
fn uncoded(loaded: bool, slot: u32) -> Answer
    ensures { result ≡ pick loaded (NoCode slot) (NotLoaded slot) }
{
    if loaded {
        Answer::NoCode(slot)
    } else {
        Answer::NotLoaded(slot)
    }
}

// The reason of the cull test's answer, as an answer.
impl From<Reason> for Answer {
    ghost from_gives = { λ r a. (number a ≡ 0) × (values a ≡ told r) };

    fn from(r: Reason) -> Answer {
        match r {
            Reason::AllOutside(plane) => Answer::AllOutside(plane),
            Reason::FirstInside(left, right, bottom, top) => Answer::FirstInside(
                left, right, bottom, top,
            ),
        }
    }
}

// The refusal of a draw, as an answer.
impl From<Refusal> for Answer {
    ghost from_gives = { λ refusal a. a ≡ draw_answer refusal };

    fn from(refusal: Refusal) -> Answer {
        match refusal {
            Refusal::Unsound => Answer::BadState,
            Refusal::Never(slot) => Answer::NeverLoaded(slot),
            Refusal::Short(table) => Answer::ShortArea(table),
            Refusal::Full(table) => Answer::NoRoom(table),
        }
    }
}

// The corners of three slots. Names, no array: refusal 6 names the first of them.
#[derive(Clone, Copy)]
pub struct Corners {
    pub p: Corner,
    pub q: Corner,
    pub s: Corner,
}

// The corners of the slots a, b and c. It calls itself so that it is never taken into its caller: then it reads the
// caller's columns where they stand, and else a copy of them is made first.
fn corners_at(row: &[u32; 256], ever: &[bool; 256], a: u32, b: u32, c: u32) -> Corners
    ensures { result ≡ corners_at 256 row.now ever.now a b c }
{
    let i = (a % 256) as usize;
    if 256 <= a {
        let mut t = corners_at(row, ever, a / 256, b, c);
        t.p = slot::corner_at(256, a, ever[i], row[i]);
        return t;
    }
    let j = (b % 256) as usize;
    let k = (c % 256) as usize;
    Corners {
        p: slot::corner_at(256, a, ever[i], row[i]),
        q: slot::corner_at(256, b, ever[j], row[j]),
        s: slot::corner_at(256, c, ever[k], row[k]),
    }
}

impl State {
    // What the cull test answers; the state stays. An Answer and no Result: the cull test hands it on as it is.
    fn culled(self, first: u32, last: u32) -> Answer
        ensures { outcome (record { state = self; answer = result }) tt ≡ carry nothing (cull_plan (limit self) self first last) self tt }
    {
        if !self.sound() {
            return Answer::BadState;
        }
        if !((first <= last) & (last < 256)) {
            return Answer::BadCull(first, last);
        }
        let loaded = self.loaded;
        let coded = self.coded;
        let code = self.code;
        let mut common: u8 = 0x0f;
        for i in first..=last {
            let k = i as usize;
            if !(loaded[k] & coded[k]) {
                return uncoded(loaded[k], i);
            }
            common &= code[k];
        }
        Answer::Told(u32::from(common != 0))
    }

    // Cull test (13): 1 where the slots first to last all lie outside one of the four side planes, else 0.
    pub fn cull_display_list(mut self, first: u32, last: u32) -> Answered
        ensures { outcome result tt ≡ carry nothing (cull_plan (limit self) self first last) self tt }
    {
        Answered {
            state: self,
            answer: self.culled(first, last),
        }
    }

    // What the explainer answers; the state stays. A refusal is the test's.
    fn explained(self, first: u32, last: u32) -> Answer
        ensures { outcome (record { state = self; answer = result }) tt ≡ carry nothing (explain_plan (limit self) self first last) self tt }
    {
        let test = self.culled(first, last);
        if let Answer::Told(_) = test {
            let code = self.code;
            return Answer::from(reason::reason_of(&code, first, last));
        }
        test
    }

    // Explain cull (13): for yes the lowest side plane that every slot lies outside; for no, for each side plane, the first slot that
    // is not outside it; for a refusal what the cull test gives.
    pub fn explain_cull(mut self, first: u32, last: u32) -> Answered
        ensures { outcome result tt ≡ carry nothing (explain_plan (limit self) self first last) self tt }
    {
        Answered {
            state: self,
            answer: self.explained(first, last),
        }
    }

    // What the depth test answers; the state stays.
    fn near(self, slot: u32, threshold: u32) -> Answer
        ensures { outcome (record { state = self; answer = result }) tt ≡ carry nothing (depth_plan (limit self) self slot threshold) self tt }
    {
        if !self.sound() {
            return Answer::BadState;
        }
        let loaded = self.loaded;
        let deep = self.deep;
        let z = self.z;
        let i = (slot % 256) as usize;
        if !((slot < 256) & loaded[i]) {
            return Answer::NotLoaded(slot);
        }
        if !deep[i] {
            return Answer::NoCode(slot);
        }
        let most = numbers::ratio::wide_by_65536(threshold);
        Answer::Told(u32::from(z[i] <= most))
    }

    // Depth test (13): 1 where the slot's screen z is at most the threshold over 65536, else 0.
    pub fn branch_z(mut self, slot: u32, threshold: u32) -> Answered
        ensures { outcome result tt ≡ carry nothing (depth_plan (limit self) self slot threshold) self tt }
    {
        Answered {
            state: self,
            answer: self.near(slot, threshold),
        }
    }

    // Draw (14): a triangle of three slots, with the caller's material, render mode, fog colour and primitive depth. Where both sides are
    // culled it is done, and nothing is recorded.
    pub fn draw_tri(
        mut self,
        a: u32,
        b: u32,
        c: u32,
        material: u32,
        render_mode: u32,
        fog_colour: u32,
        prim_depth: u32,
        indices: &mut [u32],
        runs: &mut [u32],
    ) -> Answered
        ensures { outcome result (indices.new, runs.new) ≡ draw_means self a b c (material ∷ render_mode ∷ fog_colour ∷ prim_depth ∷ []) (indices.old, runs.old) }
    {
        let row = self.row;
        let ever = self.ever;
        let mut drawn = self.drawn;
        let Corners { p, q, s } = corners_at(&row, &ever, a, b, c);
        let n = self.counts.indices;
        let m = self.counts.runs;
        let t = Tables {
            rows: self.counts.rows,
            indices: n,
            runs: m,
            indexlen: indices.len(),
            runlen: runs.len(),
        };
        let sides = slot::sides_of(decide::family::family_of(self.microcode), self.geometry);
        let asked = [material, render_mode, fog_colour, prim_depth];
        let set = run::settings_of(asked, sides.cull, self.microcode);
        let last = run::last_run(runs, m, set);
        let answer = match verdict::judge(self.sound(), sides.both, p, q, s, t, last) {
            Err(refusal) => Answer::from(refusal),
            Ok(None) => Answer::Done,
            Ok(Some(record)) => {
                drawn[(a % 256) as usize] = true;
                drawn[(b % 256) as usize] = true;
                drawn[(c % 256) as usize] = true;
                let [x, y, z] = record.rows;
                slot::put_corners(indices, n as usize, sides.swap, x, y, z);
                let recorded = m + record.more;
                let at = areas::place(RUN_WIDTH, recorded - 1);
                run::put_run(runs, at, set, record.start, record.count);
                self.counts.indices = n + 3;
                self.counts.runs = recorded;
                Answer::Done
            }
        };
        self.drawn = drawn;
        Answered {
            state: self,
            answer,
        }
    }
}
