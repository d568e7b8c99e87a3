// Load, clip codes and depths.
ghost use Rattle.std.specs.Prelude.{◌≡◌, [], ◌+◌, ◌*◌, ◌≤◌, length};
ghost use Rattle.areas.specs.Area.{entries};
ghost use Rattle.areas.specs.Widths.{most, matrix_width, scale_width, fog_width};
ghost use Rattle.matrix.specs.Math.{rows, laid, times};
ghost use Rattle.decide.specs.Family.{family_of};
ghost use Rattle.decide.specs.Steps.{first_short, Deep};
ghost use Rattle.stage.specs.Plan.{outcome, pick};
ghost use Rattle.stage.specs.With.{folded_lights, folded_lookat};
ghost use Rattle.stage.specs.Load.{settled, shared_by, load_edits, load_areas, load_means};
ghost use Rattle.stage.specs.Steps.{Ranged, TablesAre, rooms_of, six_lent, more_by, no_more, early_answer, late_answer, Prepares};

use crate::{Answer, Answered, Counts, Lights, Lookat, State};
use areas::widths::{FOG_WIDTH, LIGHT_WIDTH, LOOKAT_WIDTH, MATRIX_WIDTH, SCALE_WIDTH};
use decide::judge::Fill;
use vertex::Shared;

// What a load settles before any row: the combined matrix in force and whether it is appended; the texture scales and
// whether they are; the model top, whether lit, and whether lights are folded with it; the texgen mode and whether the
// lookat axes are; whether there is fog, the place of its pair, and whether it is appended.
// Values and marks, no Option: matrix, top and the fog pair's place are read whether they are appended or not, and the
// marks alone by `more_by` and `shared_by`.
#[derive(Clone, Copy)]
pub struct Settled {
    pub combined: [f32; 16],
    pub newmatrix: bool,
    pub scales: [f32; 4],
    pub newscale: bool,
    pub model: [f32; 16],
    pub lit: bool,
    pub newlights: bool,
    pub texgen: u32,
    pub newlookat: bool,
    pub foggy: bool,
    pub fogat: u32,
    pub newfog: bool,
}

// How many entries are to be appended to each table of a load.
#[derive(Clone, Copy)]
pub struct More {
    pub matrices: u32,
    pub scales: u32,
    pub lights: u32,
    pub lookats: u32,
    pub fogs: u32,
    pub rows: u32,
}

// How many entries each table of a load has room for.
#[derive(Clone, Copy)]
pub struct Rooms {
    pub matrices: usize,
    pub scales: usize,
    pub lights: usize,
    pub lookats: usize,
    pub fogs: usize,
    pub rows: usize,
}

// What a load has ready before its rows: what it tells of the matrix, what the rows share, the counts, and the parts of the state that it sets.
#[derive(Clone, Copy)]
pub struct Prepared {
    pub notice: u32,
    pub shared: Shared,
    pub counts: Counts,
    pub combined: [f32; 16],
    pub lights: Lights,
    pub lookat: Lookat,
}

// The rooms of the lent areas, by their lengths. A row lies in two of them, and has the lesser room.
#[tactic(auto, unfolding(crate::specs::Steps::rooms_of))]
fn rooms_of(
    matrices: usize,
    scales: usize,
    lights: usize,
    lookats: usize,
    fogs: usize,
    floats: usize,
    words: usize,
) -> Rooms
    ensures { result ≡ rooms_of matrices scales lights lookats fogs floats words }
{
    Rooms {
        matrices: areas::room_of(MATRIX_WIDTH, matrices),
        scales: areas::room_of(SCALE_WIDTH, scales),
        lights: areas::room_of(LIGHT_WIDTH, lights),
        lookats: areas::room_of(LOOKAT_WIDTH, lookats),
        fogs: areas::room_of(FOG_WIDTH, fogs),
        rows: change::judge::row_room(floats, words),
    }
}

// Nothing appended: with this, the tables are judged by what is in use already, which is refusal 8.
fn no_more() -> More
    ensures { result ≡ no_more }
{
    More {
        matrices: 0,
        scales: 0,
        lights: 0,
        lookats: 0,
        fogs: 0,
        rows: 0,
    }
}

// A table as its judge sees it.
fn fill(number: u32, used: u32, more: u32, room: usize) -> Fill
    ensures { result ≡ record { number = number; used = used; more = more; room = room } }
{
    Fill {
        number,
        used,
        more,
        room,
    }
}

// The lowest table that has less room than it is to hold.
fn short_table(c: Counts, m: More, r: Rooms) -> Option<u32>
    ensures { result ≡ first_short (six_lent c m r) }
{
    decide::judge::first_short(&[
        fill(1, c.matrices, m.matrices, r.matrices),
        fill(3, c.scales, m.scales, r.scales),
        fill(4, c.lights, m.lights, r.lights),
        fill(5, c.lookats, m.lookats, r.lookats),
        fill(6, c.fogs, m.fogs, r.fogs),
        fill(7, c.rows, m.rows, r.rows),
    ])
}

// The lights, folded with the model top m as entry n where that is due.
fn lights_then(lights: Lights, due: bool, m: [f32; 16], n: u32) -> Lights
    ensures { result ≡ pick due (folded_lights lights m n) lights }
{
    if !due {
        return lights;
    }
    let mut l = lights;
    l.changed = false;
    l.folded = true;
    l.top = m;
    l.first = n;
    l
}

// The lookat axes likewise: the same four lines, but of another record of the state, which has its place under another name.
fn lookat_then(lookat: Lookat, due: bool, m: [f32; 16], n: u32) -> Lookat
    ensures { result ≡ pick due (folded_lookat lookat m n) lookat }
{
    if !due {
        return lookat;
    }
    let mut l = lookat;
    l.changed = false;
    l.folded = true;
    l.top = m;
    l.place = n;
    l
}

// The combined matrix in force: an undefined one is recomputed. The mark goes beside the matrix, as in the state.
fn combined_now(
    defined: bool,
    combined: [f32; 16],
    top: [[f32; 4]; 4],
    projection: [f32; 16],
) -> [f32; 16]
    ensures { result ≡ pick defined combined (laid (times top (rows projection 0))) }
{
    if defined {
        combined
    } else {
        decide::stack::product_of(top, projection)
    }
}

impl State {
    // The decisions of a load, each once. Asks for what has been judged by then.
    fn settled_by(
        self,
        stack: &[f32; 512],
        matrices: &[f32],
        scales: &[f32],
        fogs: &[i16],
    ) -> Settled
        requires { Deep self.depth × (stack.now ≡ self.stack) }
        ensures { result ≡ settled (family_of self.microcode) self (entries matrix_width self.counts.matrices matrices.now) (entries scale_width self.counts.scales scales.now) (entries fog_width self.counts.fogs fogs.now) }
    {
        let family = decide::family::family_of(self.microcode);
        let top = decide::stack::top_at(stack, self.depth);
        let model = matrix::math::to_flat(top);
        let old = self.combined;
        let p = self.projection;
        let combined = combined_now(self.defined, old, top, p);
        let entry = fold::scales::scales_of(self.texture.sc, self.texture.tc);
        let lit = decide::geometry::is_lit(family, self.geometry);
        let texgen = decide::geometry::texgen_mode(family, self.geometry);
        let foggy = decide::geometry::is_foggy(family, self.geometry);
        let place = fold::fog::fog_place(fogs, self.counts.fogs, self.fogmul, self.fogoff);
        let matrix = !self.defined
            & !decide::append::last_is(matrices, MATRIX_WIDTH, self.counts.matrices, &combined);
        let scale = !fold::scales::scale_is(scales, self.counts.scales, entry);
        let ltop = self.lights.top;
        let light = lit
            & fold::decision::folds(self.lights.folded, self.lights.changed, ltop, model);
        let otop = self.lookat.top;
        let look = (texgen != 0)
            & fold::decision::folds(self.lookat.folded, self.lookat.changed, otop, model);
        let fog = foggy & !(place < self.counts.fogs);
        Settled {
            combined,
            newmatrix: matrix,
            scales: entry,
            newscale: scale,
            model,
            lit,
            newlights: light,
            texgen,
            newlookat: look,
            foggy,
            fogat: place,
            newfog: fog,
        }
    }

    // What every row of the load shares. Asks for counts in their ranges.
    #[tactic(auto, unfolding(crate::specs::Load::shared_by, numbers::specs::Choice::pick))]
    fn shared_by(self, d: Settled) -> Shared
        requires { Ranged self d }
        ensures { result ≡ shared_by d self }
    {
        let v = self.viewport;
        let n1 = self.counts.matrices;
        let n3 = self.counts.scales;
        let matrices = if d.newmatrix { n1 + 1 } else { n1 };
        let scales = if d.newscale { n3 + 1 } else { n3 };
        let first = if d.newlights {
            self.counts.lights
        } else {
            self.lights.first
        };
        let place = if d.newlookat {
            self.counts.lookats
        } else {
            self.lookat.place
        };
        Shared {
            matrix: matrices.saturating_sub(1),
            viewport: self.counts.viewports.saturating_sub(1),
            scale: scales.saturating_sub(1),
            light: if d.lit { first } else { 0 },
            lights: if d.lit { self.lights.number + 1 } else { 0 },
            texgen: d.texgen,
            fog: if d.foggy { d.fogat + 1 } else { 0 },
            lookat: if d.texgen == 0 { 0 } else { place },
            zscale: v[2],
            ztranslation: v[5],
        }
    }

    // The tables before the rows written: the counts then, of the load's rows too. Asks for counts and a light number in
    // their ranges. The areas are handed on one by one, as `load` is lent them.
    fn tables_written(
        self,
        d: Settled,
        count: u32,
        matrices: &mut [f32],
        scales: &mut [f32],
        lights: &mut [f32],
        lookats: &mut [f32],
        fogs: &mut [i16],
    ) -> Counts
        requires { Ranged self d × (self.counts.rows + count ≤ most) }
        ensures { TablesAre d self count (load_edits d self []) result matrices.old scales.old lights.old lookats.old fogs.old matrices.new scales.new lights.new lookats.new fogs.new }
    {
        let mut c = self.counts;
        c.rows = c.rows + count;
        let combined = d.combined;
        let entry = d.scales;
        let model = d.model;
        let m = matrix::math::from_flat(model);
        let directions = self.lights.directions;
        let colours = self.lights.colours;
        let ambient = self.lights.ambient;
        let axes = self.lookat.axes;
        let n1 = decide::append::put_if(d.newmatrix, matrices, MATRIX_WIDTH, c.matrices, &combined);
        let n3 = decide::append::put_if(d.newscale, scales, SCALE_WIDTH, c.scales, &entry);
        let n4 = fold::settle::lights_if(
            d.newlights,
            lights,
            c.lights,
            m,
            directions,
            colours,
            ambient,
            self.lights.number,
        );
        let n5 = fold::settle::lookat_if(d.newlookat, lookats, c.lookats, m, axes);
        let pair = [self.fogmul, self.fogoff];
        let n6 = decide::append::put_if(d.newfog, fogs, FOG_WIDTH, c.fogs, &pair);
        c.matrices = n1;
        c.scales = n3;
        c.lights = n4;
        c.lookats = n5;
        c.fogs = n6;
        c
    }

    // How many entries the load appends to each table. Asks for a light number in its range.
    #[tactic(auto, unfolding(crate::specs::Steps::more_by, numbers::specs::Choice::pick))]
    fn more_by(self, d: Settled, count: u32) -> More
        requires { self.lights.number ≤ 7 }
        ensures { result ≡ more_by d self count }
    {
        More {
            matrices: u32::from(d.newmatrix),
            scales: u32::from(d.newscale),
            lights: if d.newlights {
                self.lights.number + 1
            } else {
                0
            },
            lookats: u32::from(d.newlookat),
            fogs: u32::from(d.newfog),
            rows: count,
        }
    }

    // The refusal of a load, where one is due before anything is settled.
    fn early(
        self,
        first: u32,
        count: u32,
        len: usize,
        at: usize,
        rooms: Rooms,
    ) -> Result<(), Answer>
        ensures { result ≡ early_answer self first count len at rooms }
    {
        if !self.sound() {
            return Err(Answer::BadState);
        }
        if !decide::judge::slots_there(256, first, count) {
            return Err(Answer::BadLoad(count, first));
        }
        let need = 16 * count;
        if !decide::judge::reaches(len, at, need as usize) {
            return Err(Answer::ShortData(need));
        }
        match short_table(self.counts, no_more(), rooms) {
            Some(short) => Err(Answer::ShortArea(short)),
            None => Ok(()),
        }
    }

    // What is due once all is settled: what is told of the matrix, or a refusal by the first table that is full. Asks for a
    // light number in its range.
    #[tactic(auto, unfolding(crate::specs::Steps::late_answer, numbers::specs::Choice::pick))]
    fn late(self, d: Settled, count: u32, rooms: Rooms) -> Result<u32, Answer>
        requires { self.lights.number ≤ 7 }
        ensures { result ≡ late_answer d self count rooms }
    {
        match short_table(self.counts, self.more_by(d, count), rooms) {
            Some(full) => Err(Answer::NoRoom(full)),
            None => Ok(u32::from(!self.defined)),
        }
    }

    // All that a load does before its rows: refused, or the tables written. `len`, `floats` and `words` are the lengths of its data and of the
    // areas that it does not write yet.
    fn settle(
        self,
        first: u32,
        count: u32,
        len: usize,
        at: usize,
        floats: usize,
        words: usize,
        matrices: &mut [f32],
        scales: &mut [f32],
        lights: &mut [f32],
        lookats: &mut [f32],
        fogs: &mut [i16],
    ) -> Result<Prepared, Answer>
        ensures { Prepares self first count len at floats words matrices.old scales.old lights.old lookats.old fogs.old matrices.new scales.new lights.new lookats.new fogs.new result }
    {
        let rooms = rooms_of(
            matrices.len(),
            scales.len(),
            lights.len(),
            lookats.len(),
            fogs.len(),
            floats,
            words,
        );
        self.early(first, count, len, at, rooms)?;
        let stack = self.stack;
        let d = self.settled_by(&stack, matrices, scales, fogs);
        let notice = self.late(d, count, rooms)?;
        let shared = self.shared_by(d);
        let counts = self.tables_written(d, count, matrices, scales, lights, lookats, fogs);
        let combined = d.combined;
        let model = d.model;
        let l = lights_then(self.lights, d.newlights, model, self.counts.lights);
        let o = lookat_then(self.lookat, d.newlookat, model, self.counts.lookats);
        Ok(Prepared {
            notice,
            shared,
            counts,
            combined,
            lights: l,
            lookat: o,
        })
    }

    // Load (11): `count` vertices of 16 bytes into the slots from `first` on. Nothing is written before all is judged. Long, because the
    // columns go out and back one by one, which costs no copy of the state.
    pub fn load(
        mut self,
        first: u32,
        count: u32,
        data: &[u8],
        at: usize,
        matrices: &mut [f32],
        scales: &mut [f32],
        lights: &mut [f32],
        lookats: &mut [f32],
        fogs: &mut [i16],
        floats: &mut [f32],
        words: &mut [u32],
    ) -> Answered
        ensures { outcome result (load_areas matrices.new scales.new lights.new lookats.new fogs.new floats.new words.new) ≡ load_means self first count «data».now at (load_areas matrices.old scales.old lights.old lookats.old fogs.old floats.old words.old) }
    {
        let mut row = self.row;
        let mut ever = self.ever;
        let mut loaded = self.loaded;
        let mut drawn = self.drawn;
        let mut coded = self.coded;
        let mut code = self.code;
        let mut deep = self.deep;
        let mut z = self.z;
        let prepared = self.settle(
            first,
            count,
            data.len(),
            at,
            floats.len(),
            words.len(),
            matrices,
            scales,
            lights,
            lookats,
            fogs,
        );
        let answer = match prepared {
            Err(refusal) => refusal,
            Ok(p) => {
                let combined = p.combined;
                let m = matrix::math::from_flat(combined);
                let n = self.counts.rows as usize;
                let k = first as usize;
                let c = count as usize;
                vertex::fill(
                    floats,
                    words,
                    &mut row,
                    &mut ever,
                    &mut loaded,
                    &mut drawn,
                    &mut coded,
                    &mut code,
                    &mut deep,
                    &mut z,
                    k,
                    n,
                    c,
                    m,
                    p.shared,
                    data,
                    at,
                );
                self.combined = combined;
                self.lights = p.lights;
                self.lookat = p.lookat;
                self.counts = p.counts;
                Answer::Told(p.notice)
            }
        };
        self.row = row;
        self.ever = ever;
        self.loaded = loaded;
        self.drawn = drawn;
        self.coded = coded;
        self.code = code;
        self.deep = deep;
        self.z = z;
        Answered {
            state: self,
            answer,
        }
    }
}
