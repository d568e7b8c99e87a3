// The commands of the stage: each op handed to its command, with the parts of the areas that are lent.
ghost use Rattle.std.specs.Prelude.{◌≡◌, false, ◌%◌, eqb};
ghost use Rattle.stage.specs.Opening.{blank};
ghost use Rattle.stage.specs.Plan.{outcome, carry, nothing};
ghost use Rattle.stage.specs.Lights.{texture_plan, microcode_plan};
ghost use Rattle.player.specs.Ops.{microcode_of, acted, act_of, areas_of, held, SameSlices, lend_by, step_by};
ghost use Rattle.numbers.specs.Ratio.{signed};

use crate::act;
use stage::settings::Microcode;
use stage::{Answer, Answered, State};
use trace::ops::Op;
use trace::rooms::{Areas, Lengths};
use trace::script;
use trace::script::{Args, Call};

// The low 16 bits, with their sign.
fn signed(x: u32) -> i16
    ensures { result ≡ signed 16 (x % 65536) }
{
    numbers::signed::signed_half(script::half(x))
}

fn texture(state: State, a: Args) -> Answered
    ensures { outcome result tt ≡ carry nothing (texture_plan state (a.a % 256) (a.b % 256) (eqb (a.c % 2) 1) (a.d % 65536) (a.e % 65536)) state tt }
{
    state.set_texture(
        script::octet(a.a),
        script::octet(a.b),
        a.c % 2 == 1,
        script::half(a.d),
        script::half(a.e),
    )
}

// The microcode of a number's lowest bit. No From: neither type is this crate's.
#[tactic(auto, unfolding(numbers::specs::Choice::pick))]
fn microcode(state: State, number: u32) -> Answered
    ensures { outcome result tt ≡ carry nothing (microcode_plan state (microcode_of number)) state tt }
{
    if number % 2 == 0 {
        state.switch_microcode(Microcode::F3dex2)
    } else {
        state.switch_microcode(Microcode::F3dex2NoN)
    }
}

// The state before any opening: an opening that finds no room hands it back.
pub fn unopened() -> Answered
    ensures { result.state ≡ blank false }
{
    let mut none = [0.0f32; 1];
    let mut nothing = [0.0f32; 1];
    State::opening(&mut none, &mut nothing)
}

// Every op, over what is lent of the areas; what `write` stores is left to `step`. Ten slices here and in `lend`, not `Areas`: of a
// slice cut from a field of a lent struct it is not proved what the field holds once the cut is given back.
fn apply(
    state: State,
    c: Call,
    data: &[u8],
    matrices: &mut [f32],
    viewports: &mut [f32],
    scales: &mut [f32],
    lights: &mut [f32],
    lookats: &mut [f32],
    fogs: &mut [i16],
    floats: &mut [f32],
    words: &mut [u32],
    indices: &mut [u32],
    runs: &mut [u32],
) -> Answered
    ensures { outcome result (areas_of matrices.new viewports.new scales.new lights.new lookats.new fogs.new floats.new words.new indices.new runs.new) ≡ acted (act_of c «data».now) (record { state = state; areas = areas_of matrices.old viewports.old scales.old lights.old lookats.old fogs.old floats.old words.old indices.old runs.old }) }
{
    let Ok(op) = Op::try_from(c.op) else {
        return Answered {
            state,
            answer: Answer::Done,
        };
    };
    let x = c.args;
    match op {
        Op::Open => State::opening(matrices, viewports),
        Op::Matrix => state.matrix(script::octet(x.a), data, 0, matrices),
        Op::Force => state.force_matrix(data, 0, matrices),
        Op::Pop => state.pop_matrix(x.a, matrices),
        Op::Geom => state.modify_geometry_mode(x.a, x.b),
        Op::Viewport => state.set_viewport(data, 0, viewports),
        Op::Texture => texture(state, x),
        Op::Fog => state.set_fog(signed(x.a), signed(x.b)),
        Op::Lightnum => state.set_num_lights(x.a),
        Op::Light => state.set_light(x.a, data, 0),
        Op::Lookat => state.set_lookat(x.a, data, 0),
        Op::Load => state.load(
            x.a, x.b, data, 0, matrices, scales, lights, lookats, fogs, floats, words,
        ),
        Op::Cull => state.cull_display_list(x.a, x.b),
        Op::Depth => state.branch_z(x.a, x.b),
        Op::Modify => state.modify_vertex(x.a, x.b, x.c, scales, floats, words),
        Op::Draw => state.draw_tri(x.a, x.b, x.c, x.d, x.e, x.f, x.g, indices, runs),
        Op::Ucode => microcode(state, x.a),
        Op::Ink => state.ink_count(x.a, floats, words, indices),
        Op::Explain => state.explain_cull(x.a, x.b),
        Op::Poke => Answered {
            state: act::poked(state, x.a, x.b, x.c),
            answer: Answer::Done,
        },
        Op::Lend | Op::Mark | Op::Write => Answered {
            state,
            answer: Answer::Done,
        },
    }
}

// Every op over the first numbers of each area, as many as are lent.
fn lend(
    state: State,
    c: Call,
    data: &[u8],
    lent: Lengths,
    matrices: &mut [f32],
    viewports: &mut [f32],
    scales: &mut [f32],
    lights: &mut [f32],
    lookats: &mut [f32],
    fogs: &mut [i16],
    floats: &mut [f32],
    words: &mut [u32],
    indices: &mut [u32],
    runs: &mut [u32],
) -> Answered
    ensures { outcome result (areas_of matrices.new viewports.new scales.new lights.new lookats.new fogs.new floats.new words.new indices.new runs.new) ≡ lend_by c «data».now lent (record { state = state; areas = areas_of matrices.old viewports.old scales.old lights.old lookats.old fogs.old floats.old words.old indices.old runs.old }) }
{
    let n0 = lent.matrices.min(matrices.len());
    let n1 = lent.viewports.min(viewports.len());
    let n2 = lent.scales.min(scales.len());
    let n3 = lent.lights.min(lights.len());
    let n4 = lent.lookats.min(lookats.len());
    let n5 = lent.fogs.min(fogs.len());
    let n6 = lent.floats.min(floats.len());
    let n7 = lent.words.min(words.len());
    let n8 = lent.indices.min(indices.len());
    let n9 = lent.runs.min(runs.len());
    apply(
        state,
        c,
        data,
        &mut matrices[..n0],
        &mut viewports[..n1],
        &mut scales[..n2],
        &mut lights[..n3],
        &mut lookats[..n4],
        &mut fogs[..n5],
        &mut floats[..n6],
        &mut words[..n7],
        &mut indices[..n8],
        &mut runs[..n9],
    )
}

// The op c with its data, over the areas, of which so much is lent; `write` reaches all of them.
pub fn step(state: State, c: Call, data: &[u8], lent: Lengths, areas: &mut Areas<'_>) -> Answered
    ensures same { SameSlices areas.new areas.old }
    ensures after { outcome result (held areas.new) ≡ step_by c «data».now lent (record { state = state; areas = held areas.old }) }
{
    let r = lend(
        state,
        c,
        data,
        lent,
        areas.matrices,
        areas.viewports,
        areas.scales,
        areas.lights,
        areas.lookats,
        areas.fogs,
        areas.floats,
        areas.words,
        areas.indices,
        areas.runs,
    );
    trace::act::write(c, areas.fogs, areas.words, areas.indices, areas.runs);
    r
}
