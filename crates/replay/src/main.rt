// Replays a trace from standard input over the stage: a line for each op, and at the end the dump.
#![tactic(auto)]

ghost use Rattle.std.specs.Prelude.{◌≡◌, ◌≤◌, length};
ghost use Rattle.trace.specs.Header.{header_size, lengths_of, Within};
ghost use Rattle.player.specs.Ops.{held, SameSlices};
ghost use Rattle.player.specs.Play.{port_of, played};
ghost use Rattle.player.specs.Replay.{replayed};

use dump::show;
use stage::State;
use std::io;
use trace::rooms::{Areas, Lengths};

// Runs the ops of the script over the areas, with a line for each: the state that is left, and whether all lines were written.
// Once a line is not written there are no more, but the ops are run all the same. It goes by places: each op says where the next
// one stands, and one that is cut ends it.
fn play(
    out: &impl Print,
    err: &impl Print,
    s: &[u8],
    own: Lengths,
    areas: &mut Areas<'_>,
) -> (State, io::Result<()>)
    requires { (header_size s.now ≤ length s.now) × (length s.now ≤ 262144) }
    ensures same { SameSlices areas.new areas.old }
    ensures after { port_of result.0 (held areas.new) ≡ played s.now own (held areas.old) }
{
    let mut lent = own;
    let mut g = player::apply::unopened();
    let mut at = trace::header::size_of(s);
    let mut i = 0;
    let mut told = Ok(());
    while at < s.len() {
        let c = match trace::script::call_at(s, at) {
            Ok(c) => c,
            Err(cut) => {
                told = told.and_then(|()| show::stopped(err, i, at, cut));
                break;
            }
        };
        g = player::apply::step(g.state, c, &s[c.from..c.to], lent, areas);
        lent = trace::act::lent_after(lent, c);
        told = told.and_then(|()| show::answered(out, i, c.op, g.answer, g.state.counts));
        at = c.to;
        i = i + 1;
    }
    (g.state, told)
}

// Dumps what the script s leaves, which its `requires` says; s serves that alone.
fn finish(out: &impl Print, s: &[u8], state: State, areas: &Areas<'_>) -> io::Result<()>
    requires { port_of state (held areas.now) ≡ replayed s.now }
{
    dump::dump::write(
        out,
        state,
        areas.matrices,
        areas.viewports,
        areas.scales,
        areas.lights,
        areas.lookats,
        areas.fogs,
        areas.floats,
        areas.words,
        areas.indices,
        areas.runs,
    )
}

// Makes the areas, each number 7, runs the script over them, and dumps what is left.
fn replay(out: &impl Print, err: &impl Print, s: &[u8], own: Lengths) -> io::Result<()>
    requires { (header_size s.now ≤ length s.now) × ((length s.now ≤ 262144) × (Within own × (own ≡ lengths_of s.now))) }
{
    let mut matrices = [7.0f32; trace::rooms::MATRICES];
    let mut viewports = [7.0f32; trace::rooms::VIEWPORTS];
    let mut scales = [7.0f32; trace::rooms::SCALES];
    let mut lights = [7.0f32; trace::rooms::LIGHTS];
    let mut lookats = [7.0f32; trace::rooms::LOOKATS];
    let mut fogs = [7i16; trace::rooms::FOGS];
    let mut floats = [7.0f32; trace::rooms::FLOATS];
    let mut words = [7u32; trace::rooms::WORDS];
    let mut indices = [7u32; trace::rooms::INDICES];
    let mut runs = [7u32; trace::rooms::RUNS];
    let mut areas = Areas {
        matrices: &mut matrices[..own.matrices],
        viewports: &mut viewports[..own.viewports],
        scales: &mut scales[..own.scales],
        lights: &mut lights[..own.lights],
        lookats: &mut lookats[..own.lookats],
        fogs: &mut fogs[..own.fogs],
        floats: &mut floats[..own.floats],
        words: &mut words[..own.words],
        indices: &mut indices[..own.indices],
        runs: &mut runs[..own.runs],
    };
    let (state, told) = play(out, err, s, own, &mut areas);
    told?;
    finish(out, s, state, &areas)
}

// Judges the header, and replays the script where it can be served.
fn judge(out: &impl Print, err: &impl Print, s: &[u8]) -> io::Result<()> {
    if s.len() > trace::rooms::SCRIPT {
        return show::too_long(err, trace::rooms::SCRIPT);
    }
    if !trace::header::is_trace(s) {
        return show::complain(
            err,
            b"the header begins with neither GST1 nor GST2: this is no trace\n",
        );
    }
    if s.len() < trace::header::size_of(s) {
        return show::complain(err, b"the header is cut short: this is no whole trace\n");
    }
    let own = trace::header::lengths_of(s);
    if !trace::header::served(own) {
        return show::complain(err, b"the header asks for an area over its bound\n");
    }
    replay(out, err, s, own)
}

fn main(rt: HostRuntime) -> io::Result<()> {
    let mut bytes = [0u8; trace::rooms::SCRIPT + 1];
    let n = input::read_full(&mut rt.stdin(), &mut bytes)?;
    judge(&rt, &rt.stderr(), &bytes[..n])
}
