// A first program over the stage: `main` is a list of commands, each sent by a small function over what is lent, which says
// the answer and hands the state back. README shows two of them, with what they lean on. A refusal hands it back as it was.
#![tactic(auto)]

use stage::{Answer, Answered, State};
use std::io;

// Matrix flags, bits of the geometry mode, and an attribute of modify, by this program's own names.
const LOAD: u8 = 2;

const KEEP_ALL: u32 = 0xffff_ffff;

const CULL_BACK: u32 = 0x400;

const COLOUR: u32 = 0x10;

// What a command answered: done, a number that it tells, or a refusal by its number and its values.
fn said(out: &impl Print, command: &str, a: Answer) -> io::Result<()> {
    match a {
        Answer::Done => println!(out; "{command}: done"),
        Answer::Told(n) => println!(out; "{command}: told {n}"),
        Answer::AllOutside(plane) => println!(out; "{command}: culled, all outside plane {plane}"),
        Answer::FirstInside(l, r, b, t) => println!(out;
            "{command}: not culled, first inside {l} {r} {b} {t}"
        ),
        Answer::BadLoad(count, first) => println!(out; "{command}: refusal 1, {count} {first}"),
        Answer::BadCull(first, last) => println!(out; "{command}: refusal 2, {first} {last}"),
        Answer::NotLoaded(slot) => println!(out; "{command}: refusal 3, {slot}"),
        Answer::NoCode(slot) => println!(out; "{command}: refusal 4, {slot}"),
        Answer::BadModify(slot, attribute) => println!(out;
            "{command}: refusal 5, {slot} {attribute}"
        ),
        Answer::NeverLoaded(slot) => println!(out; "{command}: refusal 6, {slot}"),
        Answer::ShortData(length) => println!(out; "{command}: refusal 7, {length}"),
        Answer::ShortArea(table) => println!(out; "{command}: refusal 8, {table}"),
        Answer::NoRoom(table) => println!(out; "{command}: refusal 9, {table}"),
        Answer::BadState => println!(out; "{command}: refusal 10"),
    }
}

// Says the answer, and hands the state on.
fn heard(out: &impl Print, command: &str, r: Answered) -> io::Result<State> {
    said(out, command, r.answer)?;
    Ok(r.state)
}

fn opening(
    out: &impl Print,
    matrices: &mut [f32; 64],
    viewports: &mut [f32; 12],
) -> io::Result<State> {
    heard(out, "opening", State::opening(matrices, viewports))
}

fn matrix(
    out: &impl Print,
    s: State,
    flags: u8,
    data: &[u8; 64],
    matrices: &mut [f32; 64],
) -> io::Result<State> {
    heard(out, "matrix", s.matrix(flags, data, 0, matrices))
}

fn viewport(
    out: &impl Print,
    s: State,
    data: &[u8; 16],
    viewports: &mut [f32; 12],
) -> io::Result<State> {
    heard(out, "viewport", s.set_viewport(data, 0, viewports))
}

fn geometry(out: &impl Print, s: State, off: u32, on: u32) -> io::Result<State> {
    heard(out, "geometry mode", s.modify_geometry_mode(off, on))
}

fn load(
    out: &impl Print,
    s: State,
    first: u32,
    count: u32,
    data: &[u8; 48],
    matrices: &mut [f32; 64],
    scales: &mut [f32; 16],
    lights: &mut [f32; 48],
    lookats: &mut [f32; 12],
    fogs: &mut [i16; 4],
    floats: &mut [f32; 90],
    words: &mut [u32; 100],
) -> io::Result<State> {
    let r = s.load(
        first, count, data, 0, matrices, scales, lights, lookats, fogs, floats, words,
    );
    heard(out, "load", r)
}

fn cull_test(out: &impl Print, s: State, first: u32, last: u32) -> io::Result<State> {
    heard(out, "cull test", s.cull_display_list(first, last))
}

fn explain_cull(out: &impl Print, s: State, first: u32, last: u32) -> io::Result<State> {
    heard(out, "explain cull", s.explain_cull(first, last))
}

fn depth_test(out: &impl Print, s: State, slot: u32, threshold: u32) -> io::Result<State> {
    heard(out, "depth test", s.branch_z(slot, threshold))
}

// The caller's four numbers are a material, 7, and nothing else.
fn draw(
    out: &impl Print,
    s: State,
    i: u32,
    j: u32,
    k: u32,
    indices: &mut [u32; 30],
    runs: &mut [u32; 16],
) -> io::Result<State> {
    heard(out, "draw", s.draw_tri(i, j, k, 7, 0, 0, 0, indices, runs))
}

fn modify(
    out: &impl Print,
    s: State,
    slot: u32,
    attribute: u32,
    value: u32,
    scales: &mut [f32; 16],
    floats: &mut [f32; 90],
    words: &mut [u32; 100],
) -> io::Result<State> {
    heard(
        out,
        "modify",
        s.modify_vertex(slot, attribute, value, scales, floats, words),
    )
}

fn ink_count(
    out: &impl Print,
    s: State,
    colour: u32,
    floats: &[f32; 90],
    words: &[u32; 100],
    indices: &[u32; 30],
) -> io::Result<State> {
    heard(
        out,
        "ink count",
        s.ink_count(colour, floats, words, indices),
    )
}

// The colour word of a row: the fifth of its ten numbers.
fn colour_of(words: &[u32; 100], row: u32) -> u32 {
    if row < 10 {
        words[(row * 10 + 4) as usize]
    } else {
        0
    }
}

// The identity: 1 on the diagonal of the whole parts, which are 16 bits each.
fn identity() -> [u8; 64] {
    let mut m = [0u8; 64];
    m[1] = 1;
    m[11] = 1;
    m[21] = 1;
    m[31] = 1;
    m
}

// A viewport of 320 by 240: scale and translation 640/4, 480/4 and 511/1024.
fn screen() -> [u8; 16] {
    [2, 128, 1, 224, 1, 255, 0, 0, 2, 128, 1, 224, 1, 255, 0, 0]
}

// Three vertices of 16 bytes: (0, 0, 1), (1, 0, 0) and (0, 1, 0), all black.
fn corners() -> [u8; 48] {
    let mut v = [0u8; 48];
    v[5] = 1;
    v[17] = 1;
    v[35] = 1;
    v
}

// One list from the first command to the last: cut in two it would be no plainer.
fn main(rt: HostRuntime) -> io::Result<()> {
    // What is lent: a caller decides how much.
    let mut matrices = [0.0f32; 64];
    let mut viewports = [0.0f32; 12];
    let mut scales = [0.0f32; 16];
    let mut lights = [0.0f32; 48];
    let mut lookats = [0.0f32; 12];
    let mut fogs = [0i16; 4];
    let mut floats = [0.0f32; 90];
    let mut words = [0u32; 100];
    let mut indices = [0u32; 30];
    let mut runs = [0u32; 16];
    let mut s = opening(&rt, &mut matrices, &mut viewports)?;
    s = matrix(&rt, s, LOAD, &identity(), &mut matrices)?;
    s = viewport(&rt, s, &screen(), &mut viewports)?;
    s = geometry(&rt, s, KEEP_ALL, CULL_BACK)?;
    s = load(
        &rt,
        s,
        0,
        3,
        &corners(),
        &mut matrices,
        &mut scales,
        &mut lights,
        &mut lookats,
        &mut fogs,
        &mut floats,
        &mut words,
    )?;
    s = cull_test(&rt, s, 0, 2)?;
    // Why: for each of the planes left, right, bottom and top the first slot that is not outside it.
    s = explain_cull(&rt, s, 0, 2)?;
    s = depth_test(&rt, s, 0, 1022 * 65536)?;
    s = draw(&rt, s, 0, 1, 2, &mut indices, &mut runs)?;
    // Slot 1 was drawn, so its row is copied, and the triangle keeps the old one.
    s = modify(
        &rt,
        s,
        1,
        COLOUR,
        0xff8000ff,
        &mut scales,
        &mut floats,
        &mut words,
    )?;
    s = draw(&rt, s, 0, 1, 2, &mut indices, &mut runs)?;
    // The row has the bytes of modify's value the other way round.
    s = ink_count(&rt, s, 0xff0080ff, &floats, &words, &indices)?;
    // Refused: slot 9 was never loaded, and modify has no attribute 17.
    s = draw(&rt, s, 0, 1, 9, &mut indices, &mut runs)?;
    s = modify(&rt, s, 1, 17, 0, &mut scales, &mut floats, &mut words)?;
    println!(rt; "rows in use: {}", s.counts.rows)?;
    println!(rt; "indices in use: {}", s.counts.indices)?;
    println!(rt; "runs in use: {}", s.counts.runs)?;
    println!(rt; "material of the first run: {}", runs[0])?;
    let colour = colour_of(&words, s.row[1]);
    println!(rt; "colour word of slot 1's row: {colour}")
}
