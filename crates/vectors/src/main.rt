// Runs a script of test vectors from standard input over `numbers` and `matrix`, and writes the answer to each in a line.
// The script and the lines that must come out are made by make.py, which calculates with exact fractions.
#![tactic(auto)]

ghost use Rattle.std.specs.Prelude.{◌<◌, ◌≤◌, length, IfOk};

mod apply;
mod script;
mod show;

use script::Function;
use std::io;

// A script has fewer bytes than this.
const ROOM: usize = 262144;

// Runs the record at the place `at` and answers where the next one starts: at the end, which ends the loop, where this one cannot be run.
fn step(out: &impl Print, s: &[u8], at: usize) -> io::Result<usize>
    requires { at < length s.now }
    ensures { IfOk result (λ next. (at < next) × (next ≤ length s.now)) }
{
    let op = s[at];
    let Ok(function) = Function::try_from(op) else {
        show::unknown(out, op, at)?;
        return Ok(s.len());
    };
    let size = 4 * function.words();
    if size >= s.len() - at {
        show::cut_short(out, at)?;
        return Ok(s.len());
    }
    apply::run(out, function, &s[at + 1..at + 1 + size])?;
    Ok(at + 1 + size)
}

// Runs the records one after the other: each says where the next one stands.
fn run(out: &impl Print, s: &[u8]) -> io::Result<()> {
    let mut at = 0;
    while at < s.len() {
        at = step(out, s, at)?;
    }
    Ok(())
}

fn main(rt: HostRuntime) -> io::Result<()> {
    let mut bytes = [0u8; ROOM];
    let n = input::read_full(&mut rt.stdin(), &mut bytes)?;
    if n == ROOM {
        return show::too_long(&rt);
    }
    run(&rt, &bytes[..n])
}
