// A run of triangles: six settings, where its indices start, and how many there are. Eight numbers at a place of an area.
ghost use Rattle.std.specs.Prelude.{◌≡◌, ◌+◌, ◌≤◌, length};
ghost use Rattle.areas.specs.Area.{part, put};
ghost use Rattle.areas.specs.Widths.{run_width, settings_wide};
ghost use Rattle.triangle.specs.Run.{settings, run_of};
ghost use Rattle.triangle.specs.Steps.{six, seen, last_of};

use areas::widths::{COUNT_FIELD, RUN_WIDTH, START_FIELD};

// Cull and unclipped are 0 or 1, as table 9 has them.
#[derive(Clone, Copy, PartialEq, Eq)]
pub struct Settings {
    pub material: u32,
    pub mode: u32,
    pub fog: u32,
    pub depth: u32,
    pub cull: u32,
    pub unclipped: u32,
}

// What a draw looks at of the last run: its start and count, and whether it has the draw's settings.
#[derive(Clone, Copy)]
pub struct Last {
    pub start: u32,
    pub count: u32,
    pub same: bool,
}

// The settings of a draw: the caller's four numbers, whether a side is culled, and whether the microcode, by the number that the
// state has of it, does not clip.
pub fn settings_of(asked: [u32; 4], cull: bool, microcode: u8) -> Settings
    ensures { six result ≡ settings asked cull microcode }
{
    let [material, mode, fog, depth] = asked;
    Settings {
        material,
        mode,
        fog,
        depth,
        cull: u32::from(cull),
        unclipped: u32::from(microcode == 1),
    }
}

// The settings of the run at a place. Asks for the whole run there, as below.
fn settings_at(runs: &[u32], at: usize) -> Settings
    requires { at + run_width ≤ length runs.now }
    ensures { six result ≡ part runs.now at settings_wide }
{
    Settings {
        material: runs[at],
        mode: runs[at + 1],
        fog: runs[at + 2],
        depth: runs[at + 3],
        cull: runs[at + 4],
        unclipped: runs[at + 5],
    }
}

// The run at a place, as a draw with these settings looks at it. Asks for the whole run there, which its caller has seen.
pub fn run_at(runs: &[u32], at: usize, q: Settings) -> Last
    requires { at + run_width ≤ length runs.now }
    ensures { result ≡ seen runs.now at (six q) }
{
    Last {
        start: runs[at + START_FIELD],
        count: runs[at + COUNT_FIELD],
        same: settings_at(runs, at) == q,
    }
}

// The last of `used` runs. There is none where none is in use, or where the area does not hold those in use.
pub fn last_run(runs: &[u32], used: u32, q: Settings) -> Option<Last>
    ensures { result ≡ last_of used runs.now (six q) }
{
    if (used == 0) | (used as usize > runs.len() / RUN_WIDTH as usize) {
        return None;
    }
    Some(run_at(runs, areas::place(RUN_WIDTH, used - 1), q))
}

// A run written at a place. Asks for room, which a draw has judged before it writes: a test of each index would cost. By
// `copy_from_slice` of the six settings a draw's judge and this write take three times as long: it calls a copy.
pub fn put_run(runs: &mut [u32], at: usize, q: Settings, start: u32, count: u32)
    requires { at + run_width ≤ length runs.old }
    ensures { runs.new ≡ put runs.old at (run_of (six q) start count) }
{
    runs[at] = q.material;
    runs[at + 1] = q.mode;
    runs[at + 2] = q.fog;
    runs[at + 3] = q.depth;
    runs[at + 4] = q.cull;
    runs[at + 5] = q.unclipped;
    runs[at + START_FIELD] = start;
    runs[at + COUNT_FIELD] = count;
}
