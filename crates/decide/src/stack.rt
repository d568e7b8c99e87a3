// The model stack, and when a geometry mode word relights.
ghost use Rattle.std.specs.Prelude.{◌≡◌, ◌+◌, ◌-◌, ◌*◌};
ghost use Rattle.numbers.specs.Choice.{pick};
ghost use Rattle.areas.specs.Area.{put};
ghost use Rattle.areas.specs.Widths.{matrix_width};
ghost use Rattle.matrix.specs.Math.{rows, laid, times};
ghost use Rattle.decide.specs.Family.{flag};
ghost use Rattle.decide.specs.Stack.{made, pushed, popped, relit};
ghost use Rattle.decide.specs.Steps.{Deep};

use crate::family::Family;
use areas::widths::MATRIX_WIDTH;

// Data, or data times what stood there.
#[tactic(auto, unfolding(crate::specs::Stack::made, numbers::specs::Choice::pick))]
pub fn made_of(load: bool, m: [[f32; 4]; 4], old: [[f32; 4]; 4]) -> [[f32; 4]; 4]
    ensures { result ≡ made load m old }
{
    if load { m } else { matrix::math::mul4(m, old) }
}

// The depth after a push, which is dropped from 32 on.
#[tactic(auto, unfolding(crate::specs::Stack::pushed, numbers::specs::Choice::pick))]
pub fn pushed_depth(push: bool, depth: u32) -> u32
    ensures { result ≡ pushed push depth }
{
    if push & (depth < 32) {
        depth + 1
    } else {
        depth
    }
}

// The depth after `count` pops, never below 1.
#[tactic(auto, unfolding(crate::specs::Stack::popped))]
pub fn popped_depth(count: u32, depth: u32) -> u32
    ensures { result ≡ popped count depth }
{
    depth.saturating_sub(count).max(1)
}

// The matrix on top of a stack of so many. Asks for a depth of the stack, since every other is refused before it is read. Written
// out, as `from_flat` is.
#[tactic(auto, unfolding(matrix::specs::Math::rows))]
fn top_of(s: &[f32; 512], depth: u32) -> [[f32; 4]; 4]
    requires { Deep depth }
    ensures { result ≡ rows s.now (matrix_width * (depth - 1)) }
{
    let a = (MATRIX_WIDTH as usize) * ((depth - 1) as usize);
    let b = a + 4;
    let c = a + 8;
    let d = a + 12;
    [
        [s[a], s[a + 1], s[a + 2], s[a + 3]],
        [s[b], s[b + 1], s[b + 2], s[b + 3]],
        [s[c], s[c + 1], s[c + 2], s[c + 3]],
        [s[d], s[d + 1], s[d + 2], s[d + 3]],
    ]
}

// The same. A function that calls itself is never taken into its caller, and then reads the caller's stack where it stands;
// else a copy of the stack is made first. The call is not reached, since no depth above 32 is asked for.
pub fn top_at(s: &[f32; 512], depth: u32) -> [[f32; 4]; 4]
    requires { Deep depth }
    ensures { result ≡ rows s.now (matrix_width * (depth - 1)) }
{
    if 32 < depth {
        let mut t = top_at(s, depth - 32);
        t[0] = [0.0; 4];
        return t;
    }
    top_of(s, depth)
}

// The data m taken as projection, or as top of the stack: the depth and the projection then. Asks for a depth in its range.
fn turn(
    push: bool,
    load: bool,
    projecting: bool,
    m: [[f32; 4]; 4],
    stack: &mut [f32; 512],
    projection: [f32; 16],
    depth: u32,
) -> (u32, [f32; 16])
    requires { Deep depth }
    ensures { (result.0 ≡ pick projecting depth (pushed push depth)) × (result.1 ≡ pick projecting (laid (made load m (rows projection 0))) projection) × (stack.new ≡ pick projecting stack.old (put stack.old (matrix_width * (pushed push depth - 1)) (laid (made load m (rows stack.old (matrix_width * (depth - 1))))))) }
{
    if projecting {
        let made = made_of(load, m, matrix::math::from_flat(projection));
        return (depth, matrix::math::to_flat(made));
    }
    let made = made_of(load, m, top_at(stack, depth));
    let d = pushed_depth(push, depth);
    let flat = matrix::math::to_flat(made);
    areas::put(stack, 16 * ((d - 1) as usize), &flat);
    (d, projection)
}

// A top of the stack times a projection, flat.
pub fn product_of(top: [[f32; 4]; 4], projection: [f32; 16]) -> [f32; 16]
    ensures { result ≡ laid (times top (rows projection 0)) }
{
    matrix::math::to_flat(matrix::math::mul4(top, matrix::math::from_flat(projection)))
}

// A matrix taken by the flags of a word: the depth, the projection and the top times it then.
#[derive(Clone, Copy)]
pub struct Taken {
    pub depth: u32,
    pub projection: [f32; 16],
    pub product: [f32; 16],
}

// The data m taken as the flags say. Asks for a depth in its range.
pub fn take(
    family: Family,
    flags: u32,
    m: [[f32; 4]; 4],
    stack: &mut [f32; 512],
    projection: [f32; 16],
    depth: u32,
) -> Taken
    requires { Deep depth }
    ensures depth { result.depth ≡ pick (flag family.projection flags) depth (pushed (flag family.push flags) depth) }
    ensures projection { result.projection ≡ pick (flag family.projection flags) (laid (made (flag family.load flags) m (rows projection 0))) projection }
    ensures stack { stack.new ≡ pick (flag family.projection flags) stack.old (put stack.old (matrix_width * (pushed (flag family.push flags) depth - 1)) (laid (made (flag family.load flags) m (rows stack.old (matrix_width * (depth - 1)))))) }
    ensures product { result.product ≡ laid (times (rows stack.new (matrix_width * (result.depth - 1))) (rows result.projection 0)) }
{
    let push = crate::judge::has_flag(family.push, flags);
    let load = crate::judge::has_flag(family.load, flags);
    let projecting = crate::judge::has_flag(family.projection, flags);
    let (d, p) = turn(push, load, projecting, m, stack, projection, depth);
    let product = product_of(top_at(stack, d), p);
    Taken {
        depth: d,
        projection: p,
        product,
    }
}

// Whether the lighting bit differs between two words.
#[tactic(auto, unfolding(crate::specs::Stack::relit))]
pub fn relights(f: Family, old: u32, new: u32) -> bool
    ensures { result ≡ relit f old new }
{
    crate::geometry::is_lit(f, old) != crate::geometry::is_lit(f, new)
}
