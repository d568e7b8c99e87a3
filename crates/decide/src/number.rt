// A choice between two numbers.
ghost use Rattle.std.specs.Prelude.{◌≡◌};
ghost use Rattle.numbers.specs.Choice.{pick};

// x where b holds, else y. In a function of its own, since a caller's proof then has the choice by this contract, where an `if`
// would leave it a case for each branch.
#[tactic(auto, unfolding(numbers::specs::Choice::pick))]
pub fn if_else(b: bool, x: u32, y: u32) -> u32
    ensures { result ≡ pick b x y }
{
    if b { x } else { y }
}
