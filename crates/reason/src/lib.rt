// The reason for the cull test's answer, from the slots' clip codes: the explainer's own part, over plain numbers.
#![tactic(auto)]

ghost use Rattle.std.specs.Prelude.{◌≡◌, ◌-◌, ◌≤◌, min, not, get_or};
ghost use Rattle.std.specs.List.{find};
ghost use Rattle.decide.specs.Family.{flag};
ghost use Rattle.reason.specs.Reason.{slots_from, slots_to, codes_at, reason, told};

// Yes: every slot lies outside this side plane, 0 to 3, and not so for a lower one. No: for each side plane, 0 to 3, the
// first slot that is not outside it. Neither is a failure, so this is no Result.
#[derive(Clone, Copy)]
pub enum Reason {
    AllOutside(u32),
    FirstInside(u32, u32, u32, u32),
}

// Whether a clip code has the bit of value `v`: the slot lies outside that plane.
fn outside(v: u32, code: u8) -> bool
    ensures { result ≡ flag v code }
{
    decide::judge::has_flag(v, u32::from(code))
}

// The first slot from `first` on, before `end`, whose code lacks the bit of value `v`, or none. Asks for an end among the slots, since
// codes beyond them are not there.
fn first_inside(code: &[u8; 256], v: u32, first: u32, end: u32) -> Option<u32>
    requires { end ≤ 256 }
    ensures { result ≡ find (λ i. not (flag v (get_or code.now i 0))) (slots_from first (end - first)) }
{
    (first..end).find(|i| !outside(v, code[*i as usize]))
}

// The reason for what the cull test answers of the slots `first` to `last`, by their clip codes; there is no slot behind 255.
pub fn reason_of(code: &[u8; 256], first: u32, last: u32) -> Reason
    ensures { told result ≡ reason first (codes_at code.now (slots_to first (min last 255))) }
{
    let end = last.min(255) + 1;
    let Some(left) = first_inside(code, 1, first, end) else {
        return Reason::AllOutside(0);
    };
    let Some(right) = first_inside(code, 2, first, end) else {
        return Reason::AllOutside(1);
    };
    let Some(bottom) = first_inside(code, 4, first, end) else {
        return Reason::AllOutside(2);
    };
    let Some(top) = first_inside(code, 8, first, end) else {
        return Reason::AllOutside(3);
    };
    Reason::FirstInside(left, right, bottom, top)
}
