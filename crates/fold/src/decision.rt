// Whether lights, or the lookat axes, are to be folded anew.
ghost use Rattle.std.specs.Prelude.{◌≡◌};
ghost use Rattle.fold.specs.Decision.{refold};

// The mark and its value are the state's. `folded`: some were folded since opening; `changed`: they are marked changed since; `top`: the model top that they were last
// folded with; `model`: the model top of this load.
pub fn folds(folded: bool, changed: bool, top: [f32; 16], model: [f32; 16]) -> bool
    ensures { result ≡ refold folded changed top model }
{
    let same = top == model;
    !folded | changed | !same
}
