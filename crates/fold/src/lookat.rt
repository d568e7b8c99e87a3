// The entry of table 5: both lookat axes folded.
ghost use Rattle.std.specs.Prelude.{◌≡◌};
ghost use Rattle.fold.specs.Lookat.{lookat_entry};

#[tactic(auto, unfolding(crate::specs::Lookat::lookat_entry, crate::specs::Direction::folded))]
pub fn lookat_entry(m: [[f32; 4]; 4], axes: [f32; 6]) -> [f32; 6]
    ensures { result ≡ lookat_entry m axes }
{
    let s = crate::direction::fold_direction(m, [axes[0], axes[1], axes[2]]);
    let t = crate::direction::fold_direction(m, [axes[3], axes[4], axes[5]]);
    [s[0], s[1], s[2], t[0], t[1], t[2]]
}
