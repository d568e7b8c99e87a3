// The lights: how many there are, and three numbers of a slot among slots that stand end to end.
ghost use Rattle.std.specs.Prelude.{◌≡◌};
ghost use Rattle.decide.specs.Lights.{light_number, slotted};

// The number of lights that so many bytes stand for, 24 a light, at most 7.
pub fn light_number(bytes: u32) -> u32
    ensures { result ≡ light_number bytes }
{
    (bytes / 24).min(7)
}

// `three` written as the numbers of slot `slot` of `slots`; a slot above stores nothing.
#[tactic(auto, unfolding(crate::specs::Lights::slotted, numbers::specs::Choice::pick))]
pub fn put_slot(floats: &mut [f32], slots: u32, slot: u32, three: &[f32])
    ensures { floats.new ≡ slotted slots floats.old slot three.now }
{
    if slot < slots {
        areas::put(floats, 3 * (slot as usize), three);
    }
}
