// The ops of the format by their numbers, and what follows each.
ghost use Rattle.std.specs.Prelude.{◌≡◌};
ghost use Rattle.trace.specs.Shapes.{number_of, Decodes, taking, shape_of};

// The ops, each with its number.
#[derive(Clone, Copy, Debug, PartialEq, Eq)]
pub enum Op {
    Open = 0x01,
    Matrix = 0x02,
    Force = 0x03,
    Pop = 0x04,
    Geom = 0x05,
    Viewport = 0x06,
    Texture = 0x07,
    Fog = 0x08,
    Lightnum = 0x09,
    Light = 0x0a,
    Lookat = 0x0b,
    Load = 0x0c,
    Cull = 0x0d,
    Depth = 0x0e,
    Modify = 0x0f,
    Draw = 0x10,
    Ucode = 0x11,
    Ink = 0x12,
    Explain = 0x14,
    Lend = 0x20,
    Mark = 0x21,
    Poke = 0x22,
    Write = 0x23,
}

// Why no op is read: there is none of its number, or the script ends before it does.
#[derive(Clone, Copy, Debug, PartialEq, Eq)]
pub enum Cut {
    Unknown,
    Short,
}

impl TryFrom<u8> for Op {
    type Error = Cut;

    ghost try_from_gives = { Decodes };

    #[tactic(auto, unfolding(crate::specs::Shapes::op_of, numbers::specs::Choice::pick))]
    fn try_from(number: u8) -> Result<Op, Cut> {
        match number {
            0x01 => Ok(Op::Open),
            0x02 => Ok(Op::Matrix),
            0x03 => Ok(Op::Force),
            0x04 => Ok(Op::Pop),
            0x05 => Ok(Op::Geom),
            0x06 => Ok(Op::Viewport),
            0x07 => Ok(Op::Texture),
            0x08 => Ok(Op::Fog),
            0x09 => Ok(Op::Lightnum),
            0x0a => Ok(Op::Light),
            0x0b => Ok(Op::Lookat),
            0x0c => Ok(Op::Load),
            0x0d => Ok(Op::Cull),
            0x0e => Ok(Op::Depth),
            0x0f => Ok(Op::Modify),
            0x10 => Ok(Op::Draw),
            0x11 => Ok(Op::Ucode),
            0x12 => Ok(Op::Ink),
            0x14 => Ok(Op::Explain),
            0x20 => Ok(Op::Lend),
            0x21 => Ok(Op::Mark),
            0x22 => Ok(Op::Poke),
            0x23 => Ok(Op::Write),
            _ => Err(Cut::Unknown),
        }
    }
}

// What follows an op: so many arguments, a word each, and then, where `bytes` is set, a length and that many bytes.
#[derive(Clone, Copy)]
pub struct Shape {
    pub arguments: u8,
    pub bytes: bool,
}

fn taking(arguments: u8, bytes: bool) -> Shape
    ensures { result ≡ taking arguments bytes }
{
    Shape { arguments, bytes }
}

impl Op {
    pub fn number(self) -> u8
        ensures { result ≡ number_of self }
    {
        self as u8
    }

    // What follows the op.
    pub fn shape(self) -> Shape
        ensures { result ≡ shape_of self }
    {
        match self {
            Op::Open | Op::Mark => taking(0, false),
            Op::Force | Op::Viewport => taking(0, true),
            Op::Pop | Op::Lightnum | Op::Ucode | Op::Ink => taking(1, false),
            Op::Matrix | Op::Light | Op::Lookat => taking(1, true),
            Op::Geom | Op::Fog | Op::Cull | Op::Depth | Op::Explain | Op::Lend => taking(2, false),
            Op::Load => taking(2, true),
            Op::Modify | Op::Poke | Op::Write => taking(3, false),
            Op::Texture => taking(5, false),
            Op::Draw => taking(7, false),
        }
    }
}
