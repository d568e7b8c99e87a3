// The rolling hash over all numbers of an area.
ghost use Rattle.std.specs.Prelude.{◌≡◌, ◌<◌};
ghost use Rattle.dump.specs.Hash.{rolled as stepped, roll};

use crate::show::Word;

// One number more.
fn rolled(hash: u32, w: u32) -> u32
    ensures { result ≡ stepped hash w }
{
    let h = hash as u64;
    ((h * 65599 + (w as u64)) % 4294967291) as u32
}

pub(crate) fn of<T: Word<Bits = u32>>(xs: &[T]) -> u32
    ensures { result ≡ roll T.word 0 xs.now }
{
    xs.iter().fold(0, |h, x| rolled(h, x.word()))
}
