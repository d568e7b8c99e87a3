// The tests behind refusals 7, 8 and 9, and flags of a word.
ghost use Rattle.std.specs.Prelude.{◌≡◌, ◌+◌, leb, map, ◌&&◌};
ghost use Rattle.decide.specs.Family.{flag};
ghost use Rattle.decide.specs.Steps.{first_short, fill_of, short_of};

// Whether `need` bytes stand from place `at` on in data of `len` bytes.
pub fn reaches(len: usize, at: usize, need: usize) -> bool
    ensures { result ≡ leb (at + need) len }
{
    len.checked_sub(at).is_some_and(|left| need <= left)
}

// Whether a table with so much room holds `used` entries and `more`.
pub fn holds(used: u32, more: u32, room: usize) -> bool
    ensures { result ≡ leb (used + more) room }
{
    (used as usize) + (more as usize) <= room
}

// Whether the flag of value `v` is set in the word `x`; no word has the flag 0. By division and not by `&`, since the contract holds for
// values that are no power of two as well.
pub fn has_flag(v: u32, x: u32) -> bool
    ensures { result ≡ flag v x }
{
    x.checked_div(v).is_some_and(|n| n % 2 == 1)
}

// Whether slots `first` to `first + count - 1` are among so many. One test is enough: then `count` is no more either.
#[tactic(auto, using(crate::proofs::Slots::no_more_slots))]
pub fn slots_there(slots: u32, first: u32, count: u32) -> bool
    ensures { result ≡ leb count slots && leb (first + count) slots }
{
    holds(first, count, slots as usize)
}

// A table as refusals 8 and 9 see it: its number, entries in use, entries to be appended, room.
#[derive(Clone, Copy)]
pub struct Fill {
    pub number: u32,
    pub used: u32,
    pub more: u32,
    pub room: usize,
}

impl Fill {
    // Whether it has less room than it is to hold.
    fn short_of(&self) -> bool
        ensures { result ≡ short_of self.now }
    {
        !holds(self.used, self.more, self.room)
    }
}

// The number of the first table that has less room than it is to hold.
pub fn first_short(tables: &[Fill]) -> Option<u32>
    ensures { result ≡ first_short (map fill_of tables.now) }
{
    tables.iter().find(|t| t.short_of()).map(|t| t.number)
}
