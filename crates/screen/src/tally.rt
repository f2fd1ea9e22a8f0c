// How many answers were compared, and how many of them differ from what must be.
ghost use Rattle.std.specs.Prelude.{◌≡◌};
ghost use Rattle.screen.specs.Tallies as spec;

use std::fmt;

// "12 compared, 0 differ"
#[derive(Clone, Copy, Debug, PartialEq, Eq)]
pub struct Tally {
    pub compared: u32,
    pub differ: u32,
}

// No run comes near this count.
const MOST: u32 = 1000000;

// The sum of two counts. Where one is past what a run can reach, it stops there and can't wrap: so the definition has it, and `saturating_add` does
// not stop there.
pub fn sum(count: u32, more: u32) -> u32
    ensures { result ≡ spec.sum count more }
{
    if MOST < count || MOST < more {
        return MOST;
    }
    count + more
}

// One more where the test holds.
pub fn one_more(count: u32, holds: bool) -> u32
    ensures { result ≡ spec.one_more count holds }
{
    if holds { sum(count, 1) } else { count }
}

impl Tally {
    pub fn nothing_yet() -> Tally
        ensures { result ≡ spec.nothing_yet }
    {
        Tally {
            compared: 0,
            differ: 0,
        }
    }

    // One comparison more.
    pub fn compared(self, right: bool) -> Tally
        ensures { result ≡ spec.compared self right }
    {
        Tally {
            compared: sum(self.compared, 1),
            differ: one_more(self.differ, !right),
        }
    }

    // Several comparisons more, of which so many are right.
    pub fn compared_many(self, right: u32, of: u32) -> Tally
        ensures { result ≡ spec.compared_many self right of }
    {
        Tally {
            compared: sum(self.compared, of),
            differ: sum(self.differ, of.saturating_sub(right)),
        }
    }
}

impl fmt::Display for Tally {
    fn fmt<W: fmt::Write>(&self, f: &mut fmt::Formatter<W>) -> fmt::Result {
        write!(f, "{} compared, {} differ", self.compared, self.differ)
    }
}
