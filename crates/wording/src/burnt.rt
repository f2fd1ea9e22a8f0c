// The bits burnt, from the tallies of the state: a page's as a bar, what a rehearsal added to each page, the sum of the chip (request 2026-07).
ghost use Rattle.std.specs.Prelude.{◌<◌, length};

use chip::state::Tallies;
use chip::tallies::FULL_PAGE;
use screen::say_line;
use screen::shown::Counted;
use std::fmt;

// The bits of all 64 pages.
const FULL_CHIP: u32 = 64 * FULL_PAGE;

// A bar has eight marks. A whole one stands for so many bits.
const MARKS: u32 = 8;

const MARK: u32 = FULL_PAGE / 8;

// "##+.....": whole marks, then one for what is begun. So one bit shows, and so does one bit that is left to burn.
#[derive(Clone, Copy)]
pub struct Bar(pub u32);

impl fmt::Display for Bar {
    fn fmt<W: fmt::Write>(&self, f: &mut fmt::Formatter<W>) -> fmt::Result {
        let whole = (self.0 / MARK).min(MARKS) as usize;
        let shown = self.0.div_ceil(MARK).min(MARKS) as usize;
        let begun = shown - whole;
        let left = MARKS as usize - shown;
        write!(f, "{:#<whole$}{:+<begun$}{:.<left$}", "", "", "")
    }
}

fn in_all(tallies: &[u16]) -> u32
    requires { length tallies.now < 65 }
{
    tallies.iter().map(|tally| *tally as u32).sum()
}

// "burnt in all: 88 of 98304 bits"
pub fn sum_line(rt: &HostRuntime, tallies: Tallies) {
    let burnt = in_all(&tallies);
    say_line!(rt; "burnt in all: {burnt} of {FULL_CHIP} bits");
}

// A line for each page that gained bits: "page 3: 28 bits more, 28 of 1536 burnt".
pub fn gain_lines(rt: &HostRuntime, before: Tallies, after: Tallies) {
    for (page, (old, new)) in before.iter().zip(after.iter()).enumerate() {
        if old < new {
            let gained = Counted(u32::from(*new - *old), "bit");
            say_line!(rt; "page {page}: {gained} more, {new} of {FULL_PAGE} burnt");
        }
    }
}
