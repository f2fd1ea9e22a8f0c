// A table of comparisons as a program prints it: the titles of its groups, the verdict that ends each line, and the last line.
ghost use Rattle.std.specs.Prelude.{◌≡◌};
ghost use Rattle.screen.specs.Tallies as spec;

use crate::say_line;
use crate::tally::Tally;
use std::fmt;

// Where the lines go, and what was compared so far.
#[derive(Drop)]
pub struct Table<'a> {
    pub rt: &'a HostRuntime,
    pub tally: Tally,
}

impl Table<'_> {
    // A table with no line yet.
    pub fn new(rt: &HostRuntime) -> Table<'_>
        ensures { result.tally ≡ spec.nothing_yet }
    {
        Table {
            rt,
            tally: Tally::nothing_yet(),
        }
    }

    // The end of a line that compares one answer.
    pub fn verdict(&mut self, right: bool)
        ensures { self.new.tally ≡ spec.compared self.old.tally right }
    {
        self.tally = self.tally.compared(right);
        say_line!(self.rt; "{}", Verdict(right));
    }

    // The end of a line that compares several, of which so many are right.
    pub fn verdict_of_many(&mut self, right: u32, of: u32)
        ensures { self.new.tally ≡ spec.compared_many self.old.tally right of }
    {
        self.tally = self.tally.compared_many(right, of);
        say_line!(self.rt; "{}", Verdict(right == of));
    }

    // How many were compared, and how many of them differ.
    pub fn last_line(&self) {
        say_line!(self.rt; "\n{}", self.tally);
    }
}

// Whether what is is what must be.
#[derive(Clone, Copy)]
struct Verdict(bool);

impl fmt::Display for Verdict {
    fn fmt<W: fmt::Write>(&self, f: &mut fmt::Formatter<W>) -> fmt::Result {
        f.write_str(if self.0 { "ok" } else { "WRONG" })
    }
}
