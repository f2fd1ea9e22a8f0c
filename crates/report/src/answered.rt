// What a job was answered, and what it did: what it changes row by row, what it locks, and what each page gains (document 01, "Jobs").
ghost use Rattle.std.specs.Prelude.{◌≡◌, IfOk};

use crate::locks::Parts;
use crate::{against, changes, locks};
use board::begin::finish;
use chip::state::{Outcome, State};
use console::ended::{End, Stop};
use console::options::Words;
use console::saving::{save_asked, saved_line};
use form::entries::count_of;
use screen::say_line;
use screen::shown::Counted;
use std::fmt;
use wording::{burnt, refusals};

// A job that was run on a copy of an image: the rows before and after it, the state before it, the limit of pulses if there was one, and what
// came of it.
#[derive(Clone, Copy)]
pub struct Trial<'a> {
    pub before: &'a [u32],
    pub after: &'a [u32; 4096],
    pub state: State,
    pub job: &'a [u8],
    pub limit: Option<u32>,
    pub outcome: Outcome,
}

// "2 of 3 entries stand"
#[derive(Clone, Copy)]
struct Standing {
    place: u32,
    count: u32,
}

impl fmt::Display for Standing {
    fn fmt<W: fmt::Write>(&self, f: &mut fmt::Formatter<W>) -> fmt::Result {
        write!(f, "{} of {} entries stand", self.place, self.count)
    }
}

impl Trial<'_> {
    // What is shown of it. A refused job leaves nothing to save, and what cannot be saved is not shown.
    pub fn show(&self, rt: &HostRuntime, words: Words) -> Result<End, Stop>
        ensures { IfOk result (λ end. end ≡ End.Answered self.now.outcome.answer.number) }
    {
        let answer = self.outcome.answer;
        // By its number: an answer of the library has one, and is no result.
        if answer.number != 0 {
            against::lines(rt, self);
            return finish(rt, words, self.state, answer.number);
        }
        save_asked(rt, words, self.after)?;
        self.changed(rt);
        let left = self.outcome.state;
        burnt::gain_lines(rt, self.state.tallies, left.tallies);
        self.summary(rt);
        saved_line(rt, words);
        finish(rt, words, self.state, 0)
    }

    fn changed(&self, rt: &HostRuntime) {
        self.headline(rt);
        if count_of(self.job) == 0 {
            say_line!(rt; "\nno row changes\n");
        } else {
            say_line!(rt; "\nrow    old         new       pulses  kind  value");
            changes::lines(rt, self);
            say_line!(rt; "");
        }
        locks::show(rt, self);
    }

    fn standing(&self) -> Standing {
        Standing {
            place: self.outcome.answer.place,
            count: count_of(self.job),
        }
    }

    // The first line decides what a person does next, so it says where the limit cut the job.
    fn headline(&self, rt: &HostRuntime) {
        let answer = self.outcome.answer;
        let standing = self.standing();
        if standing.place == standing.count {
            say_line!(rt; "{}", refusals::Numbered(0));
            return;
        }
        let pulses = Counted(answer.pulses, "pulse");
        let among = if Parts::of(self.before, self.job).begun(answer) {
            ", among the locks"
        } else {
            ""
        };
        say_line!(rt; "0: cut after {pulses}{among}: {standing}");
    }

    // "2 of 3 entries stand, 8 pulses, limit 8"
    fn summary(&self, rt: &HostRuntime) {
        let standing = self.standing();
        let pulses = Counted(self.outcome.answer.pulses, "pulse");
        match self.limit {
            Some(limit) => say_line!(rt; "{standing}, {pulses}, limit {limit}"),
            None => say_line!(rt; "{standing}, {pulses}, no limit"),
        }
    }
}
