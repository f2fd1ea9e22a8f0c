// A repair pass that is asked for, and how it is made: on a copy of an image (request 2026-11).
ghost use Rattle.std.specs.Prelude.{◌≡◌, IfOk, replicate};
ghost use Rattle.repair.specs.Pass.{repair as repair_of};

use crate::{against, show};
use board::begin::finish;
use chip::state::State;
use console::ended::{End, Stop};
use console::options::Words;
use console::saving::{save_asked, saved_line};
use repair::pass::repair;

// The rows of the image and its state, the list of the rows to repair, and the text that the list is from, which is
// empty and not read where it is from none.
#[derive(Clone, Copy)]
pub(crate) struct Pass<'a> {
    pub before: &'a [u32],
    pub state: State,
    pub list: &'a [u32],
    pub text: &'a [u8],
}

impl Pass<'_> {
    // Repairs a copy of the rows, which it is given. What cannot be saved is not shown.
    pub(crate) fn run(
        &self,
        rt: &HostRuntime,
        words: Words,
        mut after: [u32; 4096],
    ) -> Result<End, Stop>
        ensures { IfOk result (λ end. end
            ≡ End.Answered (repair_of after self.now.state self.now.list.now (replicate 4096 0)).left.outcome.answer.number) }
    {
        let mut report = [0u32; 4096];
        let outcome = repair(&mut after, self.state, self.list, &mut report);
        let number = outcome.answer.number;
        // By its number: an answer of the library has one, and is no result.
        if number != 0 {
            against::lines(rt, words, self, number);
            return finish(rt, words, self.state, number);
        }
        save_asked(rt, words, &after)?;
        show::rows(rt, self, &after, &report, outcome);
        saved_line(rt, words);
        finish(rt, words, self.state, 0)
    }
}
