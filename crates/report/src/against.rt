// What stands against the entry that a job is refused for.
use crate::answered::Trial;
use chip::callers::SECURE;
use chip::slices::row_at;
use form::entries::entry_at;
use row::coding::{inverted, plain};
use screen::say_line;
use screen::shown::{Bits, Value};
use wording::{job_refusals, levels};

// The lines of a refused job: of one that may not be written the levels of its page, and of one that fits in neither polarity the bits that
// the row holds already, and the two rows that would hold the value.
pub(crate) fn lines(rt: &HostRuntime, trial: &Trial<'_>) {
    let answer = trial.outcome.answer;
    job_refusals::headline(rt, trial.job, answer.number, answer.place);
    let entry = entry_at(trial.job, answer.place);
    if answer.number == 7 {
        levels::of_entry(
            rt,
            levels::levels_of(trial.state, SECURE, entry.row),
            entry.row,
        );
    }
    if answer.number == 9 {
        let value = (entry.value % 65536) as u16;
        say_line!(rt;
            "   it holds {}, and {} is {} or {}",
            Bits(row_at(trial.before, entry.row)),
            Value(value as u32),
            Bits(plain(value)),
            Bits(inverted(value))
        );
    }
    say_line!(rt; "no row changes");
}
