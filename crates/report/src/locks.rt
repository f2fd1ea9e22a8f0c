// What a rehearsed job locks: what the next reset latches of each lock row, where its locks begin, and what a cut means (request 2026-09).
use crate::answered::Trial;
use answer::answers::Answer;
use board::lock_rows;
use chip::pages::Page;
use chip::slices::row_at;
use form::entries::{count_of, entry_at};
use judge::verdicts::entry_burnt;
use screen::say_line;
use screen::shown::{Counted, Row};

// The two parts of a job: how many entries come before its locks, the pulses of these, and the pulses of its locks.
#[derive(Clone, Copy, Default)]
pub(crate) struct Parts {
    entries: u32,
    data: u32,
    locks: u32,
}

impl Parts {
    // What the whole job takes on these rows.
    pub(crate) fn of(before: &[u32], job: &[u8]) -> Parts {
        let mut parts = Parts::default();
        for place in 0..count_of(job) {
            let entry = entry_at(job, place);
            let pulses = entry_burnt(row_at(before, entry.row), entry).pulses;
            if Page::FIRST_LOCK_ROW <= entry.row {
                parts.locks = parts.locks.saturating_add(pulses);
            } else {
                parts.entries = parts.entries.saturating_add(1);
                parts.data = parts.data.saturating_add(pulses);
            }
        }
        parts
    }

    // Whether a lock pulse was given: the data rows come first, and their pulses with them.
    pub(crate) fn begun(&self, answer: Answer) -> bool {
        self.data < answer.pulses
    }
}

// "0xf87  3     Secure level 0, Non-secure level 1, bootloader level 0"
fn lines(rt: &HostRuntime, trial: &Trial<'_>, first: u32) {
    let after = trial.after;
    for place in first..count_of(trial.job) {
        let row = entry_at(trial.job, place).row;
        let page = lock_rows::page_of(row);
        let words = lock_rows::Words(row, row_at(after, row));
        say_line!(rt; "{}  {page:<6}{words}", Row(row));
    }
}

// Where the locks begin.
fn beginning(rt: &HostRuntime, parts: Parts) {
    if parts.locks == 0 {
        say_line!(rt; "The locks stand already.");
        return;
    }
    let pulses = Counted(parts.data, "pulse");
    say_line!(rt;
        "The locks begin at entry {}, after {pulses}.",
        parts.entries
    );
}

// What is promised of a job that is cut, and of this one where it was.
fn cut(rt: &HostRuntime, parts: Parts, answer: Answer, whole: bool) {
    if whole {
        if 0 < parts.locks {
            say_line!(rt;
                "Cut after that, the job may be refused with 7 from then on; its data rows stand."
            );
        }
        return;
    }
    if parts.begun(answer) {
        say_line!(rt;
            "Cut after the first lock pulse: the job may be refused with 7 from now on; its data rows stand."
        );
        return;
    }
    say_line!(rt; "Cut before the first lock pulse: the job can be run again.");
}

// A job without lock rows has nothing of this on its screen.
pub(crate) fn show(rt: &HostRuntime, trial: &Trial<'_>) {
    let answer = trial.outcome.answer;
    let parts = Parts::of(trial.before, trial.job);
    let count = count_of(trial.job);
    if count <= parts.entries {
        return;
    }
    say_line!(rt; "lock   page  what the next reset latches");
    lines(rt, trial, parts.entries);
    say_line!(rt; "");
    beginning(rt, parts);
    cut(rt, parts, answer, answer.place == count);
    say_line!(rt; "");
}
