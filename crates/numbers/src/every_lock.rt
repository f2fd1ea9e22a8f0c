// Every advance and every show: each caller, each domain, each present level and each asked one (document 01, "Locks"; request 2026-05).
ghost use Rattle.std.specs.Prelude.{◌<◌};

use crate::states;
use answer::answers::{done, refused, told};
use chip::state::State;
use lock::calls::{advance, show};
use screen::table::Table;
use screen::{say, say_line};

// A caller, or its domain.
pub const NAMES: [&str; 3] = ["Secure", "Non-secure", "bootloader"];

// What an advance of each domain answers, a line for each caller: Secure, Non-secure, bootloader.
const NUMBERS: [[u32; 3]; 3] = [[0, 0, 7], [7, 0, 7], [7, 7, 7]];

// The page that is advanced.
const PAGE: u32 = 13;

// A caller, who advances and shows a lock of a domain, and the number that the advance answers.
#[derive(Clone, Copy)]
struct Case {
    caller: u32,
    domain: u32,
    number: u32,
    ghost known: { domain < 3 },
}

impl Case {
    // The other domains have other levels, so that one taken for another shows.
    fn with_present(self, present: u32) -> State {
        let secure = (present % 3 + 3 - self.domain) % 3;
        let levels = [secure, (secure + 1) % 3, (secure + 2) % 3];
        states::with_levels(State::zeros(), PAGE, levels)
    }

    // Whether the advance answers its number, and leaves the level that it must.
    fn advance_is_right(self, present: u32, asked: u32) -> bool {
        let state = self.with_present(present);
        let outcome = advance(state, self.caller, self.domain, PAGE, asked);
        let done_at_all = self.number == 0;
        let must = if done_at_all {
            done()
        } else {
            refused(self.number)
        };
        let left = if done_at_all && present < asked {
            states::with_level(state, self.domain, PAGE, asked)
        } else {
            state
        };
        outcome.answer == must && outcome.state == left
    }

    fn show_is_right(self, present: u32) -> bool {
        show(self.with_present(present), self.caller, self.domain, PAGE) == told(present)
    }

    // Nine advances, by the present and the asked level, and three shows: how many are right.
    fn right(self) -> u32 {
        let mut right = 0;
        for present in 0..3 {
            for asked in 0..3 {
                right += u32::from(self.advance_is_right(present, asked));
            }
            right += u32::from(self.show_is_right(present));
        }
        right
    }
}

pub fn all(table: &mut Table) {
    say_line!(table.rt; "\nEvery advance, from each level to each, and every show");
    say_line!(table.rt; "caller      domain      advance  as it must be");
    for (caller, numbers) in NUMBERS.iter().enumerate() {
        for (domain, number) in numbers.iter().enumerate() {
            let case = Case {
                caller: caller as u32,
                domain: domain as u32,
                number: *number,
            };
            let right = case.right();
            say!(table.rt;
                "{:<12}{:<12}{number}{right:9} of 12 ",
                NAMES[caller], NAMES[domain]
            );
            table.verdict_of_many(right, 12);
        }
    }
}
