// The answer, the outcome and the entry as C takes them. An enum cannot cross to C, so the condition, the polarity and what stands at a place are
// numbers here.
ghost use Rattle.std.specs.Prelude.{◌≡◌};
ghost use Rattle.otp.specs.Flat as spec;

use answer::answers::Answer;
use answer::conditions::{condition_number, disagree_number, polarity_number, repaired_bit};
use chip::state::{Outcome, State};
use lead::notes::Note;
use lead::taking::Taken;
use reader::handing::Handed;
use reader::numbers::{end_number, found_entry, found_number};

// `otp_answer` of the header.
#[repr(C)]
#[derive(Clone, Copy)]
pub struct FlatAnswer {
    // 0 is done, any other is a refusal
    pub number: u32,
    // what a read or a vote found, or the level that a show shows
    pub value: u32,
    // 0 clean, 1 repaired, 2 flag worn, 3 flag worn and repaired
    pub condition: u32,
    // the repaired bit of 1 and 3, and otherwise 0
    pub bit: u32,
    // 0 plain, 1 inverted
    pub polarity: u32,
    // 1 where bits 23 and 22 disagreed
    pub disagree: u32,
    // of a job: the refused entry, or how many leading entries stand
    pub place: u32,
    // the bits newly set
    pub pulses: u32,
}

// `otp_outcome` of the header.
#[repr(C)]
#[derive(Clone, Copy)]
pub struct FlatOutcome {
    // what the call answers
    pub answer: FlatAnswer,
    // the state after the call
    pub state: State,
}

// `otp_taken` of the header.
#[repr(C)]
#[derive(Clone, Copy)]
pub struct FlatTaken {
    // what the chunk is answered: its value is the early word
    pub answer: FlatAnswer,
    // the note after the chunk
    pub note: Note,
}

// `otp_entry` of the header.
#[repr(C)]
#[derive(Clone, Copy)]
pub struct FlatEntry {
    // the place after the call
    pub at: usize,
    // 0, or 10 where no entry stands
    pub number: u32,
    // 1 at the end
    pub end: u32,
    // of an entry: its row
    pub row: u32,
    // 0 ECC, 1 raw
    pub kind: u32,
    // its value
    pub value: u32,
}

#[tactic(auto, unfolding(crate::specs::Flat::flat_answer))]
impl From<Answer> for FlatAnswer {
    ghost from_gives = { λ answer flat. flat ≡ spec.flat_answer answer };

    fn from(answer: Answer) -> FlatAnswer {
        let condition = answer.condition;
        let polarity = answer.polarity;
        FlatAnswer {
            number: answer.number,
            value: answer.value,
            condition: condition_number(condition),
            bit: repaired_bit(condition),
            polarity: polarity_number(polarity),
            disagree: disagree_number(condition),
            place: answer.place,
            pulses: answer.pulses,
        }
    }
}

#[tactic(auto, unfolding(crate::specs::Flat::flat_outcome))]
impl From<Outcome> for FlatOutcome {
    ghost from_gives = { λ outcome flat. flat ≡ spec.flat_outcome outcome };

    fn from(outcome: Outcome) -> FlatOutcome {
        FlatOutcome {
            answer: outcome.answer.into(),
            state: outcome.state,
        }
    }
}

#[tactic(auto, unfolding(crate::specs::Flat::flat_taken))]
impl From<Taken> for FlatTaken {
    ghost from_gives = { λ taken flat. flat ≡ spec.flat_taken taken };

    fn from(taken: Taken) -> FlatTaken {
        FlatTaken {
            answer: taken.answer.into(),
            note: taken.note,
        }
    }
}

#[tactic(auto, unfolding(crate::specs::Flat::flat_entry))]
impl From<Handed> for FlatEntry {
    ghost from_gives = { λ handed flat. flat ≡ spec.flat_entry handed };

    fn from(handed: Handed) -> FlatEntry {
        let found = handed.found;
        let entry = found_entry(found);
        FlatEntry {
            at: handed.at,
            number: found_number(found),
            end: end_number(found),
            row: entry.row,
            kind: entry.kind,
            value: entry.value,
        }
    }
}
