// The refusals of document 01 ("The numbers we answer with"; requests 2026-04 and 2026-12), by name.
ghost use Rattle.std.specs.Prelude.{◌≡◌};
ghost use Rattle.answer.specs.Refusals as spec;
ghost use Rattle.answer.specs.Answers as answers;

use crate::answers::{Answer, refused};

// Why a call is refused. Each refusal has the number of document 01.
#[derive(Clone, Copy, Debug, PartialEq, Eq)]
pub enum Refusal {
    NotWhole = 1,
    NoSuchRow = 2,
    TooLarge = 3,
    NoSuchNumber = 4,
    LockRow = 5,
    KeyRow = 6,
    NotPermitted = 7,
    NotDecoded = 8,
    NeitherFits = 9,
    Malformed = 10,
    OutOfPlace = 11,
    NoRoom = 12,
    BitLost = 13,
    TooMany = 14,
    NoMark = 15,
    NoSuchVersion = 16,
    OutOfRange = 17,
}

impl Refusal {
    // Its number.
    pub fn number(self) -> u32
        ensures { result ≡ spec.refusal_number self }
    {
        self as u32
    }
}

impl From<Refusal> for Answer {
    ghost from_gives = { λ refusal answer. answer ≡ answers.refused (spec.refusal_number refusal) };

    fn from(refusal: Refusal) -> Answer {
        refused(refusal.number())
    }
}
