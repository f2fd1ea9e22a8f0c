// A card read as C takes it. An enum cannot cross to C: so a number stands beside the card, and a refusal has all four of the card's numbers 0.
ghost use Rattle.std.specs.Prelude.{◌≡◌};
ghost use Rattle.splash.specs.Flat as spec;
ghost use Rattle.splash.specs.Reading.{card_read};

use crate::cards::Card;
use answer::refusals::Refusal;

// `otp_card` of the header.
#[repr(C)]
#[derive(Clone, Copy, Debug, PartialEq, Eq)]
pub struct FlatCard {
    // 0 is done, any other is a refusal
    pub number: u32,
    // 1 or 2
    pub version: u32,
    // 1 to 320
    pub width: u32,
    // 1 to 240
    pub height: u32,
    // the bytes in a line, at least the width and at most 1,024
    pub line: u32,
}

#[tactic(auto, unfolding(crate::specs::Flat::flat_card))]
impl From<Result<Card, Refusal>> for FlatCard {
    ghost from_gives = { λ read flat. flat ≡ spec.flat_card (card_read read) };

    fn from(read: Result<Card, Refusal>) -> FlatCard {
        match read {
            Ok(card) => FlatCard {
                number: 0,
                version: card.version,
                width: card.width,
                height: card.height,
                line: card.line,
            },
            Err(refusal) => FlatCard {
                number: refusal.number(),
                version: 0,
                width: 0,
                height: 0,
                line: 0,
            },
        }
    }
}
