// What an ECC read that is done says of its row, in words: what it repaired, the polarity, and whether the flag bits, 23 and 22, disagree
// (document 01, "A row with ECC").
use answer::answers::{Answer, Condition, Polarity};
use std::fmt;

fn polarity_words(polarity: Polarity) -> &'static str {
    match polarity {
        Polarity::Plain => "plain",
        Polarity::Inverted => "inverted",
    }
}

// "repaired bit 8, inverted". A row whose flag bits disagree is always read as plain, so its words do not say so.
#[derive(Clone, Copy)]
pub struct Words(pub Answer);

impl fmt::Display for Words {
    fn fmt<W: fmt::Write>(&self, f: &mut fmt::Formatter<W>) -> fmt::Result {
        let polarity = polarity_words(self.0.polarity);
        match self.0.condition {
            Condition::Clean => write!(f, "clean, {polarity}"),
            Condition::Repaired(place) => write!(f, "repaired bit {place}, {polarity}"),
            Condition::FlagWorn => f.write_str("flag worn: bits 23 and 22 disagree"),
            Condition::FlagWornRepaired(place) => {
                write!(
                    f,
                    "flag worn: bits 23 and 22 disagree; repaired bit {place}"
                )
            }
        }
    }
}
