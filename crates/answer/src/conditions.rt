// The numbers of a condition and a polarity, for those who take no enum.
ghost use Rattle.std.specs.Prelude.{◌≡◌};
ghost use Rattle.answer.specs.Conditions as spec;

use crate::answers::{Condition, Polarity};

// 0 for clean, 1 for repaired, 2 for flag worn, 3 for flag worn and repaired. A `match`, since `as` takes no enum whose variants hold a bit.
pub fn condition_number(condition: Condition) -> u32
    ensures { result ≡ spec.condition_number condition }
{
    match condition {
        Condition::Clean => 0,
        Condition::Repaired(_) => 1,
        Condition::FlagWorn => 2,
        Condition::FlagWornRepaired(_) => 3,
    }
}

// The repaired bit, 0 where none was.
pub fn repaired_bit(condition: Condition) -> u32
    ensures { result ≡ spec.repaired_bit condition }
{
    match condition {
        Condition::Clean | Condition::FlagWorn => 0,
        Condition::Repaired(bit) | Condition::FlagWornRepaired(bit) => bit,
    }
}

// 0 for plain, 1 for inverted.
pub fn polarity_number(polarity: Polarity) -> u32
    ensures { result ≡ spec.polarity_number polarity }
{
    polarity as u32
}

// 0 where bits 23 and 22 agreed, 1 where they disagreed.
pub fn disagree_number(condition: Condition) -> u32
    ensures { result ≡ spec.disagree_number condition }
{
    match condition {
        Condition::Clean | Condition::Repaired(_) => 0,
        Condition::FlagWorn | Condition::FlagWornRepaired(_) => 1,
    }
}
