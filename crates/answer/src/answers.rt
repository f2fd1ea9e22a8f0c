// What every call answers (document 01, "The numbers we answer with").
ghost use Rattle.std.specs.Prelude.{◌≡◌};
ghost use Rattle.answer.specs.Answers as spec;

// What an ECC read says of the row: clean, or repaired, with the place of the repaired bit; or flag worn, where bits 23 and 22 disagree,
// by itself or with the place of the repaired bit.
#[derive(Clone, Copy, Debug, PartialEq, Eq)]
pub enum Condition {
    Clean,
    Repaired(u32),
    FlagWorn,
    FlagWornRepaired(u32),
}

// Which polarity the row was in.
#[derive(Clone, Copy, Debug, PartialEq, Eq)]
pub enum Polarity {
    Plain = 0,
    Inverted = 1,
}

// One record with its number, and no `Result`: so the definitions and the theorems have it, and C takes it (`otp_answer`).
// The number, the value that was read, the condition of the row and its polarity, the place in a job, and the pulses spent.
#[derive(Clone, Copy, Debug, PartialEq, Eq)]
pub struct Answer {
    pub number: u32,
    pub value: u32,
    pub condition: Condition,
    pub polarity: Polarity,
    pub place: u32,
    pub pulses: u32,
}

// By its number, and not by `Refusal`: it is promised of every number, as its definition is.
// A refusal: its number, value 0, clean, plain, 0 pulses, and of a job the place of the refused entry.
pub fn refused_at(number: u32, place: u32) -> Answer
    ensures { result ≡ spec.refused_at number place }
{
    Answer {
        number,
        value: 0,
        condition: Condition::Clean,
        polarity: Polarity::Plain,
        place,
        pulses: 0,
    }
}

// A refusal outside jobs and rehearsals, by its number too.
pub fn refused(number: u32) -> Answer
    ensures { result ≡ spec.refused number }
{
    refused_at(number, 0)
}

// An ECC read that is done: its value, the condition of the row, and the polarity that the row was in.
pub fn found_in(polarity: Polarity, value: u32, condition: Condition) -> Answer
    ensures { result ≡ spec.found_in polarity value condition }
{
    Answer {
        number: 0,
        value,
        condition,
        polarity,
        place: 0,
        pulses: 0,
    }
}

// One that was done in a plain row.
pub fn found(value: u32, condition: Condition) -> Answer
    ensures { result ≡ spec.found value condition }
{
    found_in(Polarity::Plain, value, condition)
}

// Any other read that is done, and a show: a value.
pub fn told(value: u32) -> Answer
    ensures { result ≡ spec.told value }
{
    found(value, Condition::Clean)
}

// A call that is done and has nothing to tell.
pub fn done() -> Answer
    ensures { result ≡ spec.done }
{
    told(0)
}

// A done write, job or rehearsal: its place and its pulses.
pub fn spent(place: u32, pulses: u32) -> Answer
    ensures { result ≡ spec.spent place pulses }
{
    Answer {
        number: 0,
        value: 0,
        condition: Condition::Clean,
        polarity: Polarity::Plain,
        place,
        pulses,
    }
}
