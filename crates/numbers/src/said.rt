// The numbers of a line of a scene: what a call is given, and after a colon what must be.
use answer::answers::{Answer, Condition, Polarity};

// What a call is given, four numbers at most, what it must answer, and what must be left: the row that a write leaves or the level
// that an advance leaves, and the tally that a write leaves its page.
#[derive(Clone, Copy)]
pub struct Said {
    pub given: [u32; 4],
    pub must: Answer,
    pub left: Option<u32>,
    pub tally: Option<u32>,
}

// What a number that is left out, or written as a dash, stands as while a line is read: no Option, since what is printed of a line
// that writes this number itself must stay.
pub const NONE: u32 = 4294967295;

// A number, unless it is left out.
pub fn stated(number: u32) -> Option<u32> {
    (number != NONE).then_some(number)
}

// The value of a hexadecimal digit.
fn digit(byte: u8) -> Option<u32> {
    match byte {
        b'0'..=b'9' => Some(u32::from(byte - b'0')),
        b'a'..=b'f' => Some(u32::from(byte - b'a') + 10),
        _ => None,
    }
}

// The number that a word spells, decimal or, after 0x, hexadecimal. Past 32 bits it would wrap: no scene has such a number. A word that
// begins with no digit, as a dash, goes on from the number that stands there.
fn spelt(word: &[u8], standing: u32) -> u32 {
    let mut number = standing;
    let mut base = 10;
    for (at, byte) in word.iter().enumerate() {
        match digit(*byte) {
            Some(first) if at == 0 => number = first,
            Some(next) => number = number.wrapping_mul(base).wrapping_add(next),
            None => base = if *byte == b'x' { 16 } else { 10 },
        }
    }
    number
}

// The numbers of a part of a line, with as many places before a colon as a call is given at most.
fn numbers(part: &[u8]) -> [u32; 12] {
    let mut numbers = [NONE; 12];
    let mut at = 0;
    for (colons, words) in part.split(|byte| *byte == b':').enumerate() {
        if 0 < colons {
            at = 4;
        }
        for word in words.split(|byte| *byte == b' ') {
            if word.is_empty() {
                continue;
            }
            numbers[at] = spelt(word, numbers[at]);
            at = (at + 1).min(11);
        }
    }
    numbers
}

// The condition of a row with a repaired bit or none, whose bits 23 and 22 agree or disagree.
fn condition(bit: Option<u32>, disagree: bool) -> Condition {
    match (bit, disagree) {
        (None, false) => Condition::Clean,
        (None, true) => Condition::FlagWorn,
        (Some(place), false) => Condition::Repaired(place),
        (Some(place), true) => Condition::FlagWornRepaired(place),
    }
}

// The numbers in the order of the input's head. What the line leaves out is 0, clean, plain, and 0 pulses.
pub fn read_line(part: &[u8]) -> Said {
    let [
        first,
        second,
        third,
        fourth,
        number,
        value,
        bit,
        pulses,
        left,
        polarity,
        disagree,
        tally,
    ] = numbers(part);
    let must = Answer {
        number,
        value: stated(value).unwrap_or(0),
        condition: condition(stated(bit), disagree == 1),
        polarity: if polarity == 1 {
            Polarity::Inverted
        } else {
            Polarity::Plain
        },
        place: 0,
        pulses: stated(pulses).unwrap_or(0),
    };
    Said {
        given: [first, second, third, fourth],
        must,
        left: stated(left),
        tally: stated(tally),
    }
}
