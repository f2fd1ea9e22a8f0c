// The lines of a scene that prepare what the next calls are made on. They print nothing.
use crate::board::{Board, ROWS};
use crate::names::Name;
use crate::said::{Said, stated};
use crate::states;
use chip::state::Key;
use screen::say_line;

// The eight words of four numbers, of each number the upper one first.
fn words(numbers: [u32; 4]) -> [u16; 8] {
    let mut words = [0u16; 8];
    for (pair, number) in words.chunks_exact_mut(2).zip(numbers) {
        pair[0] = (number / 65536) as u16;
        pair[1] = (number % 65536) as u16;
    }
    words
}

// Their sixteen bytes, of each number the uppermost one first. A 17th byte, 0, follows, since a key can be too long.
fn bytes(numbers: [u32; 4]) -> [u8; 17] {
    let mut bytes = [0u8; 17];
    for (four, number) in bytes.chunks_exact_mut(4).zip(numbers) {
        four.copy_from_slice(&number.to_be_bytes());
    }
    bytes
}

impl Board<'_> {
    pub fn prepare(&mut self, name: Option<Name>, line: Said) {
        let [first, second, third, fourth] = line.given;
        match name {
            Some(Name::Entries) => self.entries = first,
            Some(Name::Row) => self.rows[first as usize % ROWS] = second,
            Some(Name::Words) => self.words = words(line.given),
            Some(Name::Bytes) => self.bytes = bytes(line.given),
            Some(Name::Open) => self.hand = states::open(),
            Some(Name::Levels) => {
                // Where no line says the bootloader's level, it is 0.
                let levels = [second, third, stated(fourth).unwrap_or(0)];
                self.hand = states::with_levels(self.hand, first, levels);
            }
            Some(Name::Indexes) => {
                self.hand = states::with_indexes(self.hand, first, second, third, fourth);
            }
            Some(Name::Key) => {
                let key = Key {
                    words: self.words,
                    valid: second == 1,
                    whole: third == 1,
                };
                self.hand = states::with_key(self.hand, first, key);
            }
            Some(Name::Entered) => self.hand = states::with_entered(self.hand, self.words),
            Some(Name::Tally) => self.hand = states::with_tally(self.hand, first, second),
            _ => say_line!(self.table.rt; "no such line"),
        }
    }
}
