// What the lines of a scene work on: the rows of a chip, its state, and what is prepared for the next call.
use crate::states;
use chip::state::State;
use screen::table::Table;

// The rows of a chip and one more, since a slice can be too long.
pub const ROWS: usize = 4097;

// A call is lent the first `entries` of the rows. `state` is what the chip has. `hand` is made by
// hand: the next call is made on it, and a reset must latch it. `words` and `bytes` are a key, as
// latched and as entered.
#[derive(Drop)]
pub struct Board<'a> {
    pub table: Table<'a>,
    pub rows: [u32; ROWS],
    pub entries: u32,
    pub state: State,
    pub hand: State,
    pub words: [u16; 8],
    pub bytes: [u8; 17],
}

impl<'a> Board<'a> {
    // All open, no key.
    pub fn blank(table: Table<'a>) -> Board<'a> {
        Board {
            table,
            rows: [0; ROWS],
            entries: 4096,
            state: states::open(),
            hand: states::open(),
            words: [0; 8],
            bytes: [0; 17],
        }
    }

    // Blank again: a scene begins.
    pub fn clear(&mut self) {
        let Table { rt, tally } = self.table;
        *self = Board::blank(Table { rt, tally });
    }

    // The rows that a call is lent.
    pub fn lent(&self) -> &[u32] {
        &self.rows[..(self.entries as usize).min(ROWS)]
    }
}
