// The pages of the chip (document 01, "Locks").
ghost use Rattle.std.specs.Prelude.{◌≡◌};
ghost use Rattle.chip.specs.Pages as spec;

// A page by its number. Number 64 is no page. It is no `Option`: what is counted of a page is promised of every number
// (`counted_level`, `shown_level`), of those past the last too.
#[derive(Clone, Copy, Debug, PartialEq, Eq)]
pub struct Page {
    pub number: u8,
}

impl Page {
    // Pages of a chip.
    pub const COUNT: usize = 64;

    // The last page.
    pub const LAST: u32 = 63;

    // Rows of a page.
    pub const ROWS: u32 = 64;

    // Rows of a chip.
    pub const CHIP_ROWS: usize = 4096;

    // The last row of a chip.
    pub const LAST_ROW: u32 = 4095;

    // Past the data rows: the keys, their valid flags and the lock words.
    pub const FIRST_KEPT_ROW: u32 = 0xf40;

    // The first row of key 1. Each key has eight.
    pub const FIRST_KEY_ROW: u32 = 0xf48;

    // Past the rows of key 6. The valid flag of key k is k rows on.
    pub const PAST_KEY_ROWS: u32 = 0xf78;

    // The low lock row of page 0.
    pub const FIRST_LOCK_ROW: u32 = 0xf80;

    // The first row of the page.
    pub fn first_row(self) -> u32
        ensures { result ≡ spec.first_row self.number }
    {
        Page::ROWS * (self.number as u32)
    }

    // The low row of the page's lock word.
    pub fn low_lock_row(self) -> u32
        ensures { result ≡ spec.low_lock_row self.number }
    {
        Page::FIRST_LOCK_ROW + 2 * (self.number as u32)
    }

    // The high row of the page's lock word.
    pub fn high_lock_row(self) -> u32
        ensures { result ≡ spec.high_lock_row self.number }
    {
        Page::FIRST_LOCK_ROW + 1 + 2 * (self.number as u32)
    }

    // The page whose levels a row goes by: of a lock row the one that it locks, and of any other the one that it is in.
    pub fn owner(row: u32) -> Page
        ensures { result.number ≡ spec.owner row }
    {
        if row < Page::FIRST_LOCK_ROW || Page::LAST_ROW < row {
            return Page::key_page(row);
        }
        Page {
            number: ((row - Page::FIRST_LOCK_ROW) / 2) as u8,
        }
    }

    // The page whose key settings a row goes by: the one that it is in, of lock rows too. Past the last row there is no page.
    pub fn key_page(row: u32) -> Page
        ensures { result.number ≡ spec.key_page row }
    {
        // Not by `min`: by that the end of a job took more than 3 KiB of stack on the Cortex-M33.
        if Page::LAST_ROW < row {
            return Page { number: 64 };
        }
        Page {
            number: (row / Page::ROWS) as u8,
        }
    }
}
