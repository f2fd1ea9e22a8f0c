// What two images of a chip show of each other: all that the making of a job is refused by, found in one pass (request 2026-04).
ghost use Rattle.std.specs.Prelude.{◌≡◌, ◌≤◌, length};
ghost use Rattle.maker.specs.Comparing as spec;

use chip::pages::Page;
use chip::slices::MOST_HELD;

// Whether some row of either is too large, some row loses a bit, some row from 0xf40 up differs; and how many rows below that differ.
#[derive(Clone, Copy, Debug, Default, PartialEq, Eq)]
pub struct Compared {
    pub large: bool,
    pub lost: bool,
    pub kept: bool,
    pub changes: u32,
}

impl Compared {
    // With one row more. No test stops the pass, so that the compiler may take several rows at once.
    fn with_row(self, row: u32, present: u32, wanted: u32) -> Compared
        requires { self.changes ≤ 4096 }
        ensures { result ≡ spec.with_row self row present wanted }
    {
        let differs = present != wanted;
        Compared {
            large: self.large | ((MOST_HELD < present) | (MOST_HELD < wanted)),
            lost: self.lost | (present & wanted != present),
            kept: self.kept | ((Page::FIRST_KEPT_ROW <= row) & differs),
            changes: self.changes + u32::from((row < Page::FIRST_KEPT_ROW) & differs),
        }
    }
}

// All rows of two images.
pub(crate) fn all_compared(present: &[u32], wanted: &[u32]) -> Compared
    requires present_len { length present.now ≡ 4096 }
    requires wanted_len { length wanted.now ≡ 4096 }
    ensures { result ≡ spec.shown_below present.now wanted.now 4096 }
{
    let mut shown = Compared::default();
    // By its number, which a row is judged by: `zip` would count along besides. Of 32 bits, as a core of the desk counts.
    for row in 0..Page::CHIP_ROWS as u32 {
        let at = row as usize;
        shown = shown.with_row(row, present[at], wanted[at]);
    }
    shown
}
