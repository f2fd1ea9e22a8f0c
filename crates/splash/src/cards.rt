// The card: where it stands, and the sizes that it may have (request 2026-12).
ghost use Rattle.std.specs.Prelude.{◌≡◌};
ghost use Rattle.splash.specs.Cards as spec;

// What a card says: its version, the width and the height of the logo, and the bytes in a line.
#[derive(Clone, Copy, Debug, PartialEq, Eq)]
pub struct Card {
    pub version: u32,
    pub width: u32,
    pub height: u32,
    pub line: u32,
}

impl Card {
    // The rows of a card, in page 3. The sixth is that of the bytes in a line, which version 2 has.
    pub const FIRST_ROW: u32 = 0x0c0;

    pub const SECOND_ROW: u32 = 0x0c1;

    pub const VERSION_ROW: u32 = 0x0c2;

    pub const WIDTH_ROW: u32 = 0x0c3;

    pub const HEIGHT_ROW: u32 = 0x0c4;

    pub const LINE_ROW: u32 = 0x0c5;

    // The mark: what its first two rows hold.
    pub const FIRST_MARK: u32 = 0x5053;

    pub const SECOND_MARK: u32 = 0x004c;

    // The largest sizes.
    pub const WIDEST: u32 = 320;

    pub const HIGHEST: u32 = 240;

    pub const LONGEST_LINE: u32 = 1024;

    // The card of four numbers. Version 2 has a line of its own, and that of version 1 is its width.
    pub fn of(version: u32, width: u32, height: u32, line: u32) -> Card
        ensures { result ≡ spec.card_of version width height line }
    {
        let line = if version == 2 { line } else { width };
        Card {
            version,
            width,
            height,
            line,
        }
    }

    // Whether each size is in its range.
    pub fn in_range(self) -> bool
        ensures { result ≡ spec.in_range self }
    {
        (1..=Card::WIDEST).contains(&self.width)
            && (1..=Card::HIGHEST).contains(&self.height)
            && (self.width..=Card::LONGEST_LINE).contains(&self.line)
    }
}

// Whether two values are the mark.
pub fn is_mark(first: u32, second: u32) -> bool
    ensures { result ≡ spec.is_mark first second }
{
    first == Card::FIRST_MARK && second == Card::SECOND_MARK
}

// Whether a version is known. It stays a number: a card may be asked for with any.
pub fn known_version(version: u32) -> bool
    ensures { result ≡ spec.known_version version }
{
    matches!(version, 1 | 2)
}
