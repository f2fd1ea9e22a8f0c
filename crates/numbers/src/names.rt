// The names that a line of a scene can begin with.

#[derive(Clone, Copy, Debug, PartialEq, Eq)]
pub enum Name {
    ReadRaw,
    ReadEcc,
    ReadVote,
    WriteRaw,
    WriteEcc,
    Reset,
    Advance,
    Show,
    EnterKey,
    // From here on they prepare.
    Entries,
    Row,
    Open,
    Levels,
    Indexes,
    Words,
    Bytes,
    Key,
    Entered,
    Tally,
}

// Every name, with the blanks that fill its column.
const NAMES: [(&[u8; 9], Name); 19] = [
    (b"read raw ", Name::ReadRaw),
    (b"read ECC ", Name::ReadEcc),
    (b"read vote", Name::ReadVote),
    (b"write raw", Name::WriteRaw),
    (b"write ECC", Name::WriteEcc),
    (b"reset    ", Name::Reset),
    (b"advance  ", Name::Advance),
    (b"show     ", Name::Show),
    (b"enter key", Name::EnterKey),
    (b"entries  ", Name::Entries),
    (b"row      ", Name::Row),
    (b"open     ", Name::Open),
    (b"levels   ", Name::Levels),
    (b"indexes  ", Name::Indexes),
    (b"words    ", Name::Words),
    (b"bytes    ", Name::Bytes),
    (b"key      ", Name::Key),
    (b"entered  ", Name::Entered),
    (b"tally    ", Name::Tally),
];

// The first name that begins with the head of a line, if there is one.
pub fn named(head: &[u8]) -> Option<Name> {
    for (name, own) in NAMES {
        if name.starts_with(head) {
            return Some(own);
        }
    }
    None
}
