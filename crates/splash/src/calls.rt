// The card's calls of the face for C, as Rattle code has them: splash_c exports each. Each is the call of its own file, and what C takes of its answer.
ghost use Rattle.std.specs.Prelude.{◌≡◌};
ghost use Rattle.otp.specs.Flat.{flat_answer};
ghost use Rattle.splash.specs.Flat.{flat_card};
ghost use Rattle.splash.specs.Reading as reading;
ghost use Rattle.splash.specs.Writing as writing;

use crate::flat::FlatCard;
use crate::reading::read_card;
use crate::writing::write_card;
use chip::state::State;
use otp::flat::FlatAnswer;

// Reads the card.
pub fn otp_read_card(rows: &[u32], state: State) -> FlatCard
    ensures { result ≡ flat_card (reading.read_card rows.now state) }
{
    read_card(rows, state).into()
}

// Writes a card.
pub fn otp_write_card(
    area: &mut [u8],
    version: u32,
    width: u32,
    height: u32,
    line: u32,
) -> FlatAnswer
    ensures { (result ≡ flat_answer (writing.write_card area.old version width height line).answer)
        × (area.new ≡ (writing.write_card area.old version width height line).area) }
{
    write_card(area, version, width, height, line).into()
}
