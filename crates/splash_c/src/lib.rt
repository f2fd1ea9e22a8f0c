// libsplash.a: the two calls that include/splash.h declares for C. Each is the call of that name in splash, and promises the same.
#![tactic(auto)]

ghost use Rattle.std.specs.Prelude.{◌≡◌};
ghost use Rattle.otp.specs.Flat.{flat_answer};
ghost use Rattle.splash.specs.Flat.{flat_card};
ghost use Rattle.splash.specs.Reading as reading;
ghost use Rattle.splash.specs.Writing as writing;

use chip::state::State;
use otp::flat::FlatAnswer;
use splash::calls;
use splash::flat::FlatCard;

// Reads the card.
#[unsafe(no_mangle)]
pub extern "C" fn otp_read_card(rows: &[u32], state: State) -> FlatCard
    ensures { result ≡ flat_card (reading.read_card rows.now state) }
{
    calls::otp_read_card(rows, state)
}

// Writes a card.
#[unsafe(no_mangle)]
pub extern "C" fn otp_write_card(
    area: &mut [u8],
    version: u32,
    width: u32,
    height: u32,
    line: u32,
) -> FlatAnswer
    ensures { (result ≡ flat_answer (writing.write_card area.old version width height line).answer)
        × (area.new ≡ (writing.write_card area.old version width height line).area) }
{
    calls::otp_write_card(area, version, width, height, line)
}
