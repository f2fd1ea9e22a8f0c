// What every command on an image begins and ends with: the image, a reset, the key where one is given; and whether that key opened anything.
ghost use Rattle.std.specs.Prelude.{◌≡◌, IfErr, IfOk};
ghost use Rattle.chip.specs.States.{zeros};
ghost use Rattle.latch.specs.Resetting.{reset as reset_of};
ghost use Rattle.lock.specs.Calls.{enter_key as enter_by};
ghost use Rattle.console.specs.Ends.{StopsWith};
ghost use Rattle.board.specs.Begins as spec;

use crate::reset_refusals;
use chip::callers::SECURE;
use chip::state::State;
use console::ended::{End, Stop};
use console::options::Words;
use console::{files, usage, word};
use latch::resetting::reset;
use lock::calls::enter_key;
use permit::keys::matches;
use screen::say_line;

// The image after a reset. Where that is refused, the lines of the refusal have said so.
pub fn after_reset(rt: &HostRuntime, rows: &[u32]) -> Result<State, Stop>
    ensures begun { spec.begun_by result ≡ spec.after_reset rows.now }
    ensures stop { IfErr result (StopsWith (End.Answered (reset_of rows.now zeros).answer.number)) }
{
    let outcome = reset(rows, State::zeros());
    let number = outcome.answer.number;
    // By its number: an answer of the library has one, and is no result.
    if number != 0 {
        reset_refusals::lines(rt, number, rows);
        return Err(Stop(End::Answered(number)));
    }
    Ok(outcome.state)
}

// The key at a place.
fn key_at(rt: &HostRuntime, place: usize) -> Result<[u8; 16], Stop>
    ensures { IfErr result (StopsWith End.Usage) }
{
    match word::key(rt, place) {
        Some(key) => Ok(key),
        None => usage::wrong(rt, place, "not a key, which is 32 hexadecimal digits"),
    }
}

// The chip with a key, which is entered by Secure, the only caller that may.
fn keyed(state: State, key: &[u8; 16]) -> State
    ensures { result ≡ (enter_by state 0 key.now).state }
{
    enter_key(state, SECURE, key).state
}

// Loads the image that the first word names into `rows`, resets it and enters the key.
pub fn begin(rt: &HostRuntime, words: Words, rows: &mut [u32; 4096]) -> Result<State, Stop>
    ensures { IfOk result (λ chip. spec.Begins rows.new (spec.begun_by (Ok chip))) }
{
    let key = match words.key {
        Some(place) => Some(key_at(rt, place)?),
        None => None,
    };
    let image = usage::needed(rt, words.first)?;
    files::load_image(rt, image, rows)?;
    let state = after_reset(rt, rows)?;
    match key {
        Some(key) => Ok(keyed(state, &key)),
        None => Ok(state),
    }
}

// The last lines of a command on an image. Where a key was given and matches none, one says so: without it a slip in a digit would look
// like a lock.
pub fn finish(rt: &HostRuntime, words: Words, state: State, number: u32) -> Result<End, Stop>
    ensures { IfOk result (λ end. end ≡ End.Answered number) }
{
    if words.key.is_some() && !(1..7).any(|index| matches(state, index)) {
        say_line!(rt; "The key entered matches no valid key.");
    }
    Ok(End::Answered(number))
}
