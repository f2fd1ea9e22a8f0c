// The calls on the state alone: advance a lock, show a lock, enter a key (document 01, "Locks" and "Keys"; request 2026-05).
ghost use Rattle.std.specs.Prelude.{◌≡◌, ◌≤◌, length};
ghost use Rattle.answer.specs.Refusals.{number_of};
ghost use Rattle.lock.specs.Calls as spec;

use answer::answers::{Answer, done, told};
use answer::refusals::Refusal;
use chip::callers::{BOOTLOADER, LAST_CALLER, LAST_DOMAIN, NONSECURE, SECURE, shown_level};
use chip::pages::Page;
use chip::state::{Outcome, State, refusal};
use std::array;

// Callers, domains, pages and levels are numbers here, since any number may come in, from C too, and each call says which it refuses.
// They go in each by itself, as C's calls take them.

// Whether a show is refused. An advance is refused for the same first.
fn check_show(caller: u32, domain: u32, page: u32) -> Result<(), Refusal>
    ensures { number_of result ≡ spec.show_number caller domain page }
{
    if LAST_CALLER < caller {
        return Err(Refusal::NoSuchNumber);
    }
    if LAST_DOMAIN < domain {
        return Err(Refusal::NoSuchNumber);
    }
    if Page::LAST < page {
        return Err(Refusal::NoSuchNumber);
    }
    Ok(())
}

// Whether an advance is refused.
#[tactic(auto, using(answer::proofs::Numbered::not_done))]
fn check_advance(caller: u32, domain: u32, page: u32, level: u32) -> Result<(), Refusal>
    ensures { number_of result ≡ spec.advance_number caller domain page level }
{
    check_show(caller, domain, page)?;
    if 2 < level {
        return Err(Refusal::NoSuchNumber);
    }
    if domain == BOOTLOADER {
        return Err(Refusal::NotPermitted);
    }
    if caller == BOOTLOADER {
        return Err(Refusal::NotPermitted);
    }
    if caller == NONSECURE && domain == SECURE {
        return Err(Refusal::NotPermitted);
    }
    Ok(())
}

// Leaves the higher of the present and the asked level.
#[tactic(auto, using(answer::proofs::Numbered::not_done, crate::proofs::Ladders::advance_passed), unfolding(crate::specs::Calls::advance))]
pub fn advance(state: State, caller: u32, domain: u32, page: u32, level: u32) -> Outcome
    ensures { result ≡ spec.advance state caller domain page level }
{
    // Not by a `match` with an outcome in each arm: by that one state more stood on the stack.
    if let Err(refused) = check_advance(caller, domain, page, level) {
        return refusal(refused.number(), state);
    }
    let answer = done();
    let next = advanced(state, domain, page, level);
    Outcome {
        answer,
        state: next,
    }
}

// The state with a page's soft lock advanced. An equal or lower level changes nothing.
fn advanced(state: State, domain: u32, page: u32, level: u32) -> State
    requires { (page ≤ 63) × (level ≤ 2) }
    ensures { result ≡ spec.advanced state domain page level }
{
    let shown = shown_level(state, domain, Page { number: page as u8 });
    let mut next = state;
    let at = page as usize;
    if shown < level {
        if domain == SECURE {
            next.secure[at] = level as u8;
        } else if domain == NONSECURE {
            next.nonsecure[at] = level as u8;
        }
    }
    next
}

// The level of a page in a lock domain, to any caller.
#[tactic(auto, using(answer::proofs::Numbered::not_done, crate::proofs::Ladders::show_passed), unfolding(crate::specs::Calls::show_lock))]
pub fn show(state: State, caller: u32, domain: u32, page: u32) -> Answer
    ensures { result ≡ spec.show_lock state caller domain page }
{
    match check_show(caller, domain, page) {
        Ok(()) => told(shown_level(state, domain, Page { number: page as u8 })),
        Err(refusal) => refusal.into(),
    }
}

// Whether entering a key is refused.
fn check_enter(caller: u32, key: &[u8]) -> Result<(), Refusal>
    ensures { number_of result ≡ spec.enter_number caller key.now }
{
    if LAST_CALLER < caller {
        return Err(Refusal::NoSuchNumber);
    }
    if key.len() != 16 {
        return Err(Refusal::NoSuchNumber);
    }
    if caller != SECURE {
        return Err(Refusal::NotPermitted);
    }
    Ok(())
}

// The words of a key's 16 bytes, low byte first.
fn key_words(key: &[u8]) -> [u16; 8]
    requires { length key.now ≡ 16 }
    ensures { result ≡ spec.key_words key.now }
{
    array::from_fn(|i| key[2 * i] as u16 + 256 * (key[2 * i + 1] as u16))
}

// Enters a key, against which the registered ones are compared until a reset or another one is entered.
#[tactic(auto, using(answer::proofs::Numbered::not_done, crate::proofs::Ladders::enter_passed), unfolding(crate::specs::Calls::enter_key))]
pub fn enter_key(state: State, caller: u32, key: &[u8]) -> Outcome
    ensures { result ≡ spec.enter_key state caller key.now }
{
    // As in `advance`; and the state is copied as a whole, as in burn's `beside`.
    if let Err(refused) = check_enter(caller, key) {
        return refusal(refused.number(), state);
    }
    let words = key_words(key);
    let mut next = state;
    next.entered = words;
    Outcome {
        answer: done(),
        state: next,
    }
}
