// One word of the command. It is known by its place, and read again where it is needed. What it is comes from outside: so a contract here says
// what is told of some word.
ghost use Rattle.std.specs.Prelude.{[], ◌∷◌, ◌≡◌, ◌≤◌, length};
ghost use Rattle.std.specs.Ptr.{as_ptr, as_mut_ptr};
ghost use Rattle.chip.specs.Lists.{same as same_lists};
ghost use Rattle.typed.specs.Numbers.{number_of, key_spelled};
ghost use Rattle.console.specs.Given.{SomeWord};
ghost use Rattle.std.specs.Io.{ReadsAtMost};

use crate::shown;
use std::env::{Env, FillError};
use typed::numbers;

// Puts a word at the start of some bytes: how long it is, or why not, where there is none or where it is longer. Then the bytes are its
// beginning.
pub(crate) fn put(rt: &HostRuntime, place: usize, bytes: &mut [u8]) -> Result<usize, FillError>
    ensures { ReadsAtMost result bytes.new }
{
    rt.arg(place, bytes)
}

// The same, where a word that is missing or longer is one of no bytes. It stands where the bytes begin, and is no longer than they are.
pub(crate) fn read<'a>(rt: &HostRuntime, place: usize, bytes: &'a mut [u8]) -> &'a [u8]
    ensures beginning { as_ptr result ≡ as_mut_ptr bytes.entry }
    ensures upper_bound { length result.now ≤ length bytes.old }
{
    let n = put(rt, place, bytes).unwrap_or(0);
    &bytes[..n]
}

// How many words there are, the program's name among them.
pub(crate) fn arg_count(rt: &HostRuntime) -> usize {
    let mut none = [0u8; 0];
    for place in 0..usize::MAX {
        if let Err(FillError::NotPresent) = rt.arg(place, &mut none) {
            return place;
        }
    }
    usize::MAX
}

// Whether a word is the one named, which is shorter than 16 bytes.
#[tactic(auto, using(chip::proofs::Same::same_as))]
pub fn is(rt: &HostRuntime, place: usize, name: &[u8]) -> bool
    ensures { SomeWord (λ word. result ≡ same_lists word name.now) }
{
    let mut word = [0u8; 16];
    read(rt, place, &mut word) == name
}

// Whether the program is only to say which files the command would read and write. The script ./otp asks that first.
pub fn naming(rt: &HostRuntime) -> bool
    ensures { SomeWord (λ word. result ≡ same_lists word (45 ∷ 45 ∷ 110 ∷ 97 ∷ 109 ∷ 101 ∷ 115 ∷ [])) }
{
    is(rt, 1, b"--names")
}

// The place of the command's name.
pub fn command(rt: &HostRuntime) -> usize
    ensures { (1 ≤ result) × (result ≤ 2) }
{
    if naming(rt) { 2 } else { 1 }
}

// Whether a word is an option.
pub(crate) fn is_option(rt: &HostRuntime, place: usize) -> bool {
    let mut word = [0u8; 16];
    let _ = put(rt, place, &mut word);
    word[0] == b'-'
}

// The number that a word spells.
pub fn number(rt: &HostRuntime, place: usize) -> Option<u32>
    ensures { SomeWord (λ word. result ≡ number_of word) }
{
    let mut word = [0u8; 32];
    numbers::of_text(read(rt, place, &mut word))
}

// The key that a word spells.
pub fn key(rt: &HostRuntime, place: usize) -> Option<[u8; 16]>
    ensures { SomeWord (λ word. result ≡ key_spelled word) }
{
    let mut word = [0u8; 48];
    numbers::key_of(read(rt, place, &mut word))
}

// A word on the screen, or the beginning of one that is longer than any path. A word that is not there has no bytes.
pub fn print(rt: &HostRuntime, place: usize) {
    let mut word = [0u8; 4096];
    match put(rt, place, &mut word) {
        Ok(n) => shown::whole(rt, &word[..n]),
        Err(FillError::TooLong) => shown::beginning(rt, &word),
        Err(FillError::NotPresent) => {}
    }
}
