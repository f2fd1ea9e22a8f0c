// Whether the words fit the command. Where they do not, one line says so, and the command has ended.
ghost use Rattle.std.specs.Prelude.{◌≡◌, IfErr, IfNone, IsErrAnd, MatchResult};
ghost use Rattle.typed.specs.Numbers.{number_of};
ghost use Rattle.console.specs.Ends.{StopsWith};
ghost use Rattle.console.specs.Given as spec;

use crate::ended::{End, Stop};
use crate::file_errors::said;
use crate::options::{Odd, Words};
use crate::takes::Takes;
use crate::{names, word};
use screen::say_line;

// A word that is not what it must be.
pub fn wrong<T>(rt: &HostRuntime, place: usize, why: &str) -> Result<T, Stop>
    ensures { IsErrAnd result (StopsWith End.Usage) }
{
    said(rt, place);
    say_line!(rt; "{why}");
    Err(Stop(End::Usage))
}

pub fn not_a_number<T>(rt: &HostRuntime, place: usize) -> Result<T, Stop>
    ensures { IsErrAnd result (StopsWith End.Usage) }
{
    wrong(
        rt,
        place,
        "not a number of 32 bits, decimal or hexadecimal after 0x",
    )
}

// The number that a word spells, which must be one.
pub fn number(rt: &HostRuntime, place: usize) -> Result<u32, Stop>
    ensures { MatchResult result (λ own. spec.SomeWord (λ word. number_of word ≡ Some own)) (StopsWith End.Usage) }
{
    match word::number(rt, place) {
        Some(number) => Ok(number),
        None => not_a_number(rt, place),
    }
}

// No command is named, or none that there is.
pub fn no_command<T>(rt: &HostRuntime) -> Result<T, Stop>
    ensures { IsErrAnd result (StopsWith End.Usage) }
{
    let place = word::command(rt);
    if word::arg_count(rt) <= place {
        say_line!(rt; "otp: no command; ./otp help shows them");
        return Err(Stop(End::Usage));
    }
    wrong(rt, place, "no such command; ./otp help shows them")
}

// A word that fits nowhere.
fn misfit(rt: &HostRuntime, place: usize) -> Result<(), Stop>
    ensures { IsErrAnd result (StopsWith End.Usage) }
{
    wrong(
        rt,
        place,
        "this word does not fit here; ./otp help shows what does",
    )
}

// A word that the command takes is not there.
fn missing<T>(rt: &HostRuntime) -> Result<T, Stop>
    ensures { IsErrAnd result (StopsWith End.Usage) }
{
    wrong(
        rt,
        word::command(rt),
        "a word is missing; ./otp help shows what it takes",
    )
}

// The place of a word that the command takes.
pub fn needed(rt: &HostRuntime, place: Option<usize>) -> Result<usize, Stop>
    ensures { MatchResult result (λ own. place ≡ Some own) (StopsWith End.Usage) }
{
    match place {
        Some(own) => Ok(own),
        None => missing(rt),
    }
}

// How many words follow no option.
fn count(words: Words) -> usize
    ensures { result ≡ spec.count_of words }
{
    match (words.first, words.second, words.third) {
        (_, _, Some(_)) => 3,
        (_, Some(_), None) => 2,
        (Some(_), None, None) => 1,
        (None, None, None) => 0,
    }
}

// The place of the last of them.
fn last(words: Words) -> Option<usize>
    ensures { IfNone result (spec.count_of words ≡ 0) }
{
    words.third.or(words.second).or(words.first)
}

// The place before one: that of an option, by the place of its value.
fn before(place: usize) -> usize {
    place.saturating_sub(1)
}

// The place of the first option that a command does not take.
fn stray(words: Words, takes: Takes) -> Option<usize> {
    if !takes.key
        && let Some(value) = words.key
    {
        return Some(before(value));
    }
    if !takes.save
        && let Some(value) = words.save
    {
        return Some(before(value));
    }
    if !takes.replace && words.replace.is_some() {
        return words.replace;
    }
    if !takes.rows
        && let Some(value) = words.rows
    {
        return Some(before(value));
    }
    if takes.ways { None } else { stray_way(words) }
}

// The place of an option that only `read` takes.
fn stray_way(words: Words) -> Option<usize> {
    match (words.vote, words.caller) {
        (Some(value), _) | (None, Some(value)) => Some(before(value)),
        (None, None) => words.raw.or(words.nonsecure),
    }
}

// Ends the command where the words are not its own: one line says so.
fn fit(rt: &HostRuntime, words: Words, odd: Result<(), Odd>, takes: Takes) -> Result<(), Stop>
    ensures judged { spec.Judged takes words result }
    ensures stop { IfErr result (StopsWith End.Usage) }
{
    let own = count(words);
    if let Err(Odd::Misfit(place)) = odd {
        return misfit(rt, place);
    }
    if let Some(place) = last(words)
        && takes.most < own
    {
        return misfit(rt, place);
    }
    if let Some(place) = stray(words, takes) {
        return misfit(rt, place);
    }
    if let Err(Odd::NoValue(place)) = odd {
        return wrong(rt, place, "its value is missing; ./otp help shows it");
    }
    if own < takes.least {
        return missing(rt);
    }
    if let Err(Odd::Twice(place)) = odd {
        return wrong(rt, place, "given twice");
    }
    match words.replace {
        Some(place) if takes.save && words.save.is_none() => wrong(
            rt,
            place,
            "it goes with --save",
        ),
        _ => Ok(()),
    }
}

// Takes the words. Where they do not fit, or where only the names of the files are asked for, the command has ended.
pub fn asked(rt: &HostRuntime, takes: Takes) -> Result<Words, Stop>
    ensures { spec.Fits takes result }
{
    let mut words = Words::default();
    let odd = words.take_all(rt);
    fit(rt, words, odd, takes)?;
    if word::naming(rt) {
        names::lines(rt, words, takes);
        return Err(Stop(End::Answered(0)));
    }
    Ok(words)
}
