// `otp code`: the code of a value, and the two rows that hold it (document 01, "A row with ECC").
ghost use Rattle.std.specs.Prelude.{◌≡◌, ◌⊎◌, IfOk};

use console::ended::{End, Stop};
use console::takes::{Role, Takes};
use console::usage::{asked, needed, number};
use row::coding::{code, inverted, plain};
use screen::say_line;
use screen::shown::{Bits, FIELD_TITLES, Fields, Value};
use wording::refusals;

fn row_line(rt: &HostRuntime, name: &str, row: u32) {
    say_line!(rt; "{name:<10}{}  {}", Bits(row), Fields(row));
}

// The value, its code, behind which stand the titles of the fields that the rows below it have, and the rows.
fn show(rt: &HostRuntime, value: u16) {
    say_line!(rt; "{:<10}{} = {value}", "value", Value(u32::from(value)));
    say_line!(rt; "{:<10}{}  {FIELD_TITLES}", "code", Bits(code(value)));
    row_line(rt, "plain", plain(value));
    row_line(rt, "inverted", inverted(value));
}

pub fn run(rt: &HostRuntime) -> Result<End, Stop>
    ensures { IfOk result (λ end. (end ≡ End.Answered 0) ⊎ (end ≡ End.Answered 4)) }
{
    let words = asked(rt, Takes::words(Role::Other, Role::Other, 1, 1))?;
    let value = number(rt, needed(rt, words.first)?)?;
    let Ok(value) = u16::try_from(value) else {
        refusals::because(rt, 4, "ECC value above 65,535");
        return Ok(End::Answered(4));
    };
    show(rt, value);
    Ok(End::Answered(0))
}
