// `otp dump`: the rows that hold bits, or all rows of a range.
ghost use Rattle.std.specs.Prelude.{◌≡◌, IfOk};

use crate::dump_lines;
use board::begin::{begin, finish};
use board::range;
use console::ended::{End, Stop};
use console::takes::{Role, Takes};
use console::usage::asked;

pub fn run(rt: &HostRuntime) -> Result<End, Stop>
    ensures { IfOk result (λ end. end ≡ End.Answered 0) }
{
    let words = asked(rt, Takes::on_image(Role::Other, 1, 3))?;
    let range = if words.second.is_none() {
        range::held_before(4096)
    } else {
        range::named(rt, words)?
    };
    let mut rows = [0u32; 4096];
    let state = begin(rt, words, &mut rows)?;
    dump_lines::show(rt, &rows, state, range);
    finish(rt, words, state, 0)
}
