// `otp wear`: the rows whose ECC read shows wear, of those that hold bits or of a range.
ghost use Rattle.std.specs.Prelude.{◌≡◌, IfOk};

use crate::wear_lines;
use board::begin::{begin, finish};
use board::range;
use chip::pages::Page;
use console::ended::{End, Stop};
use console::takes::{Role, Takes};
use console::usage::asked;

// Without a range: the rows below those of the keys and locks that hold bits.
pub fn run(rt: &HostRuntime) -> Result<End, Stop>
    ensures { IfOk result (λ end. end ≡ End.Answered 0) }
{
    let words = asked(rt, Takes::on_image(Role::Other, 1, 3))?;
    let range = if words.second.is_none() {
        range::held_before(Page::FIRST_KEPT_ROW)
    } else {
        range::from_first_to_last(rt, words)?
    };
    let mut rows = [0u32; 4096];
    let state = begin(rt, words, &mut rows)?;
    wear_lines::show(rt, &rows, state, range);
    finish(rt, words, state, 0)
}
