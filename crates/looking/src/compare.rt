// `otp compare`: two images, as a rehearsal beside a board that was burnt, and each row where they differ. Bits that the second lacks
// and bits that it has more are told apart: the first can still be burnt, the others never go.
ghost use Rattle.std.specs.Prelude.{◌≡◌, ◌⊎◌, IfOk};

use crate::differences;
use board::begin::after_reset;
use console::ended::{End, Stop};
use console::files::load_image;
use console::takes::{Role, Takes};
use console::usage::{asked, needed};
use console::word;
use screen::{say, say_line};

// Ends the command where an image is none that a reset takes. Its name, "A  rehearsed.img", says which of the two it is where it is not, and the lines of the
// reset why.
fn taken(rt: &HostRuntime, name: &str, place: usize, rows: &[u32; 4096]) -> Result<(), Stop> {
    say!(rt; "{name:<3}");
    word::print(rt, place);
    say_line!(rt; "");
    after_reset(rt, rows)?;
    Ok(())
}

pub fn run(rt: &HostRuntime) -> Result<End, Stop>
    ensures { IfOk result (λ end. (end ≡ End.Answered 0) ⊎ (end ≡ End.Different)) }
{
    let words = asked(rt, Takes::words(Role::Image, Role::Image, 2, 2))?;
    let first = needed(rt, words.first)?;
    let second = needed(rt, words.second)?;
    let mut a = [0u32; 4096];
    load_image(rt, first, &mut a)?;
    let mut b = [0u32; 4096];
    load_image(rt, second, &mut b)?;
    taken(rt, "A", first, &a)?;
    taken(rt, "B", second, &b)?;
    say_line!(rt; "");
    Ok(differences::show(rt, &a, &b))
}
