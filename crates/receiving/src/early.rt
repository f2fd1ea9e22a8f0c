// What is said early of a job that is still coming, each fault once, as soon as its byte is there.
use form::entries::count_of;
use form::faults::Fault;
use lead::notes::Note;
use screen::say_line;
use wording::job_refusals;

// So many faults are said, and no more: one byte that is lost on the way can spoil every entry behind it.
const MOST_SAID: u32 = 8;

// Whether a fault was said before: each byte of a mark can spoil it, and so can each that is past the entries. `before` is the note before
// the byte.
fn known(area: &[u8], before: Note, fault: Fault, said: u32) -> bool {
    match fault {
        Fault::Mark => 0 < said,
        Fault::Length => 7 + 6 * count_of(area) < before.counted,
        _ => false,
    }
}

// Says a fault, where so many were said before it. How many were then, with the line that no more are said. One that cannot be written counts too:
// the job goes on coming, whether it is heard or not.
pub(crate) fn say(rt: &HostRuntime, area: &[u8], before: Note, fault: Fault, said: u32) -> u32 {
    if MOST_SAID < said || known(area, before, fault, said) {
        return said;
    }
    if said < MOST_SAID {
        job_refusals::early(rt, area, fault);
    } else {
        say_line!(rt; "early: further faults are not said");
    }
    said + 1
}
