// What stands at a place of a job's bytes: an entry, the end, or 10 (request 2026-04).
ghost use Rattle.std.specs.Prelude.{◌≡◌};
ghost use Rattle.reader.specs.Handing as spec;

use form::entries::{Entry, first_entry};
use form::faults::form_fault;

// What is handed over: an entry; the end of the bytes; or that no entry stands there, which is 10. It stays an enum of its own: as
// `Result<Option<Entry>, Refusal>` any refusal could stand where 10 alone can, so that it would be no plainer.
#[derive(Clone, Copy, Debug, PartialEq, Eq)]
pub enum Found {
    Entry(Entry),
    End,
    Malformed,
}

// What was found at a place, and the place after it. At the end and at 10 that is the same place.
#[derive(Clone, Copy, Debug, PartialEq, Eq)]
pub struct Handed {
    pub found: Found,
    pub at: usize,
}

// Hands over what stands at a place. It reads no head, and judges no row.
#[tactic(auto, using(crate::proofs::Parts::from_there, crate::proofs::Parts::malformed), unfolding(crate::specs::Handing::found_at))]
pub fn handed_at(job: &[u8], at: usize) -> Handed
    ensures { result ≡ spec.handed_at job.now at }
{
    let stays = |found| Handed { found, at };
    if job.len() <= at {
        return stays(Found::End);
    }
    if job.len() - at < 6 {
        return stays(Found::Malformed);
    }
    let entry = first_entry(&job[at..]);
    if form_fault(0, entry).is_err() {
        return stays(Found::Malformed);
    }
    Handed {
        found: Found::Entry(entry),
        at: at + 6,
    }
}
