// A reader keeps the lent bytes of a job and its place, and hands over one entry at a time (document 01, "Which form to use where"; request
// 2026-04). Its functions are thin: each takes it apart and calls what decodes. Who has plain bytes and a place calls `next_entry`.
ghost use Rattle.std.specs.Prelude.{◌≡◌};
ghost use Rattle.reader.specs.Handing.{handed_at};

use crate::handing::{Handed, handed_at};

// The bytes, and the place of what is handed over next. Any place may stand there.
#[derive(Drop)]
pub struct Reader<'a> {
    pub job: &'a [u8],
    pub at: usize,
}

// The first entry of a job stands here, behind its head.
pub const FIRST_ENTRY: usize = 7;

impl<'a> Reader<'a> {
    // A reader of a job, at its first entry.
    pub fn start(job: &'a [u8]) -> Reader<'a>
        ensures { (result.job ≡ job.entry) × (result.at ≡ 7) }
    {
        Reader {
            job,
            at: FIRST_ENTRY,
        }
    }

    // What stands at the reader's place, which stays where it is.
    pub fn look(&self) -> Handed
        ensures { result ≡ handed_at self.now.job.now self.now.at }
    {
        handed_at(self.job, self.at)
    }

    // Hands over what stands at the reader's place. It then stands after an entry; at the end and at 10 it stays put.
    pub fn next(&mut self) -> Handed
        ensures { (result ≡ handed_at self.old.job.now self.old.at)
            × (self.new.job ≡ self.old.job)
            × (self.new.at ≡ (handed_at self.old.job.now self.old.at).at) }
    {
        let handed = self.look();
        self.at = handed.at;
        handed
    }
}

// The same of plain bytes and a place: what a reader there hands over, and where it then stands.
pub fn next_entry(job: &[u8], at: usize) -> Handed
    ensures { result ≡ handed_at job.now at }
{
    Reader { job, at }.look()
}
