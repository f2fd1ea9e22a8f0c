// Job bytes to entries (document 01, "Jobs").
ghost use Rattle.std.specs.Prelude.{◌≡◌, ℕ, ◌+◌, ◌*◌, ◌^◌, ◌≤◌, ◌<◌, List, length};
ghost use Rattle.form.specs.Entries as spec;

// One entry: a row, a kind (0 is ECC, 1 is raw) and a value. The kind stays the byte that stands there: of any other `Fault::Kind` tells, and
// `entry_at` (form: Entries) gives it.
#[derive(Clone, Copy, Debug, PartialEq, Eq)]
pub struct Entry {
    pub row: u32,
    pub kind: u32,
    pub value: u32,
}

// What a job's bytes are read from, one by one: the bytes that it has, and where it may be read.
trait ByteSource {
    ghost bytes: { Self → List ℕ };

    ghost end: { Self → ℕ };

    fn byte(&self, at: usize) -> u32
        requires { at < end self.now }
        ensures value { result ≡ spec.byte_at (bytes self.now) at }
        ensures upper_bound { result < 256 };
}

// A job that may be shorter than it says: past its end it reads as 0.
#[derive(Clone, Copy)]
struct Cut<'a> {
    job: &'a [u8],
}

impl<'a> ByteSource for Cut<'a> {
    ghost bytes = { λ cut. cut.job.now };

    // It may be read anywhere that a place can be counted: 2 ^ 41 is above every place that is asked for.
    ghost end = { λ cut. 2 ^ 41 };

    fn byte(&self, at: usize) -> u32 {
        byte_at(self.job, at)
    }
}

// Bytes of which all that is read is there: so that they are not asked for one by one.
#[derive(Clone, Copy)]
struct Whole<'a> {
    job: &'a [u8],
}

impl<'a> ByteSource for Whole<'a> {
    ghost bytes = { λ whole. whole.job.now };

    ghost end = { λ whole. length whole.job.now };

    fn byte(&self, at: usize) -> u32 {
        self.job[at] as u32
    }
}

// The byte at a place, and 0 past the end. By a test, since every byte of a job goes through here, and `get` is no plainer.
pub fn byte_at(job: &[u8], at: usize) -> u32
    ensures value { result ≡ spec.byte_at job.now at }
    ensures upper_bound { result < 256 }
{
    if at < job.len() { job[at] as u32 } else { 0 }
}

// A number of 16 bits, low byte first.
fn two_at<S: ByteSource>(source: &S, at: usize) -> u32
    requires { (at + 2 ≤ S.end source.now) × (at < 2 ^ 40) }
    ensures value { result ≡ spec.two_at (S.bytes source.now) at }
    ensures upper_bound { result < 65536 }
{
    source.byte(at) + 256 * source.byte(at + 1)
}

// A number of 24 bits, low byte first.
fn three_at<S: ByteSource>(source: &S, at: usize) -> u32
    requires { (at + 3 ≤ S.end source.now) × (at < 2 ^ 40) }
    ensures { result ≡ spec.three_at (S.bytes source.now) at }
{
    two_at(source, at) + 65536 * source.byte(at + 2)
}

// The entry whose bytes begin at a place.
fn entry_from<S: ByteSource>(source: &S, at: usize) -> Entry
    requires { (at + 6 ≤ S.end source.now) × (at < 2 ^ 39) }
    ensures { result ≡ spec.entry_from (S.bytes source.now) at }
{
    let row = two_at(source, at);
    let kind = source.byte(at + 2);
    let value = three_at(source, at + 3);
    Entry { row, kind, value }
}

// The version that a job says that it has.
pub fn version_of(job: &[u8]) -> u32
    ensures { result ≡ spec.version_of job.now }
{
    two_at(&Cut { job }, 3)
}

// How many entries a job says that it has.
pub fn count_of(job: &[u8]) -> u32
    ensures value { result ≡ spec.count_of job.now }
    ensures upper_bound { result < 65536 }
{
    two_at(&Cut { job }, 5)
}

// Entries are taken by their index: a refusal names it, and an iterator that counts along is no plainer.
// The i-th entry of a job. All entries of a sound job are whole: so its bytes are not asked for one by one.
#[tactic(auto, unfolding(crate::specs::Entries::entry_at))]
pub fn entry_at(job: &[u8], i: u32) -> Entry
    ensures { result ≡ spec.entry_at job.now i }
{
    let at = 7 + 6 * (i as usize);
    if at + 6 <= job.len() {
        return entry_from(&Whole { job }, at);
    }
    entry_from(&Cut { job }, at)
}

// The entry that some bytes begin with. A byte that is not there is 0.
pub fn first_entry(bytes: &[u8]) -> Entry
    ensures { result ≡ spec.entry_from bytes.now 0 }
{
    entry_from(&Cut { job: bytes }, 0)
}
