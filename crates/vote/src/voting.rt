// Votes over gathered rows (document 01, "Votes").
ghost use Rattle.std.specs.Prelude.{◌≡◌, ◌<◌, ◌≤◌, take};
ghost use Rattle.vote.specs.Voting as spec;

// Eight gathered rows, of which the first few count.
pub type Gathered = [u32; 8];

// How many of `count` rows must have a bit: two of three, three of eight.
pub fn threshold(count: u32) -> u32
    ensures { result ≡ spec.threshold count }
{
    if count == 3 { 2 } else { 3 }
}

// How many of the first `count` rows have the bit at a place. All eight are gone over, and those past the count add nothing: a loop of one length
// is compiled to better code.
fn holders(rows: Gathered, count: usize, place: u32) -> u32
    requires { (count ≤ 8) × (place < 32) }
    ensures { result ≡ spec.holders place (take count rows) }
{
    let mut held = 0;
    for i in 0..8 {
        if i < count {
            held += (rows[i] >> place) % 2;
        }
    }
    held
}

// The vote of the first `count` of eight gathered rows: each of the 24 bits is judged by itself.
pub fn vote(rows: Gathered, count: u32, threshold: u32) -> u32
    ensures { result ≡ spec.vote threshold (take count rows) }
{
    let counted = count.min(8) as usize;
    let mut voted = 0;
    for place in 0..24 {
        if threshold <= holders(rows, counted, place) {
            voted += 1 << place;
        }
    }
    voted
}
