// How many places of a row something holds at.
ghost use Rattle.std.specs.Prelude.{◌<◌, ◌≤◌};

// How many of the places below a count it holds at.
pub fn places<F: Fn(u32) -> bool>(below: u32, holds: F) -> u32
    requires { (place : _) → place < below → F.pre holds place }
    ensures { result ≤ below }
{
    let mut held = 0;
    for place in 0..below {
        if holds(place) {
            held += 1;
        }
    }
    held
}
