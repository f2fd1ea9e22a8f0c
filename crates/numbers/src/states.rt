// States made by hand: the open one, and a state with one thing changed.
use chip::state::{Key, State};

// What reset must latch of blank rows: no lock and no key. A blank row is the plain row of 0.
pub fn open() -> State {
    let blank = Key {
        words: [0; 8],
        valid: false,
        whole: true,
    };
    let mut state = State::zeros();
    state.keys = [blank; 6];
    state
}

// With a level in a lock domain.
pub fn with_level(state: State, domain: u32, page: u32, level: u32) -> State {
    let mut next = state;
    let at = (page % 64) as usize;
    let levels = match domain {
        0 => &mut next.secure,
        1 => &mut next.nonsecure,
        _ => &mut next.bootloader,
    };
    levels[at] = (level % 256) as u8;
    next
}

// With the three levels of a page.
pub fn with_levels(state: State, page: u32, levels: [u32; 3]) -> State {
    let mut next = state;
    for (domain, level) in (0..).zip(levels) {
        next = with_level(next, domain, page, level);
    }
    next
}

pub fn with_indexes(state: State, page: u32, write: u32, read: u32, nokey: u32) -> State {
    let mut next = state;
    let at = (page % 64) as usize;
    next.writekey[at] = (write % 256) as u8;
    next.readkey[at] = (read % 256) as u8;
    next.nokey[at] = nokey == 1;
    next
}

// With key k, 1 to 6.
pub fn with_key(state: State, k: u32, key: Key) -> State {
    if k < 1 {
        return state;
    }
    let mut next = state;
    next.keys[((k - 1) % 6) as usize] = key;
    next
}

pub fn with_tally(state: State, page: u32, count: u32) -> State {
    let mut next = state;
    next.tallies[(page % 64) as usize] = (count % 65536) as u16;
    next
}

pub fn with_entered(state: State, words: [u16; 8]) -> State {
    let mut next = state;
    next.entered = words;
    next
}
