// A word as it is shown: control characters are made visible, so that no name acts on the terminal or passes for a line of its own. A name may
// be any bytes, and a Display type writes UTF-8 alone: so each byte goes to the screen as it is, and there is no such type.
use screen::say;
use screen::saying::said_bytes;

// Whether a byte is a control character, or ends one: after 0xc2 UTF-8 has those from 0x80 to 0x9f.
fn is_control(before: u8, code: u8) -> bool {
    code.is_ascii_control() || (before == 0xc2 && 0x80 <= code && code < 0xa0)
}

fn byte(rt: &HostRuntime, before: u8, code: u8) {
    if is_control(before, code) {
        say!(rt; "\\x{code:02x}");
        return;
    }
    said_bytes(rt, &[code]);
}

pub fn whole(rt: &HostRuntime, word: &[u8]) {
    let mut before = 0;
    for code in word {
        byte(rt, before, *code);
        before = *code;
    }
}

// The beginning of a word that is longer than any path.
pub fn beginning(rt: &HostRuntime, word: &[u8; 4096]) {
    whole(rt, &word[..60]);
    say!(rt; "...");
}
