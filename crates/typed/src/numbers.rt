// Numbers and keys as they are typed: decimal, or hexadecimal after 0x; a key is 32 hexadecimal digits.
ghost use Rattle.std.specs.Prelude.{◌≡◌, ◌≤◌, ◌<◌, IfSome};
ghost use Rattle.typed.specs.Numbers as spec;

// What a hexadecimal digit counts.
#[tactic(auto, using(crate::proofs::Digits::counts))]
fn digit(byte: u8) -> Option<u32>
    ensures value { result ≡ spec.digit_in 16 byte }
    ensures upper_bound { IfSome result (λ own. own < 16) }
{
    match byte {
        b'0'..=b'9' => Some(byte as u32 - 48),
        b'A'..=b'F' => Some(byte as u32 - 55),
        b'a'..=b'f' => Some(byte as u32 - 87),
        _ => None,
    }
}

// The number that digits spell.
fn number_in(base: u32, digits: &[u8]) -> Option<u32>
    requires { base ≤ 16 }
    ensures { result ≡ spec.number_in base digits.now }
{
    if digits.is_empty() {
        return None;
    }
    let mut value: u32 = 0;
    for byte in digits {
        let own = digit(*byte)?;
        if base <= own {
            return None;
        }
        value = value.checked_mul(base)?.checked_add(own)?;
    }
    Some(value)
}

// The number that a text spells.
#[tactic(auto, unfolding(crate::specs::Numbers::hexadecimal))]
pub fn of_text(text: &[u8]) -> Option<u32>
    ensures { result ≡ spec.number_of text.now }
{
    match text {
        [b'0', b'x' | b'X', digits @ ..] => number_in(16, digits),
        _ => number_in(10, text),
    }
}

// The key that a text spells.
pub fn key_of(text: &[u8]) -> Option<[u8; 16]>
    ensures { result ≡ spec.key_spelled text.now }
{
    if text.len() != 32 {
        return None;
    }
    let mut key = [0u8; 16];
    for (i, byte) in key.iter_mut().enumerate() {
        let high = digit(text[2 * i])?;
        let low = digit(text[2 * i + 1])?;
        *byte = (high * 16 + low) as u8;
    }
    Some(key)
}
