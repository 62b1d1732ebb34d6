// Bytes as hex digits in lower case, read and written: two digits a byte, the first the high one.
ghost use Rattle.std.specs.Prelude.{◌≡◌, cond, ◌<◌};
ghost use Rattle.lists.specs.Below.{some_below};
ghost use Rattle.texts.specs.Hex.{hex_value, hex_digit, is_hex64, hex_bytes, hex_text};
ghost use Rattle.texts.specs.Rooms.{end_of, written_at};

use crate::write_bytes;

// The 32 bytes that 64 digits spell; no other text is of this form.
pub fn read_hex(text: &[u8]) -> Option<[u8; 32]>
    ensures { result ≡ cond (is_hex64 text.now) (Some (hex_bytes text.now)) None }
{
    if text.len() != 64 {
        return None;
    }
    let mut bytes = [0u8; 32];
    // The first i bytes are those of the first 2 i digits.
    for i in 0..32 {
        let high = value(text[2 * i])?;
        let low = value(text[2 * i + 1])?;
        bytes[i] = 16 * high + low;
    }
    Some(bytes)
}

// What a digit stands for.
fn value(digit: u8) -> Option<u8>
    ensures { result ≡ some_below 16 (hex_value digit) }
{
    match digit {
        b'0'..=b'9' => Some(digit - b'0'),
        b'a'..=b'f' => Some(digit - b'a' + 10),
        _ => None,
    }
}

pub fn write_hex(bytes: &[u8], out: &mut [u8], at: usize) -> usize
    ensures value { result ≡ end_of (hex_text bytes.now) at out.old }
    ensures out_after { out.new ≡ written_at (hex_text bytes.now) at out.old }
{
    if out.len() < at {
        return at;
    }
    if (out.len() - at) / 2 < bytes.len() {
        return at;
    }
    let mut end = at;
    // The digits of the bytes passed are written, up to `end`.
    for &b in bytes {
        let pair = [digit(b / 16), digit(b % 16)];
        end = write_bytes(&pair, out, end);
    }
    end
}

fn digit(value: u8) -> u8
    requires { value < 16 }
    ensures { result ≡ hex_digit value }
{
    if value < 10 {
        return b'0' + value;
    }
    b'a' - 10 + value
}
