// Decimals, read and written.
ghost use Rattle.std.specs.Prelude.{◌≡◌, length, leb};
ghost use Rattle.texts.specs.Numerals.{number_of, negative, signed_of};
ghost use Rattle.texts.specs.Writing.{decimal, signed, commas, text_line, item};
ghost use Rattle.texts.specs.Rooms.{end_of, written_at, Room, Wrote, Writes};

use crate::write_bytes;

// A plain decimal without extra zeros that fits a u64.
pub fn read_number(text: &[u8]) -> Option<u64>
    ensures { result ≡ number_of text.now }
{
    if text.len() == 0 {
        return None;
    }
    if 1 < text.len() {
        if text[0] == b'0' {
            return None;
        }
    }
    let mut value: u64 = 0;
    // `value` is what the digits passed spell.
    for &b in text {
        if !b.is_ascii_digit() {
            return None;
        }
        value = value.checked_mul(10)?.checked_add(u64::from(b - b'0'))?;
    }
    Some(value)
}

// A plain decimal that fits an i64, with a minus sign only where it is not zero.
pub fn read_signed(text: &[u8]) -> Option<i64>
    ensures { result ≡ signed_of text.now }
{
    if text.len() == 0 {
        return None;
    }
    if text[0] == b'-' {
        return below_zero(read_number(&text[1..])?);
    }
    i64::try_from(read_number(text)?).ok()
}

fn below_zero(size: u64) -> Option<i64>
    ensures { result ≡ negative (Some size) }
{
    if size == 0 {
        return None;
    }
    0i64.checked_sub_unsigned(size)
}

pub fn write_decimal(number: u64, out: &mut [u8], at: usize) -> usize
    ensures value { result ≡ end_of (decimal number) at out.old }
    ensures out_after { out.new ≡ written_at (decimal number) at out.old }
{
    let mut digits = [0u8; 20];
    let k = io::decimal(number, &mut digits);
    write_bytes(&digits[..k], out, at)
}

// A number below zero goes by way of a room of its own, so that the sign is not written where the digits do not fit.
pub fn write_signed(number: i64, out: &mut [u8], at: usize) -> usize
    ensures value { result ≡ end_of (signed number) at out.old }
    ensures out_after { out.new ≡ written_at (signed number) at out.old }
{
    let size = number.unsigned_abs();
    if number < 0 {
        let mut text = [0u8; 21];
        let sign = write_bytes(b"-", &mut text, 0);
        let end = write_decimal(size, &mut text, sign);
        return write_bytes(&text[..end], out, at);
    }
    write_decimal(size, out, at)
}

// A line: its key, a number and a newline, the latter two by way of a room of their own.
pub fn write_line(key: &[u8], number: u64, out: &mut [u8], at: usize) -> usize
    ensures value { result ≡ end_of (text_line key.now (decimal number)) at out.old }
    ensures out_after { out.new ≡ written_at (text_line key.now (decimal number)) at out.old }
{
    let mut value = [0u8; 21];
    let digits = write_decimal(number, &mut value, 0);
    let len = write_bytes(b"\n", &mut value, digits);
    if out.len() < at {
        return at;
    }
    if out.len() - at < len {
        return at;
    }
    if out.len() - at - len < key.len() {
        return at;
    }
    let next = write_bytes(key, out, at);
    write_bytes(&value[..len], out, next)
}

// The numbers with commas between them.
pub fn write_numbers(numbers: &[usize], out: &mut [u8], at: usize) -> usize
    ensures value { result ≡ end_of (commas numbers.now) at out.old }
    ensures out_after { out.new ≡ written_at (commas numbers.now) at out.old }
{
    if out.len() < at {
        return at;
    }
    if !numbers_fit(numbers, out.len() - at) {
        return at;
    }
    each_number(numbers, out, at)
}

// Whether the numbers with commas between them have at most so many bytes.
fn numbers_fit(numbers: &[usize], most: usize) -> bool
    ensures { result ≡ leb (length (commas numbers.now)) most }
{
    let mut left = most;
    // The numbers passed leave `left` of them.
    for (k, &number) in numbers.iter().enumerate() {
        let len = item_len(k, number as u64);
        if left < len {
            return false;
        }
        left -= len;
    }
    true
}

// How many bytes the k-th of some numbers has, with its comma.
fn item_len(k: usize, number: u64) -> usize
    ensures { result ≡ length (item decimal k number) }
{
    let mut text = [0u8; 21];
    write_item(k, number, &mut text, 0)
}

// stays: pool_writer's write_txids loops alike, but one function for both would take a closure whose clause says what each call writes,
// longer than this loop
fn each_number(numbers: &[usize], out: &mut [u8], from: usize) -> usize
    requires { Room (commas numbers.now) from out.old }
    ensures { Wrote (commas numbers.now) from out.old out.new result }
{
    let mut at = from;
    // The numbers passed are written, up to `at`.
    for (done, &number) in numbers.iter().enumerate() {
        at = write_item(done, number as u64, out, at);
    }
    at
}

// The k-th of some numbers, a comma in front of each but the first.
fn write_item(k: usize, number: u64, out: &mut [u8], at: usize) -> usize
    ensures { Writes (item decimal k number) at out.old out.new result }
{
    if k == 0 {
        return write_decimal(number, out, at);
    }
    let next = write_bytes(b",", out, at);
    write_decimal(number, out, next)
}
