// The words of a line, with one space between them. Where a word starts is a place of the line; the place past the line's end is where
// no word is left. Words that are not of their form are None.
ghost use Rattle.std.specs.Prelude.{◌≡◌, cond, ◌&&◌, ◌+◌, ◌≤◌, eqb, length};
ghost use Rattle.texts.specs.Numerals.{are_numbers};
ghost use Rattle.pool_reader.specs.Requests.{numbers_in};
ghost use Rattle.pool_reader.specs.Steps.{words_at, Place, NumbersRead, TxidRead, TxidsRead};

use texts::{place, read_hex, read_number};

// Reads N numbers, and answers also where the word behind them starts.
pub fn read_numbers<const N: usize>(text: &[u8], from: usize) -> Option<([u64; N], usize)>
    requires { Place text.now from }
    ensures { NumbersRead N text.now from result }
{
    let mut values = [0u64; N];
    let mut at = from;
    // The values passed are the numbers that stand before `at`.
    for value in values.iter_mut() {
        if text.len() < at {
            return None;
        }
        let end = place(text, at, b' ');
        *value = read_number(&text[at..end])?;
        at = end + 1;
    }
    Some((values, at))
}

// The words from there on, where they are N numbers.
pub fn only_numbers<const N: usize>(text: &[u8], from: usize) -> Option<[u64; N]>
    requires { Place text.now from }
    ensures { result ≡ cond (eqb (length (words_at text.now from)) N && are_numbers (words_at text.now from)) (Some (numbers_in (words_at text.now from))) None }
{
    let (values, end) = read_numbers(text, from)?;
    if end <= text.len() {
        return None;
    }
    Some(values)
}

// Reads one txid to a place of the room, and answers where the next word starts.
pub fn read_txid(text: &[u8], from: usize, out: &mut [u8], at: usize) -> Option<usize>
    requires place { Place text.now from }
    requires at_in_bounds { at + 32 ≤ length out.old }
    ensures { TxidRead text.now from at out.old out.new result }
{
    if text.len() < from {
        return None;
    }
    let end = place(text, from, b' ');
    let bytes = read_hex(&text[from..end])?;
    out[at..at + 32].copy_from_slice(&bytes);
    Some(end + 1)
}

// Reads txids up to the line's end, and answers how many bytes they have. A txid and its space are 65 bytes of the line, so that the room
// is never full.
pub fn read_txids(text: &[u8], from: usize, out: &mut [u8]) -> Option<usize>
    requires place { Place text.now from }
    requires out_len { length out.old ≡ 4096 }
    ensures { TxidsRead text.now from out.new result }
{
    let mut at = from;
    let mut len: usize = 0;
    // The first `len` bytes are those of the txids that stand before `at`.
    while at <= text.len() {
        at = read_txid(text, at, out, len)?;
        len += 32;
    }
    Some(len)
}
