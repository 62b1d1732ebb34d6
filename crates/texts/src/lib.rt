// Text as programs read and write it: the place of a byte, decimals, txids in hex, and bytes written at a place of a room. What does not
// fit behind the place is not written at all, so a writer asks nothing of its caller.

#![tactic(auto)]

ghost use Rattle.std.specs.Prelude.{◌≡◌, leb, ◌+◌, ◌==◌};
ghost use Rattle.std.specs.List.{position};
ghost use Rattle.texts.specs.Places.{place_of};
ghost use Rattle.texts.specs.Rooms.{end_of, written_at};

mod hex;
mod numerals;

pub use hex::{read_hex, write_hex};
pub use numerals::{
    read_number, read_signed, write_decimal, write_line, write_numbers, write_signed,
};

// The place of the next such byte, or the end; past the end, `from` itself.
pub fn place(text: &[u8], from: usize, byte: u8) -> usize
    ensures { result ≡ place_of byte text.now from }
{
    if text.len() < from {
        return from;
    }
    let rest = &text[from..];
    from + find(rest, byte).unwrap_or(rest.len())
}

fn find(text: &[u8], byte: u8) -> Option<usize>
    ensures { result ≡ position (λ x. x == byte) text.now }
{
    text.iter().position(|&b| b == byte)
}

// Writes bytes at a place, and answers the place behind them.
pub fn write_bytes(from: &[u8], out: &mut [u8], at: usize) -> usize
    ensures value { result ≡ end_of from.now at out.old }
    ensures out_after { out.new ≡ written_at from.now at out.old }
{
    if !fits(from.len(), at, out.len()) {
        return at;
    }
    let end = at + from.len();
    out[at..end].copy_from_slice(from);
    end
}

// Whether so many bytes fit behind the place in a room of this length.
fn fits(len: usize, at: usize, room: usize) -> bool
    ensures { result ≡ leb (at + len) room }
{
    if room < at {
        return false;
    }
    len <= room - at
}
