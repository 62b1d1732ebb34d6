// What the pool program prints, written to the start of a room; what stands behind it there stays.

#![tactic(auto)]

ghost use Rattle.std.specs.Prelude.{◌≡◌, ◌≤◌, length, take};
ghost use Rattle.lists.specs.Lists.{overwrite};
ghost use Rattle.slotsets.specs.SlotSets.{capacity};
ghost use Rattle.texts.specs.Writing.{decimal, joined, item, text_line};
ghost use Rattle.texts.specs.Rooms.{Writes};
ghost use Rattle.pool_writer.specs.Texts.{word_text, txid_text, slot_text};
ghost use Rattle.pool_writer.specs.Answers.{number_text, placed_text, totals_text, selected_text, malformed_text, room_length};

use pool_rules::{Placed, Totals};
use slotsets::CAPACITY;
use texts::{write_bytes, write_decimal, write_hex, write_line, write_numbers};
use txids::Txid;

// A number alone.
pub fn write_number(number: u64, out: &mut [u8; 90_112]) -> usize
    ensures value { result ≡ length (number_text number) }
    ensures out_after { out.new ≡ overwrite (number_text number) out.old }
{
    let at = write_decimal(number, out, 0);
    write_bytes(b"\n", out, at)
}

pub fn write_placed(reply: Placed, out: &mut [u8; 90_112]) -> usize
    ensures value { result ≡ length (placed_text reply) }
    ensures out_after { out.new ≡ overwrite (placed_text reply) out.old }
{
    let answer = reply.answer;
    if answer != 0 {
        return write_number(answer, out);
    }
    write_line(b"0 slot=", reply.slot as u64, out, 0)
}

pub fn write_totals(reply: Totals, out: &mut [u8; 90_112]) -> usize
    ensures value { result ≡ length (totals_text reply) }
    ensures out_after { out.new ≡ overwrite (totals_text reply) out.old }
{
    let answer = reply.answer;
    if answer != 0 {
        return write_number(answer, out);
    }
    let mut at = write_bytes(b"0 entries=", out, 0);
    at = write_decimal(reply.entries as u64, out, at);
    write_line(b" weight=", reply.weight, out, at)
}

// A line that is of no form: 13 and its number.
pub fn write_malformed(line: u64, out: &mut [u8; 90_112]) -> usize
    ensures value { result ≡ length (malformed_text line) }
    ensures out_after { out.new ≡ overwrite (malformed_text line) out.old }
{
    write_line(b"13 line=", line, out, 0)
}

// The selected slots, and their txids in a second line. Only the first 1,024 are written: a pool has no more.
pub fn write_selected(table: &[u64], slots: &[usize], out: &mut [u8; 90_112]) -> usize
    ensures value { result ≡ length (selected_text table.now (take capacity slots.now)) }
    ensures out_after { out.new ≡ overwrite (selected_text table.now (take capacity slots.now)) out.old }
{
    let shown = &slots[..CAPACITY.min(slots.len())];
    both_lines(table, shown, out)
}

fn both_lines(table: &[u64], slots: &[usize], out: &mut [u8]) -> usize
    requires slots_len_bound { length slots.now ≤ capacity }
    requires out_len { length out.old ≡ room_length }
    ensures value { result ≡ length (selected_text table.now slots.now) }
    ensures out_after { out.new ≡ overwrite (selected_text table.now slots.now) out.old }
{
    let mut at = write_bytes(b"0 selected=", out, 0);
    at = write_numbers(slots, out, at);
    at = write_bytes(b"\ntxids=", out, at);
    at = write_txids(table, slots, out, at);
    write_bytes(b"\n", out, at)
}

fn write_txids(table: &[u64], slots: &[usize], out: &mut [u8], from: usize) -> usize
    ensures { Writes (joined (slot_text table.now) slots.now) from out.old out.new result }
{
    let mut at = from;
    // The txids of the slots passed are written, up to `at`.
    for (k, &slot) in slots.iter().enumerate() {
        at = next_txid(table, k, slot, out, at);
    }
    at
}

// The k-th of some txids, a comma in front of each but the first.
fn next_txid(table: &[u64], k: usize, slot: usize, out: &mut [u8], from: usize) -> usize
    ensures { Writes (item (slot_text table.now) k slot) from out.old out.new result }
{
    let txid = pool_table::txid(table, slot);
    if k == 0 {
        return write_txid(txid, out, from);
    }
    let at = write_bytes(b",", out, from);
    write_txid(txid, out, at)
}

fn write_txid(txid: Txid, out: &mut [u8], from: usize) -> usize
    ensures { Writes (txid_text txid) from out.old out.new result }
{
    let mut at = write_word(txid.w0, out, from);
    at = write_word(txid.w1, out, at);
    at = write_word(txid.w2, out, at);
    write_word(txid.w3, out, at)
}

fn write_word(word: u64, out: &mut [u8], at: usize) -> usize
    ensures { Writes (word_text word) at out.old out.new result }
{
    write_hex(&word.to_be_bytes(), out, at)
}
