// What the cluster program prints, written to the start of a room; what stands behind it there stays. The rates are for people to read:
// this is the one place where a rate is rounded, and no order depends on it.

#![tactic(auto)]

ghost use Rattle.std.specs.Prelude.{◌≡◌, length};
ghost use Rattle.lists.specs.Lists.{overwrite};
ghost use Rattle.texts.specs.Writing.{signed, commas, text_line};
ghost use Rattle.texts.specs.Rooms.{Writes};
ghost use Rattle.cluster_writer.specs.Writing.{order_key, rate_key, chunk_lines, all_chunk_lines, refusal_text, shown_rate};
ghost use Rattle.cluster_writer.specs.Calls.{success_printed, success_room};

use feefrac::FeeFrac;
use feeset::list_feerate;
use texts::{write_bytes, write_line, write_numbers, write_signed};
use txset::POSITIONS;
use wide::scaled_over;

// The answer line alone.
pub fn write_refusal(number: u64, out: &mut [u8; 8192]) -> usize
    ensures value { result ≡ length (refusal_text number) }
    ensures out_after { out.new ≡ overwrite (refusal_text number) out.old }
{
    write_line(b"answer=", number, out, 0)
}

// The answer line, the order and the lines of its chunks, whose lengths are `lens`. Where there are more members or chunks than positions it
// writes nothing and answers 0.
pub fn write_success(
    fees: &[i64],
    sizes: &[u64],
    order: &[usize],
    lens: &[usize],
    out: &mut [u8; 8192],
) -> usize
    ensures value { result ≡ success_printed fees.now sizes.now order.now lens.now }
    ensures out_after { out.new ≡ success_room fees.now sizes.now order.now lens.now out.old }
{
    if POSITIONS < order.len() {
        return 0;
    }
    if POSITIONS < lens.len() {
        return 0;
    }
    let mut at = write_line(b"answer=", 0, out, 0);
    at = order_line(order, out, at);
    chunk_lines(fees, sizes, order, lens, out, at)
}

fn order_line(order: &[usize], out: &mut [u8], from: usize) -> usize
    ensures { Writes (text_line order_key (commas order.now)) from out.old out.new result }
{
    let mut at = write_bytes(b"order=", out, from);
    at = write_numbers(order, out, at);
    write_bytes(b"\n", out, at)
}

fn chunk_lines(
    fees: &[i64],
    sizes: &[u64],
    order: &[usize],
    lens: &[usize],
    out: &mut [u8],
    from: usize,
) -> usize
    ensures { Writes (all_chunk_lines fees.now sizes.now lens.now order.now) from out.old out.new result }
{
    let mut at = from;
    let mut start: usize = 0;
    // The lines of the chunks passed are written, up to `at`; the next chunk starts at `start`.
    for &len in lens {
        let end = start.saturating_add(len).min(order.len());
        let rate = list_feerate(fees, sizes, &order[start..end]);
        at = one_chunk(len, rate, out, at);
        start = end;
    }
    at
}

// A chunk's two lines.
fn one_chunk(len: usize, rate: FeeFrac, out: &mut [u8], from: usize) -> usize
    ensures { Writes (chunk_lines len rate) from out.old out.new result }
{
    let at = write_line(b"chunk=", len as u64, out, from);
    rate_line(shown_rate(rate), out, at)
}

// fee × 4,000 / size rounded towards zero, 0 for size 0, held to the i64 range.
pub fn shown_rate(rate: FeeFrac) -> i64
    ensures { result ≡ shown_rate rate }
{
    if rate.size == 0 {
        return 0;
    }
    let q = scaled_over(rate.fee.unsigned_abs(), 4000, rate.size);
    if rate.fee < 0 {
        return 0i64.saturating_sub_unsigned(q);
    }
    0i64.saturating_add_unsigned(q)
}

fn rate_line(rate: i64, out: &mut [u8], from: usize) -> usize
    ensures { Writes (text_line rate_key (signed rate)) from out.old out.new result }
{
    let mut at = write_bytes(b"rate=", out, from);
    at = write_signed(rate, out, at);
    write_bytes(b"\n", out, at)
}
