// Module 4 of document 01: chunk_lengths. Each member starts a chunk, which swallows those before it while its feerate is strictly higher:
// a paying child lifts its cheap parent into the block with it. At equal rates nothing is joined. Both parts are worth the same alone, and
// small pieces fill the tail of a block where a large one does not fit. A member is pushed once and swallowed at most once, so the
// compares are fewer than twice the members.

#![tactic(auto)]

ghost use Rattle.std.specs.Prelude.{◌≡◌, ◌++◌, ◌≤◌, ◌<◌, ◌+◌, List, length, drop, map};
ghost use Rattle.txset.specs.Sets.{positions};
ghost use Rattle.refusals.specs.Refusals.{reply_from};
ghost use Rattle.chunking.specs.Chunks.{rates, chunk_lengths, reply, room_after, alone, joined};
ghost use Rattle.chunking.specs.Orders.{lengths_written, lengths_filled};
ghost use Rattle.chunking.specs.Setup.{Rated, Stacked};

use feefrac::FeeFrac;
use refusals::Refusal;
use txset::POSITIONS;

// Up to this many members the arrays are small: clearing large ones would cost more than the compares.
const FEW: usize = 8;

// A run of members, by their feerate sum and their number.
#[derive(Clone, Copy)]
pub struct Chunk {
    pub rate: FeeFrac,
    pub len: usize,
}

// The chunk of no members.
const NONE: Chunk = Chunk {
    rate: FeeFrac { fee: 0, size: 0 },
    len: 0,
};

impl Chunk {
    fn alone(rate: FeeFrac) -> Chunk
        ensures { result ≡ alone rate }
    {
        Chunk { rate, len: 1 }
    }

    // The two as one.
    fn join(self, last: Chunk) -> Chunk
        requires { self.len + last.len < 18446744073709551616 }
        ensures { result ≡ joined self last }
    {
        Chunk {
            rate: self.rate.add(last.rate),
            len: self.len + last.len,
        }
    }
}

// Writes the lengths of the chunks of a list of members, taken in its order.
pub fn chunk_lengths(fees: &[i64], sizes: &[u64], room: &mut [usize]) -> Result<usize, Refusal>
    ensures value { reply_from result ≡ reply fees.now sizes.now room.old }
    ensures room_after { room.new ≡ room_after fees.now sizes.now room.old }
{
    if fees.len() != sizes.len() {
        return Err(Refusal::LengthsDiffer);
    }
    if POSITIONS < fees.len() {
        return Err(Refusal::TooManyMembers);
    }
    if room.len() < fees.len() {
        return Err(Refusal::RoomTooShort);
    }
    if refusals::first_outside(fees).is_some() {
        return Err(Refusal::OutOfRange);
    }
    Ok(write_chunks(fees.len(), |i| FeeFrac::at(fees, sizes, i), room))
}

// Writes the lengths of the chunks of an order to the start of `lens`; answers how many it wrote. Where the order is longer than a set has positions or
// than `lens`, it writes nothing and answers 0.
// stays: the 0 is no sign but the number of lengths written, and each caller reads it as that number: with an Option it would turn a None into 0.
pub fn order_lengths(fees: &[i64], sizes: &[u64], order: &[usize], lens: &mut [usize]) -> usize
    ensures value { result ≡ lengths_written fees.now sizes.now order.now lens.old }
    ensures lens_after { lens.new ≡ lengths_filled fees.now sizes.now order.now lens.old }
{
    let n = order.len();
    if POSITIONS < n {
        return 0;
    }
    if lens.len() < n {
        return 0;
    }
    write_chunks(n, |i| FeeFrac::at(fees, sizes, order[i]), lens)
}

// Writes the lengths of the chunks of n members, the i-th of which has the feerate `rate(i)`.
fn write_chunks<F: Fn(usize) -> FeeFrac>(n: usize, rate: F, room: &mut [usize]) -> usize
    ghost rs: { List FeeFrac }
    requires rated { Rated n (F.pre rate) (F.post rate) rs }
    requires wide { n ≤ length room.old }
    ensures value { result ≡ length (chunk_lengths rs) }
    ensures room_after { room.new ≡ chunk_lengths rs ++ drop result room.old }
{
    if n <= FEW {
        return in_array::<FEW, F>(n, rate, room);
    }
    in_array::<POSITIONS, F>(n, rate, room)
}

// The same with an array of N places, which the chunks stand in.
fn in_array<const N: usize, F: Fn(usize) -> FeeFrac>(n: usize, rate: F, room: &mut [usize]) -> usize
    ghost rs: { List FeeFrac }
    requires rated { Rated n (F.pre rate) (F.post rate) rs }
    requires wide { n ≤ length room.old }
    requires few { n ≤ N }
    requires small { N ≤ positions }
    ensures value { result ≡ length (chunk_lengths rs) }
    ensures room_after { room.new ≡ chunk_lengths rs ++ drop result room.old }
{
    let mut stack = [NONE; N];
    let count = stack_chunks(n, rate, &mut stack);
    put_lengths(&stack[..count], room);
    count
}

// The chunks stand in a list as a stack; each member swallows from its top and is then pushed.
fn stack_chunks<F: Fn(usize) -> FeeFrac>(n: usize, rate: F, stack: &mut [Chunk]) -> usize
    ghost rs: { List FeeFrac }
    requires rated { Rated n (F.pre rate) (F.post rate) rs }
    requires wide { n ≤ length stack.old }
    ensures { Stacked stack.new result rs }
{
    let mut count: usize = 0;
    // The first `count` of the stack are the chunks of the first i members.
    for i in 0..n {
        let mut cur = Chunk::alone(rate(i));
        // `cur` has swallowed what stood above `count`.
        while 0 < count {
            let last = stack[count - 1];
            if !cur.rate.higher_rate(last.rate) {
                break;
            }
            cur = cur.join(last);
            count -= 1;
        }
        stack[count] = cur;
        count += 1;
    }
    count
}

// The lengths of some chunks, to the start of the room.
fn put_lengths(chunks: &[Chunk], room: &mut [usize])
    requires { length chunks.now ≤ length room.old }
    ensures { room.new ≡ map (λ (c : Chunk). c.len) chunks.now ++ drop (length chunks.now) room.old }
{
    // The lengths of the first i are written.
    for (i, chunk) in chunks.iter().enumerate() {
        room[i] = chunk.len;
    }
}
