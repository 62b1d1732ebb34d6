// Module 7 of document 01: output_order. The chunks by rank, and inside each its members by rank, both subject to ancestors. Of equal rates
// the smaller comes first, so what may not fit a block's tail comes last; and where rank leaves a tie positions decide, so that one
// cluster has one order. Each round scans the chunks that are left as far as none behind can be higher, which is one chunk where all rates
// differ; each member of a chunk costs a scan of those left in it.

#![tactic(auto)]

ghost use Rattle.std.specs.Prelude.{◌≡◌, true, false, not, ◌&&◌, eqb, List, ℕ, ◌≤◌, ◌<◌, length};
ghost use Rattle.feefrac.specs.Rate.{rate_at};
ghost use Rattle.txset.specs.Sets.{positions, mem, is_empty, mem_at};
ghost use Rattle.chunking.specs.Orders.{chunks_of};
ghost use Rattle.output_order.specs.Output.{written, filled};
ghost use Rattle.output_order.specs.Steps.{rate_of, All, Cut, Alone, Swallowed, Summed, Below, Drops, FallsFrom, FallsOn};
ghost use Rattle.output_order.specs.Rounds.{chosen, piece_above, chunk_of, member_of, Within, Standing, PutOut};

use feefrac::FeeFrac;
use feeset::set_feerate;
use txset::{POSITIONS, TxSet};

// The members: their fees and sizes, a set of ancestors for each, and the set of all.
#[derive(Clone, Copy)]
struct Cluster<'a> {
    fees: &'a [i64],
    sizes: &'a [u64],
    ancestors: &'a [u64],
    all: TxSet,
}

// What is out: the members as a set, and their number.
// stays: the number stands beside the lent room, since there is no heap for a list that knows its length.
#[derive(Clone, Copy)]
struct Out {
    done: TxSet,
    len: usize,
}

// Rates that fall: the last of them, and which are below all before them.
#[derive(Clone, Copy)]
struct Fall {
    last: FeeFrac,
    drops: TxSet,
}

// A chunk of the order: its feerate sum, its members, the ancestors that these have outside it, and its highest position.
#[derive(Clone, Copy)]
struct Piece {
    rate: FeeFrac,
    set: TxSet,
    outside: TxSet,
    top: usize,
}

// Writes the members of an order, as they are put out, to the start of the room, and answers how many there are. `ancestors` has a set
// for each member. Where there are more members than positions, a longer order or a shorter room, it writes nothing and answers 0.
// stays: the 0 is the number written, and the caller has an order and a room that fit: with an Option it would have a None to throw away.
pub fn output_order(
    fees: &[i64],
    sizes: &[u64],
    ancestors: &[u64],
    order: &[usize],
    room: &mut [usize],
) -> usize
    ensures value { result ≡ written fees.now sizes.now (mem_at ancestors.now) order.now room.old }
    ensures room_after { room.new ≡ filled fees.now sizes.now (mem_at ancestors.now) order.now room.old }
{
    let n = fees.len();
    if POSITIONS < n {
        return 0;
    }
    if n < order.len() {
        return 0;
    }
    if room.len() < n {
        return 0;
    }
    let cluster = Cluster {
        fees,
        sizes,
        ancestors,
        all: TxSet::full(n),
    };
    let none = Piece {
        rate: FeeFrac::zero(),
        set: TxSet::empty(),
        outside: TxSet::empty(),
        top: 0,
    };
    let mut pieces = [none; POSITIONS];
    let count = cluster.cut(order, &mut pieces);
    let drops = cluster.survey(&mut pieces, count);
    let mut left = TxSet::full(count);
    let mut out = Out {
        done: TxSet::empty(),
        len: 0,
    };
    // `out` has the members of the chunks that were taken, `left` the chunks to come.
    while let Some(k) = next_chunk(&pieces, drops, left, out.done) {
        left = left.remove(k);
        out = cluster.put_out(pieces[k].set, out, room);
    }
    out.len
}

impl Cluster<'_> {
    fn rate(&self, t: usize) -> FeeFrac
        ensures { result ≡ rate_at self.now.fees.now self.now.sizes.now t }
    {
        FeeFrac::at(self.fees, self.sizes, t)
    }

    // The ancestors of a member other than itself.
    fn others(&self, t: usize) -> TxSet
        ensures { (a : ℕ) → mem result a ≡ ((mem_at self.now.ancestors.now t a && mem self.now.all a) && not (eqb a t)) }
    {
        TxSet::at(self.ancestors, t)
            .intersection(self.all)
            .remove(t)
    }

    // The chunks of the order in a list that serves as a stack, with their feerate sums as the cut makes them. Each member swallows from the top
    // and is then pushed. Answers how many there are.
    fn cut(&self, order: &[usize], pieces: &mut [Piece]) -> usize
        requires all { All (length self.now.fees.now) self.now.all }
        requires order_in_bounds { length order.now ≤ length self.now.fees.now }
        requires places { length pieces.old ≡ positions }
        ensures { Cut (length self.now.fees.now) (mem_at self.now.ancestors.now) (chunks_of self.now.fees.now self.now.sizes.now order.now) pieces.new result }
    {
        let mut count: usize = 0;
        // The first `count` of the list are the chunks of the members passed.
        for &t in order {
            let one = self.alone(t);
            let (whole, at) = swallow(one, pieces, count);
            pieces[at] = whole;
            count = at + 1;
        }
        count
    }

    // A chunk of one member of the order. What is no member of the cluster has no set and needs nothing.
    fn alone(&self, t: usize) -> Piece
        requires { All (length self.now.fees.now) self.now.all }
        ensures { Alone (length self.now.fees.now) (mem_at self.now.ancestors.now) (rate_at self.now.fees.now self.now.sizes.now t) t result }
    {
        let rate = self.rate(t);
        if self.fees.len() <= t {
            return Piece {
                rate,
                set: TxSet::empty(),
                outside: TxSet::empty(),
                top: t,
            };
        }
        Piece {
            rate,
            set: TxSet::singleton(t),
            outside: self.others(t),
            top: t,
        }
    }

    // Gives each of the first `count` the feerate sum of its set. Answers those whose rates are below all that come before them, where it can be
    // told by neighbours; none otherwise.
    fn survey(&self, pieces: &mut [Piece], count: usize) -> TxSet
        requires { (count ≤ positions) × (length pieces.old ≡ positions) }
        ensures summed { Summed self.now.fees.now self.now.sizes.now pieces.old pieces.new count }
        ensures drops { Drops (rate_of pieces.new) count result }
    {
        let first = set_feerate(self.fees, self.sizes, pieces[0].set);
        pieces[0].rate = first;
        let mut fall = fall_from(first);
        // The first k have their sums, and `fall` says how they fall, where they do.
        for k in 1..count {
            let rate = set_feerate(self.fees, self.sizes, pieces[k].set);
            pieces[k].rate = rate;
            fall = fall_on(fall, rate, k);
        }
        let Some(fall) = fall else {
            return TxSet::empty();
        };
        fall.drops
    }

    // Puts the members of a chunk out by their own rank, each to the room's next place; answers what is out then.
    fn put_out(&self, chunk: TxSet, before: Out, room: &mut [usize]) -> Out
        requires all { All (length self.now.fees.now) self.now.all }
        requires by_index { (i : ℕ) → mem chunk i ≡ true → i < length self.now.fees.now }
        requires within { Within self.now.ancestors.now self.now.all chunk before.done }
        requires standing { Standing (length self.now.fees.now) before.done before.len room.old }
        ensures { PutOut self.now.fees.now self.now.sizes.now (mem_at self.now.ancestors.now) chunk before room.old result room.new }
    {
        let mut done = before.done;
        let mut len = before.len;
        let mut left = chunk.subtract(done);
        // `done` and the first `len` places are what is out, `left` is what is left of the chunk.
        // stays: the member that goes out is chosen by rank, so the set is not walked.
        while !left.is_empty() {
            let Some(t) = self.next_member(left, done) else {
                return Out { done, len };
            };
            left = left.remove(t);
            done = done.insert(t);
            room[len] = t;
            len += 1;
        }
        Out { done, len }
    }

    // Of the members left whose other ancestors are out the one of the highest own rank. One that is left alone is ready: its ancestors are left
    // or out.
    fn next_member(&self, left: TxSet, done: TxSet) -> Option<usize>
        requires { (is_empty left ≡ false) × Within self.now.ancestors.now self.now.all left done }
        ensures { chosen result ≡ member_of self.now.fees.now self.now.sizes.now self.now.ancestors.now self.now.all left done }
    {
        let others = left.without_lowest();
        if others.is_empty() {
            return Some(left.lowest());
        }
        let mut found: Option<usize> = None;
        // `found` is the best ready one of those passed.
        for t in left.iter() {
            if !self.others(t).is_subset(done) {
                continue;
            }
            let Some(best) = found else {
                found = Some(t);
                continue;
            };
            let by_rank = self.rate(t).rank(self.rate(best));
            if by_rank.is_gt() {
                found = Some(t);
            }
        }
        found
    }
}

// While the piece is strictly higher than the last of the first `count`, it swallows that one. Answers what it is then, and how many stay.
fn swallow(first: Piece, pieces: &[Piece], count: usize) -> (Piece, usize)
    requires { (count ≤ positions) × (length pieces.now ≡ positions) }
    ensures { Swallowed pieces.now first count result.0 result.1 }
{
    let mut cur = first;
    // `cur` has swallowed those passed.
    for at in (0..count).rev() {
        let last = pieces[at];
        if !cur.rate.higher_rate(last.rate) {
            return (cur, at + 1);
        }
        let set = cur.set.union(last.set);
        let outside = cur.outside.union(last.outside).subtract(set);
        cur = Piece {
            rate: cur.rate.add(last.rate),
            set,
            outside,
            top: cur.top.max(last.top),
        };
    }
    (cur, 0)
}

// One rate alone. Of size 0 it does not chain.
fn fall_from(first: FeeFrac) -> Option<Fall>
    ensures { FallsFrom first result }
{
    if first.size == 0 {
        return None;
    }
    Some(Fall {
        last: first,
        drops: TxSet::empty(),
    })
}

// One rate more, the k-th. They do not fall on where a size is 0, since such rates do not chain, or a rate is higher than the one before it.
fn fall_on(fall: Option<Fall>, rate: FeeFrac, k: usize) -> Option<Fall>
    ensures { FallsOn fall rate k result }
{
    let Fall { last, drops } = fall?;
    if rate.size == 0 {
        return None;
    }
    if last.higher_rate(rate) {
        return Some(Fall {
            last: rate,
            drops: drops.insert(k),
        });
    }
    if rate.higher_rate(last) {
        return None;
    }
    Some(Fall { last: rate, drops })
}

// Of the chunks left whose outside ancestors are out the one of the highest rank, then the lowest highest position. Past one of `drops` none
// is above one before it.
fn next_chunk(pieces: &[Piece], drops: TxSet, left: TxSet, done: TxSet) -> Option<usize>
    requires places { length pieces.now ≡ positions }
    requires below { Below (rate_of pieces.now) left drops }
    ensures { chosen result ≡ chunk_of pieces.now left done }
{
    let mut found: Option<usize> = None;
    // `found` is the best ready one of those passed.
    for k in left.iter() {
        if found.is_some() && drops.contains(k) {
            return found;
        }
        if !pieces[k].outside.is_subset(done) {
            continue;
        }
        let Some(best) = found else {
            found = Some(k);
            continue;
        };
        if chunk_above(pieces[k], pieces[best]) {
            found = Some(k);
        }
    }
    found
}

// Whether chunk j is to go out before chunk k, both being ready.
fn chunk_above(j: Piece, k: Piece) -> bool
    ensures { result ≡ piece_above j k }
{
    let by_rank = j.rate.rank(k.rate);
    let by_top = k.top.cmp(&j.top);
    by_rank.then(by_top).is_gt()
}
