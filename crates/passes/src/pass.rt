// One pass. The groups stand in an array from its start, the last on top; those that the current group stepped over wait at its end, the
// last one lowest. The two never meet: besides the current group there are fewer of both together than members. The members of all
// groups stand in the list itself, one group after the other, so that a merge moves nothing and a group that steps forward is one rotation.
ghost use Rattle.std.specs.Prelude.{◌≡◌, ◌++◌, ◌+◌, ◌≤◌, ◌<◌, ℕ, length, take, drop};
ghost use Rattle.txset.specs.Sets.{positions, mem_at};
ghost use Rattle.passes.specs.Pass.{one_pass};
ghost use Rattle.passes.specs.Moves.{brought};
ghost use Rattle.passes.specs.Summary.{Single, Joined, Rated, start_on, merged_on, passed_on};

use feefrac::FeeFrac;
use txset::{POSITIONS, TxSet};

// Up to so many members have small arrays, which are cleared sooner.
const FEW: usize = 8;

// A run of the list: how many members, which they are, on what they depend, and their feerate sum.
#[derive(Clone, Copy)]
pub struct Group {
    len: usize,
    set: TxSet,
    deps: TxSet,
    rate: FeeFrac,
}

// The group of no members.
const NONE: Group = Group {
    len: 0,
    set: TxSet { word: 0 },
    deps: TxSet { word: 0 },
    rate: FeeFrac { fee: 0, size: 0 },
};

impl Group {
    fn alone(t: usize, deps: TxSet, rate: FeeFrac) -> Group
        ensures { Single t deps rate result }
    {
        Group {
            len: 1,
            set: TxSet::singleton(t),
            deps,
            rate,
        }
    }

    // The two as one, `prev` in front.
    fn absorb_before(self, prev: Group) -> Group
        requires { prev.len + self.len < 18446744073709551616 }
        ensures { Joined prev self result }
    {
        Group {
            len: prev.len + self.len,
            set: self.set.union(prev.set),
            deps: self.deps.union(prev.deps),
            rate: self.rate.add(prev.rate),
        }
    }
}

// A group on its way forward. `below` groups stand under it, and their members end at `from`. Then come `ahead` members of groups that
// it passed since it last merged, then its own, then those that it passed before. The summaries of the `over` groups that it passed wait
// at the array's end.
#[derive(Clone, Copy)]
pub struct Way {
    below: usize,
    from: usize,
    ahead: usize,
    over: usize,
}

impl Way {
    // It stands on top of all groups.
    fn start(count: usize, k: usize) -> Way
        ensures { result ≡ start_on count k }
    {
        Way {
            below: count,
            from: k,
            ahead: 0,
            over: 0,
        }
    }

    // It has merged the group below, which had so many members.
    fn merged(self, len: usize) -> Way
        requires { (0 < self.below) × (len ≤ self.from) }
        ensures { result ≡ merged_on self len }
    {
        Way {
            below: self.below - 1,
            from: self.from - len,
            ahead: 0,
            over: self.over,
        }
    }

    // It has stepped in front of the group below, which has so many members.
    fn passed(self, len: usize) -> Way
        requires below_nonzero { (0 < self.below) × (len ≤ self.from) }
        requires len_bound { (self.ahead + len < 18446744073709551616) × (self.over + 1 < 18446744073709551616) }
        ensures { result ≡ passed_on self len }
    {
        Way {
            below: self.below - 1,
            from: self.from - len,
            ahead: self.ahead + len,
            over: self.over + 1,
        }
    }

    // The members ahead go behind the group's own, of which there are so many.
    fn bring(self, order: &mut [usize], len: usize)
        requires { self.from + (self.ahead + len) ≤ length order.old }
        ensures { order.new ≡ brought order.old self.from self.ahead len }
    {
        if 0 < self.ahead {
            rotate(order, self.from, self.ahead, len);
        }
    }
}

// Of the `ahead + len` members from `from` on, the first `ahead` go behind the others. Out of line, so that a group which has nobody
// ahead, as most have, costs one test.
#[inline(never)]
fn rotate(order: &mut [usize], from: usize, ahead: usize, len: usize)
    requires { from + (ahead + len) ≤ length order.old }
    ensures { order.new ≡ brought order.old from ahead len }
{
    let end = from + (ahead + len);
    turn(&mut order[from..end], ahead);
}

// The first `ahead` go behind the others, by three turns: std's rotate_left asks for C's `memmove` where a library is linked.
fn turn(list: &mut [usize], ahead: usize)
    requires { ahead ≤ length list.old }
    ensures { list.new ≡ drop ahead list.old ++ take ahead list.old }
{
    list[..ahead].reverse();
    list[ahead..].reverse();
    list.reverse();
}

// The pass over a list of up to as many members as a set has positions, whose feerates `rate` gives.
pub fn one_pass<F: Fn(usize) -> FeeFrac>(rate: F, deps: &[u64], order: &mut [usize])
    ghost rates: { ℕ → FeeFrac }
    requires rated { Rated (F.pre rate) (F.post rate) rates }
    requires few { length order.old ≤ positions }
    ensures { order.new ≡ one_pass rates (mem_at deps.now) order.old }
{
    if order.len() <= FEW {
        in_array::<FEW, F>(rate, deps, order);
    } else {
        in_array::<POSITIONS, F>(rate, deps, order);
    }
}

// The same with an array for N groups.
fn in_array<const N: usize, F: Fn(usize) -> FeeFrac>(rate: F, deps: &[u64], order: &mut [usize])
    ghost rates: { ℕ → FeeFrac }
    requires rated { Rated (F.pre rate) (F.post rate) rates }
    requires few { length order.old ≤ N }
    requires small { N ≤ positions }
    ensures { order.new ≡ one_pass rates (mem_at deps.now) order.old }
{
    let mut groups = [NONE; N];
    settle_all(rate, deps, &mut groups, order);
}

// Works the members of the list into groups, one after the other, and leaves the groups' members in the list.
fn settle_all<F: Fn(usize) -> FeeFrac>(
    rate: F,
    deps: &[u64],
    groups: &mut [Group],
    order: &mut [usize],
)
    ghost rates: { ℕ → FeeFrac }
    requires rated { Rated (F.pre rate) (F.post rate) rates }
    requires few { length order.old ≤ length groups.old }
    requires small { length groups.old ≤ positions }
    ensures { order.new ≡ one_pass rates (mem_at deps.now) order.old }
{
    let places = groups.len();
    let mut count: usize = 0;
    // The first k members stand in the list group by group, and the array has the `count` groups.
    for k in 0..order.len() {
        let t = order[k];
        let mut cur = Group::alone(t, TxSet::at(deps, t), rate(t));
        let mut way = Way::start(count, k);
        // The scan yields the place where the group comes to rest.
        // stays: document 01 names this form, a loop that breaks with the place.
        let at = loop {
            let below = way.below;
            if below == 0 {
                break 0;
            }
            let prev = groups[below - 1];
            if !cur.rate.higher_rate(prev.rate) {
                break below;
            }
            if cur.deps.overlaps(prev.set) {
                way.bring(order, cur.len);
                way = way.merged(prev.len);
                cur = cur.absorb_before(prev);
            } else {
                groups[places - 1 - way.over] = prev;
                way = way.passed(prev.len);
            }
        };
        way.bring(order, cur.len);
        groups[at] = cur;
        // Those that it passed go back on top, the last one first.
        groups.copy_within(places - way.over..places, at + 1);
        count = at + 1 + way.over;
    }
}
