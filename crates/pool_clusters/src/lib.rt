// The clusters of a pool, by a flood fill that reads each slot's links once: the cluster of a slot, the clusters of some slots together, and
// whether each cluster of a table of any content stays within the table's limits.

#![tactic(auto)]

ghost use Rattle.std.specs.Prelude.{◌≡◌, true, false, not, ◌&&◌, ◌||◌, ℕ, ◌<◌, ltb, leb, length, is_some, IfSome, MatchOption};
ghost use Rattle.txset.specs.Sets.{has_in};
ghost use Rattle.weights.specs.Weights.{virtual_size};
ghost use Rattle.slotsets.specs.SlotSets.{set_words};
ghost use Rattle.pool_table.specs.Pool.{slot_count, weight_at};
ghost use Rattle.pool_table.specs.Words.{is_legal, pool_of};
ghost use Rattle.pool_table.specs.Ranges.{limits_in_range};
ghost use Rattle.pool_table.specs.Links.{is_linked, in_cluster, in_clusters};
ghost use Rattle.pool_table.specs.WellFormed.{is_within, clusters_within};
ghost use Rattle.pool_clusters.specs.Clusters.{clusters_of, AllSlots, Gathered, Unlimited, Limited, ClusterWithin};

use pool_table::{Limits, Side, is_legal, is_linked, is_occupied, link_word, slots};
use slotsets::{CAPACITY, SET_WORDS, below, contains, insert, join, lowest, remove};
use weights::RawWeight;

// Clusters together: how many members, each counted once, and their raw weights, the sum held at 2^64 - 1.
#[derive(Clone, Copy)]
pub struct Union {
    pub count: usize,
    pub weight: RawWeight,
}

// What a search found: the members, and the numbers of them.
#[derive(Clone, Copy)]
struct Found {
    members: [u64; SET_WORDS],
    union: Union,
}

// A table with the set of its slots: links that lead elsewhere are passed over.
#[derive(Clone, Copy)]
struct Slots<'a> {
    table: &'a [u64],
    all: [u64; SET_WORDS],
    ghost all_slots: { AllSlots (pool_of table.now) all },
}

impl<'a> Slots<'a> {
    fn of(table: &'a [u64]) -> Slots<'a>
        requires { is_legal (length table.now) ≡ true }
        ensures { result.table.now ≡ table.now }
    {
        let all = below(slots(table));
        Slots { table, all }
    }

    // Finds the slots that slot a names on either side: what was not found yet is to be looked at.
    fn spread(&self, a: usize, found: &mut [u64; SET_WORDS], todo: &mut [u64; SET_WORDS])
        ensures by_index { (i : ℕ) → has_in found.new i ≡ (has_in found.old i || is_linked (pool_of self.now.table.now) a i) }
        ensures by_index_2 { (i : ℕ) → has_in todo.new i
            ≡ (has_in todo.old i || (is_linked (pool_of self.now.table.now) a i && not (has_in found.old i))) }
    {
        for j in 0..SET_WORDS {
            let parents = link_word(self.table, Side::Parents, a, j);
            let children = link_word(self.table, Side::Children, a, j);
            let more = self.all[j] & (parents | children);
            todo[j] |= more & !found[j];
            found[j] |= more;
        }
    }

    // The clusters of the seeds; none where they have more than `limit` members. Seeds that are no slots are passed over.
    fn gather(&self, seeds: &[u64], limit: usize) -> Option<Found>
        ensures { Gathered (pool_of self.now.table.now) (in_clusters (pool_of self.now.table.now) (has_in seeds.now)) limit result }
    {
        let mut members = chosen(seeds, &self.all);
        let mut todo = members;
        let mut count: usize = 0;
        let mut weight: u64 = 0;
        while let Some(a) = lowest(&todo) {
            if limit <= count {
                return None;
            }
            remove(&mut todo, a);
            self.spread(a, &mut members, &mut todo);
            count += 1;
            weight = weight.saturating_add(pool_table::weight(self.table, a).0);
        }
        let union = Union {
            count,
            weight: RawWeight(weight),
        };
        Some(Found { members, union })
    }

    // The cluster of slot a; none where it has more than `limit` members.
    fn cluster(&self, a: usize, limit: usize) -> Option<Found>
        requires { a < slot_count (pool_of self.now.table.now) }
        ensures { Gathered (pool_of self.now.table.now) (in_cluster (pool_of self.now.table.now) a) limit result }
    {
        let mut seeds = [0u64; SET_WORDS];
        insert(&mut seeds, a);
        self.gather(&seeds, limit)
    }

    // The members of the cluster of slot a, where it is within these limits.
    fn limited_cluster(&self, limits: Limits, a: usize) -> Option<[u64; SET_WORDS]>
        requires limits_value { Limited self.now.table.now limits }
        requires a_bound { a < slot_count (pool_of self.now.table.now) }
        ensures { MatchOption result (is_within (pool_of self.now.table.now) (in_cluster (pool_of self.now.table.now) a) ≡ false)
            (λ found. ClusterWithin (pool_of self.now.table.now) a found) }
    {
        let found = self.cluster(a, limits.count as usize)?;
        if 4 * limits.size < found.union.weight.0 {
            return None;
        }
        Some(found.members)
    }
}

// Those of the seeds that are in `all`.
fn chosen(seeds: &[u64], all: &[u64; SET_WORDS]) -> [u64; SET_WORDS]
    ensures { (i : ℕ) → has_in result i ≡ (has_in all.now i && has_in seeds.now i) }
{
    let mut set = [0u64; SET_WORDS];
    for j in 0..seeds.len().min(SET_WORDS) {
        set[j] = all[j] & seeds[j];
    }
    set
}

// How many members the clusters of the seeds have together, and their weight. Seeds that are no slots are passed over.
pub fn clusters_of(table: &[u64], seeds: &[u64]) -> Union
    ensures { result ≡ clusters_of table.now (has_in seeds.now) }
{
    if !is_legal(table) {
        return Union {
            count: 0,
            weight: RawWeight(0),
        };
    }
    // No clusters have more members than a table has slots.
    let Some(found) = Slots::of(table).gather(seeds, CAPACITY) else {
        unreachable!()
    };
    found.union
}

// The limits of a table of a legal length, if they are in their ranges: what stands before any cluster is held against them.
fn limits_of(table: &[u64]) -> Option<Limits>
    ensures { MatchOption result (Unlimited table.now) (λ l. Limited table.now l) }
{
    if !is_legal(table) {
        return None;
    }
    let limits = Limits::of(table);
    if !limits.in_range() {
        return None;
    }
    Some(limits)
}

// The members of the cluster of slot a, where the cluster is within the table's limits: none where it is not, or there is no such slot.
pub fn cluster_within(table: &[u64], a: usize) -> Option<[u64; SET_WORDS]>
    ensures within_value { is_some result ≡ (is_legal (length table.now) && (limits_in_range (pool_of table.now).limits
        && (ltb a (slot_count (pool_of table.now))
        && is_within (pool_of table.now) (in_cluster (pool_of table.now) a)))) }
    ensures by_index { IfSome result (λ found. (i : ℕ) → has_in found i ≡ in_cluster (pool_of table.now) a i) }
{
    let limits = limits_of(table)?;
    if slots(table) <= a {
        return None;
    }
    Slots::of(table).limited_cluster(limits, a)
}

// Whether a slot without links, which is a cluster by itself, is within the size limit. One member is within every count limit.
pub fn alone_within(table: &[u64], a: usize) -> bool
    ensures { result ≡ leb (virtual_size (weight_at (pool_of table.now) a)) (pool_of table.now).limits.size }
{
    let limits = Limits::of(table);
    pool_table::weight(table, a).virtual_size() <= limits.size
}

// Whether no cluster passes a limit, for a table of any content. Links may go one way, so that clusters overlap: a slot that was seen in a
// cluster within the limits has its own cluster within that one, and is passed over.
pub fn clusters_stand(table: &[u64]) -> bool
    ensures { result ≡ (is_legal (length table.now)
        && (limits_in_range (pool_of table.now).limits && clusters_within (pool_of table.now))) }
{
    let Some(limits) = limits_of(table) else {
        return false;
    };
    let pool = Slots::of(table);
    let mut seen = [0u64; SET_WORDS];
    for a in 0..slots(table) {
        if !is_occupied(table, a) || contains(&seen, a) {
            continue;
        }
        if !is_linked(table, a) {
            if !alone_within(table, a) {
                return false;
            }
            continue;
        }
        let Some(found) = pool.limited_cluster(limits, a) else {
            return false;
        };
        join(&mut seen, &found);
    }
    true
}
