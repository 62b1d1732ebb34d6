// Each cluster of a pool ordered and cut into chunks. Most are one transaction, for which nothing is ordered; the others take a call of
// linearize each.
ghost use Rattle.std.specs.Prelude.{◌≡◌, map, ℕ, suc, ◌≤◌, ◌<◌, ◌^◌, length, get_or};
ghost use Rattle.lists.specs.Lists.{overwrite};
ghost use Rattle.refusals.specs.Refusals.{answer_of};
ghost use Rattle.linearize.specs.Linearize.{linear_order};
ghost use Rattle.linearize.specs.Cases.{cluster_chunks};
ghost use Rattle.pool_table.specs.Words.{pool_of};
ghost use Rattle.pool_table.specs.WellFormed.{well_formed};
ghost use Rattle.pool_chunks.specs.Chunks.{fees_of, sizes_of, parts_of};
ghost use Rattle.pool_chunks.specs.Sorted.{delta_refusals};
ghost use Rattle.pool_chunks.specs.Steps.{slot_rate, Payable, AllPayable, Answered, ends_from, last_end, fee_sums, size_sums};
ghost use Rattle.pool_chunks.specs.Steps.{Laying, Rooms, Cuttable, slots_in, ends_in, fees_in, sizes_in, AllCut};

use feefrac::FeeFrac;
use pool_table::{Entry, Limits};
use txset::POSITIONS;

// Writes the chunks of all clusters, one cluster after the other; says how many they are.
pub fn cut_all(
    table: &[u64],
    deltas: &[i64],
    clusters: usize,
    members: &[usize],
    bounds: &[usize],
    ups: &[u64],
    listed: &mut [usize],
    starts: &mut [usize],
    fees: &mut [i64],
    sizes: &mut [u64],
) -> usize
    requires deltas_value { answer_of (delta_refusals (well_formed table.now) table.now deltas.now) ≡ 0 }
    requires laying { Laying (pool_of table.now) clusters members.now bounds.now ups.now }
    requires rooms { Rooms (pool_of table.now) listed.old starts.old fees.old sizes.old }
    ensures { AllCut (pool_of table.now) deltas.now result
        listed.new starts.new fees.new sizes.new }
{
    starts[0] = 0;
    let mut count = 0;
    // The chunks of the first c clusters are written.
    for c in 0..clusters {
        let from = bounds[c];
        let to = bounds[c + 1];
        let next = count + 1;
        count += cut_cluster(
            table,
            deltas,
            &members[from..to],
            ups,
            from,
            &mut listed[from..],
            &mut starts[next..],
            &mut fees[count..],
            &mut sizes[count..],
        );
    }
    count
}

// Writes the chunks of one cluster: its slots in their order, the places at which its chunks end, the first of which starts at `from`, and
// their feerates; says how many they are. A member alone, the most common cluster, has one order and is one chunk.
fn cut_cluster(
    table: &[u64],
    deltas: &[i64],
    members: &[usize],
    ups: &[u64],
    from: usize,
    listed: &mut [usize],
    ends: &mut [usize],
    fees: &mut [i64],
    sizes: &mut [u64],
) -> usize
    requires cuttable { Cuttable (pool_of table.now) deltas.now members.now ups.now from }
    requires members_in_bounds { (length members.now ≤ length listed.old) × (length members.now ≤ length ends.old) }
    requires members_in_bounds_2 { (length members.now ≤ length fees.old) × (length members.now ≤ length sizes.old) }
    ensures value { result ≡ length (parts_of (pool_of table.now) deltas.now members.now) }
    ensures listed_after { listed.new
        ≡ overwrite (slots_in (pool_of table.now) deltas.now members.now) listed.old }
    ensures ends_after { ends.new
        ≡ overwrite (ends_in (pool_of table.now) deltas.now members.now from) ends.old }
    ensures fees_after { fees.new
        ≡ overwrite (fees_in (pool_of table.now) deltas.now members.now) fees.old }
    ensures sizes_after { sizes.new
        ≡ overwrite (sizes_in (pool_of table.now) deltas.now members.now) sizes.old }
{
    let n = members.len();
    if n == 1 {
        let s = members[0];
        listed[0] = s;
        ends[0] = from + 1;
        slot_rate(table, deltas, s).put(fees, sizes, 0);
        return 1;
    }
    let mut in_fees = [0i64; POSITIONS];
    let mut in_sizes = [0u64; POSITIONS];
    let mut parents = [0u64; POSITIONS];
    let mut order = [0usize; POSITIONS];
    let mut lens = [0usize; POSITIONS];
    gather_rates(table, deltas, members, &mut in_fees, &mut in_sizes);
    pick(ups, members, &mut parents); // the parents, as positions
    let k = order_cluster(
        &in_fees[..n],
        &in_sizes[..n],
        &parents[..n],
        &mut order,
        &mut lens,
    );
    pick(members, &order[..n], listed); // the slots
    put_ends(&lens[..k], from, ends);
    put_rates(
        &in_fees[..n],
        &in_sizes[..n],
        &order[..n],
        &lens[..k],
        fees,
        sizes,
    );
    k
}

// What a slot counts for: its fee with its delta, over its adjusted weight.
fn slot_rate(table: &[u64], deltas: &[i64], s: usize) -> FeeFrac
    requires { Payable (pool_of table.now) deltas.now s }
    ensures { result ≡ slot_rate (pool_of table.now) deltas.now s }
{
    let entry = Entry::at(table, s);
    let limits = Limits::of(table);
    let size = weights::sigops_adjusted_weight(entry.weight, entry.cost, limits.bytes_per_sigop);
    let delta = deltas[s];
    let fee = entry.fee as i64 + delta;
    FeeFrac { fee, size: size.0 }
}

// The fees and sizes of a cluster's members.
fn gather_rates(
    table: &[u64],
    deltas: &[i64],
    members: &[usize],
    fees: &mut [i64],
    sizes: &mut [u64],
)
    requires all_payable { AllPayable (pool_of table.now) deltas.now members.now }
    requires members_in_bounds { length members.now ≤ length fees.old }
    requires members_in_bounds_2 { length members.now ≤ length sizes.old }
    ensures fees_after { fees.new
        ≡ overwrite (fees_of (pool_of table.now) deltas.now members.now) fees.old }
    ensures sizes_after { sizes.new ≡ overwrite (sizes_of (pool_of table.now) members.now) sizes.old }
{
    // The first i are written.
    for (i, &s) in members.iter().enumerate() {
        slot_rate(table, deltas, s).put(fees, sizes, i);
    }
}

// What stands at these places of a list, in their order.
fn pick<T: Copy>(from: &[T], places: &[usize], to: &mut [T])
    requires by_index { (k : ℕ) → k < length places.now → get_or places.now k 0 < length from.now }
    requires places_in_bounds { length places.now ≤ length to.old }
    ensures { (d : T) → to.new ≡ overwrite (map (λ i. get_or from.now i d) places.now) to.old }
{
    // The first k are written.
    for (k, &i) in places.iter().enumerate() {
        to[k] = from[i];
    }
}

// The order of a cluster's members and the lengths of its chunks; says how many these are.
fn order_cluster(
    fees: &[i64],
    sizes: &[u64],
    parents: &[u64],
    order: &mut [usize],
    lens: &mut [usize],
) -> usize
    requires { Answered fees.now sizes.now parents.now order.old lens.old }
    ensures value { result ≡ length (cluster_chunks fees.now sizes.now parents.now) }
    ensures order_after { order.new
        ≡ overwrite (linear_order fees.now sizes.now parents.now) order.old }
    ensures lens_after { lens.new ≡ overwrite (cluster_chunks fees.now sizes.now parents.now) lens.old }
{
    let n = fees.len();
    let _ = linearize::linearize(fees, sizes, parents, order); // what is required is what it asks
    chunking::order_lengths(fees, sizes, &order[..n], lens)
}

// The places at which chunks of these lengths end, the first of which starts at `from`.
fn put_ends(lens: &[usize], from: usize, ends: &mut [usize])
    requires lens_bound { last_end from lens.now < 2 ^ 64 }
    requires lens_in_bounds { length lens.now ≤ length ends.old }
    ensures { ends.new ≡ overwrite (ends_from from lens.now) ends.old }
{
    let mut end = from;
    // The first k are written, the last of which is `end`.
    for (k, &len) in lens.iter().enumerate() {
        end += len;
        ends[k] = end;
    }
}

// The feerate sums of the chunks of an order, which are so long.
fn put_rates(
    in_fees: &[i64],
    in_sizes: &[u64],
    order: &[usize],
    lens: &[usize],
    fees: &mut [i64],
    sizes: &mut [u64],
)
    requires lens_in_bounds { last_end 0 lens.now ≤ length order.now }
    requires lens_in_bounds_2 { length lens.now ≤ length fees.old }
    requires lens_in_bounds_3 { length lens.now ≤ length sizes.old }
    ensures fees_after { fees.new
        ≡ overwrite (fee_sums in_fees.now in_sizes.now order.now lens.now) fees.old }
    ensures sizes_after { sizes.new
        ≡ overwrite (size_sums in_fees.now in_sizes.now order.now lens.now) sizes.old }
{
    let mut from = 0;
    // The first k are written, the last of which ends at `from`.
    for (k, &len) in lens.iter().enumerate() {
        let to = from + len;
        feeset::list_feerate(in_fees, in_sizes, &order[from..to]).put(fees, sizes, k);
        from = to;
    }
}
