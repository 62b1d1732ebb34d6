// The clusters of a pool in the form that modules 4 to 7 of document 01 take: "A cluster's positions are its members by txid". The slots
// are sorted by txid once; each cluster is then found by a flood fill and read off in that order, so that no txid is compared twice.

#![tactic(auto)]

ghost use Rattle.std.specs.Prelude.{◌≡◌, [], ◌∷◌, ◌<◌, length, is_some, IfSome};
ghost use Rattle.pool_table.specs.Pool.{slot_count};
ghost use Rattle.pool_table.specs.Words.{pool_of};
ghost use Rattle.pool_table.specs.WellFormed.{clusters_within};
ghost use Rattle.pool_order.specs.Order.{slots_by_txid, roomy, stands_in};
ghost use Rattle.pool_check.specs.Linked.{Linked};
ghost use Rattle.pool_members.specs.Layout.{LaidOut};
ghost use Rattle.pool_members.specs.Steps.{Ranked, Rooms};

mod listing;
mod parents;

use slotsets::{SET_WORDS, contains};

// Lays out the clusters one after the other, by their least txids, and says how many they are: the members of cluster k stand from bounds[k]
// to bounds[k + 1]. By slot: firsts has the place where its cluster starts, and ups its parents as positions there. The other rooms are for
// what is needed meanwhile. Where the table does not stand, or a room has no more places than it has slots, nothing is laid out.
pub fn lay_out(
    table: &[u64],
    members: &mut [usize],
    bounds: &mut [usize],
    firsts: &mut [usize],
    order: &mut [usize],
    ranks: &mut [usize],
    places: &mut [usize],
    ups: &mut [u64],
    spare: &mut [u64],
) -> Option<usize>
    ensures stands_value { is_some result ≡ stands_in table.now (length members.old ∷ length bounds.old
        ∷ length firsts.old ∷ length order.old ∷ length ranks.old ∷ length places.old
        ∷ length ups.old ∷ length spare.old ∷ []) }
    ensures laid_out { IfSome result (λ count. LaidOut (pool_of table.now) count
        members.new bounds.new firsts.new ups.new) }
{
    let lens = [
        members.len(),
        bounds.len(),
        firsts.len(),
        order.len(),
        ranks.len(),
        places.len(),
    ];
    if !are_wide(pool_table::slots(table), &lens) {
        return None;
    }
    let n = pool_check::sort_linked(table, ups, spare)?;
    listing::unpack_all(&ups[..n], order);
    listing::rank_all(&order[..n], ranks);
    bounds[0] = 0;
    lay_by_txid(
        table,
        &order[..n],
        ranks,
        places,
        members,
        bounds,
        firsts,
        ups,
    )
}

// Whether each of the rooms of these lengths has more places than n.
fn are_wide(n: usize, lens: &[usize]) -> bool
    ensures { result ≡ roomy n lens.now }
{
    lens.iter().all(|&len| n < len)
}

// Walks the slots by txid: one that was not seen in a cluster before has the least txid of its own. Each cluster is held against the limits as
// it is found, so that none is searched for twice.
fn lay_by_txid(
    table: &[u64],
    order: &[usize],
    ranks: &[usize],
    places: &mut [usize],
    members: &mut [usize],
    bounds: &mut [usize],
    firsts: &mut [usize],
    ups: &mut [u64],
) -> Option<usize>
    requires linked { Linked table.now }
    requires order_value { order.now ≡ slots_by_txid (pool_of table.now) }
    requires table_in_bounds { (slot_count (pool_of table.now) < length ranks.now) × Ranked order.now ranks.now }
    requires rooms { Rooms (pool_of table.now) members.old bounds.old firsts.old ups.old places.old }
    ensures stands_value { is_some result ≡ clusters_within (pool_of table.now) }
    ensures laid_out { IfSome result (λ count. LaidOut (pool_of table.now) count
        members.new bounds.new firsts.new ups.new) }
{
    let mut seen = [0u64; SET_WORDS];
    let mut count = 0;
    let mut end = 0;
    // The clusters of the slots passed are laid out, in the first `end` places; `seen` has their members.
    for &s in order {
        if contains(&seen, s) {
            continue;
        }
        let k = listing::list_cluster(table, s, order, ranks, &mut seen, &mut members[end..])?;
        let next = end + k;
        parents::note_all(table, &members[end..next], end, places, firsts, ups);
        count += 1;
        end = next;
        bounds[count] = end;
    }
    Some(count)
}
