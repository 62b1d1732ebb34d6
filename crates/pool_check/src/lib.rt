// Refusal 12 of document 01: every call on a pool but make tests the whole table first, so that no call works on a table that something
// else wrote into. Each part is a crate of its own; here they come together.

#![tactic(auto)]

ghost use Rattle.std.specs.Prelude.{◌≡◌, [], ◌∷◌, length, is_some, IfSome};
ghost use Rattle.pool_table.specs.Words.{pool_of};
ghost use Rattle.pool_table.specs.WellFormed.{well_formed};
ghost use Rattle.pool_order.specs.Packed.{Standing};
ghost use Rattle.pool_check.specs.Linked.{linked_in};

use pool_table::Limits;

// Whether every part of refusal 12 holds. The dearest test comes last.
pub fn is_well_formed(table: &[u64]) -> bool
    ensures { result ≡ well_formed table.now }
{
    let mut keys = [0u64; 1025];
    let mut spare = [0u64; 1025];
    // Of the parts, a cluster above its limits is left.
    sort_linked(table, &mut keys, &mut spare).is_some() && pool_clusters::clusters_stand(table)
}

// Whether every part holds but for the limits of the clusters, and then how many slots stand by txid at the start of `keys`, where both rooms
// have more places than the table has slots.
pub fn sort_linked(table: &[u64], keys: &mut [u64], spare: &mut [u64]) -> Option<usize>
    ensures stands_value { is_some result ≡ linked_in table.now (length keys.old ∷ length spare.old ∷ []) }
    ensures standing { IfSome result (λ n. Standing (pool_of table.now) n keys.old keys.new) }
{
    if !Limits::of(table).in_range() {
        return None;
    }
    if !pool_scan::rows_stand(table) {
        return None; // a number, the total or a free slot
    }
    let n = pool_order::sort_slots(table, keys, spare)?; // a txid that stands twice
    if !pool_links::links_stand(table) {
        return None; // a link or a chain of parents
    }
    Some(n)
}
