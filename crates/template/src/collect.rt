// What a chunk brings: for each member its unselected ancestors first, parents in txid order, each followed to its own parents before it
// is written.
ghost use Rattle.std.specs.Prelude.{◌≡◌, true, take};
ghost use Rattle.pool_table.specs.Pool.{slot_count, occupied};
ghost use Rattle.pool_table.specs.Words.{pool_of};
ghost use Rattle.template_rules.specs.Filling.{collect, grown};
ghost use Rattle.template.specs.Selecting.{Occupied, Laid, Selected};

use slotsets::{contains, insert};
use txset::TxSet;

// Slot s behind its unselected ancestors; answers how many are selected then. A position in `ups` is a member of the cluster that starts at
// `firsts`, and positions go by txid. Of the table only the contract speaks: there the slot's ancestor count falls with each call.
fn collect_selected_with_ancestors(
    table: &[u64],
    members: &[usize],
    firsts: &[usize],
    ups: &[u64],
    taken: &mut [u64],
    picked: &mut [usize],
    n: usize,
    s: usize,
) -> usize
    requires laid { Laid (pool_of table.now) members.now firsts.now ups.now }
    requires selected { Selected (pool_of table.now) (take n picked.old) taken.old picked.old n }
    requires s_value { occupied (pool_of table.now) s ≡ true }
    ensures { Selected (pool_of table.now)
        (collect (pool_of table.now) (slot_count (pool_of table.now)) (take n picked.old) s)
        taken.new picked.new result }
{
    if contains(taken, s) {
        return n;
    }
    let first = firsts[s];
    let mut end = n;
    // The parents passed are selected, each behind its own ancestors.
    for j in TxSet::at(ups, s).iter() {
        let parent = members[first + j];
        end = collect_selected_with_ancestors(
            table, members, firsts, ups, taken, picked, end, parent,
        );
    }
    insert(taken, s);
    picked[end] = s;
    end + 1
}

// The members of a chunk one after the other.
pub fn collect_all(
    table: &[u64],
    members: &[usize],
    firsts: &[usize],
    ups: &[u64],
    slots: &[usize],
    taken: &mut [u64],
    picked: &mut [usize],
    n: usize,
) -> usize
    requires laid { Laid (pool_of table.now) members.now firsts.now ups.now }
    requires selected { Selected (pool_of table.now) (take n picked.old) taken.old picked.old n }
    requires occupied { Occupied (pool_of table.now) slots.now }
    ensures { Selected (pool_of table.now) (grown (pool_of table.now) (take n picked.old) slots.now)
        taken.new picked.new result }
{
    let mut end = n;
    // Those passed are selected.
    for &slot in slots {
        end = collect_selected_with_ancestors(
            table, members, firsts, ups, taken, picked, end, slot,
        );
    }
    end
}
