// The chunks of all clusters of a pool, in the order in which a template tries them: each cluster is ordered by module 6 and cut by
// module 4 of document 01, and the best paying chunk of the whole pool comes first.

#![tactic(auto)]

ghost use Rattle.std.specs.Prelude.{◌≡◌, [], ◌∷◌, length, IfOk};
ghost use Rattle.refusals.specs.Refusals.{answer_of, answer_from};
ghost use Rattle.pool_table.specs.Words.{pool_of};
ghost use Rattle.pool_order.specs.Order.{stands_in};
ghost use Rattle.pool_chunks.specs.Sorted.{delta_refusals, arrays, Sorted};

mod cut;
mod deltas;
mod sort;

use refusals::Refusal;

// Writes the chunks of a table's pool with these deltas, and says how many they are. They stand cluster by cluster: chunk c has the slots of
// `listed` from starts[c] to starts[c + 1] and its feerate at c of fees and sizes; `order` has the numbers of the chunks as they are tried;
// members, firsts and ups are those of the layout. The table is tested first, and the deltas of its entries, so that no sum of a fee and its
// delta can pass a word. A room that has no more places than the table has slots is answered as a table that does not stand.
pub fn all_chunks(
    table: &[u64],
    deltas: &[i64],
    members: &mut [usize],
    bounds: &mut [usize],
    firsts: &mut [usize],
    listed: &mut [usize],
    starts: &mut [usize],
    order: &mut [usize],
    ups: &mut [u64],
    sizes: &mut [u64],
    fees: &mut [i64],
) -> Result<usize, Refusal>
    ensures answer_value { answer_from result ≡ answer_of (delta_refusals (stands_in table.now (length fees.old
        ∷ length members.old ∷ length bounds.old ∷ length firsts.old ∷ length listed.old
        ∷ length starts.old ∷ length order.old ∷ length ups.old ∷ length sizes.old ∷ []))
        table.now deltas.now) }
    ensures sorted { IfOk result (λ count. Sorted (pool_of table.now) deltas.now (arrays count
        listed.new starts.new fees.new sizes.new order.new
        members.new firsts.new ups.new)) }
{
    if fees.len() <= pool_table::slots(table) {
        return Err(Refusal::TableIllFormed);
    }
    let clusters = pool_members::lay_out(
        table, members, bounds, firsts, listed, starts, order, ups, sizes,
    )
    .ok_or(Refusal::TableIllFormed)?;
    deltas::check_deltas(table, deltas)?;
    let count = cut::cut_all(
        table, deltas, clusters, members, bounds, ups, listed, starts, fees, sizes,
    );
    sort::sort_chunks(fees, sizes, &mut order[..count], bounds);
    Ok(count)
}
