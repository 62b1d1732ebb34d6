// What the cluster program reads: n, and then three lines for each member. The form is strict, so that a number has one spelling and a
// text that was cut off is never taken for a smaller cluster. Each byte is looked at a few times.

#![tactic(auto)]

ghost use Rattle.std.specs.Prelude.{◌≡◌, [], ◌≤◌, length, drop};
ghost use Rattle.txset.specs.Sets.{positions};
ghost use Rattle.cluster_reader.specs.Reading.{read, members, told, read_told, first_told};
ghost use Rattle.cluster_reader.specs.Calls.{fees_after, sizes_after, parents_after, Decided, is_decided};
ghost use Rattle.cluster_reader.specs.Steps.{number_at, member_at, parents_in};

mod lines;

use feefrac::FeeFrac;
use refusals::Refusal;
use texts::{place, read_number, read_signed};
use txset::{POSITIONS, SET_WORDS, TxSet};

// A member's three lines, and where the next line starts.
#[derive(Clone, Copy)]
pub struct MemberLines {
    pub fee: i64,
    pub size: u64,
    pub parents: TxSet,
    pub next: usize,
}

// Reads the whole input. Where it is of its form, the arrays take the members, from their start; else they stay.
pub fn read_cluster(
    text: &[u8],
    fees: &mut [i64; POSITIONS],
    sizes: &mut [u64; POSITIONS],
    parents: &mut [u64; SET_WORDS],
) -> Result<usize, Refusal>
    ensures result_value { told result ≡ read_told (read text.now) }
    ensures fees_after { fees.new ≡ fees_after (read text.now) fees.old }
    ensures sizes_after { sizes.new ≡ sizes_after (read text.now) sizes.old }
    ensures parents_after { parents.new ≡ parents_after (read text.now) parents.old }
{
    let n = first_line(text)?;
    let next = place(text, 0, b'\n') + 1;
    read_members(text, next, n, fees, sizes, parents)
}

// What the first line says: how many members there are to be, or a refusal.
fn first_line(text: &[u8]) -> Result<usize, Refusal>
    ensures { told result ≡ first_told text.now }
{
    let Some(n) = first_number(text) else {
        return Err(Refusal::InputIllFormed);
    };
    if (POSITIONS as u64) < n {
        return Err(Refusal::TooManyMembers);
    }
    Ok(n as usize)
}

fn first_number(text: &[u8]) -> Option<u64>
    ensures { result ≡ number_at text.now }
{
    let part = lines::field(text, 0, b"n=")?;
    let start = part.start;
    let end = part.end;
    read_number(&text[start..end])
}

// The arrays are filled only once every line is of its form, so a refusal leaves them as they were.
fn read_members(
    text: &[u8],
    from: usize,
    n: usize,
    fees: &mut [i64; POSITIONS],
    sizes: &mut [u64; POSITIONS],
    parents: &mut [u64; SET_WORDS],
) -> Result<usize, Refusal>
    requires from_in_bounds { from ≤ length text.now }
    requires n_le_positions { n ≤ positions }
    ensures result_value { told result ≡ read_told (members n (drop from text.now) [] [] []) }
    ensures fees_after { fees.new ≡ fees_after (members n (drop from text.now) [] [] []) fees.old }
    ensures sizes_after { sizes.new ≡ sizes_after (members n (drop from text.now) [] [] []) sizes.old }
    ensures parents_after { parents.new ≡ parents_after (members n (drop from text.now) [] [] []) parents.old }
{
    let mut new_fees = [0i64; POSITIONS];
    let mut new_sizes = [0u64; POSITIONS];
    let mut new_parents = [0u64; SET_WORDS];
    let mut at = from;
    // The first i members are read, and the next starts at `at`.
    for i in 0..n {
        let Some(m) = read_member(text, at) else {
            return Err(Refusal::InputIllFormed);
        };
        FeeFrac {
            fee: m.fee,
            size: m.size,
        }
        .put(&mut new_fees, &mut new_sizes, i);
        m.parents.put(&mut new_parents, i);
        at = m.next;
    }
    if at < text.len() {
        return Err(Refusal::InputIllFormed);
    }
    fees[..n].copy_from_slice(&new_fees[..n]);
    sizes[..n].copy_from_slice(&new_sizes[..n]);
    parents[..n].copy_from_slice(&new_parents[..n]);
    Ok(n)
}

fn read_member(text: &[u8], from: usize) -> Option<MemberLines>
    requires { from ≤ length text.now }
    ensures { result ≡ member_at text.now from }
{
    let fee_part = lines::field(text, from, b"fee=")?;
    let fee_start = fee_part.start;
    let fee_end = fee_part.end;
    let fee = read_signed(&text[fee_start..fee_end])?;
    let size_part = lines::field(text, fee_end + 1, b"size=")?;
    let size_start = size_part.start;
    let size_end = size_part.end;
    let size = read_number(&text[size_start..size_end])?;
    let parents_part = lines::field(text, size_end + 1, b"parents=")?;
    let parents_start = parents_part.start;
    let parents_end = parents_part.end;
    let parents = parents_of(&text[parents_start..parents_end])?;
    Some(MemberLines {
        fee,
        size,
        parents,
        next: parents_end + 1,
    })
}

// The positions between the commas as a set; the empty set where there is nothing.
fn parents_of(text: &[u8]) -> Option<TxSet>
    ensures { result ≡ parents_in text.now }
{
    let mut set = TxSet::empty();
    if text.len() == 0 {
        return Some(set);
    }
    let mut from: usize = 0;
    // `set` has the positions that stand before `from`.
    loop {
        let end = place(text, from, b',');
        let p = read_number(&text[from..end])?;
        set = set.insert(p as usize);
        if end == text.len() {
            return Some(set);
        }
        from = end + 1;
    }
}

// Whether the answer to every text that starts so is already certain: the first line is whole, or longer than a line may be, and
// gives a refusal.
pub fn is_decided(start: &[u8]) -> bool
    ensures decided { Decided start.now result }
    ensures value { result ≡ is_decided start.now }
{
    match first_line(start) {
        Ok(_) => false,
        Err(_) => lines::has_end(start),
    }
}
