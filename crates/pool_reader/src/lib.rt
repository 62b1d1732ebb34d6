// What the pool program reads: a line, and what it asks for. The form is strict, so that a line has one meaning and what is not of the
// form touches nothing.

#![tactic(auto)]

ghost use Rattle.std.specs.Prelude.{◌≡◌, List, ℕ, ◌+◌, take};
ghost use Rattle.pool_reader.specs.Requests.{request_of, by_plain_word, as_add, as_remove, as_set_cost, as_make, as_delta, as_mark, as_template};
ghost use Rattle.pool_reader.specs.Calls.{asked};
ghost use Rattle.pool_reader.specs.Steps.{words_at, Place};

mod words;

use pool_table::Limits;
use template_rules::Terms;
use texts::{place, read_signed};
use weights::RawWeight;
use words::{only_numbers, read_numbers, read_txid, read_txids};

// The most bytes of a line.
const LONGEST: usize = 8192;

// What a line asks for. The txid and the bytes of the parents' txids are left in lent arrays: `asked` of specs/Calls.antt puts them together.
#[derive(Clone, Copy)]
pub enum Parsed {
    Add(Adding),
    Remove,
    SetCost(u64),
    Make(Making),
    Clear,
    Totals,
    Delta(Delta),
    Mark(Marking),
    Template(Terms),
}

// An entry's numbers, and how many bytes of parents' txids there are.
#[derive(Clone, Copy)]
pub struct Adding {
    pub fee: u64,
    pub weight: u64,
    pub cost: u64,
    pub listed: usize,
}

#[derive(Clone, Copy)]
pub struct Making {
    pub slots: u64,
    pub limits: Limits,
}

// A slot's delta, and its mark.
#[derive(Clone, Copy)]
pub struct Delta {
    pub slot: u64,
    pub sats: i64,
}

#[derive(Clone, Copy)]
pub struct Marking {
    pub slot: u64,
    pub mark: u64,
}

// Reads a line, which has no newline. A line of no form is None, and the arrays may have changed.
pub fn read_request(line: &[u8], txid: &mut [u8; 32], parents: &mut [u8; 4096]) -> Option<Parsed>
    ensures { asked result txid.new parents.new ≡ request_of line.now }
{
    if LONGEST < line.len() {
        return None;
    }
    let end = place(line, 0, b' ');
    let word = &line[..end];
    if word == b"add".as_slice() {
        return read_add(line, end + 1, txid, parents);
    }
    if word == b"remove".as_slice() {
        return read_remove(line, end + 1, txid);
    }
    if word == b"set-cost".as_slice() {
        return read_set_cost(line, end + 1, txid);
    }
    read_plain(line, end)
}

fn read_add(
    line: &[u8],
    from: usize,
    txid: &mut [u8; 32],
    parents: &mut [u8; 4096],
) -> Option<Parsed>
    requires { Place line.now from }
    ensures { asked result txid.new parents.new ≡ as_add (words_at line.now from) }
{
    let numbers = read_txid(line, from, txid, 0)?;
    let ([fee, weight, cost], rest) = read_numbers::<3>(line, numbers)?;
    let listed = read_txids(line, rest, parents)?;
    Some(Parsed::Add(Adding {
        fee,
        weight,
        cost,
        listed,
    }))
}

fn read_remove(line: &[u8], from: usize, txid: &mut [u8; 32]) -> Option<Parsed>
    requires { Place line.now from }
    ensures { (ps : List ℕ) → asked result txid.new ps ≡ as_remove (words_at line.now from) }
{
    let end = read_txid(line, from, txid, 0)?;
    if end <= line.len() {
        return None;
    }
    Some(Parsed::Remove)
}

fn read_set_cost(line: &[u8], from: usize, txid: &mut [u8; 32]) -> Option<Parsed>
    requires { Place line.now from }
    ensures { (ps : List ℕ) → asked result txid.new ps ≡ as_set_cost (words_at line.now from) }
{
    let numbers = read_txid(line, from, txid, 0)?;
    let [cost] = only_numbers::<1>(line, numbers)?;
    Some(Parsed::SetCost(cost))
}

// The lines without a txid; `end` is where the first word ends.
fn read_plain(line: &[u8], end: usize) -> Option<Parsed>
    requires { Place line.now (end + 1) }
    ensures { (x ps : List ℕ) → asked result x ps ≡ by_plain_word (take end line.now) (words_at line.now (end + 1)) }
{
    let word = &line[..end];
    if word == b"make".as_slice() {
        return read_make(line, end + 1);
    }
    if word == b"clear".as_slice() {
        if end < line.len() {
            return None;
        }
        return Some(Parsed::Clear);
    }
    if word == b"totals".as_slice() {
        if end < line.len() {
            return None;
        }
        return Some(Parsed::Totals);
    }
    if word == b"delta".as_slice() {
        return read_delta(line, end + 1);
    }
    if word == b"mark".as_slice() {
        return read_mark(line, end + 1);
    }
    if word == b"template".as_slice() {
        return read_terms(line, end + 1);
    }
    None
}

fn read_make(line: &[u8], from: usize) -> Option<Parsed>
    requires { Place line.now from }
    ensures { (x ps : List ℕ) → asked result x ps ≡ as_make (words_at line.now from) }
{
    let [slots, count, size, bytes_per_sigop] = only_numbers::<4>(line, from)?;
    Some(Parsed::Make(Making {
        slots,
        limits: Limits {
            count,
            size,
            bytes_per_sigop,
        },
    }))
}

fn read_delta(line: &[u8], from: usize) -> Option<Parsed>
    requires { Place line.now from }
    ensures { (x ps : List ℕ) → asked result x ps ≡ as_delta (words_at line.now from) }
{
    let ([slot], last) = read_numbers::<1>(line, from)?;
    if line.len() < last {
        return None;
    }
    let end = place(line, last, b' ');
    if end < line.len() {
        return None;
    }
    let sats = read_signed(&line[last..end])?;
    Some(Parsed::Delta(Delta { slot, sats }))
}

fn read_mark(line: &[u8], from: usize) -> Option<Parsed>
    requires { Place line.now from }
    ensures { (x ps : List ℕ) → asked result x ps ≡ as_mark (words_at line.now from) }
{
    let [slot, mark] = only_numbers::<2>(line, from)?;
    Some(Parsed::Mark(Marking { slot, mark }))
}

fn read_terms(line: &[u8], from: usize) -> Option<Parsed>
    requires { Place line.now from }
    ensures { (x ps : List ℕ) → asked result x ps ≡ as_template (words_at line.now from) }
{
    let [budget, reserve, minimum] = only_numbers::<3>(line, from)?;
    Some(Parsed::Template(Terms {
        budget: RawWeight(budget),
        reserve,
        minimum,
    }))
}
