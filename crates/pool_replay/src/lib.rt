// Replays a list of calls on pools from standard input, and prints for each what it answers and what it leaves. Two programs have it as
// their whole: one run has one input.
//
// A line has numbers with one space between them; the first says what is done: 0 make, 1 add, 2 remove, 3 set-cost, 4 clear, 5 totals,
// 6 a word of the table is written by hand, 7 how many words are lent, 8 a slot's delta, 9 a slot's mark, 10 template, 11 and any above
// all deltas and marks are 0 again. Any bytes are such a list (`Line::of`), and a write that fails changes nothing of the run.

#![tactic(auto)]

ghost use Rattle.std.specs.Prelude.{◌≡◌, ◌+◌, ◌<◌, ◌≤◌, length};

mod lines;
mod templates;

use lines::{Call, Line};
use pool_rules::{Placed, Totals};
use pool_table::Limits;
use printing::Out;
use refusals::Refusal;

// The descriptor of standard input.
const STDIN_FILENO: i32 = 0;

// 1,024 slots, and one word more.
const WORDS: usize = 39_941;

// One more delta, mark and place than a pool can have slots.
const PLACES: usize = 1_025;

// A table, of which so many words are lent, and the settings of its slots.
#[derive(Drop)]
struct Bench {
    table: [u64; WORDS],
    lent: usize,
    deltas: [i64; PLACES],
    marks: [u8; PLACES],
}

pub fn run() {
    let mut input = room();
    // stays: std reads a whole input to the heap alone.
    let len = io::read_full(STDIN_FILENO, &mut input);
    let mut bench = Bench {
        table: [0; WORDS],
        lent: WORDS,
        deltas: [0; PLACES],
        marks: [0; PLACES],
    };
    for line in input[..len].split_inclusive(|b| *b == b'\n') {
        bench.perform(&Out, Line::of(line.strip_suffix(b"\n").unwrap_or(line)));
    }
}

// What does not fit is left out, and then the run does not print what it should.
fn room() -> [u8; 262_144]
    ensures { 262144 ≡ length result }
{
    [0; 262_144]
}

// ---- what a line does

impl Bench {
    fn perform(&mut self, rt: &impl Print, line: Line) {
        let numbers = line.numbers;
        let call = Call::from(numbers[0]);
        match call {
            Call::Make => self.make(rt, line),
            Call::Add => {
                let added = self.add(line);
                self.show_slot(rt, added)
            }
            Call::Remove => {
                let words = self.words();
                let freed = pool_calls::remove(&mut self.table[..words], txid_of(numbers[1]));
                self.show_slot(rt, freed)
            }
            Call::SetCost => {
                let words = self.words();
                let txid = txid_of(numbers[1]);
                let set = pool_calls::set_cost(&mut self.table[..words], txid, numbers[2]);
                self.show_slot(rt, set)
            }
            Call::Clear => {
                let words = self.words();
                let cleared = pool_calls::clear(&mut self.table[..words]);
                self.show(rt, refusals::answer(cleared), 0, 0)
            }
            Call::Totals => {
                let words = self.words();
                let totals = Totals::from(pool_calls::totals(&self.table[..words]));
                self.show(rt, totals.answer, totals.entries as u64, totals.weight)
            }
            Call::Template => self.template(rt, line),
            Call::Word | Call::Lend | Call::Delta | Call::Mark | Call::Unset => {
                self.set(call, line);
            }
        }
    }

    // What is done by hand, and prints nothing.
    fn set(&mut self, call: Call, line: Line) {
        let numbers = line.numbers;
        match call {
            Call::Word => put(numbers[1], numbers[2], &mut self.table),
            Call::Lend => self.lent = held(numbers[1], WORDS),
            Call::Delta => {
                let delta = templates::delta_of(numbers[2], numbers[3]);
                put(numbers[1], delta, &mut self.deltas);
            }
            Call::Mark => put(numbers[1], (numbers[2] % 256) as u8, &mut self.marks),
            _ => {
                self.deltas.fill(0);
                self.marks.fill(0);
            }
        }
    }

    fn make(&mut self, rt: &impl Print, line: Line) {
        let limits = Limits {
            count: line.numbers[2],
            size: line.numbers[3],
            bytes_per_sigop: line.numbers[4],
        };
        self.lent = held(line.numbers[1], WORDS);
        let words = self.words();
        let made = pool_calls::make(&mut self.table[..words], limits);
        self.show(rt, refusals::answer(made), 0, 0)
    }

    fn add(&mut self, line: Line) -> Result<usize, Refusal> {
        let numbers = line.numbers;
        let parents = listed(&numbers[6..]);
        let len = list_len(line.count, numbers[5]);
        let words = self.words();
        pool_add::add(
            &mut self.table[..words],
            txid_of(numbers[1]),
            numbers[2],
            numbers[3],
            numbers[4],
            &parents[..len],
        )
    }

    fn words(&self) -> usize
        ensures { result ≤ 39941 }
    {
        self.lent.min(WORDS)
    }

    // ---- what is printed

    fn show_slot(&self, rt: &impl Print, outcome: Result<usize, Refusal>) {
        let placed = Placed::from(outcome);
        self.show(rt, placed.answer, placed.slot as u64, 0)
    }

    fn show(&self, rt: &impl Print, answer: u64, first: u64, second: u64) {
        let sum = self.digest();
        let _ = println!(rt; "{answer} {first} {second} {sum}");
    }

    // A sum in which every word and its place count.
    fn digest(&self) -> u64 {
        self.table.iter().fold(0, |sum, word| mixed(sum, *word))
    }
}

// A number, at most so many.
fn held(number: u64, most: usize) -> usize
    ensures { result ≤ most }
{
    number.min(most as u64) as usize
}

// One place of a slice is written, if it has the place.
fn put<T: Copy>(place: u64, value: T, room: &mut [T]) {
    if place < room.len() as u64 {
        room[place as usize] = value;
    }
}

fn mixed(sum: u64, word: u64) -> u64 {
    low(sum) * 1_000_003 + low(word) + (word >> 32)
}

fn low(word: u64) -> u64
    ensures { result < 4294967296 }
{
    word % 4_294_967_296
}

// ---- txids

// The bytes of the list of an add: its txids, and as many more as the line's sixth number says, so that a list may end amid a txid.
fn list_len(count: usize, odd: u64) -> usize
    ensures { result ≤ 352 }
{
    let listed = count.saturating_sub(6).min(10);
    listed * 32 + held(odd, 31)
}

// The txid whose first and last eight bytes are a number, the highest byte first.
fn txid_of(id: u64) -> [u8; 32] {
    let mut txid = [0u8; 32];
    txid[..8].copy_from_slice(&id.to_be_bytes());
    txid[24..].copy_from_slice(&id.to_be_bytes());
    txid
}

// The txids that an add lists, from the line's seventh number on.
fn listed(ids: &[u64]) -> [u8; 352] {
    let mut bytes = [0u8; 352];
    for (room, id) in bytes.chunks_exact_mut(32).zip(ids) {
        room.copy_from_slice(&txid_of(*id));
    }
    bytes
}
