// A list of cases and what the original Rust answered to each: the input holds the cases, the output stored beside it the answers, so the
// calls of document 01 are held against the Rust where no Rust is at hand. A case is a line `call=`, for post_linearize a line `order=`,
// and a cluster in the form of the cluster program.

#![tactic(auto)]

ghost use Rattle.std.specs.Prelude.{◌≡◌, ◌≤◌, ◌<◌, length};

use printing::Out;
use refusals::Refusal;
use std::fmt;
use std::io::Result;
use txset::{POSITIONS, SET_WORDS};

// The descriptor of standard input.
const STDIN_FILENO: i32 = 0;

// stays: another program has these three too, and nothing else in common: a crate for the two would be longer than both enums.
#[derive(Clone, Copy)]
enum Call {
    Linearize,
    ChunkLengths,
    PostLinearize,
}

impl Call {
    // The call that a case's first line names.
    fn named(line: &[u8]) -> Option<Call> {
        match str::from_utf8(line).ok()? {
            "call=linearize" => Some(Call::Linearize),
            "call=chunk_lengths" => Some(Call::ChunkLengths),
            "call=post_linearize" => Some(Call::PostLinearize),
            _ => None,
        }
    }

    fn ask(
        self,
        fees: &[i64],
        sizes: &[u64],
        parents: &[u64],
        room: &mut [usize],
    ) -> std::result::Result<usize, Refusal> {
        match self {
            Call::Linearize => linearize::linearize(fees, sizes, parents, room),
            Call::ChunkLengths => chunking::chunk_lengths(fees, sizes, room),
            Call::PostLinearize => post_linearize::post_linearize(fees, sizes, parents, room),
        }
    }
}

fn main() {
    let mut input = room();
    // stays: std reads a whole input to the heap alone.
    let len = io::read_full(STDIN_FILENO, &mut input);
    // The run ends well whatever became of its output, which is compared.
    let _ = replay(&Out, &input[..len]);
}

// What does not fit is left out, and then the run does not print what it should.
fn room() -> [u8; 524_288]
    ensures { 524288 ≡ length result }
{
    [0; 524_288]
}

// ---- the cases of the list

fn replay(rt: &impl Print, input: &[u8]) -> Result<()> {
    let mut from = 0;
    // stays: std splits at what stands between pieces, and here it is the next case's own start.
    while from < input.len() {
        let end = case_end(input, from);
        case(rt, &input[from..end])?;
        from = end;
    }
    Ok(())
}

// Where the next case starts, or the end. What stands in front of the first `call=` is a case too.
fn case_end(input: &[u8], from: usize) -> usize
    requires { from < length input.now }
    ensures { (from < result) × (result ≤ length input.now) }
{
    for i in from..input.len() {
        if input[i..].starts_with(b"\ncall=".as_slice()) {
            return i + 1;
        }
    }
    input.len()
}

fn case(rt: &impl Print, text: &[u8]) -> Result<()> {
    let (line, rest) = first_line(text);
    match Call::named(line) {
        Some(Call::PostLinearize) => order_case(rt, rest),
        Some(call) => cluster_case(rt, call, rest, &mut [0; POSITIONS]),
        None => unknown(rt),
    }
}

// A text's first line, and what stands behind it; nothing does where no newline ends it.
fn first_line(text: &[u8]) -> (&[u8], &[u8]) {
    match text.iter().position(|&b| b == b'\n') {
        Some(end) => (&text[..end], &text[end + 1..]),
        None => (text, &[]),
    }
}

fn unknown(rt: &impl Print) -> Result<()> {
    println!(rt; "unknown case")
}

// The call that reads its order from the slice which takes the result: the slice is as long as the order line says.
fn order_case(rt: &impl Print, text: &[u8]) -> Result<()> {
    let mut order = [0usize; POSITIONS];
    let (line, rest) = first_line(text);
    let Some(n) = read_order(line, &mut order) else {
        return unknown(rt);
    };
    cluster_case(
        rt,
        Call::PostLinearize,
        rest,
        &mut order[..n.min(POSITIONS)],
    )
}

// Puts the positions of an order line at the start of `order`, and says how many there are. Which positions make an order is for the call
// to say.
fn read_order(line: &[u8], order: &mut [usize]) -> Option<usize> {
    let list = str::from_utf8(line).ok()?.strip_prefix("order=")?;
    let mut n = 0;
    if list.is_empty() {
        return Some(n);
    }
    for number in list.split(',') {
        *order.get_mut(n)? = read_position(number)?;
        n += 1;
    }
    Some(n)
}

// A number below 1000. Zeros may stand in front of it, but no sign, which std reads.
fn read_position(text: &str) -> Option<usize> {
    if text.starts_with('+') {
        return None;
    }
    text.parse().ok().filter(|&position| position < 1000)
}

// ---- a case's call

fn cluster_case(rt: &impl Print, call: Call, text: &[u8], room: &mut [usize]) -> Result<()> {
    let mut fees = [0i64; POSITIONS];
    let mut sizes = [0u64; POSITIONS];
    let mut parents = [0u64; SET_WORDS];
    match cluster_reader::read_cluster(text, &mut fees, &mut sizes, &mut parents) {
        Ok(n) => {
            let n = n.min(POSITIONS);
            show(rt, call, &fees[..n], &sizes[..n], &parents[..n], room)
        }
        Err(refusal) => put_refusal(rt, refusal),
    }
}

// The calls answer with counts that lie within what they were lent; what is printed is compared, so here it is enough to be safe.
fn show(
    rt: &impl Print,
    call: Call,
    fees: &[i64],
    sizes: &[u64],
    parents: &[u64],
    room: &mut [usize],
) -> Result<()> {
    match call.ask(fees, sizes, parents, room) {
        Ok(written) => {
            let n = written.min(room.len());
            put_places(rt, call, fees, sizes, &room[..n])
        }
        Err(refusal) => put_refusal(rt, refusal),
    }
}

// ---- what is printed

// The lengths of chunks; or the order, with a fresh one's chunks.
fn put_places(
    rt: &impl Print,
    call: Call,
    fees: &[i64],
    sizes: &[u64],
    places: &[usize],
) -> Result<()> {
    match call {
        Call::ChunkLengths => put_numbers(rt, "chunks=", places),
        Call::PostLinearize => put_numbers(rt, "order=", places),
        Call::Linearize => {
            put_numbers(rt, "order=", places)?;
            let mut lens = [0usize; POSITIONS];
            let n = chunking::order_lengths(fees, sizes, places, &mut lens).min(POSITIONS);
            put_numbers(rt, "chunks=", &lens[..n])
        }
    }
}

// A line in one write.
fn put_numbers(rt: &impl Print, key: &str, numbers: &[usize]) -> Result<()> {
    println!(rt; "{key}{}", Commas(numbers))
}

// A comma stands in front of each but the first.
#[derive(Clone, Copy)]
struct Commas<'a>(&'a [usize]);

impl fmt::Display for Commas<'_> {
    fn fmt<W: fmt::Write>(&self, f: &mut fmt::Formatter<W>) -> fmt::Result {
        for (k, number) in self.0.iter().enumerate() {
            if k != 0 {
                f.write_str(",")?;
            }
            write!(f, "{number}")?;
        }
        Ok(())
    }
}

fn put_refusal(rt: &impl Print, refusal: Refusal) -> Result<()> {
    println!(rt; "answer={}", refusal.number())
}
