// The cases of document 01 that are run: the largest cluster, the ends of the fee range, and for each call every pair of neighbouring
// refusals that are true at once, of which the earlier is given. A line for each: the answer, the places written, and whether the lent
// memory behind them is as it was.

#![tactic(auto)]

use printing::Out;
use refusals::{Refusal, Reply};
use std::{fmt, io};

// Room for one member too many, and a place behind.
const ROOM: usize = 66;

const HIGHEST: i64 = 4_200_000_000_000_000;

const ABOVE: i64 = HIGHEST + 1;

fn main() {
    // The run ends well whatever became of its output, which is compared.
    let _ = run(&Out);
}

fn run(rt: &impl Print) -> io::Result<()> {
    sizes_of_clusters(rt)?;
    ends_of_the_range(rt)?;
    linearize_pairs(rt)?;
    post_linearize_pairs(rt)?;
    chunk_lengths_pairs(rt)
}

// ---- the cases

fn sizes_of_clusters(rt: &impl Print) -> io::Result<()> {
    case(rt, Call::Linearize, "0 members", plain(0, 1))?;
    case(rt, Call::Linearize, "64 members", plain(64, 1))?;
    case(rt, Call::Linearize, "65 members", plain(65, 1))?;
    case(rt, Call::ChunkLengths, "64 members", plain(64, 1))?;
    case(rt, Call::ChunkLengths, "65 members", plain(65, 1))
}

fn ends_of_the_range(rt: &impl Print) -> io::Result<()> {
    case(rt, Call::Linearize, "highest fee", plain(2, HIGHEST))?;
    case(rt, Call::Linearize, "one above", plain(2, ABOVE))?;
    case(rt, Call::Linearize, "lowest fee", plain(2, -HIGHEST))?;
    case(rt, Call::Linearize, "one below", plain(2, -ABOVE))?;
    case(rt, Call::ChunkLengths, "highest fee", plain(2, HIGHEST))?;
    case(rt, Call::ChunkLengths, "one above", plain(2, ABOVE))?;
    case(rt, Call::PostLinearize, "one above", plain(2, ABOVE))
}

fn linearize_pairs(rt: &impl Print) -> io::Result<()> {
    case(rt, Call::Linearize, "1 and 2", fewer_sizes())?;
    case(rt, Call::Linearize, "1 by parents and 2", fewer_links())?;
    case(rt, Call::Linearize, "2 and 11", no_room())?;
    case(rt, Call::Linearize, "11 and 3", short(ABOVE))?;
    case(rt, Call::Linearize, "3 and 4", cycle(ABOVE))?;
    case(rt, Call::Linearize, "4", cycle(1))
}

fn post_linearize_pairs(rt: &impl Print) -> io::Result<()> {
    case(rt, Call::PostLinearize, "1 and 2", fewer_sizes())?;
    case(rt, Call::PostLinearize, "2 and 3", plain(65, ABOVE))?;
    case(rt, Call::PostLinearize, "3 and 4", cycle(ABOVE))?;
    case(rt, Call::PostLinearize, "4 and 5", cycle(1))?;
    case(rt, Call::PostLinearize, "5", plain(2, 1))?;
    case(rt, Call::PostLinearize, "5 by length", short(1))?;
    case(rt, Call::PostLinearize, "one member", plain(1, 1))
}

fn chunk_lengths_pairs(rt: &impl Print) -> io::Result<()> {
    case(rt, Call::ChunkLengths, "1 and 2", fewer_sizes())?;
    case(rt, Call::ChunkLengths, "2 and 11", no_room())?;
    case(rt, Call::ChunkLengths, "11 and 3", short(ABOVE))
}

// ---- what a case is made of

// stays: another program has these three too, and nothing else in common: a crate for the two would be longer than both enums.
#[derive(Clone, Copy)]
enum Call {
    Linearize,
    PostLinearize,
    ChunkLengths,
}

impl fmt::Display for Call {
    fn fmt<W: fmt::Write>(&self, f: &mut fmt::Formatter<W>) -> fmt::Result {
        f.write_str(match self {
            Call::Linearize => "linearize",
            Call::PostLinearize => "post_linearize",
            Call::ChunkLengths => "chunk_lengths",
        })
    }
}

impl Call {
    fn ask(
        self,
        fees: &[i64],
        sizes: &[u64],
        parents: &[u64],
        room: &mut [usize],
    ) -> Result<usize, Refusal> {
        match self {
            Call::Linearize => linearize::linearize(fees, sizes, parents, room),
            Call::PostLinearize => post_linearize::post_linearize(fees, sizes, parents, room),
            Call::ChunkLengths => chunking::chunk_lengths(fees, sizes, room),
        }
    }

    // The room holds 7s, but where an order is lent, that of one member.
    fn room(self) -> [usize; ROOM] {
        let mut room = [7usize; ROOM];
        if let Call::PostLinearize = self {
            room[0] = 0;
        }
        room
    }
}

// Members of fee and size 1, of which the second has the first as its parent. The first's fee and its parents, and how much of each slice
// is lent.
#[derive(Clone, Copy)]
struct Members {
    fee: i64,
    parents: u64,
    fees: usize,
    sizes: usize,
    links: usize,
    room: usize,
}

fn plain(n: usize, fee: i64) -> Members {
    Members {
        fee,
        parents: 0,
        fees: n,
        sizes: n,
        links: n,
        room: n,
    }
}

fn fewer_sizes() -> Members {
    Members {
        sizes: 64,
        ..plain(65, 1)
    }
}

fn fewer_links() -> Members {
    Members {
        links: 64,
        ..plain(65, 1)
    }
}

fn no_room() -> Members {
    Members {
        room: 0,
        ..plain(65, 1)
    }
}

// Two members with room for one.
fn short(fee: i64) -> Members {
    Members {
        room: 1,
        ..plain(2, fee)
    }
}

// Two members that are each other's parents.
fn cycle(fee: i64) -> Members {
    Members {
        parents: 2,
        ..plain(2, fee)
    }
}

// ---- a case's run

// No case lends more than the room.
fn case(rt: &impl Print, call: Call, label: &str, m: Members) -> io::Result<()> {
    let mut fees = [1i64; ROOM];
    fees[0] = m.fee;
    let sizes = [1u64; ROOM];
    let mut parents = [0u64; ROOM];
    parents[0] = m.parents;
    parents[1] = 1;
    let before = call.room();
    let mut room = before;
    let reply = Reply::from(call.ask(
        &fees[..m.fees.min(ROOM)],
        &sizes[..m.sizes.min(ROOM)],
        &parents[..m.links.min(ROOM)],
        &mut room[..m.room.min(ROOM)],
    ));
    let from = kept_from(call, reply);
    let rest = if room.get(from..) == before.get(from..) {
        "kept"
    } else {
        "CHANGED"
    };
    let answer = reply.answer;
    let written = reply.written;
    println!(rt; "{call} {label} answer={answer} written={written} rest {rest}")
}

// The place from which a call leaves the room as it was. The one order that is accepted, of one member, stays whole.
fn kept_from(call: Call, reply: Reply) -> usize {
    match call {
        Call::PostLinearize => 0,
        Call::Linearize | Call::ChunkLengths => reply.written,
    }
}
