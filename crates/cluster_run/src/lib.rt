// The cluster program of document 01: reads a cluster from standard input and prints its order and chunks.

#![tactic(auto)]

ghost use Rattle.std.specs.Prelude.{◌≡◌, ◌<◌, length};
ghost use Rattle.cluster_reader.specs.Lines.{longest_text};
ghost use Rattle.cluster_run.specs.Stops.{Stopped, text_read};

mod reads;

use reads::{End, Failure, Got};

// The descriptor of standard output.
const STDOUT_FILENO: i32 = 1;

// Why no more is read, and how many bytes were.
#[derive(Clone, Copy)]
enum Stop {
    Ended(End),
    Full(usize),
    Decided(usize),
    Failed(Failure),
}

// Where a read fails, nothing is known of the input, and nothing is printed.
pub fn run(rt: &HostRuntime) {
    let mut text = room();
    let Some(len) = text_read(read_input(rt, &mut text)) else {
        return;
    };
    let mut out = [0u8; 8192];
    let n = cluster_respond::respond(&text[..len], &mut out);
    io::write_all(STDOUT_FILENO, &out[..n]);
}

// More than the longest text of the right form has: where the room is full, nothing behind it changes the response (`full_responds` of
// cluster_respond's proofs).
fn room() -> [u8; 197_826]
    ensures value { 197826 ≡ length result }
    ensures longest_text_in_bounds { longest_text < length result }
{
    [0; 197_826]
}

// How many bytes the answer goes by, where the input is known.
fn text_read(stop: Stop) -> Option<usize>
    ensures { result ≡ text_read stop }
{
    match stop {
        Stop::Ended(end) => Some(end.bytes()),
        Stop::Full(len) => Some(len),
        Stop::Decided(len) => Some(len),
        Stop::Failed(_) => None,
    }
}

// Reads until the input ends, the room is full or the answer is certain; or until a read fails.
fn read_input(rt: &HostRuntime, text: &mut [u8]) -> Stop
    ensures { Stopped text.new result }
{
    let mut len: usize = 0;
    // The first `len` bytes are what was read, and they leave the answer open.
    while len < text.len() {
        let got = reads::read_more(rt, text, len);
        match got {
            Got::Ended(end) => return Stop::Ended(end),
            Got::Failed(failure) => return Stop::Failed(failure),
            Got::Bytes(n) => {
                len += n;
                if cluster_reader::is_decided(&text[..len]) {
                    return Stop::Decided(len);
                }
            }
        }
    }
    Stop::Full(len)
}
