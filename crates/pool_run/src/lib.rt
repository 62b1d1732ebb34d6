// The pool program: a line in, its answer out, in fixed memory. What a line does and what answers it is pool_session's; here it is read and
// written. An answer is written before more is read, so that the program can be talked with.

#![tactic(auto)]

ghost use Rattle.std.specs.Prelude.{◌≡◌, true, List, [], ◌∷◌, ◌++◌, ℕ, ◌≤◌, min, length};
ghost use Rattle.pool_session.specs.Program.{last_text};
ghost use Rattle.pool_run.specs.Standing.{kept_length, Stands, Stood, Told, Holds, Responded};
ghost use Rattle.pool_run.specs.Stops.{Stopped, Finished};

mod reads;
mod writes;

use pool_session::Memory;
use reads::{End, Failure, Got, Input};
use writes::Printed;

// One more than the most bytes of a line: so many of a longer one are kept, and it is answered as what it is, too long.
const KEPT: usize = 8193;

// What the program stands on: the session, the line that is being read with how many bytes of it are kept, and what was printed.
#[derive(Clone, Copy)]
pub struct Desk {
    memory: Memory,
    line: [u8; KEPT],
    len: usize,
    printed: Printed,
}

// Why nothing more is read and printed: the input has ended; a read failed; a write failed; or there were more reads than can be counted.
#[derive(Clone, Copy)]
pub enum Stop {
    Ended(End),
    Failed(Failure),
    Closed,
    Tired(Input),
}

// And where the program stands then.
#[derive(Clone, Copy)]
pub struct Last {
    stop: Stop,
    desk: Desk,
}

// It answers why it stopped, so that a run which reads nothing has no answer to give.
pub fn run(rt: &HostRuntime) -> Last
    ensures { Finished result }
{
    let mut desk = Desk::new();
    let stop = desk.read_all(rt);
    Last { stop, desk }
}

impl Desk {
    // Nothing is read.
    fn new() -> Desk
        ensures { Stands [] result }
    {
        Desk {
            memory: Memory::new(),
            line: [0; KEPT],
            len: 0,
            printed: writes::nothing(),
        }
    }

    // Reads and answers to the input's end. Where a read or a write fails, nothing more is printed. A proved loop has to end, and nothing
    // says that the input does: so the loop has so many turns that no run uses them up.
    fn read_all(&mut self, rt: &HostRuntime) -> Stop
        requires { Stands [] self.old }
        ensures { Stopped result self.new }
    {
        let mut chunk = io::buffer();
        let mut input = reads::nothing();
        // Each line of the input so far is answered, and the last one is gathered up to where the input stands.
        for _ in 0..u64::MAX {
            match reads::read_chunk(rt, &mut chunk, input, self) {
                Got::Failed(failure) => return Stop::Failed(failure),
                Got::Ended(end) => return self.finish(end),
                Got::Bytes(more) => {
                    let n = more.last();
                    self.take_in(&chunk[..n]);
                    if !self.printed.is_open() {
                        return Stop::Closed;
                    }
                    input = more;
                }
            }
        }
        Stop::Tired(input)
    }

    // The input has ended.
    fn finish(&mut self, end: End) -> Stop
        requires { Told end.bytes self.old }
        ensures { Stopped result self.new }
    {
        let mut out = [0u8; 90_112];
        let n = self.last_text(&mut out);
        self.printed = writes::write_last(&out[..n], self.printed);
        if !self.printed.is_open() {
            return Stop::Closed;
        }
        Stop::Ended(end)
    }

    // A line without its newline was cut off, and what it would have said is not known: 13.
    fn last_text(&self, out: &mut [u8; 90_112]) -> usize
        ensures { (pending : List ℕ) → self.now.len ≡ min kept_length (length pending)
            → Holds (last_text self.now.printed.number pending) out.new result }
    {
        if self.len == 0 {
            return 0;
        }
        pool_writer::write_malformed(self.printed.number(), out)
    }

    // Takes in what was read, byte by byte, unless the output is closed meanwhile.
    fn take_in(&mut self, chunk: &[u8])
        requires { Stood self.old }
        ensures { (input : List ℕ) → Stands input self.old → self.new.printed.is_open ≡ true → Stands (input ++ chunk.now) self.new }
    {
        // The bytes passed are taken in.
        for &byte in chunk {
            self.take_byte(byte);
            if !self.printed.is_open() {
                return;
            }
        }
    }

    // One byte more: a newline ends the line, which is answered at once. Of a line that is too long no more are kept.
    fn take_byte(&mut self, byte: u8)
        requires { Stood self.old }
        ensures { (input : List ℕ) → Stands input self.old → self.new.printed.is_open ≡ true → Stands (input ++ (byte ∷ [])) self.new }
    {
        if byte == b'\n' {
            self.answer();
            return;
        }
        if KEPT <= self.len {
            return;
        }
        self.line[self.len] = byte;
        self.len += 1;
    }

    // The line is whole: its answer is written, and the next one begins.
    fn answer(&mut self)
        requires { Stood self.old }
        ensures { (input : List ℕ) → Stands input self.old → self.new.printed.is_open ≡ true → Stands (input ++ (10 ∷ [])) self.new }
    {
        let mut out = [0u8; 90_112];
        let n = self.respond(&mut out);
        self.printed = writes::write_answer(
            &out[..n],
            self.printed,
            &self.line[..self.len],
            &self.memory,
        );
        self.len = 0;
    }

    // What the line asks for is done, and its answer stands in the room.
    fn respond(&mut self, out: &mut [u8; 90_112]) -> usize
        requires { self.old.len ≤ kept_length }
        ensures responded { (input : List ℕ) (st : Stands input self.old)
            → Responded st.lines st.pending self.old.printed.number self.new.memory out.new result }
        ensures memory_alone { self.new ≡ record self.old { memory = self.new.memory } }
    {
        let number = self.printed.number();
        self.memory.step(&self.line[..self.len], number, out)
    }
}
