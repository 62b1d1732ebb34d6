// One write of the program's output, and what was written so far. Its private fields make a `Printed` what it is: no other module can make
// one, so whoever holds one has it from a write, or nothing was written.
ghost use Rattle.std.specs.Prelude.{◌≡◌, [], length};
ghost use Rattle.pool_session.specs.Memory.{lends, session_in};
ghost use Rattle.pool_run.specs.Reads.{unprinted, Wrote};
ghost use Rattle.pool_run.specs.Standing.{Due, DueLast};

use pool_session::Memory;

// The descriptor of standard output.
const STDOUT_FILENO: i32 = 1;

// The number of the line that is answered next, how many bytes the answers so far have together, and whether all of them were written.
#[derive(Clone, Copy)]
pub struct Printed {
    number: u64,
    bytes: u64,
    is_open: bool,
}

impl Printed {
    pub fn number(self) -> u64
        ensures { result ≡ self.number }
    {
        self.number
    }

    pub fn is_open(self) -> bool
        ensures { result ≡ self.is_open }
    {
        self.is_open
    }
}

// Nothing is written.
pub fn nothing() -> Printed
    ensures { result ≡ unprinted }
{
    Printed {
        number: 1,
        bytes: 0,
        is_open: true,
    }
}

// A line's answer: it asks that it is the answer to this line, which left this session.
pub fn write_answer(text: &[u8], before: Printed, _line: &[u8], _left: &Memory) -> Printed
    requires { Due before text.now _line.now (session_in _left.now.slots (lends _left.now [])) }
    ensures { Wrote before (length text.now) result }
{
    write(text, before)
}

// What the input's end is answered with. (Of nothing no write is made.)
pub fn write_last(text: &[u8], before: Printed) -> Printed
    requires { DueLast before text.now }
    ensures { Wrote before (length text.now) result }
{
    write(text, before)
}

fn write(text: &[u8], before: Printed) -> Printed
    ensures { Wrote before (length text.now) result }
{
    let is_open = io::write_all(STDOUT_FILENO, text);
    Printed {
        number: before.number.saturating_add(1),
        bytes: before.bytes.saturating_add(text.len() as u64),
        is_open,
    }
}
