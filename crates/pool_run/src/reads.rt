// One read of the program's input, and how much was read so far. Private fields make an `Input`, an `End` and a `Failure` what they are: no
// other module can make one, so whoever holds one has it from a read. (It can be held twice: that a read's count is not dropped, no contract
// says.)
ghost use Rattle.std.specs.Prelude.{◌≡◌, length};
ghost use Rattle.pool_run.specs.Reads.{unread, Gave};
ghost use Rattle.pool_run.specs.Standing.{Told};

use crate::Desk;
use std::io::Read;

// So many reads gave bytes, so many together, and so many the last one.
#[derive(Clone, Copy)]
pub struct Input {
    reads: u64,
    bytes: u64,
    last: usize,
}

// A read behind so many bytes gave none: the input has ended.
#[derive(Clone, Copy)]
pub struct End {
    bytes: u64,
}

// A read behind so many bytes failed.
#[derive(Clone, Copy)]
pub struct Failure {
    bytes: u64,
}

#[derive(Clone, Copy)]
pub enum Got {
    Bytes(Input),
    Ended(End),
    Failed(Failure),
}

impl Input {
    pub fn last(self) -> usize
        ensures { result ≡ self.last }
    {
        self.last
    }
}

// Nothing is read.
pub fn nothing() -> Input
    ensures { result ≡ unread }
{
    Input {
        reads: 0,
        bytes: 0,
        last: 0,
    }
}

// It asks that each line so far is answered, so that the program can be talked with.
pub fn read_chunk(rt: &HostRuntime, room: &mut [u8; 4096], before: Input, _desk: &Desk) -> Got
    requires { Told before.bytes _desk.now }
    ensures { Gave before (length room.new) result }
{
    let bytes = before.bytes;
    let Ok(last) = rt.stdin().read(room) else {
        return Got::Failed(Failure { bytes });
    };
    if last == 0 {
        return Got::Ended(End { bytes });
    }
    Got::Bytes(Input {
        reads: before.reads.saturating_add(1),
        bytes: bytes.saturating_add(last as u64),
        last,
    })
}
