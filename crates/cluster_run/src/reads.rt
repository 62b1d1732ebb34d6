// One read of the program's input. Its private fields make an `End` and a `Failure` what they are: no other module can make one, so
// whoever holds one has it from a read.
ghost use Rattle.std.specs.Prelude.{◌≡◌, false, ◌<◌, length, take};
ghost use Rattle.cluster_reader.specs.Calls.{is_decided};
ghost use Rattle.cluster_run.specs.Stops.{Gave};

use std::io::Read;

// A read behind so many bytes gave none: the input has ended there.
#[derive(Clone, Copy)]
pub struct End {
    at: usize,
}

// A read behind so many bytes failed.
#[derive(Clone, Copy)]
pub struct Failure {
    at: usize,
}

#[derive(Clone, Copy)]
pub enum Got {
    Bytes(usize),
    Ended(End),
    Failed(Failure),
}

impl End {
    // How many bytes the input has.
    pub fn bytes(self) -> usize
        ensures { result ≡ self.at }
    {
        self.at
    }
}

// One read into the room behind the first `from` bytes. It asks for a place there, since a read into none gives none, and that these
// bytes leave the answer open: "without reading on".
pub fn read_more(rt: &HostRuntime, text: &mut [u8], from: usize) -> Got
    requires from_in_bounds { from < length text.old }
    requires text_value { is_decided (take from text.old) ≡ false }
    ensures { Gave from (length text.new) result }
{
    let Ok(n) = rt.stdin().read(&mut text[from..]) else {
        return Got::Failed(Failure { at: from });
    };
    if n == 0 {
        return Got::Ended(End { at: from });
    }
    Got::Bytes(n)
}
