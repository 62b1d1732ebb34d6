// Standard output for the programs whose output is compared. It is a `Print`, so that they print by println!; the text goes out by io's write,
// for which nothing is assumed of errno, and a write that fails changes nothing of the run.

#![tactic(auto)]

ghost use Rattle.std.specs.Prelude.{◌≡◌};

use std::fmt;
use std::fmt::{Display, Write};
use std::io::{Print, Result};

const STDOUT_FILENO: i32 = 1;

// A line of most programs, so that it takes one write.
const PLACES: usize = 1024;

#[derive(Clone, Copy)]
pub struct Out;

// Whatever became of a write, the run goes on.
impl Print for Out {
    fn print<D: Display + Drop>(&self, value: D) -> Result<()>
        ensures { result ≡ Ok tt }
    {
        let mut text = Text::new();
        let _ = text.write(value);
        text.put_out();
        Ok(())
    }

    fn println<D: Display + Drop>(&self, value: D) -> Result<()>
        ensures { result ≡ Ok tt }
    {
        let mut text = Text::new();
        let _ = text.writeln(value);
        text.put_out();
        Ok(())
    }

    fn write_all(&self, bytes: &[u8]) -> Result<()>
        ensures { result ≡ Ok tt }
    {
        io::write_all(STDOUT_FILENO, bytes);
        Ok(())
    }
}

// What is printed and did not go out yet.
#[derive(Drop)]
struct Text {
    bytes: [u8; PLACES],
    len: usize,
}

impl Text {
    fn new() -> Text {
        Text {
            bytes: [0; PLACES],
            len: 0,
        }
    }

    fn push(&mut self, byte: u8) {
        if PLACES <= self.len {
            self.put_out();
        }
        self.bytes[self.len] = byte;
        self.len += 1;
    }

    fn put_out(&mut self)
        ensures { self.new.len ≡ 0 }
    {
        let len = self.len.min(PLACES);
        io::write_all(STDOUT_FILENO, &self.bytes[..len]);
        self.len = 0;
    }
}

impl Write for Text {
    fn write_str(&mut self, text: &str) -> fmt::Result {
        for &byte in text.as_bytes() {
            self.push(byte);
        }
        Ok(())
    }
}
