// A line: what is done, and its numbers.

// The numbers of a line: as many as an add with ten parents has.
const NUMBERS: usize = 16;

// The first numbers of a line, 0 where it has no more, and how many it has.
#[derive(Clone, Copy)]
pub struct Line {
    pub numbers: [u64; NUMBERS],
    pub count: usize,
}

impl Line {
    // A number ends at a space or with the line: a space at the end begins no further number, and between two spaces stands a 0.
    pub(crate) fn of(text: &[u8]) -> Line {
        let mut numbers = [0u64; NUMBERS];
        for (number, word) in numbers.iter_mut().zip(text.split_inclusive(|b| *b == b' ')) {
            *number = decimal(word.strip_suffix(b" ").unwrap_or(word));
        }
        Line {
            numbers,
            count: text.split_inclusive(|b| *b == b' ').count(),
        }
    }
}

// The number of some digits, modulo 2^64; of any byte the low four bits count.
fn decimal(digits: &[u8]) -> u64 {
    digits.iter().fold(0, |value: u64, digit| {
        value.wrapping_mul(10).wrapping_add(u64::from(*digit % 16))
    })
}

#[derive(Clone, Copy)]
pub enum Call {
    Make,
    Add,
    Remove,
    SetCost,
    Clear,
    Totals,
    Word,
    Lend,
    Delta,
    Mark,
    Template,
    Unset,
}

impl From<u64> for Call {
    fn from(what: u64) -> Call {
        match what {
            0 => Call::Make,
            1 => Call::Add,
            2 => Call::Remove,
            3 => Call::SetCost,
            4 => Call::Clear,
            5 => Call::Totals,
            6 => Call::Word,
            7 => Call::Lend,
            8 => Call::Delta,
            9 => Call::Mark,
            10 => Call::Template,
            _ => Call::Unset,
        }
    }
}
