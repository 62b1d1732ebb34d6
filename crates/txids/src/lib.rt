// A txid of module 8 (document 01): 32 bytes, held as four words, so that two txids are compared word by word, the first one
// first.

#![tactic(auto)]

ghost use Rattle.std.specs.Prelude.{◌≡◌, ◌+◌};
ghost use Rattle.txids.specs.Txids.{word_at, txid_at};

#[derive(Clone, Copy, PartialEq, Eq, PartialOrd, Ord)]
pub struct Txid {
    pub w0: u64,
    pub w1: u64,
    pub w2: u64,
    pub w3: u64,
}

impl Txid {
    // The txid of the 32 bytes from `at` on. Where there are fewer, a word is the number of the bytes that it has.
    pub fn at(bytes: &[u8], at: usize) -> Txid
        ensures { result ≡ txid_at bytes.now at }
    {
        Txid {
            w0: word(bytes, at, 0),
            w1: word(bytes, at, 8),
            w2: word(bytes, at, 16),
            w3: word(bytes, at, 24),
        }
    }
}

// A txid from the type that makes 32 certain.
impl From<[u8; 32]> for Txid {
    ghost from_gives = { λ bytes r. r ≡ txid_at bytes 0 };

    fn from(bytes: [u8; 32]) -> Txid {
        Txid::at(&bytes, 0)
    }
}

// The word of the eight bytes from `skip` past `at` on.
fn word(bytes: &[u8], at: usize, skip: usize) -> u64
    ensures { result ≡ word_at bytes.now (at + skip) }
{
    let from = at.saturating_add(skip).min(bytes.len());
    let end = (from + 8).min(bytes.len());
    let mut n: u64 = 0;
    for &b in &bytes[from..end] {
        n = n * 256 + u64::from(b);
    }
    n
}
