// The lines of the input. A line that is not of its form is None.
ghost use Rattle.std.specs.Prelude.{◌≡◌};
ghost use Rattle.cluster_reader.specs.Steps.{line_at, field_at, has_end};

use texts::place;

// Where the value behind a line's key starts and ends.
#[derive(Clone, Copy)]
pub struct Span {
    pub start: usize,
    pub end: usize,
}

// The most bytes before a newline.
const LONGEST: usize = 1024;

// Where the newline of the line stands that starts at `from`.
fn line_end(text: &[u8], from: usize) -> Option<usize>
    ensures { result ≡ line_at text.now from }
{
    let end = place(text, from, b'\n');
    if text.len() <= end {
        return None;
    }
    if LONGEST < end - from {
        return None;
    }
    Some(end)
}

// Whether the first line is whole, or longer than a line may be.
pub fn has_end(text: &[u8]) -> bool
    ensures { result ≡ has_end text.now }
{
    if place(text, 0, b'\n') < text.len() {
        return true;
    }
    LONGEST < text.len()
}

// The value of the line that starts at `from`, which has to have this key.
pub fn field(text: &[u8], from: usize, key: &[u8]) -> Option<Span>
    ensures { result ≡ field_at key.now text.now from }
{
    let end = line_end(text, from)?;
    if !text[from..end].starts_with(key) {
        return None;
    }
    Some(Span {
        start: from + key.len(),
        end,
    })
}
