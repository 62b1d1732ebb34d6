// Many texts for the cluster program of document 01, one run of `cluster_respond::respond` for each. A line of the input is a text, in which
// `/` stands for a newline and `%` with two hex digits for any byte. The line is printed with the response behind it, `/` for each newline.

#![tactic(auto)]

ghost use Rattle.std.specs.Prelude.{◌≡◌, ◌≤◌, ◌<◌, length, IfSome};

// The descriptors of standard input and output.
const STDIN_FILENO: i32 = 0;

const STDOUT_FILENO: i32 = 1;

fn main() {
    let mut input = room();
    let len = io::read_full(STDIN_FILENO, &mut input);
    table(&input[..len]);
}

// What does not fit is left out, and then the run does not print what it should.
fn room() -> [u8; 524_288]
    ensures { 524288 ≡ length result }
{
    [0; 524_288]
}

// Each line, as it is made.
fn table(input: &[u8]) {
    for line in input.split_inclusive(|&b| b == b'\n') {
        case(line.strip_suffix(b"\n".as_slice()).unwrap_or(line));
    }
}

fn case(line: &[u8]) {
    io::write_all(STDOUT_FILENO, line);
    io::write_all(STDOUT_FILENO, b" > ");
    let mut text = [0u8; 4096];
    let Some(len) = decode(line, &mut text) else {
        io::write_all(STDOUT_FILENO, b"too long\n");
        return;
    };
    show_response(&text[..len]);
}

// Puts the bytes that a line stands for at the start of `text`, and answers how many they are; none, where they are too many.
fn decode(line: &[u8], text: &mut [u8]) -> Option<usize>
    ensures { IfSome result (λ n. n ≤ length text.new) }
{
    let mut n: usize = 0;
    let mut i: usize = 0;
    // stays: a sign has one byte or three, so the place of the next is counted by hand
    while i < line.len() {
        if text.len() <= n {
            return None;
        }
        text[n] = byte_at(line, i);
        i = next(line, i);
        n += 1;
    }
    Some(n)
}

// The byte that the sign at i stands for.
fn byte_at(line: &[u8], i: usize) -> u8
    requires { i < length line.now }
{
    let b = line[i];
    if b == b'/' {
        return b'\n';
    }
    if b != b'%' {
        return b;
    }
    16 * digit(line, i, 1) + digit(line, i, 2)
}

// Where the next sign starts.
fn next(line: &[u8], i: usize) -> usize
    requires { i < length line.now }
    ensures { (i < result) × (result ≤ length line.now) }
{
    if line[i] != b'%' {
        return i + 1;
    }
    if line.len() - i < 3 {
        return line.len();
    }
    i + 3
}

// The hex digit that stands k places behind i, 0 where there is none.
fn digit(line: &[u8], i: usize, k: usize) -> u8
    requires { i < length line.now }
    ensures { result ≤ 15 }
{
    if line.len() - i <= k {
        return 0;
    }
    match line[i + k] {
        b @ b'0'..=b'9' => b - b'0',
        b @ b'a'..=b'f' => b - b'a' + 10,
        _ => 0,
    }
}

fn show_response(text: &[u8]) {
    let mut out = [0u8; 8192];
    let n = cluster_respond::respond(text, &mut out);
    one_line(&mut out);
    io::write_all(STDOUT_FILENO, &out[..n]);
    io::write_all(STDOUT_FILENO, b"\n");
}

// A slash for each newline.
fn one_line(out: &mut [u8; 8192])
    ensures { length out.new ≡ length out.old }
{
    for b in out.iter_mut() {
        *b = shown(*b);
    }
}

fn shown(b: u8) -> u8 {
    if b == b'\n' { b'/' } else { b }
}
