// Products that do not fit one word: two are compared without rounding, and one is divided by a size again. So a feerate is never
// rounded before it is compared, and a chunk that pays a little more is never taken for one that pays the same.

#![tactic(auto)]

ghost use Rattle.std.specs.Prelude.{◌≡◌, ◌+◌, ◌*◌, ◌/◌, ◌%◌, ◌<◌, min, nat_lt};
ghost use Rattle.wide.specs.Words.{value, Carry};

// A number of 128 bits in two words: the order of two is that of the high words, then of the low ones.
#[derive(Clone, Copy, PartialEq, Eq, PartialOrd, Ord)]
pub struct Wide {
    pub hi: u64,
    pub lo: u64,
}

impl Wide {
    pub const ZERO: Wide = Wide { hi: 0, lo: 0 };

    pub fn is_below(self, other: Wide) -> bool
        ensures { result ≡ nat_lt (value self) (value other) }
    {
        self < other
    }
}

// The product of two words, by digits of 32 bits. Wrapping adds build the sum of the middle products and the low word; a sum below its
// addend means a carry. The compiler knows this form and makes one multiplication of it.
pub fn mul_wide(x: u64, y: u64) -> Wide
    ensures { value result ≡ x * y }
{
    let x1 = x / 4_294_967_296;
    let x0 = x % 4_294_967_296;
    let y1 = y / 4_294_967_296;
    let y0 = y % 4_294_967_296;
    let p00 = x0 * y0;
    let p01 = x0 * y1;
    let p10 = x1 * y0;
    let p11 = x1 * y1;
    let middle = std::num::wrapping_add_u64(p10, p01);
    let upper = middle % 4_294_967_296 + p00 / 4_294_967_296;
    let lo = std::num::wrapping_add_u64(p00 % 4_294_967_296, upper % 4_294_967_296 * 4_294_967_296);
    let hi = p11
        + middle / 4_294_967_296
        + upper / 4_294_967_296
        + carry(middle, p10) * 4_294_967_296;
    Wide { hi, lo }
}

// 1 where a sum that wraps came out below its addend.
fn carry(sum: u64, addend: u64) -> u64
    ensures { Carry sum addend result }
{
    u64::from(sum < addend)
}

// x × factor / size, rounded down and held at 2^64 - 1; 0 for size 0. The product needs no second word here: a quotient and its rest are
// doubled, and added to, along the bits of the factor.
pub fn scaled_over(x: u64, factor: u16, size: u64) -> u64
    ensures { result ≡ min (factor * x / size) 18446744073709551615 }
{
    if size == 0 {
        return 0;
    }
    let whole = x / size;
    let part = x % size;
    let mut quotient: u64 = 0;
    let mut rest: u64 = 0;
    let mut bits = u64::from(factor);
    for _ in 0..16_usize {
        quotient = plus(quotient, quotient, rest, rest, size);
        rest = sum_below(rest, rest, size);
        if bits / 32_768 % 2 == 1 {
            quotient = plus(quotient, whole, rest, part, size);
            rest = sum_below(rest, part, size);
        }
        bits *= 2;
    }
    quotient
}

// quotient + more, and one more where the rests reach the size; held at 2^64 - 1.
fn plus(quotient: u64, more: u64, rest: u64, part: u64, size: u64) -> u64
    requires rest_lt_size { rest < size }
    requires part_lt_size { part < size }
    ensures { result ≡ min (quotient + more + (rest + part) / size) 18446744073709551615 }
{
    if u64::MAX - quotient <= more {
        return u64::MAX;
    }
    if size - rest <= part {
        return quotient + more + 1;
    }
    quotient + more
}

// The sum of two rests, less the size where it reaches it.
fn sum_below(rest: u64, part: u64, size: u64) -> u64
    requires rest_lt_size { rest < size }
    requires part_lt_size { part < size }
    ensures { result ≡ (rest + part) % size }
{
    if size - rest <= part {
        return part - (size - rest);
    }
    rest + part
}
