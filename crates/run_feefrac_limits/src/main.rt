// The leaves of `feefrac` at their limits, a line for each case.

#![tactic(auto)]

use feefrac::FeeFrac;
use printing::Out;
use std::cmp::Ordering;
use std::{fmt, io};

const MOST: u64 = u64::MAX;

const HIGH: i64 = i64::MAX;

const LOW: i64 = i64::MIN;

fn main() {
    // The run ends well whatever became of its output, which is compared.
    let _ = run(&Out);
}

fn run(rt: &impl Print) -> io::Result<()> {
    sums(rt)?;
    differences(rt)?;
    given_back(rt)?;
    negatives(rt)?;
    sizes_of_zero(rt)?;
    equal_feerates(rt)?;
    ends_of_one_word(rt)?;
    ends_of_two_words(rt)?;
    negative_fees(rt)
}

// Sums that fit, and sums that stop at an end.
fn sums(rt: &impl Print) -> io::Result<()> {
    for (a, b) in [
        (rate(0, 0), rate(0, 0)),
        (rate(0, MOST), rate(0, 0)),
        (rate(0, MOST - 1), rate(0, 1)),
        (rate(0, MOST), rate(0, 1)),
        (rate(0, MOST), rate(0, MOST)),
        (rate(HIGH - 1, 1), rate(1, 1)),
        (rate(HIGH, 1), rate(1, 1)),
        (rate(HIGH, 1), rate(HIGH, 1)),
        (rate(LOW + 1, 1), rate(-1, 1)),
        (rate(LOW, 1), rate(-1, 1)),
        (rate(LOW, 1), rate(LOW, 1)),
        (rate(LOW, 1), rate(HIGH, 1)),
    ] {
        println!(rt; "{} + {} = {}", Shown(a), Shown(b), Shown(a.add(b)))?;
    }
    Ok(())
}

fn differences(rt: &impl Print) -> io::Result<()> {
    for (a, b) in [
        (rate(0, 0), rate(0, 1)),
        (rate(0, 0), rate(0, MOST)),
        (rate(0, MOST), rate(0, MOST)),
        (rate(LOW + 1, 2), rate(1, 1)),
        (rate(LOW, 2), rate(1, 1)),
        (rate(LOW, 2), rate(HIGH, 1)),
        (rate(LOW, 2), rate(LOW, 1)),
        (rate(HIGH, 2), rate(-1, 1)),
        (rate(HIGH, 2), rate(LOW, 1)),
        (rate(-1, 2), rate(LOW, 1)),
        (rate(0, 2), rate(LOW, 1)),
    ] {
        println!(rt; "{} - {} = {}", Shown(a), Shown(b), Shown(a.sub(b)))?;
    }
    Ok(())
}

// What a held sum lost does not come back with the member.
fn given_back(rt: &impl Print) -> io::Result<()> {
    for (a, b) in [
        (rate(5, 7), rate(3, 4)),
        (rate(HIGH, 7), rate(10, 4)),
        (rate(LOW, 7), rate(-10, 4)),
        (rate(5, MOST), rate(3, 4)),
        (rate(HIGH, MOST), rate(HIGH, MOST)),
    ] {
        println!(rt;
            "{} + b - b, b = {}: {}",
            Shown(a),
            Shown(b),
            Shown(a.add(b).sub(b))
        )?;
    }
    Ok(())
}

fn negatives(rt: &impl Print) -> io::Result<()> {
    for a in [rate(0, 3), rate(HIGH, MOST), rate(LOW + 1, 0), rate(LOW, 0)] {
        println!(rt; "negated {} = {}", Shown(a), Shown(a.negate()))?;
    }
    Ok(())
}

fn sizes_of_zero(rt: &impl Print) -> io::Result<()> {
    compare(
        rt,
        &[
            (rate(1, 1), rate(5, 0)),
            (rate(5, 0), rate(1, 1)),
            (rate(-5, 0), rate(1, 1)),
            (rate(1, 1), rate(-5, 0)),
            (rate(0, 0), rate(0, 0)),
            (rate(0, 0), rate(3, 7)),
            (rate(-1, 0), rate(1, 0)),
            (rate(HIGH, 0), rate(LOW, MOST)),
        ],
    )
}

fn equal_feerates(rt: &impl Print) -> io::Result<()> {
    compare(
        rt,
        &[
            (rate(1, 2), rate(2, 4)),
            (rate(2, 4), rate(1, 2)),
            (rate(1, 2), rate(1, 2)),
            (rate(0, 5), rate(0, 9)),
            (rate(-1, 2), rate(-2, 4)),
            (rate(HIGH, MOST), rate(HIGH, MOST)),
            (
                rate(4_611_686_018_427_387_903, 9_223_372_036_854_775_807),
                rate(9_223_372_036_854_775_806, MOST - 1),
            ),
        ],
    )
}

// Around the widest fee and size that one word serves, and where a product of 64 bits or a float would err.
fn ends_of_one_word(rt: &impl Print) -> io::Result<()> {
    compare(
        rt,
        &[
            (
                rate(34_359_738_368, 268_435_455),
                rate(34_359_738_367, 268_435_455),
            ),
            (
                rate(34_359_738_368, 268_435_456),
                rate(34_359_738_367, 268_435_454),
            ),
            (
                rate(34_359_738_369, 268_435_455),
                rate(34_359_738_368, 268_435_453),
            ),
            (
                rate(-34_359_738_368, 268_435_455),
                rate(-34_359_738_368, 268_435_454),
            ),
            (
                rate(-34_359_738_369, 268_435_456),
                rate(-34_359_738_368, 268_435_455),
            ),
            (rate(4_294_967_296, 1), rate(1, 4_294_967_296)),
            (
                rate(9_007_199_254_740_993, 1),
                rate(9_007_199_254_740_992, 1),
            ),
        ],
    )
}

// Products near two to the 127, of which the first differ by one.
fn ends_of_two_words(rt: &impl Print) -> io::Result<()> {
    compare(
        rt,
        &[
            (rate(HIGH, MOST), rate(HIGH - 1, MOST - 2)),
            (rate(HIGH - 1, MOST - 2), rate(HIGH, MOST)),
            (rate(HIGH, MOST), rate(HIGH - 1, MOST)),
            (rate(HIGH, MOST), rate(HIGH, MOST - 1)),
            (rate(HIGH, 1), rate(1, MOST)),
            (rate(HIGH, MOST), rate(LOW, MOST)),
            (rate(LOW, MOST), rate(HIGH, 1)),
        ],
    )
}

fn negative_fees(rt: &impl Print) -> io::Result<()> {
    compare(
        rt,
        &[
            (rate(-1, 1), rate(0, 1)),
            (rate(-1, 1), rate(-1, 2)),
            (rate(-3, 2), rate(-2, 2)),
            (rate(-1, 5), rate(1, 5)),
            (rate(-HIGH, MOST), rate(1 - HIGH, MOST - 2)),
            (rate(LOW, MOST), rate(LOW, MOST - 1)),
            (rate(LOW, MOST), rate(LOW + 1, MOST)),
        ],
    )
}

fn compare(rt: &impl Print, cases: &[(FeeFrac, FeeFrac)]) -> io::Result<()> {
    for &(a, b) in cases {
        let higher = if a.higher_rate(b) {
            "higher"
        } else {
            "not higher"
        };
        let rank = match a.rank(b) {
            Ordering::Greater => "above",
            Ordering::Less => "below",
            Ordering::Equal => "equal",
        };
        println!(rt; "{} against {}: {higher}, rank {rank}", Shown(a), Shown(b))?;
    }
    Ok(())
}

fn rate(fee: i64, size: u64) -> FeeFrac {
    FeeFrac { fee, size }
}

// A feerate as it is printed.
#[derive(Clone, Copy)]
struct Shown(FeeFrac);

impl fmt::Display for Shown {
    fn fmt<W: fmt::Write>(&self, f: &mut fmt::Formatter<W>) -> fmt::Result {
        write!(f, "{}/{}", self.0.fee, self.0.size)
    }
}
