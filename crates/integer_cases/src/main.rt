// Runs the integer layer at the cases of document 01 and at extremes. Its output is stored. A write that fails ends the run.
#![tactic(auto)]

ghost use Rattle.std.specs.Prelude.{◌≡◌, ◌≤◌, pos};
ghost use Rattle.integers.specs.Range.{Within, RangeWithin};

use integers::Range;
use machine_integers::bytes::{signed8, signed16, signed32, unsigned16};
use machine_integers::division::{inverse_range, lower_end, upper_end};
use machine_integers::ranges::{common, count, has, is_vacant};
use std::io;

// z, or 0 where z is not within n of zero.
fn near(z: i64, n: u32) -> i64
    ensures { Within n result }
{
    let m = i64::from(n);
    if (-m..=m).contains(&z) { z } else { 0 }
}

// f as a factor, or 1 where it is none.
fn factor(f: i64) -> i64
    ensures { (result ≡ pos 0 → ⊥) × Within 100 result }
{
    let r = near(f, 100);
    if r == 0 { 1 } else { r }
}

fn range(low: i64, high: i64) -> Range
    ensures { RangeWithin 1000000 result }
{
    Range {
        low: near(low, 1000000),
        high: near(high, 1000000),
    }
}

// What is added behind a range that holds nothing.
fn vacancy(r: Range) -> &'static str {
    if is_vacant(r) { " vacant" } else { "" }
}

// The quotient rounded down and up: the ends of the inverse into n alone.
fn show_division(rt: &impl Print, n: i64, f: i64) -> io::Result<()> {
    let n = near(n, 1000000000);
    let f = factor(f);
    let down = upper_end(f, 0, n, n);
    let up = lower_end(f, 0, n, n);
    println!(rt; "{n} / {f}: down {down} up {up}")
}

fn show_inverse(rt: &impl Print, f: i64, b: i64, low: i64, high: i64) -> io::Result<()> {
    let f = factor(f);
    let b = near(b, 200000000);
    let wanted = range(low, high);
    let old = inverse_range(f, b, wanted);
    println!(rt;
        "factor {f} offset {b} into {wanted}: {old}{}",
        vacancy(old)
    )
}

// The new value f * x + b, by a product.
fn carried(f: i64, b: i64, x: i64) -> i64 {
    let f = near(f, 100);
    let b = near(b, 200000000);
    let x = near(x, 1000000000);
    f * x + b
}

// The whole number beside x, below it or above it.
fn beside(x: i64, above: bool) -> i64 {
    let x = near(x, 1000000000);
    if above { x + 1 } else { x - 1 }
}

// Whether x meets a side of c ≤ f * x + b ≤ d, the left one or the right one, and the number beside it does not.
fn is_last(f: i64, b: i64, x: i64, above: bool, left: bool, bound: i64) -> bool {
    let inside = carried(f, b, x);
    let outside = carried(f, b, beside(x, above));
    if left {
        bound <= inside && outside < bound
    } else {
        inside <= bound && bound < outside
    }
}

// An end of the inverse into one value, with the new value there and at the next number outward.
fn show_end(rt: &impl Print, f: i64, b: i64, x: i64, above: bool, bound: i64) -> io::Result<()> {
    let gives = carried(f, b, x);
    let next = carried(f, b, beside(x, above));
    let right = is_last(f, b, x, above, above != (f > 0), bound);
    print!(rt;
        "{x} gives {gives}, the next {next}{}",
        if right { "" } else { " WRONG" }
    )
}

fn show_ends(rt: &impl Print, f: i64, b: i64, bound: i64) -> io::Result<()> {
    let f = factor(f);
    let b = near(b, 1000000000);
    let bound = near(bound, 1000000000);
    print!(rt; "factor {f} offset {b} bound {bound}: low ")?;
    show_end(rt, f, b, lower_end(f, b, bound, bound), false, bound)?;
    print!(rt; "; high ")?;
    show_end(rt, f, b, upper_end(f, b, bound, bound), true, bound)?;
    println!(rt; "")
}

// Whether both ends at one dividend are right.
fn is_right(f: i64, n: i64) -> bool {
    let f = factor(f);
    let n = near(n, 1000000000);
    let low = lower_end(f, 0, n, n);
    let high = upper_end(f, 0, n, n);
    is_last(f, 0, low, false, f > 0, n) && is_last(f, 0, high, true, f < 0, n)
}

// At how many dividends from -41 to 41: every remainder on both sides of zero, and two multiples or more with their neighbours.
fn right_by(f: i64) -> usize
    ensures { result ≤ 83 }
{
    (-41..42).filter(|&n| is_right(f, n)).count()
}

// By the factors to 20 of either sign.
fn right_by_all() -> usize {
    let mut right = 0;
    for i in 1..21u32 {
        let f = i64::from(i);
        right += right_by(f) + right_by(carried(-1, 0, f));
    }
    right
}

fn show_common(rt: &impl Print, a: Range, b: Range) -> io::Result<()> {
    let both = common(a, b);
    let zero = if has(both, 0) { " with 0" } else { "" };
    println!(rt; "{a} and {b}: {both}{}{zero}", vacancy(both))
}

fn show_count(rt: &impl Print, low: i64, high: i64) -> io::Result<()> {
    let r = range(low, high);
    println!(rt; "{r}: count {}", count(r))
}

fn show_bytes(rt: &impl Print, s: [u8; 4]) -> io::Result<()> {
    println!(rt;
        "unsigned16 {} signed8 {} signed16 {} signed32 {}",
        unsigned16(&s, 0),
        signed8(&s, 3),
        signed16(&s, 2),
        signed32(&s, 0)
    )
}

// Both signs of factor and dividend, with and without remainder.
fn divisions(rt: &impl Print) -> io::Result<()> {
    for n in [7, 6] {
        for f in [3, -3] {
            show_division(rt, n, f)?;
            show_division(rt, -n, f)?;
        }
    }
    show_division(rt, 0, -5)?;
    show_division(rt, -1, 100)?;
    show_division(rt, 1000000000, -100)?;
    show_division(rt, -1000000000, 1)
}

// P6 and P7 of document 01, then the extreme bounds and wanted ranges that nothing leads into.
fn inverses(rt: &impl Print) -> io::Result<()> {
    show_inverse(rt, -3, 0, -7, -2)?;
    show_inverse(rt, -3, 0, -2, 7)?;
    show_inverse(rt, 3, 1, -7, -2)?;
    show_inverse(rt, 2, 1, 0, 15)?;
    show_inverse(rt, 1, 200000000, -1000000, 1000000)?;
    show_inverse(rt, -1, 200000000, -1000000, 1000000)?;
    show_inverse(rt, 100, -200000000, -1000000, 1000000)?;
    show_inverse(rt, -100, -200000000, -1000000, 1000000)?;
    show_inverse(rt, 10, 0, 1, 9)?;
    show_inverse(rt, -10, 0, 1, 9)?;
    show_inverse(rt, 5, 0, 4, 3)
}

// The four cases of both ends, at multiples of the factor on both sides of zero and beside them; then at the extreme bounds and offsets.
fn ends(rt: &impl Print) -> io::Result<()> {
    for f in [3, -3, 100, -100] {
        for x in -2..3 {
            let multiple = carried(f, 0, x);
            show_ends(rt, f, 0, beside(multiple, false))?;
            show_ends(rt, f, 0, multiple)?;
            show_ends(rt, f, 0, beside(multiple, true))?;
        }
    }
    for f in [1, -1, 7, -7, 100, -100] {
        for b in [-200000000, 200000000] {
            show_ends(rt, f, b, -1000000)?;
            show_ends(rt, f, b, 1000000)?;
        }
    }
    let right = right_by_all();
    println!(rt; "factors -20..-1 and 1..20, dividends -41..41: right at {right}")
}

fn ranges(rt: &impl Print) -> io::Result<()> {
    show_common(rt, range(0, 7), range(5, 20))?;
    show_common(rt, range(0, 7), range(8, 20))?;
    show_common(rt, range(-1000000, 1000000), range(-1, 0))?;
    show_count(rt, 0, 0)?;
    show_count(rt, 3, 2)?;
    show_count(rt, -1000000, 1000000)
}

// Every reader at its extremes.
fn readers(rt: &impl Print) -> io::Result<()> {
    show_bytes(rt, [0, 0, 0, 0])?;
    show_bytes(rt, [255, 255, 255, 255])?;
    show_bytes(rt, [255, 255, 255, 127])?;
    show_bytes(rt, [0, 0, 0, 128])?;
    show_bytes(rt, [1, 2, 3, 4])?;
    show_bytes(rt, [0, 128, 255, 127])
}

fn main(rt: HostRuntime) -> io::Result<()> {
    divisions(&rt)?;
    inverses(&rt)?;
    ends(&rt)?;
    ranges(&rt)?;
    readers(&rt)
}
