// Ranges of whole numbers.
ghost use Rattle.std.specs.Prelude.{◌≡◌};
ghost use Rattle.integers.specs.Range.{contains, near, vacant, meet, size, RangeWithin};

use integers::Range;

// Whether x is in the range.
pub fn has(r: Range, x: i64) -> bool
    ensures { result ≡ contains r x }
{
    r.low <= x && x <= r.high
}

// Whether z is within n of zero.
pub fn near_zero(z: i64, n: u32) -> bool
    ensures { result ≡ near n z }
{
    let high = n as i64;
    let low = -high;
    has(Range { low, high }, z)
}

// Whether the range holds nothing.
pub fn is_vacant(r: Range) -> bool
    ensures { result ≡ vacant r }
{
    r.high < r.low
}

// What is in both ranges.
pub fn common(a: Range, b: Range) -> Range
    ensures { result ≡ meet a b }
{
    Range {
        low: a.low.max(b.low),
        high: a.high.min(b.high),
    }
}

// How many whole numbers the range holds.
pub fn count(r: Range) -> u64
    requires { RangeWithin 1000000000 r }
    ensures { result ≡ size r }
{
    if r.high < r.low {
        0
    } else {
        (r.high - r.low + 1) as u64
    }
}
