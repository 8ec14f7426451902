// The inverse of a carry rule by signed division, which rounds toward zero.
// Its ends are the least and the greatest whole x with c ≤ f * x + b ≤ d, for a wanted range from c to d. Each end is found by four cases: the
// factor positive or negative, the dividend n (the wanted bound less the offset) negative or not. Where toward zero is the wrong way, the dividend is
// first moved away from zero by one less than the factor without its sign.
ghost use Rattle.std.specs.Prelude.{◌≡◌, pos};
ghost use Rattle.integers.specs.Range.{Within, RangeWithin};
ghost use Rattle.integers.specs.Inverse.{inverse, LowerEnd, UpperEnd};

use integers::Range;

// The least whole x that meets its side of c ≤ f * x + b ≤ d.
pub fn lower_end(f: i64, b: i64, c: i64, d: i64) -> i64
    requires fact { (f ≡ pos 0 → ⊥) × Within 100 f }
    requires within { Within 1000000000 b }
    requires within_2 { Within 1000000000 c × Within 1000000000 d }
    ensures { LowerEnd f b c d result }
{
    if f > 0 {
        let n = c - b;
        if n >= 0 {
            // the least x with c ≤ f * x + b: n / f, 0 or more, rounded up, away from zero
            (n + f - 1) / f
        } else {
            // the least x with c ≤ f * x + b: n / f, below 0, rounded up, toward zero
            n / f
        }
    } else {
        let n = d - b; // a negative factor turns the order round: x is bounded from below by the right side
        if n >= 0 {
            // the least x with f * x + b ≤ d: n / f, 0 or less, rounded up, toward zero
            n / f
        } else {
            // the least x with f * x + b ≤ d: n / f, above 0, rounded up, away from zero
            (n + f + 1) / f
        }
    }
}

// The greatest whole x that meets its side of c ≤ f * x + b ≤ d.
pub fn upper_end(f: i64, b: i64, c: i64, d: i64) -> i64
    requires fact { (f ≡ pos 0 → ⊥) × Within 100 f }
    requires within { Within 1000000000 b }
    requires within_2 { Within 1000000000 c × Within 1000000000 d }
    ensures { UpperEnd f b c d result }
{
    if f > 0 {
        let n = d - b;
        if n >= 0 {
            // the greatest x with f * x + b ≤ d: n / f, 0 or more, rounded down, toward zero
            n / f
        } else {
            // the greatest x with f * x + b ≤ d: n / f, below 0, rounded down, away from zero
            (n - f + 1) / f
        }
    } else {
        let n = c - b; // a negative factor turns the order round: x is bounded from above by the left side
        if n >= 0 {
            // the greatest x with c ≤ f * x + b: n / f, 0 or less, rounded down, away from zero
            (n - f - 1) / f
        } else {
            // the greatest x with c ≤ f * x + b: n / f, above 0, rounded down, toward zero
            n / f
        }
    }
}

// The old values that factor f and offset b take into the wanted range, rounded inward.
pub fn inverse_range(f: i64, b: i64, wanted: Range) -> Range
    requires fact { (f ≡ pos 0 → ⊥) × Within 100 f }
    requires within { Within 200000000 b }
    requires range_within { RangeWithin 1000000 wanted }
    ensures { result ≡ inverse f b wanted }
{
    Range {
        low: lower_end(f, b, wanted.low, wanted.high),
        high: upper_end(f, b, wanted.low, wanted.high),
    }
}
