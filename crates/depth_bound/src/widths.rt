// How wide the ranges of a sheet are, and how many doublings fill them.
ghost use Rattle.std.specs.Prelude.{◌≡◌, ◌≤◌, ◌^◌, max};
ghost use Rattle.integers.specs.Range.{RangeWithin, size};
ghost use Rattle.model.specs.Sheet.{WellFormed};
ghost use Rattle.sheet_bytes.specs.Bounds.{RangesWithin};
ghost use Rattle.sheet_rules.specs.Decode.{decode};
ghost use Rattle.depth_bound.specs.Depth.{NarrowRanges, widened};

use integers::Range;
use machine_integers::ranges::count;
use sheet_bytes::{Ranges, Sheet};

// The larger of a width and the number of values of a range.
fn wider(w: u64, q: Range) -> u64
    requires { RangeWithin 1000000 q }
    ensures { result ≡ max w (size q) }
{
    w.max(count(q))
}

// The same with three ranges. That of a counter which the sheet lacks has one value.
fn widen(w: u64, b: Ranges) -> u64
    requires { RangesWithin 1000000 b }
    ensures { result ≡ widened w b }
{
    wider(wider(wider(w, b.first), b.second), b.third)
}

// A width that no range of the sheet exceeds: the number of values of the widest.
pub(crate) fn widest(s: &Sheet<'_>) -> u64
    requires { WellFormed (decode s.now) }
    ensures { (result ≤ 2000001) × NarrowRanges (decode s.now) result }
{
    let mut w: u64 = 1;
    for i in 0..s.shape().regions {
        w = widen(w, s.box_at(i).ranges);
    }
    w
}

// How often 1 must be doubled to reach a width.
pub(crate) fn doublings_of(width: u64) -> usize
    requires { width ≤ 2000001 }
    ensures { (result ≤ 21) × (width ≤ 2 ^ result) }
{
    let mut reach: u64 = 1;
    let mut m: usize = 0;
    while reach < width {
        reach *= 2;
        m += 1;
    }
    m
}
