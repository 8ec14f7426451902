// The depth at which the boxes of a sheet are exact, from the sheet's bytes: how often a number can be doubled in its ranges, and the depth
// for a number of classes.
// Internal: serves sister crates; a function may ask what its callers have made sure of.
#![tactic(auto)]

ghost use Rattle.std.specs.Prelude.{◌≡◌, ◌≤◌};
ghost use Rattle.model.specs.Sheet.{WellFormed};
ghost use Rattle.depth_rules.specs.DepthBound.{Doublings};
ghost use Rattle.sheet_rules.specs.Decode.{decode};
ghost use Rattle.depth_bound.specs.Depth.{exact_depth};

use crate::factors::unit_factors;
use crate::widths::{doublings_of, widest};
use sheet_bytes::Sheet;

pub mod factors;
pub mod widths;

// How often the difference of two values of a counter can be multiplied by a factor other than 1 and -1: 0 where the sheet has no such
// factor, else the least number of doublings that fill its widest range.
pub fn doublings(s: &Sheet<'_>) -> usize
    requires { WellFormed (decode s.now) }
    ensures { (result ≤ 21) × Doublings (decode s.now) result }
{
    if unit_factors(s) {
        return 0;
    }
    doublings_of(widest(s))
}

// The depth at which boxes are exact, for at most n classes and m doublings; never less than 255.
pub fn exact_depth(counters: usize, n: usize, m: usize) -> usize
    requires { (counters ≤ 3) × (n ≤ 255) × (m ≤ 21) }
    ensures { result ≡ exact_depth counters n m }
{
    let bound = n * counters * 2 * (m + 1);
    bound.max(255)
}
