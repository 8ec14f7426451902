// Counters that go round: how often to use each increment, modulo m, to come from a start to a wanted value (document 02, U13).
// Public: no function asks anything of its caller, and each contract gives the answer as a definition does.
#![tactic(auto)]

ghost use Rattle.std.specs.Prelude.{◌≡◌, ℕ, ◌+◌, ◌-◌, ◌%◌, ◌≤◌, ◌<◌, length, get_or};
ghost use Rattle.std.specs.Int.{◌∣◌};
ghost use Rattle.congruence_rules.specs.Congruence.{all_below, allowed, divisor, eight, go_round};
ghost use Rattle.congruence_rules.specs.Euclid.{IsBezout};
ghost use Rattle.congruence_rules.specs.Greedy.{least_count, greedy};
ghost use Rattle.congruence.specs.Tails.{Tails};

pub use answers::Refusal;
use answers::{Reason, demanded};

// The greatest common divisor of two numbers, and a factor with which the second is equal to it modulo the first (Bezout's identity).
#[derive(Clone, Copy)]
struct Bezout {
    divisor: u64,
    factor: u64,
}

// Whether all numbers are below the modulus.
fn are_below(modulus: u64, numbers: &[u64]) -> bool
    ensures { result ≡ all_below modulus numbers.now }
{
    for &number in numbers {
        if number >= modulus {
            return false;
        }
    }
    true
}

// Whether all that is handed in is within its limits. The increments are read only where there are one to eight.
fn is_allowed(modulus: u64, start: u64, wanted: u64, increments: &[u64]) -> bool
    ensures { result ≡ allowed modulus start wanted increments.now }
{
    if modulus < 2 {
        return false;
    }
    if modulus > 65536 {
        return false;
    }
    if start >= modulus {
        return false;
    }
    if wanted >= modulus {
        return false;
    }
    if increments.len() < 1 {
        return false;
    }
    if increments.len() > 8 {
        return false;
    }
    are_below(modulus, increments)
}

// What is left of one value behind another, going round.
fn minus(modulus: u64, from: u64, taken: u64) -> u64
    requires modulus_nonzero { (0 < modulus) × (modulus ≤ 65536) }
    requires from_bound { (from ≤ 65536) × (taken ≤ modulus) }
    ensures { result ≡ (from + (modulus - taken)) % modulus }
{
    (from + (modulus - taken)) % modulus
}

// Euclid's algorithm, extended: each of the two numbers that it divides is kept as a multiple of the increment.
fn euclid(modulus: u64, increment: u64) -> Bezout
    requires modulus_nonzero { (0 < modulus) × (modulus ≤ 65536) }
    requires increment_bound { increment ≤ 65536 }
    ensures bezout { IsBezout modulus increment result.divisor result.factor }
    ensures factor_bound { result.factor ≤ 65536 }
{
    let mut divisor = modulus;
    let mut factor = 0;
    let mut next = increment;
    let mut next_factor = 1;
    while next != 0 {
        let quotient = divisor / next;
        let rest = divisor % next;
        let rest_factor = minus(modulus, factor, quotient * next_factor % modulus);
        divisor = next;
        factor = next_factor;
        next = rest;
        next_factor = rest_factor;
    }
    Bezout { divisor, factor }
}

// Euclid's algorithm for each increment and the divisor of what comes after it, from the last increment on. Past the last stands the modulus.
fn find_tails(modulus: u64, increments: &[u64]) -> [Bezout; 9]
    requires modulus_nonzero { (0 < modulus) × (modulus ≤ 65536) }
    requires increments_len_bound { (length increments.now ≤ 8) × ((k : ℕ) → k < length increments.now → get_or increments.now k 0 < modulus) }
    ensures { Tails modulus increments.now 0 result }
{
    let none = Bezout {
        divisor: modulus,
        factor: 0,
    };
    let mut tails = [none; 9];
    for at in (0..increments.len()).rev() {
        tails[at] = euclid(tails[at + 1].divisor, increments[at]);
    }
    tails
}

// How often an increment is used: the least number of times that leaves a multiple of the divisor of what comes after it. The increment is known
// by its divisor and factor alone.
fn least_count(after: u64, here: Bezout, left: u64) -> u64
    requires divisor_nonzero { (0 < here.divisor) × (here.divisor ≤ after) }
    requires factor_bound { (here.factor ≤ 65536) × (left ≤ 65536) }
    requires divisor { here.divisor ∣ left }
    ensures by_index { (increment : ℕ) → IsBezout after increment here.divisor here.factor → result ≡ least_count after increment left }
    ensures upper_bound { result < after }
{
    left / here.divisor * here.factor % (after / here.divisor)
}

// The first solution where there is one: increment by increment the least count, and 0 past the last.
fn first_solution(modulus: u64, difference: u64, increments: &[u64], tails: [Bezout; 9]) -> [u64; 8]
    requires modulus_nonzero { (0 < modulus) × (modulus ≤ 65536) }
    requires difference_bound { (difference ≤ 65536) × (divisor modulus increments.now ∣ difference) }
    requires increments_len_bound { (length increments.now ≤ 8) × ((k : ℕ) → k < length increments.now → get_or increments.now k 0 < modulus) }
    requires tails { Tails modulus increments.now 0 tails }
    ensures { result ≡ eight (greedy modulus increments.now difference) }
{
    let mut counts = [0u64; 8];
    let mut left = difference;
    for (at, &increment) in increments.iter().enumerate() {
        let count = least_count(tails[at + 1].divisor, tails[at], left);
        counts[at] = count;
        left = minus(modulus, left, count * increment % modulus);
    }
    counts
}

/// How often to use each increment to come from the start to the wanted value: of all solutions the first in dictionary order, or none where
/// there is no solution. Past the last increment the counts are 0.
pub fn solve(
    modulus: u64,
    start: u64,
    wanted: u64,
    increments: &[u64],
) -> Result<Option<[u64; 8]>, Refusal>
    ensures { result ≡ go_round modulus start wanted increments.now }
{
    demanded(
        is_allowed(modulus, start, wanted, increments),
        Reason::GoRound.at(0),
    )?;
    let difference = minus(modulus, wanted, start);
    let tails = find_tails(modulus, increments);
    if difference % tails[0].divisor != 0 {
        return Ok(None);
    }
    Ok(Some(first_solution(modulus, difference, increments, tails)))
}
