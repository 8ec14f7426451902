// The set-point of a rule: which old value brings a counter to, or just below, a wanted value, and how far below (document 02, U8).
// Public: no function asks anything of its caller, and each contract gives the answer as a definition does.
#![tactic(auto)]

ghost use Rattle.std.specs.Prelude.{◌≡◌, pos, ◌-ℤ◌};
ghost use Rattle.integers.specs.Range.{Within};
ghost use Rattle.set_point_rules.specs.Euclid.{quotient};
ghost use Rattle.set_point_rules.specs.SetPoint.{factor_allowed, allowed, solution, set_point};

pub use answers::Refusal;
use answers::{Reason, demanded};
use integers::Range;
use machine_integers::division::inverse_range;
use machine_integers::ranges::near_zero;
use model::Rule;
pub use set_point_rules::SetPoint;

// Whether a number may be the factor of a carry rule.
fn is_factor(factor: i64) -> bool
    ensures { result ≡ factor_allowed factor }
{
    near_zero(factor, 100) && !near_zero(factor, 0)
}

// Whether factor, offset and wanted value are within their limits.
fn is_allowed(factor: i64, offset: i64, wanted: i64) -> bool
    ensures { result ≡ allowed factor offset wanted }
{
    is_factor(factor) && near_zero(offset, 200000000) && near_zero(wanted, 1000000)
}

// The quotient of Euclid's division of wanted - offset by factor.
fn old_value(factor: i64, offset: i64, wanted: i64) -> i64
    requires fact { (factor ≡ pos 0 → ⊥) × Within 100 factor }
    requires within { Within 200000000 offset }
    requires within_2 { Within 1000000 wanted }
    ensures { result ≡ quotient (wanted -ℤ offset) factor }
{
    // from the quotient rounded up to the quotient rounded down: vacant where the division leaves something
    let exact = inverse_range(
        factor,
        offset,
        Range {
            low: wanted,
            high: wanted,
        },
    );
    // what gives the wanted value or less is rounded down for a positive factor, and up for a negative one
    if factor > 0 { exact.high } else { exact.low }
}

// The division itself: the quotient, and what it leaves.
fn divide(factor: i64, offset: i64, wanted: i64) -> SetPoint
    requires fact { (factor ≡ pos 0 → ⊥) × Within 100 factor }
    requires within { Within 200000000 offset }
    requires within_2 { Within 1000000 wanted }
    ensures { result ≡ solution factor offset wanted }
{
    let old = old_value(factor, offset, wanted);
    let remainder = wanted - offset - factor * old;
    SetPoint { old, remainder }
}

/// The set-point of a rule for a wanted value, or refusal 19.
pub fn find(rule: Rule, wanted: i64) -> Result<SetPoint, Refusal>
    ensures { result ≡ set_point rule wanted }
{
    let Rule::Carry { factor, offset, .. } = rule else {
        return Err(Reason::NoSetPoint.at(0));
    };
    demanded(is_allowed(factor, offset, wanted), Reason::NoSetPoint.at(0))?;
    Ok(divide(factor, offset, wanted))
}
