// Cutting ranges to the old values that rules take into wanted ranges.
ghost use Rattle.std.specs.Prelude.{◌≡◌};
ghost use Rattle.integers.specs.Range.{RangeWithin};
ghost use Rattle.model.specs.Sheet.{RuleFits};
ghost use Rattle.sheet_bytes.specs.Cuts.{narrow_three, empty_three, cut_three, cuts_three};
ghost use Rattle.sheet_bytes.specs.Bounds.{RangesWithin, RulesFit};

use crate::{Ranges, Rules};
use integers::Range;
use machine_integers::division::inverse_range;
use machine_integers::ranges::{common, has};
use model::Rule;

// The ranges, with that of one counter cut by another range.
fn narrow(source: usize, q: Range, b: Ranges) -> Ranges
    ensures { result ≡ narrow_three source q b }
{
    match source {
        0 => Ranges {
            first: common(b.first, q),
            ..b
        },
        1 => Ranges {
            second: common(b.second, q),
            ..b
        },
        _ => Ranges {
            third: common(b.third, q),
            ..b
        },
    }
}

// Ranges that hold nothing.
fn nothing() -> Ranges
    ensures { result ≡ empty_three }
{
    Ranges {
        first: Range { low: 1, high: 0 },
        second: Range { low: 1, high: 0 },
        third: Range { low: 1, high: 0 },
    }
}

// The old values within b that a rule takes into the wanted range.
pub fn cut_by(rule: Rule, wanted: Range, b: Ranges) -> Ranges
    requires rule_fits { RuleFits 3 rule }
    requires range_within { RangeWithin 1000000 wanted }
    ensures { result ≡ cut_three rule wanted b }
{
    match rule {
        Rule::Set { offset } => if has(wanted, offset) { b } else { nothing() },
        Rule::Carry {
            source,
            factor,
            offset,
        } => narrow(source, inverse_range(factor, offset, wanted), b),
    }
}

// The same for each rule and its counter's wanted range.
pub fn cut_by_all(rules: Rules, wanted: Ranges, b: Ranges) -> Ranges
    requires rules_fit { RulesFit rules }
    requires ranges_within { RangesWithin 1000000 wanted }
    ensures { result ≡ cuts_three rules wanted b }
{
    let one = cut_by(rules.first, wanted.first, b);
    let two = cut_by(rules.second, wanted.second, one);
    cut_by(rules.third, wanted.third, two)
}
