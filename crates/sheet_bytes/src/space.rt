// Configurations and boxes: membership, landing, and the region of a configuration.
ghost use Rattle.std.specs.Prelude.{◌≡◌, ◌<◌, ◌≤◌, get_or, pos};
ghost use Rattle.model.specs.Sheet.{within, in_box, applied, region_number};
ghost use Rattle.sheet_rules.specs.Layout.{counters_of};
ghost use Rattle.sheet_rules.specs.Decode.{decode};
ghost use Rattle.sheet_bytes.specs.Three.{ranges_meant, values_meant, box_meant, config_meant};
ghost use Rattle.sheet_bytes.specs.Space.{RuleSafe, RulesSafe, ValuesWithin, all_three, land_three};

use crate::sheet::Sheet;
use crate::{Config, Ranges, RegionBox, RegionMove, Values};
use machine_integers::ranges::has;
use model::Rule;

// Whether each value is in its range. Only the sheet's own counters count.
pub fn within_ranges(r: Ranges, x: Values, counters: usize) -> bool
    requires { (1 ≤ counters) × (counters ≤ 3) }
    ensures { result ≡ within (ranges_meant counters r) (values_meant counters x) }
{
    has(r.first, x.first)
        && (counters == 1 || has(r.second, x.second) && (counters == 2 || has(r.third, x.third)))
}

// Whether the configuration is in the box.
pub fn inside(b: RegionBox, x: Config, counters: usize) -> bool
    requires { (1 ≤ counters) × (counters ≤ 3) }
    ensures { result ≡ in_box (box_meant counters b) (config_meant counters x) }
{
    b.state == x.state && within_ranges(b.ranges, x.values, counters)
}

// The value of a counter.
fn pick(x: Values, source: usize) -> i64
    requires { source < 3 }
    ensures { result ≡ get_or (all_three x) source (pos 0) }
{
    match source {
        0 => x.first,
        1 => x.second,
        _ => x.third,
    }
}

// The new value that a rule gives from the old ones.
fn apply(rule: Rule, old: Values) -> i64
    requires rule_safe { RuleSafe rule }
    requires values_within { ValuesWithin 1000000 old }
    ensures { result ≡ applied rule (all_three old) }
{
    match rule {
        Rule::Set { offset } => offset,
        Rule::Carry {
            source,
            factor,
            offset,
        } => factor * pick(old, source) + offset,
    }
}

// The configuration that an open move leads to. All rules read the old values.
pub fn land(x: Config, m: RegionMove) -> Config
    requires rules_safe { RulesSafe m.rules }
    requires values_within { ValuesWithin 1000000 x.values }
    ensures { result ≡ land_three m x }
{
    let old = x.values;
    let first = apply(m.rules.first, old);
    let second = apply(m.rules.second, old);
    let third = apply(m.rules.third, old);
    let values = Values {
        first,
        second,
        third,
    };
    Config {
        state: m.target,
        values,
    }
}

impl<'a> Sheet<'a> {
    /// The number of the region with the configuration, or the number of regions where there is none.
    pub fn region_of(&self, x: Config) -> usize
        ensures { result ≡ region_number (decode self.now) (config_meant (counters_of self.now) x) }
    {
        let shape = self.shape();
        for i in 0..shape.regions {
            if inside(self.box_at(i), x, shape.counters) {
                return i;
            }
        }
        shape.regions
    }
}
