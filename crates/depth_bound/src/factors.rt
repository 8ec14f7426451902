// Whether a sheet has no factor other than 1 and -1.
ghost use Rattle.std.specs.Prelude.{◌≡◌, ◌<◌};
ghost use Rattle.model.specs.Sheet.{Each};
ghost use Rattle.depth_rules.specs.Composition.{great};
ghost use Rattle.depth_rules.specs.DepthBound.{UnitMove};
ghost use Rattle.sheet_rules.specs.Layout.{regions_of};
ghost use Rattle.sheet_rules.specs.Decode.{decode};
ghost use Rattle.sheet_bytes.specs.Three.{rules_meant, move_meant};
ghost use Rattle.depth_bound.specs.Depth.{Tells, UnitRegion, UnitFactors};

use model::Rule;
use sheet_bytes::{RegionMove, Rules, Sheet};

// Whether a rule has no factor other than 1 and -1.
fn unit_rule(rule: Rule) -> bool
    ensures { Tells (great rule ≡ 0) result }
{
    match rule {
        Rule::Set { offset: _ } => true,
        Rule::Carry {
            source: _,
            factor,
            offset: _,
        } => factor == 1 || factor == -1,
    }
}

// The same for three rules. That of a counter which the sheet lacks sets it.
fn unit_rules(rules: Rules) -> bool
    ensures { Tells (Each (λ r. great r ≡ 0) (rules_meant 3 rules)) result }
{
    unit_rule(rules.first) && unit_rule(rules.second) && unit_rule(rules.third)
}

// The same for a move. One that is barred has no rules.
fn unit_move(m: Option<RegionMove>) -> bool
    ensures { Tells (UnitMove (move_meant 3 m)) result }
{
    match m {
        None => true,
        Some(m) => unit_rules(m.rules),
    }
}

// The same for the moves of region i.
fn unit_region(s: &Sheet<'_>, i: usize) -> bool
    requires { i < regions_of s.now }
    ensures { Tells (UnitRegion (decode s.now) i) result }
{
    for a in 0..s.shape().actions {
        if !unit_move(s.move_at(i, a)) {
            return false;
        }
    }
    true
}

// The same for the whole sheet.
pub(crate) fn unit_factors(s: &Sheet<'_>) -> bool
    ensures { Tells (UnitFactors (decode s.now)) result }
{
    for i in 0..s.shape().regions {
        if !unit_region(s, i) {
            return false;
        }
    }
    true
}
