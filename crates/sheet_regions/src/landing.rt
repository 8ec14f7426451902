// Refusal 8: an open move takes some configuration of its region into no region. Regions are disjoint, so the volumes of their preimages
// within the region add up to its volume exactly when every configuration lands. The time goes by the number of regions.
ghost use Rattle.std.specs.Prelude.{◌≡◌, ◌+◌, ◌<◌};
ghost use Rattle.answer_rules.specs.Stages.{each};
ghost use Rattle.model.specs.Blocks.{volume};
ghost use Rattle.sheet_rules.specs.Layout.{actions_of, regions_of};
ghost use Rattle.sheet_bytes.specs.Cuts.{all_three};
ghost use Rattle.sheet_bytes.specs.Bounds.{RangesWithin, RulesFit};
ghost use Rattle.sheet_rules.specs.Check.{check_landing};
ghost use Rattle.sheet_regions.specs.Volumes.{share_three};
ghost use Rattle.sheet_regions.specs.Tight.{TightThree};
ghost use Rattle.sheet_regions.specs.Landing.{Passed, lands_all};
ghost use Rattle.sheet_regions.specs.Shares.{shares_three, Countable};

use answers::{Reason, Refusal, demanded};
use machine_integers::ranges::count;
use sheet_bytes::cutting::cut_by_all;
use sheet_bytes::{Ranges, RegionBox, RegionMove, Sheet};

// How many value lists the ranges hold.
fn volume_of(b: Ranges) -> u64
    requires { TightThree b }
    ensures { result ≡ volume (all_three b) }
{
    count(b.first) * count(b.second) * count(b.third)
}

// How many of the configurations within b the move takes into a wanted box.
fn share_of(b: Ranges, m: RegionMove, w: RegionBox) -> u64
    requires ranges_within { RangesWithin 1000000 b }
    requires rules_fit { RulesFit m.rules }
    requires ranges_within_2 { RangesWithin 1000000 w.ranges }
    ensures { result ≡ share_three b m w }
{
    if m.target == w.state {
        volume_of(cut_by_all(m.rules, w.ranges, b))
    } else {
        0
    }
}

// How many of the configurations within b the move takes into no region.
fn uncovered(s: &Sheet<'_>, b: Ranges, m: RegionMove) -> u64
    requires { Countable s.now b m }
    ensures { result + shares_three s.now b m (regions_of s.now) ≡ volume (all_three b) }
{
    let mut left = volume_of(b);
    for j in 0..s.shape().regions {
        left -= share_of(b, m, s.box_at(j));
    }
    left
}

/// Whether action a takes every configuration of region i into some region, or is barred there.
pub fn lands_all(s: &Sheet<'_>, i: usize, a: usize) -> bool
    requires passed { Passed s.now }
    requires i_lt_regions { (i < regions_of s.now) × (a < actions_of s.now) }
    ensures { result ≡ lands_all s.now i a }
{
    let Some(m) = s.move_at(i, a) else {
        return true;
    };
    let home = s.box_at(i);
    uncovered(s, home.ranges, m) == 0
}

// 8, action a of region i.
fn check_move(s: &Sheet<'_>, i: usize, a: usize) -> Result<(), Refusal>
    requires passed { Passed s.now }
    requires i_lt_regions { (i < regions_of s.now) × (a < actions_of s.now) }
    ensures { result ≡ check_landing s.now i a }
{
    let lands = lands_all(s, i, a);
    demanded(lands, Reason::Landing.at(s.move_place(i, a)))
}

/// 8: the first open move that takes some configuration of its region into no region.
pub fn check_landing(s: &Sheet<'_>) -> Result<(), Refusal>
    requires { Passed s.now }
    ensures { result ≡ each (λ i. each (check_landing s.now i) (actions_of s.now)) (regions_of s.now) }
{
    let shape = s.shape();
    let mut answer = Ok(());
    'regions: for i in 0..shape.regions {
        for a in 0..shape.actions {
            if let Err(refusal) = check_move(s, i, a) {
                answer = Err(refusal);
                break 'regions;
            }
        }
    }
    answer
}
