// The depth, and refusal 14: blocks that no sequence tells apart, by the classes after all rounds of refinement.
ghost use Rattle.std.specs.Prelude.{◌≡◌};
ghost use Rattle.answer_rules.specs.Stages.{each};
ghost use Rattle.model.specs.Chart.{blocks_of};
ghost use Rattle.model.specs.ChartDepth.{depth_of};
ghost use Rattle.model.specs.Rounds.{TargetsRight};
ghost use Rattle.chart_bytes.specs.Classes.{entry, Holds};
ghost use Rattle.chart.specs.Check.{class_check, classes_check};
ghost use Rattle.chart.specs.Depth.{depth_by};

use answers::{Reason, Refusal, demanded};
use chart_bytes::Chart;
use chart_rounds::refine_all;

// The first block whose class has an earlier block.
fn check_table(c: &Chart<'_>, f: &[u8; 255]) -> Result<(), Refusal>
    ensures { result ≡ each (class_check c.now (entry f.now)) (blocks_of c.now) }
{
    for j in 0..c.blocks() {
        demanded(f[j] as usize == j, Reason::Unparted.at(c.record_at(j)))?;
    }
    Ok(())
}

// The depth, unless two blocks are not told apart; the earliest later one first. The table f begins with the classes by labels.
pub(crate) fn settle(c: &Chart<'_>, f: &mut [u8; 255]) -> Result<usize, Refusal>
    requires targets_right { TargetsRight c.now }
    requires holds { Holds c.now 0 f.old }
    ensures value { result ≡ depth_by (classes_check c.now) (depth_of c.now) }
{
    let mut g = [0u8; 255];
    let depth = refine_all(c, f, &mut g);
    check_table(c, f)?;
    Ok(depth)
}
