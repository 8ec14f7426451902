// The values that the fields of a chart may have: refusal 4.
ghost use Rattle.std.specs.Prelude.{◌≡◌, ◌<◌};
ghost use Rattle.answer_rules.specs.Stages.{each};
ghost use Rattle.model.specs.Chart.{actions_of, blocks_of};
ghost use Rattle.chart_form.specs.Form.{target_check, fields_check, limits_check};

use answers::{Reason, Refusal, demanded};
use chart_bytes::Chart;

// One target: a block's number, or 255.
fn check_target(c: &Chart<'_>, i: usize, a: usize) -> Result<(), Refusal>
    requires i_bound { (i < blocks_of c.now) × (a < actions_of c.now) }
    ensures { result ≡ target_check c.now i a }
{
    let target = c.target_of(i, a);
    demanded(
        target == 255 || target < c.blocks(),
        Reason::Field.at(c.target_at(i, a)),
    )
}

// The targets of one record.
fn check_targets(c: &Chart<'_>, i: usize) -> Result<(), Refusal>
    requires i_bound { i < blocks_of c.now }
    ensures { result ≡ each (target_check c.now i) (actions_of c.now) }
{
    for a in 0..c.actions() {
        check_target(c, i, a)?;
    }
    Ok(())
}

// One record: its label is not what a run writes for a barred action, then the targets.
fn check_record(c: &Chart<'_>, i: usize) -> Result<(), Refusal>
    requires i_bound { i < blocks_of c.now }
    ensures { result ≡ fields_check c.now i }
{
    demanded(c.label(i) < 65535, Reason::Field.at(c.record_at(i)))?;
    check_targets(c, i)
}

/// 4: the first field with a value that is not allowed.
pub fn check_limits(c: &Chart<'_>) -> Result<(), Refusal>
    ensures { result ≡ limits_check c.now }
{
    for i in 0..c.blocks() {
        check_record(c, i)?;
    }
    Ok(())
}
