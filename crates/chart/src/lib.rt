// Charts read from bytes: the check of the chart rules, the settling depth, and the run of an action sequence on a chart.
// Public: no function asks anything of its caller, and each contract gives the answer as a definition does.
#![tactic(auto)]

ghost use Rattle.std.specs.Prelude.{◌≡◌, length, Ok, OnOk};
ghost use Rattle.answer_rules.specs.Stages.{and_then};
ghost use Rattle.chart_bytes.specs.Classes.{Holds};
ghost use Rattle.chart.specs.Check.{form_check, chart_check};
ghost use Rattle.chart.specs.Depth.{chart_depth};
ghost use Rattle.chart.specs.RunChart.{chart_run_check, chart_ran, chart_left};

use answers::sequence::check_sequence;
use answers::{Refusal, Run};
use chart_bytes::Chart;
use chart_form::bars::check_bars;
use chart_form::limits::check_limits;
use chart_form::numbering::check_numbers;
use chart_rounds::by_labels;

mod classes;
mod walk;

// All refusals before 14; else the chart, of which the table f then has the classes by labels.
fn check_form<'a>(c: &'a [u8], f: &mut [u8; 255]) -> Result<Chart<'a>, Refusal>
    ensures value { result ≡ and_then (form_check c.now) (Ok c.now) }
    ensures holds { OnOk result (Holds c.now 0 f.new) }
{
    let chart = Chart::new(c)?;
    check_limits(&chart)?;
    check_numbers(&chart)?;
    by_labels(&chart, f);
    check_bars(&chart, f)?;
    Ok(chart)
}

/// The settling depth of a chart: sequences of so many actions tell all its blocks apart. Or the refusal of its check.
pub fn depth(c: &[u8]) -> Result<usize, Refusal>
    ensures { result ≡ chart_depth c.now }
{
    let mut f = [0u8; 255];
    let chart = check_form(c, &mut f)?;
    classes::settle(&chart, &mut f)
}

/// The check of a chart: accepted just if it obeys the chart rules. The rounds that tell its blocks apart give the depth too, which is dropped
/// here.
pub fn check(c: &[u8]) -> Result<(), Refusal>
    ensures { result ≡ chart_check c.now }
{
    depth(c)?;
    Ok(())
}

// All refusals of a run: the chart's, then those of the sequence and the buffer; else the chart.
fn check_run<'a>(c: &'a [u8], actions: &[u8], room: usize) -> Result<Chart<'a>, Refusal>
    ensures { result ≡ and_then (chart_run_check c.now actions.now room) (Ok c.now) }
{
    check(c)?;
    let chart = Chart::over(c);
    check_sequence(actions, chart.actions(), room)?;
    Ok(chart)
}

/// The run of an action sequence on a chart: the label of block 0 and an entry for each action are written from the buffer's front,
/// unless something is refused.
pub fn run(c: &[u8], actions: &[u8], entries: &mut [u16]) -> Result<Run, Refusal>
    ensures value { result ≡ chart_ran c.now actions.now (length entries.old) }
    ensures entries_after { entries.new ≡ chart_left c.now actions.now entries.old }
{
    let chart = check_run(c, actions, entries.len())?;
    Ok(walk::walk(&chart, actions, entries))
}
