// The reading of an action sequence on a chart that passed its check.
ghost use Rattle.std.specs.Prelude.{◌≡◌, ℕ, ◌+◌, ◌≤◌, ◌<◌, length, get_or, Ok};
ghost use Rattle.answer_rules.specs.Run.{ran_by, left_by};
ghost use Rattle.model.specs.Chart.{actions_of, chart_reading};
ghost use Rattle.model.specs.Rounds.{TargetsRight};

use answers::{Run, noted};
use chart_bytes::Chart;

// Writes the label of block 0 and an entry for each action.
pub(crate) fn walk(c: &Chart<'_>, actions: &[u8], entries: &mut [u16]) -> Run
    requires targets_right { TargetsRight c.now }
    requires by_index { (i : ℕ) → i < length actions.now → get_or actions.now i 0 < actions_of c.now }
    requires actions_in_bounds { length actions.now + 1 ≤ length entries.old }
    ensures value { Ok result ≡ ran_by (Ok tt) (chart_reading c.now actions.now) }
    ensures entries_after { entries.new ≡ left_by (Ok tt) (chart_reading c.now actions.now) entries.old }
{
    let mut block = c.start();
    let mut barred = None;
    entries[0] = c.label(block);
    for (i, &action) in actions.iter().enumerate() {
        let target = c.act(block, action as usize);
        entries[i + 1] = c.entry_of(target);
        barred = noted(barred, i, target.is_none());
        block = target.unwrap_or(block);
    }
    Run {
        entries: actions.len() + 1,
        barred,
    }
}
