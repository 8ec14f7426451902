// Where two charts part: the shortest action sequence whose readings on two charts differ, or that there is none (document 02, U2).
// Public: no function asks anything of its caller, and each contract gives the answer as a definition does.
#![tactic(auto)]

ghost use Rattle.std.specs.Prelude.{◌≡◌, ◌+◌, ◌≤◌, length, Ok};
ghost use Rattle.answer_rules.specs.Refusal.{at};
ghost use Rattle.pair_search.specs.Queue.{Comparable};
ghost use Rattle.separation_rules.specs.Separation.{capped, charts_check, pair_check, bytes_needed, evidence, separated_by, left_by};

pub use answers::Refusal;
use answers::{Reason, demanded};
use chart_bytes::Chart;
use pair_search::{Charts, Search};

// A refusal that returns so much more, and the largest number of 64 bits at most.
fn raised(refusal: Refusal, by: usize) -> Refusal
    ensures { result ≡ at refusal.reason (capped (refusal.returned + by)) }
{
    refusal.reason.at(refusal.returned.saturating_add(by))
}

// The refusals of two charts: those of the first, then those of the second, whose places count on from the first's length.
fn check_charts(c: &[u8], d: &[u8]) -> Result<(), Refusal>
    ensures { result ≡ charts_check c.now d.now }
{
    chart::check(c)?;
    chart::check(d).map_err(|refusal| raised(refusal, c.len()))
}

// All refusals: those of the charts, then 16 for different numbers of actions, then 10 for a buffer that is too short.
fn check_pair(c: &[u8], d: &[u8], room: usize) -> Result<(), Refusal>
    ensures { result ≡ pair_check c.now d.now room }
{
    check_charts(c, d)?;
    let first = Chart::over(c);
    let second = Chart::over(d);
    demanded(first.actions() == second.actions(), Reason::Actions.at(5))?;
    let needed = first.blocks() + second.blocks() - 1;
    demanded(needed <= room, Reason::Room.at(needed))
}

// Writes the sequence that parts two charts that can be compared, from the front of a buffer that has room for it, and gives its length; or nothing where
// they are equal in behaviour.
fn separate(charts: Charts<'_>, actions: &mut [u8]) -> Option<usize>
    requires comparable { Comparable charts.first.now charts.second.now }
    requires d_in_bounds { bytes_needed charts.first.now charts.second.now ≤ length actions.old }
    ensures value { Ok result ≡ separated_by (Ok tt) (evidence charts.entry.first.now charts.entry.second.now) }
    ensures actions_after { actions.new ≡ left_by (Ok tt) (evidence charts.entry.first.now charts.entry.second.now) actions.old }
{
    let mut search = Search::new();
    let last = search.run(charts)?;
    let length = search.notes.word_length(last);
    search.notes.write_word(last, length, actions);
    Some(length)
}

/// The shortest action sequence that parts two charts, and of several the first in dictionary order, from the front of a buffer: its length, or nothing where
/// the charts are equal in behaviour.
pub fn find(first: &[u8], second: &[u8], actions: &mut [u8]) -> Result<Option<usize>, Refusal>
    ensures value { result ≡ separated_by (pair_check first.now second.now (length actions.old)) (evidence first.now second.now) }
    ensures actions_after { actions.new ≡ left_by (pair_check first.now second.now (length actions.old)) (evidence first.now second.now) actions.old }
{
    check_pair(first, second, actions.len())?;
    let c = Chart::over(first);
    let d = Chart::over(second);
    let charts = Charts {
        first: &c,
        second: &d,
    };
    Ok(separate(charts, actions))
}
