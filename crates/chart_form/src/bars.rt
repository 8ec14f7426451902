// Refusal 13: blocks of one label that bar different actions.
ghost use Rattle.std.specs.Prelude.{◌≡◌, ◌<◌};
ghost use Rattle.model.specs.Chart.{blocks_of, round_class};
ghost use Rattle.chart_bytes.specs.Classes.{Holds};
ghost use Rattle.chart_form.specs.Form.{same_bar, same_bars, bar_check, bars_check};

use answers::{Reason, Refusal, demanded};
use chart_bytes::Chart;

// Whether two targets are both barred, or both not.
fn same_bar(t: usize, u: usize) -> bool
    ensures { result ≡ same_bar t u }
{
    (t == 255) == (u == 255)
}

// Whether two blocks bar the same actions.
fn same_bars(c: &Chart<'_>, i: usize, j: usize) -> bool
    requires i_bound { (i < blocks_of c.now) × (j < blocks_of c.now) }
    ensures { result ≡ same_bars c.now i j }
{
    for a in 0..c.actions() {
        if !same_bar(c.target_of(i, a), c.target_of(j, a)) {
            return false;
        }
    }
    true
}

// Record j against the first of its label.
fn check_later(c: &Chart<'_>, f: &[u8; 255], j: usize) -> Result<(), Refusal>
    requires holds { Holds c.now 0 f.now }
    requires j_bound { j < blocks_of c.now }
    ensures { result ≡ bar_check c.now j (round_class c.now 0 j) }
{
    prove!(j < c.blocks());
    let first = f[j] as usize;
    let at = c.record_at(j);
    demanded(same_bars(c, first, j), Reason::Bars.at(at))
}

/// All records, the earliest later one first. The table f has for each block the first of its label: two later ones that bar what it bars
/// agree with one another.
pub fn check_bars(c: &Chart<'_>, f: &[u8; 255]) -> Result<(), Refusal>
    requires holds { Holds c.now 0 f.now }
    ensures { result ≡ bars_check c.now }
{
    for j in 0..c.blocks() {
        check_later(c, f, j)?;
    }
    Ok(())
}
