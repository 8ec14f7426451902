// Cutting a row's box, and storing its target.
ghost use Rattle.std.specs.Prelude.{◌≡◌, ◌+◌, ◌*◌, ◌<◌, ◌≤◌, set};
ghost use Rattle.sheet_bytes.specs.Cuts.{cuts_three};
ghost use Rattle.table_rules.specs.Arrays.{BoundsRoom, ranges_in};
ghost use Rattle.table_rules.specs.Cutting.{Cuttable, CutRow, Settled};

use sheet_bytes::cutting::cut_by;
use sheet_bytes::{Ranges, Rules, Shape};
use table_rows::marks::raise;
use table_rows::rows::{put_ranges, ranges_in};
use table_rows::sources::lower;

// The old values within b that the rules take into the wanted ranges. Where the sheet has one counter, its rule is all there is to do. These are the steps of
// `sheet_bytes::cutting::cut_by_all` once more: called from here alone they are compiled in place, where the refinement spends its time.
pub fn cut_by_rules(counters: usize, rules: Rules, wanted: Ranges, b: Ranges) -> Ranges
    requires { Cuttable counters rules wanted }
    ensures { result ≡ cuts_three rules wanted b }
{
    let one = cut_by(rules.first, wanted.first, b);
    if counters == 1 {
        return one;
    }
    let two = cut_by(rules.second, wanted.second, one);
    cut_by(rules.third, wanted.third, two)
}

// Cuts the ranges of row i to what the rules lead into those of row j; whether that changed them.
pub fn cut_row(cells: &mut [i64; 2295], counters: usize, i: usize, j: usize, rules: Rules) -> bool
    requires i_bound { (i < 255) × (j < 255) }
    requires cuttable { Cuttable counters rules (ranges_in cells.old j) }
    ensures { CutRow rules cells.old cells.new i j result }
{
    let old = ranges_in(cells, i);
    let wanted = ranges_in(cells, j);
    let cut = cut_by_rules(counters, rules, wanted, old);
    if cut == old {
        return false;
    }
    put_ranges(cells, i, cut);
    true
}

// Stores j as the target of row i and action a and lowers its flag, cuts row i by row j, and if that changed it raises the flags of all actions with the
// target i: none of a row below the lowest source of i.
pub fn settle(
    cells: &mut [i64; 2295],
    targets: &mut [u8; 2040],
    flags: &mut [u8; 2040],
    bounds: &mut [usize; 512],
    shape: Shape,
    n: usize,
    i: usize,
    a: usize,
    j: usize,
    rules: Rules,
)
    requires actions_bound { (shape.actions ≤ 8) × (n ≤ 255) × (i < n) × (a < shape.actions) × (j < n) }
    requires cuttable { Cuttable shape.counters rules (ranges_in cells.old j) }
    ensures targets_after { targets.new ≡ set targets.old (255 * a + i) j }
    ensures settled { Settled rules shape.actions cells.old targets.new (set flags.old (255 * a + i) 0) bounds.old n i j cells.new flags.new bounds.new }
    ensures bounds_room { BoundsRoom bounds.new }
{
    targets[255 * a + i] = j as u8;
    flags[255 * a + i] = 0;
    lower(bounds, 255 + j, i);
    if !cut_row(cells, shape.counters, i, j, rules) {
        return;
    }
    let from = bounds[255 + i];
    lower(bounds, 510, from);
    lower(bounds, 511, from);
    if from < n {
        raise(targets, flags, shape.actions, i as u8, from, n);
    }
}
