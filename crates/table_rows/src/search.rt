// Which row has a configuration, and what its move is.
ghost use Rattle.std.specs.Prelude.{◌≡◌, ◌<◌, ◌≤◌};
ghost use Rattle.sheet_rules.specs.Layout.{counters_of, actions_of, regions_of};
ghost use Rattle.table_rules.specs.Arrays.{region_in};
ghost use Rattle.table_rules.specs.Meaning.{holds_in, Found, move_in};

use crate::rows::box_in;
use sheet_bytes::space::inside;
use sheet_bytes::{Config, RegionMove, Sheet};

// Whether row k has the configuration.
pub fn holds(cells: &[i64; 2295], homes: &[u8; 510], counters: usize, x: Config, k: usize) -> bool
    requires le_counters { (1 ≤ counters) × (counters ≤ 3) }
    requires k_bound { k < 255 }
    ensures { result ≡ holds_in counters cells.now homes.now x k }
{
    inside(box_in(cells, homes, k), x, counters)
}

// The first row below n that has the configuration.
pub fn scan(
    cells: &[i64; 2295],
    homes: &[u8; 510],
    counters: usize,
    x: Config,
    n: usize,
) -> Option<usize>
    requires le_counters { (1 ≤ counters) × (counters ≤ 3) }
    requires n_bound { n ≤ 255 }
    ensures { Found counters cells.now homes.now x n result }
{
    for k in 0..n {
        if holds(cells, homes, counters, x, k) {
            return Some(k);
        }
    }
    None
}

// A row below n that has the configuration. The row that had it last time is asked first.
pub fn find(
    cells: &[i64; 2295],
    homes: &[u8; 510],
    counters: usize,
    x: Config,
    n: usize,
    last: usize,
) -> Option<usize>
    requires le_counters { (1 ≤ counters) × (counters ≤ 3) }
    requires n_bound { n ≤ 255 }
    ensures { Found counters cells.now homes.now x n result }
{
    if last < n && holds(cells, homes, counters, x, last) {
        return Some(last);
    }
    scan(cells, homes, counters, x, n)
}

// What action a does where row i's representative is, if it is open there.
pub fn move_in(s: &Sheet<'_>, homes: &[u8; 510], i: usize, a: usize) -> Option<RegionMove>
    requires i_bound { (i < 255) × (a < actions_of s.now) }
    requires i_bound_2 { region_in homes.now i < regions_of s.now }
    ensures { result ≡ move_in (counters_of s.now) s.now (region_in homes.now i) a }
{
    s.move_at(homes[2 * i] as usize, a)
}
