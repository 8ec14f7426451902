// Reading and storing what the arrays have of a row.
ghost use Rattle.std.specs.Prelude.{◌≡◌, ◌+◌, ◌<◌, ◌≤◌, length};
ghost use Rattle.table_rules.specs.Arrays.{range_in, ranges_in, config_in, box_in, put_range, put_ranges, put_values, put_home};

use integers::Range;
use sheet_bytes::{Config, Ranges, RegionBox, Values};

// The range of which the low bound stands at a place.
pub fn range_in(cells: &[i64], at: usize) -> Range
    requires { at + 2 ≤ length cells.now }
    ensures { result ≡ range_in cells.now at }
{
    Range {
        low: cells[at],
        high: cells[at + 1],
    }
}

// The ranges of row k.
pub fn ranges_in(cells: &[i64; 2295], k: usize) -> Ranges
    requires k_bound { k < 255 }
    ensures { result ≡ ranges_in cells.now k }
{
    let at = 9 * k;
    Ranges {
        first: range_in(cells, at + 3),
        second: range_in(cells, at + 5),
        third: range_in(cells, at + 7),
    }
}

// The box of row k.
pub fn box_in(cells: &[i64; 2295], homes: &[u8; 510], k: usize) -> RegionBox
    requires k_bound { k < 255 }
    ensures { result ≡ box_in cells.now homes.now k }
{
    RegionBox {
        state: homes[2 * k + 1],
        ranges: ranges_in(cells, k),
    }
}

// The representative of row k.
pub fn config_in(cells: &[i64; 2295], homes: &[u8; 510], k: usize) -> Config
    requires k_bound { k < 255 }
    ensures { result ≡ config_in cells.now homes.now k }
{
    let at = 9 * k;
    let values = Values {
        first: cells[at],
        second: cells[at + 1],
        third: cells[at + 2],
    };
    Config {
        state: homes[2 * k + 1],
        values,
    }
}

pub fn put_range(cells: &mut [i64], at: usize, r: Range)
    requires { at + 2 ≤ length cells.old }
    ensures { cells.new ≡ put_range cells.old at r }
{
    cells[at] = r.low;
    cells[at + 1] = r.high;
}

// Stores the ranges of row k.
pub fn put_ranges(cells: &mut [i64; 2295], k: usize, r: Ranges)
    requires k_bound { k < 255 }
    ensures { cells.new ≡ put_ranges cells.old k r }
{
    let at = 9 * k;
    put_range(cells, at + 3, r.first);
    put_range(cells, at + 5, r.second);
    put_range(cells, at + 7, r.third);
}

// Stores the representative's values of row k.
pub fn put_values(cells: &mut [i64; 2295], k: usize, x: Values)
    requires k_bound { k < 255 }
    ensures { cells.new ≡ put_values cells.old k x }
{
    let at = 9 * k;
    cells[at] = x.first;
    cells[at + 1] = x.second;
    cells[at + 2] = x.third;
}

// Stores the number of row k's region, and its state.
pub fn put_home(homes: &mut [u8; 510], k: usize, region: u8, state: u8)
    requires k_bound { k < 255 }
    ensures { homes.new ≡ put_home homes.old k region state }
{
    homes[2 * k] = region;
    homes[2 * k + 1] = state;
}
