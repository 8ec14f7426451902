// New rows, and the row for a configuration.
ghost use Rattle.std.specs.Prelude.{◌≡◌, ◌<◌, ◌≤◌};
ghost use Rattle.model.specs.Sheet.{Covered};
ghost use Rattle.sheet_rules.specs.Layout.{counters_of};
ghost use Rattle.sheet_rules.specs.Decode.{decode};
ghost use Rattle.sheet_bytes.specs.Three.{config_meant, shape_of};
ghost use Rattle.table_rules.specs.Arrays.{FlagsRoom, BoundsRoom};
ghost use Rattle.table_rules.specs.Marks.{RowRaised};
ghost use Rattle.table_rules.specs.Sources.{Begun};
ghost use Rattle.table_rules.specs.Meaning.{Ready};
ghost use Rattle.table_rules.specs.Growth.{new_cells, new_homes, RowFor, RowsWith};

use sheet_bytes::{Config, Sheet};
use table_rows::marks::raise_row;
use table_rows::rows::{put_home, put_ranges, put_values};
use table_rows::search::find;
use table_rows::sources::begin_row;

// Stores the configuration as row n, with the box of its region, raises its flags, and begins its bounds.
pub fn append(
    s: &Sheet<'_>,
    cells: &mut [i64; 2295],
    homes: &mut [u8; 510],
    flags: &mut [u8; 2040],
    bounds: &mut [usize; 512],
    n: usize,
    x: Config,
)
    requires ready { Ready s.now (shape_of s.now) }
    requires covered { Covered (decode s.now) (config_meant (counters_of s.now) x) }
    requires n_bound { n < 255 }
    ensures cells_after { cells.new ≡ new_cells (counters_of s.now) s.now cells.old n x }
    ensures homes_after { homes.new ≡ new_homes (counters_of s.now) s.now homes.old n x }
    ensures row_raised { RowRaised flags.old flags.new n }
    ensures begun { Begun bounds.old bounds.new n }
    ensures flags_room { FlagsRoom flags.new }
    ensures bounds_room { BoundsRoom bounds.new }
{
    let region = s.region_of(x);
    let b = s.box_at(region);
    put_values(cells, n, x.values);
    put_ranges(cells, n, b.ranges);
    put_home(homes, n, region as u8, x.state);
    raise_row(flags, n);
    begin_row(bounds, n);
}

// The row for a configuration: one below n that has it (the row `last` is asked first), else a new one, with the number n; none where there are 255 rows
// and none has it.
pub fn row_for(
    s: &Sheet<'_>,
    cells: &mut [i64; 2295],
    homes: &mut [u8; 510],
    flags: &mut [u8; 2040],
    bounds: &mut [usize; 512],
    n: usize,
    x: Config,
    last: usize,
) -> Option<usize>
    requires ready { Ready s.now (shape_of s.now) }
    requires covered { Covered (decode s.now) (config_meant (counters_of s.now) x) }
    requires n_bound { n ≤ 255 }
    ensures { RowFor (counters_of s.now) s.now cells.old homes.old flags.old bounds.old n x cells.new homes.new flags.new bounds.new result }
{
    if let Some(j) = find(cells, homes, s.shape().counters, x, n, last) {
        return Some(j);
    }
    if n == 255 {
        return None;
    }
    append(s, cells, homes, flags, bounds, n, x);
    Some(n)
}

// The number of rows with row j among them, where there were n.
pub fn rows_with(n: usize, j: usize) -> usize
    requires { j < 255 }
    ensures { RowsWith n j result }
{
    n.max(j + 1)
}
