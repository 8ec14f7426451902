// A pass over the rows of the table.
ghost use Rattle.std.specs.Prelude.{◌<◌};
ghost use Rattle.sheet_rules.specs.Layout.{actions_of};
ghost use Rattle.sheet_bytes.specs.Three.{shape_of};
ghost use Rattle.table_rules.specs.Meaning.{Ready};
ghost use Rattle.table_passes.specs.State.{State};
ghost use Rattle.table_passes.specs.Passes.{DownAbove, Swept};

use crate::steps::turn;
use sheet_bytes::Sheet;
use table_rows::marks::any_raised;
use table_rows::table::Table;

// A pass: turns of the rows of which a flag is up, from row `last`, which is the last of them, down to the first that may have one. It ends where a row is
// new. The new number of rows, or none where there would be more than 255.
pub fn sweep(s: &Sheet<'_>, table: &mut Table, n: usize, last: usize) -> Option<usize>
    requires ready { Ready s.now (shape_of s.now) }
    requires state { State s.now (shape_of s.now) table.old.cells table.old.homes table.old.targets table.old.flags table.old.bounds n }
    requires last_lt_n { (last < n) × DownAbove table.old.flags (actions_of s.now) last n }
    ensures { Swept s.now (shape_of s.now) table.old.cells table.old.homes table.old.flags n table.new.cells table.new.homes table.new.targets table.new.flags table.new.bounds result }
{
    let actions = s.shape().actions;
    table.bounds[511] = 255;
    let mut k = last + 1;
    while k > table.bounds[510] {
        k -= 1;
        if any_raised(&table.flags, actions, k) {
            let rows = turn(s, table, n, k)?;
            if rows > n {
                return Some(rows);
            }
        }
    }
    table.bounds[510] = table.bounds[511];
    Some(n)
}
