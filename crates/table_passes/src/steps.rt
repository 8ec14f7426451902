// One action of a row, and the turn of a row.
ghost use Rattle.std.specs.Prelude.{◌<◌};
ghost use Rattle.sheet_rules.specs.Layout.{actions_of};
ghost use Rattle.sheet_bytes.specs.Three.{shape_of};
ghost use Rattle.table_rules.specs.Meaning.{Ready};
ghost use Rattle.table_passes.specs.State.{State, OpenAt};
ghost use Rattle.table_passes.specs.Steps.{Outcome, Turned};

use sheet_bytes::space::land;
use sheet_bytes::{RegionMove, Sheet};
use table_rows::depths::deepen;
use table_rows::rows::config_in;
use table_rows::search::move_in;
use table_rows::table::Table;
use tables::cutting::settle;
use tables::growth::{row_for, rows_with};

// Action a of row i, which is open: the new number of rows, or none where there would be more than 255.
pub(crate) fn lead(
    s: &Sheet<'_>,
    table: &mut Table,
    n: usize,
    i: usize,
    a: usize,
    m: RegionMove,
) -> Option<usize>
    requires ready { Ready s.now (shape_of s.now) }
    requires state { State s.now (shape_of s.now) table.old.cells table.old.homes table.old.targets table.old.flags table.old.bounds n }
    requires i_lt_n { (i < n) × (a < actions_of s.now) }
    requires open_at { OpenAt s.now (shape_of s.now) table.old.cells table.old.homes i a m }
    ensures { Outcome s.now (shape_of s.now) table.old.cells table.old.homes table.old.targets table.old.flags table.old.bounds n table.new.cells table.new.homes table.new.targets table.new.flags table.new.bounds i a result }
{
    let last = table.targets[255 * a + i] as usize;
    let x = land(config_in(&table.cells, &table.homes, i), m);
    let Table {
        cells,
        homes,
        targets,
        flags,
        bounds,
    } = table;
    let j = row_for(s, cells, homes, flags, bounds, n, x, last)?;
    let rows = rows_with(n, j);
    settle(
        cells,
        targets,
        flags,
        bounds,
        s.shape(),
        rows,
        i,
        a,
        j,
        m.rules,
    );
    Some(rows)
}

// Action a of row i, if its flag is up: the new number of rows, or none where there would be more than 255.
pub(crate) fn step(s: &Sheet<'_>, table: &mut Table, n: usize, i: usize, a: usize) -> Option<usize>
    requires ready { Ready s.now (shape_of s.now) }
    requires state { State s.now (shape_of s.now) table.old.cells table.old.homes table.old.targets table.old.flags table.old.bounds n }
    requires i_lt_n { (i < n) × (a < actions_of s.now) }
    ensures { Outcome s.now (shape_of s.now) table.old.cells table.old.homes table.old.targets table.old.flags table.old.bounds n table.new.cells table.new.homes table.new.targets table.new.flags table.new.bounds i a result }
{
    if table.flags[255 * a + i] == 0 {
        return Some(n);
    }
    let Some(m) = move_in(s, &table.homes, i, a) else {
        table.targets[255 * a + i] = 255;
        table.flags[255 * a + i] = 0;
        return Some(n);
    };
    lead(s, table, n, i, a, m)
}

// The turn of row i: its actions whose flags are up, and then its depth. It ends where a row is new. The new number of rows, or none where there
// would be more than 255.
pub(crate) fn turn(s: &Sheet<'_>, table: &mut Table, n: usize, i: usize) -> Option<usize>
    requires ready { Ready s.now (shape_of s.now) }
    requires state { State s.now (shape_of s.now) table.old.cells table.old.homes table.old.targets table.old.flags table.old.bounds n }
    requires i_lt_n { i < n }
    ensures { Turned s.now (shape_of s.now) table.old.cells table.old.homes table.old.flags table.old.bounds n table.new.cells table.new.homes table.new.targets table.new.flags table.new.bounds i result }
{
    let actions = s.shape().actions;
    for a in 0..actions {
        let rows = step(s, table, n, i, a)?;
        if rows > n {
            return Some(rows);
        }
    }
    deepen(&table.targets, &mut table.bounds, actions, i);
    Some(n)
}
