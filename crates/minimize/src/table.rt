// The refinement: representatives with shrinking boxes, until no row can be unstable.
ghost use Rattle.std.specs.Prelude.{◌≤◌};
ghost use Rattle.depth_rules.specs.DepthBound.{Doublings};
ghost use Rattle.sheet_rules.specs.Decode.{decode};
ghost use Rattle.sheet_bytes.specs.Three.{shape_of};
ghost use Rattle.table_rules.specs.Meaning.{Ready};
ghost use Rattle.table_passes.specs.State.{State};
ghost use Rattle.table_passes.specs.Steps.{Stable, Answered};

use depth_bound::{doublings, exact_depth};
use sheet_bytes::Sheet;
use table_passes::sweep::sweep;
use table_rows::depths::{depth_after, sure_depth};
use table_rows::marks::last_raised;
use table_rows::table::Table;
use tables::growth::append;

// Passes until no flag is up: how many rows there are then, or none where there would be more than 255. If there are at most 255 blocks, rows that are all 255
// deep have every block, so that a new row means more; and rows that are as deep as `exact_depth` are the blocks, so that a flag which a pass over such rows
// raised means more.
pub(crate) fn stabilize(s: &Sheet<'_>, table: &mut Table, m: usize) -> Option<usize>
    requires ready { Ready s.now (shape_of s.now) }
    requires state { State s.now (shape_of s.now) table.old.cells table.old.homes table.old.targets table.old.flags table.old.bounds 1 }
    requires m_bound { (m ≤ 21) × Doublings (decode s.now) m }
    ensures { Stable s.now (shape_of s.now) table.new.cells table.new.homes table.new.targets table.new.flags table.new.bounds result }
{
    let shape = s.shape();
    let mut n = 1;
    let mut depth = 0;
    let mut before = 0;
    while let Some(last) = last_raised(&table.flags, shape.actions, n) {
        if before >= exact_depth(shape.counters, n, m) {
            return None;
        }
        before = sure_depth(&table.bounds, n, depth);
        let rows = sweep(s, table, n, last)?;
        if rows > n && before > 254 {
            return None;
        }
        depth = depth_after(&mut table.bounds, n, rows, before);
        n = rows;
    }
    Some(n)
}

// The first table: the start with its region.
pub(crate) fn begin(s: &Sheet<'_>, table: &mut Table)
    requires ready { Ready s.now (shape_of s.now) }
    ensures { State s.now (shape_of s.now) table.new.cells table.new.homes table.new.targets table.new.flags table.new.bounds 1 }
{
    append(
        s,
        &mut table.cells,
        &mut table.homes,
        &mut table.flags,
        &mut table.bounds,
        0,
        s.start(),
    );
}

// The table of the sheet's blocks: how many there are, or none where there are more than 255.
pub fn refine(s: &Sheet<'_>, table: &mut Table) -> Option<usize>
    requires ready { Ready s.now (shape_of s.now) }
    ensures { Answered s.now (shape_of s.now) table.new.cells table.new.homes table.new.targets result }
{
    begin(s, table);
    let m = doublings(s);
    stabilize(s, table, m)
}
