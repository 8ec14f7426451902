// From the table of a finished refinement to the bytes of chart and box list: the blocks in the chart's order, then their records.
// Internal: serves sister crates; a function may ask what its callers have made sure of.
#![tactic(auto)]

ghost use Rattle.std.specs.Prelude.{◌≡◌, ◌+◌, ◌*◌, ◌≤◌, length};
ghost use Rattle.answer_rules.specs.Run.{overwrite};
ghost use Rattle.model.specs.Blocks.{chart_of, box_list_of};
ghost use Rattle.sheet_rules.specs.Layout.{counters_of, actions_of, bound_size};
ghost use Rattle.sheet_rules.specs.Decode.{decode};
ghost use Rattle.sheet_bytes.specs.Three.{shape_of};
ghost use Rattle.table_rules.specs.Meaning.{Ready};
ghost use Rattle.table_passes.specs.Steps.{Table};

use crate::boxes::write_boxes;
use crate::chart::write_chart;
use crate::numbering::number_rows;
use sheet_bytes::Sheet;
use table_rows::table::Table as Rows;

mod boxes;
mod chart;
mod numbering;

// Writes both from the front, into buffers that have room for them.
pub fn write_both(s: &Sheet<'_>, table: &Rows, n: usize, chart: &mut [u8], list: &mut [u8])
    requires ready { Ready s.now (shape_of s.now) }
    requires table { Table s.now (shape_of s.now) table.now.cells table.now.homes table.now.targets n }
    requires actions_in_bounds { 7 + n * (2 + actions_of s.now) ≤ length chart.old }
    requires counters_in_bounds { n * (1 + 2 * bound_size s.now * counters_of s.now) ≤ length list.old }
    ensures chart_after { chart.new ≡ overwrite (chart_of (decode s.now)) chart.old }
    ensures list_after { list.new ≡ overwrite (box_list_of (bound_size s.now) (decode s.now)) list.old }
{
    let shape = s.shape();
    let mut order = [0u8; 255];
    let mut number = [255u8; 256];
    number_rows(&table.targets, shape.actions, n, &mut order, &mut number);
    write_chart(s, &table.homes, &table.targets, &order, &number, n, chart);
    write_boxes(&table.cells, &table.homes, shape, &order, n, list);
}
