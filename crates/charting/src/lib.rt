// Making a sheet's chart and box list (document 01, "The chart, mark BCH, and its box list").
// Public: no function asks anything of its caller, and each contract gives the answer as a definition does.
#![tactic(auto)]

ghost use Rattle.std.specs.Prelude.{◌≡◌, ◌+◌, ◌*◌, ◌≤◌, length};
ghost use Rattle.model.specs.Blocks.{chart_of, box_list_of};
ghost use Rattle.sheet_rules.specs.Layout.{bound_size};
ghost use Rattle.sheet_rules.specs.Decode.{decode};
ghost use Rattle.sheet_bytes.specs.Three.{shape_of};
ghost use Rattle.sheet_bytes.specs.Fields.{Small};
ghost use Rattle.table_rules.specs.Meaning.{Ready};
ghost use Rattle.table_passes.specs.Steps.{Table};
ghost use Rattle.making_rules.specs.Making.{rooms_for, block_checks, make_checks, made_by, written_by, Makes};

pub use answers::Refusal;
use answers::{Reason, demanded};
use minimize::table::refine;
use sheet_bytes::{Shape, Sheet};
use table_rows::table::Table as Rows;
use writing::write_both;

// 10: the first short buffer, chart, then list.
fn check_rooms(shape: Shape, n: usize, chart_room: usize, list_room: usize) -> Result<(), Refusal>
    requires { Small shape × (n ≤ 255) }
    ensures { result ≡ rooms_for (7 + n * (2 + shape.actions)) (n * (1 + 2 * shape.width * shape.counters)) chart_room list_room }
{
    let needed = 7 + n * (2 + shape.actions);
    demanded(needed <= chart_room, Reason::Room.at(needed))?;
    let needed = n * (1 + 2 * shape.width * shape.counters);
    demanded(needed <= list_room, Reason::Room.at(needed))
}

// 10 for the first short buffer; else both are written.
fn make_blocks(
    s: &Sheet<'_>,
    table: &Rows,
    n: usize,
    chart: &mut [u8],
    list: &mut [u8],
) -> Result<usize, Refusal>
    requires ready { Ready s.now (shape_of s.now) }
    requires table { Table s.now (shape_of s.now) table.now.cells table.now.homes table.now.targets n }
    ensures { Makes (block_checks (bound_size s.now) (decode s.now) (length chart.old) (length list.old)) (bound_size s.now) (decode s.now) result chart.old chart.new list.old list.new }
{
    check_rooms(s.shape(), n, chart.len(), list.len())?;
    write_both(s, table, n, chart, list);
    Ok(n)
}

// 9 for more than 255 blocks.
fn make_accepted(s: &Sheet<'_>, chart: &mut [u8], list: &mut [u8]) -> Result<usize, Refusal>
    requires { Ready s.now (shape_of s.now) }
    ensures { Makes (block_checks (bound_size s.now) (decode s.now) (length chart.old) (length list.old)) (bound_size s.now) (decode s.now) result chart.old chart.new list.old list.new }
{
    let mut table = Rows::new();
    let refined = refine(s, &mut table);
    let n = refined.ok_or(Reason::Blocks.at(0))?;
    make_blocks(s, &table, n, chart, list)
}

/// The chart and the box list of a sheet, from the front of two buffers.
pub fn make(s: &[u8], chart: &mut [u8], list: &mut [u8]) -> Result<usize, Refusal>
    ensures value { result ≡ made_by (make_checks s.now (length chart.old) (length list.old)) (decode s.now) }
    ensures chart_after { chart.new ≡ written_by (make_checks s.now (length chart.old) (length list.old)) (chart_of (decode s.now)) chart.old }
    ensures list_after { list.new ≡ written_by (make_checks s.now (length chart.old) (length list.old)) (box_list_of (bound_size s.now) (decode s.now)) list.old }
{
    sheet::check(s)?;
    make_accepted(&Sheet::over(s), chart, list)
}
