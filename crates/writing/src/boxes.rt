// The bytes of the box list, written from the front of a buffer.
ghost use Rattle.std.specs.Prelude.{◌≡◌, ◌+◌, ◌*◌, ◌^◌, ◌<◌, ◌≤◌, length, get_or, pos};
ghost use Rattle.integers.specs.LittleEndian.{Holds, split, bits_of};
ghost use Rattle.answer_rules.specs.Run.{overwrite};
ghost use Rattle.model.specs.Blocks.{signed_bytes};
ghost use Rattle.refinement.specs.Completed.{box_bytes, table_boxes};
ghost use Rattle.sheet_rules.specs.Shape.{TwoOrFour};
ghost use Rattle.sheet_bytes.specs.Three.{box_meant};
ghost use Rattle.table_rules.specs.Arrays.{box_in};
ghost use Rattle.table_rules.specs.Meaning.{row_in};
ghost use Rattle.writing.specs.Numbers.{entry_in};
ghost use Rattle.writing.specs.Stored.{stored};
ghost use Rattle.writing.specs.BoxBytes.{bounds_bytes, Bounded, AllBounded};

use sheet_bytes::Shape;

// What is added to a negative number of 2 or 4 bytes for its bits in two's complement.
fn whole(width: usize) -> i64
    requires { TwoOrFour width }
    ensures { result ≡ pos (2 ^ (8 * width)) }
{
    if width == 2 { 65536 } else { 4294967296 }
}

// The bits of a cell, 2 or 4 bytes of them, in two's complement.
fn bits_of(cells: &[i64; 2295], from: usize, width: usize) -> usize
    requires two_or_four { TwoOrFour width }
    requires from_in_bounds { from < 2295 }
    requires holds { Holds width (get_or cells.now from (pos 0)) }
    ensures { (result ≡ bits_of width (get_or cells.now from (pos 0))) × (result < 2 ^ (8 * width)) }
{
    let z = cells[from];
    if z < 0 {
        (z + whole(width)) as usize
    } else {
        z as usize
    }
}

// The two bytes of a number below 65,536.
fn put_two(bits: usize, out: &mut [u8], at: usize)
    requires bits_bound { bits < 65536 }
    requires at_in_bounds { at + 2 ≤ length out.old }
    ensures { out.new ≡ stored out.old at (split 2 bits) }
{
    out[at] = (bits % 256) as u8;
    out[at + 1] = (bits / 256) as u8;
}

// The bytes of a cell.
fn put_cell(cells: &[i64; 2295], from: usize, width: usize, out: &mut [u8], at: usize)
    requires two_or_four { TwoOrFour width }
    requires from_in_bounds { from < 2295 }
    requires holds { Holds width (get_or cells.now from (pos 0)) }
    requires width_in_bounds { at + width ≤ length out.old }
    ensures { out.new ≡ stored out.old at (signed_bytes width (get_or cells.now from (pos 0))) }
{
    let bits = bits_of(cells, from, width);
    put_two(bits % 65536, out, at);
    if width == 4 {
        put_two(bits / 65536, out, at + 2);
    }
}

// The first n bounds of row i.
fn put_bounds(cells: &[i64; 2295], width: usize, n: usize, i: usize, out: &mut [u8], at: usize)
    requires two_or_four { TwoOrFour width }
    requires n_bound { (n ≤ 6) × (i < 255) }
    requires bounded { Bounded width cells.now n i }
    requires n_in_bounds { at + width * n ≤ length out.old }
    ensures { out.new ≡ stored out.old at (bounds_bytes width cells.now i n) }
{
    for b in 0..n {
        put_cell(cells, 9 * i + 3 + b, width, out, at + width * b);
    }
}

// The box of row i: its state, then low and high of each counter.
fn put_box(
    cells: &[i64; 2295],
    homes: &[u8; 510],
    shape: Shape,
    i: usize,
    out: &mut [u8],
    at: usize,
)
    requires two_or_four { TwoOrFour shape.width × (shape.counters ≤ 3) × (i < 255) }
    requires bounded { Bounded shape.width cells.now (2 * shape.counters) i }
    requires counters_in_bounds { at + 1 + 2 * shape.width * shape.counters ≤ length out.old }
    ensures { out.new ≡ stored out.old at (box_bytes shape.width (box_meant shape.counters (box_in cells.now homes.now i))) }
{
    out[at] = homes[2 * i + 1];
    put_bounds(cells, shape.width, 2 * shape.counters, i, out, at + 1);
}

// The boxes of n rows, in their order.
pub(crate) fn write_boxes(
    cells: &[i64; 2295],
    homes: &[u8; 510],
    shape: Shape,
    order: &[u8; 255],
    n: usize,
    out: &mut [u8],
)
    requires two_or_four { TwoOrFour shape.width × (shape.counters ≤ 3) × (n ≤ 255) }
    requires all_bounded { AllBounded shape.width cells.now order.now (2 * shape.counters) n }
    requires counters_in_bounds { n * (1 + 2 * shape.width * shape.counters) ≤ length out.old }
    ensures { out.new ≡ overwrite (table_boxes shape.width n (row_in shape.counters cells.now homes.now) (entry_in order.now)) out.old }
{
    for k in 0..n {
        put_box(
            cells,
            homes,
            shape,
            order[k] as usize,
            out,
            k * (1 + 2 * shape.width * shape.counters),
        );
    }
}
