// The bytes of the chart, written from the front of a buffer.
ghost use Rattle.std.specs.Prelude.{◌≡◌, ◌+◌, ◌*◌, ◌<◌, ◌≤◌, length};
ghost use Rattle.answer_rules.specs.Run.{overwrite};
ghost use Rattle.sheet_rules.specs.Layout.{actions_of, regions_of};
ghost use Rattle.table_rules.specs.Arrays.{region_in};
ghost use Rattle.writing.specs.Stored.{stored};
ghost use Rattle.writing.specs.ChartBytes.{header_bytes, target_bytes, record_bytes, records_bytes, chart_bytes, Placed};

use sheet_bytes::Sheet;

// Mark, version, number of actions, number of blocks.
fn put_header(out: &mut [u8], actions: usize, n: usize)
    requires in_bounds { 7 ≤ length out.old }
    requires actions_bound { (actions < 256) × (n < 256) }
    ensures { out.new ≡ stored out.old 0 (header_bytes actions n) }
{
    out[0] = b'B';
    out[1] = b'C';
    out[2] = b'H';
    out[3] = 1;
    out[4] = 0;
    out[5] = actions as u8;
    out[6] = n as u8;
}

// The numbers of row i's targets.
fn put_targets(
    targets: &[u8; 2040],
    number: &[u8; 256],
    actions: usize,
    i: usize,
    out: &mut [u8],
    at: usize,
)
    requires actions_bound { (actions ≤ 8) × (i < 255) }
    requires actions_in_bounds { at + actions ≤ length out.old }
    ensures { out.new ≡ stored out.old at (target_bytes targets.now number.now i actions) }
{
    for a in 0..actions {
        let j = targets[255 * a + i] as usize;
        out[at + a] = number[j];
    }
}

// The record of row i: its label, then its targets.
fn put_record(
    s: &Sheet<'_>,
    homes: &[u8; 510],
    targets: &[u8; 2040],
    number: &[u8; 256],
    i: usize,
    out: &mut [u8],
    at: usize,
)
    requires i_bound { (i < 255) × (region_in homes.now i < regions_of s.now) }
    requires actions_in_bounds { at + 2 + actions_of s.now ≤ length out.old }
    ensures { out.new ≡ stored out.old at (record_bytes s.now homes.now targets.now number.now (actions_of s.now) i) }
{
    let shape = s.shape();
    let bytes = s.bytes();
    let place = s.region_place(homes[2 * i] as usize);
    out[at] = bytes[place];
    out[at + 1] = bytes[place + 1];
    put_targets(targets, number, shape.actions, i, out, at + 2);
}

// The records of n rows, in their order.
fn put_records(
    s: &Sheet<'_>,
    homes: &[u8; 510],
    targets: &[u8; 2040],
    order: &[u8; 255],
    number: &[u8; 256],
    n: usize,
    out: &mut [u8],
)
    requires n_bound { (n ≤ 255) × Placed homes.now order.now (regions_of s.now) n }
    requires actions_in_bounds { 7 + n * (2 + actions_of s.now) ≤ length out.old }
    ensures { out.new ≡ stored out.old 7 (records_bytes s.now homes.now targets.now order.now number.now (actions_of s.now) n) }
{
    let shape = s.shape();
    for k in 0..n {
        put_record(
            s,
            homes,
            targets,
            number,
            order[k] as usize,
            out,
            7 + k * (2 + shape.actions),
        );
    }
}

// The chart of n rows.
pub(crate) fn write_chart(
    s: &Sheet<'_>,
    homes: &[u8; 510],
    targets: &[u8; 2040],
    order: &[u8; 255],
    number: &[u8; 256],
    n: usize,
    out: &mut [u8],
)
    requires n_bound { (n ≤ 255) × Placed homes.now order.now (regions_of s.now) n }
    requires actions_in_bounds { 7 + n * (2 + actions_of s.now) ≤ length out.old }
    ensures { out.new ≡ overwrite (chart_bytes s.now homes.now targets.now order.now number.now (actions_of s.now) n) out.old }
{
    let shape = s.shape();
    put_header(out, shape.actions, n);
    put_records(s, homes, targets, order, number, n, out);
}
