// The work of a reader, on the bytes and the number of the next block.
ghost use Rattle.std.specs.Prelude.{◌≡◌, ◌<◌};
ghost use Rattle.model.specs.Chart.{blocks_of};
ghost use Rattle.reader_rules.specs.Reading.{targets_of, block_at, step_at, after, opening_of};

use answers::Refusal;
use chart_bytes::Chart;
use reader_rules::Block;

// The targets of block i, 255 past the last action.
fn targets_of(c: &Chart<'_>, i: usize) -> [u8; 8]
    requires i_bound { i < blocks_of c.now }
    ensures { result ≡ targets_of c.now i }
{
    let mut targets = [255u8; 8];
    for a in 0..c.actions() {
        targets[a] = c.target_of(i, a) as u8;
    }
    targets
}

// Block i, which the chart has.
fn block_at(c: &Chart<'_>, i: usize) -> Block
    requires i_bound { i < blocks_of c.now }
    ensures { result ≡ block_at c.now i }
{
    Block {
        label: c.label(i),
        targets: targets_of(c, i),
    }
}

/// What a reader over these bytes hands out where block `next` is next: for callers that hold the bytes and a number. Over bytes whose header is wrong, and past
/// the last block, nothing. Where a block is handed out, the one after it is next, and else `next` stays.
pub fn block_of(chart: &[u8], next: usize) -> Option<Block>
    ensures handed { result ≡ (step_at chart.now next).block }
    ensures next { (step_at chart.now next).next ≡ after next result }
{
    let Ok(chart) = Chart::new(chart) else {
        return None;
    };
    if next < chart.blocks() {
        Some(block_at(&chart, next))
    } else {
        None
    }
}

/// What opening a reader over these bytes tells: the number of the block that is next, or the refusal of the chart's check.
pub fn opening_of(chart: &[u8]) -> Result<usize, Refusal>
    ensures { result ≡ opening_of chart.now }
{
    chart::check(chart)?;
    Ok(0)
}
