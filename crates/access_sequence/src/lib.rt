// The way to a block: the shortest action sequence that leads from a sheet's start to a block of its chart (document 02, U1).
// Public: no function asks anything of its caller, and each contract gives the answer as a definition does.
#![tactic(auto)]

ghost use Rattle.std.specs.Prelude.{◌≡◌, ◌≤◌, length};
ghost use Rattle.exploration.specs.FirstWords.{NumberedAsNamed};
ghost use Rattle.model.specs.Chart.{blocks_of, record_at, chart_system};
ghost use Rattle.sheet_rules.specs.Decode.{decode};
ghost use Rattle.chart_bytes.specs.Shape.{Counted};
ghost use Rattle.making_rules.specs.Making.{written_by};
ghost use Rattle.access_rules.specs.Access.{request_checks, way_checks, way_to, answered_by};
ghost use Rattle.access_rules.specs.Machine.{Accesses};

pub use answers::Refusal;
use answers::{Reason, demanded};
use chart_bytes::Chart;
use charting::make;
use first_words::write_first_word;

// 15 for a block that a chart of n blocks lacks, then 10 for a buffer that is too short for the way to some block.
fn check_request(n: usize, block: usize, room: usize) -> Result<(), Refusal>
    requires { 1 ≤ n }
    ensures { result ≡ request_checks n block room }
{
    demanded(block < n, Reason::Block.at(n))?;
    demanded(n - 1 <= room, Reason::Room.at(n - 1))
}

// The way to a block on a chart whose blocks are numbered as first named.
fn find_on_chart(c: &Chart<'_>, block: usize, actions: &mut [u8]) -> Result<usize, Refusal>
    requires { NumberedAsNamed (chart_system c.now) (blocks_of c.now) }
    ensures { Accesses c.now block result actions.old actions.new }
{
    check_request(c.blocks(), block, actions.len())?;
    Ok(write_first_word(c, block, actions))
}

// How many bytes the chart takes that stands at the front of a buffer.
fn chart_length(buffer: &[u8]) -> usize
    requires { Counted buffer.now }
    ensures { result ≡ record_at buffer.now (blocks_of buffer.now) }
{
    7 + buffer[6] as usize * (2 + buffer[5] as usize)
}

/// The way to a block of a sheet's chart, from the front of a buffer that has room for the way to any block.
pub fn find(sheet: &[u8], block: usize, actions: &mut [u8]) -> Result<usize, Refusal>
    ensures value { result ≡ answered_by (way_checks sheet.now block (length actions.old)) (way_to (decode sheet.now) block) }
    ensures actions_after { actions.new ≡ written_by (way_checks sheet.now block (length actions.old)) (way_to (decode sheet.now) block) actions.old }
{
    let mut chart = [0u8; 2557];
    let mut list = [0u8; 6375];
    make(sheet, &mut chart, &mut list)?;
    let length = chart_length(&chart);
    let made = Chart::over(&chart[..length]);
    find_on_chart(&made, block, actions)
}
