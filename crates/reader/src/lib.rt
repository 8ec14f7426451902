// A chart reader (document 01): it stands over the caller's chart bytes and hands out the blocks one after another, then says that
// none is left. The methods are thin: each calls a function on the slice and the number.
// Public: no function asks anything of its caller, and each contract gives the answer as a definition does.
#![tactic(auto)]

ghost use Rattle.std.specs.Prelude.{◌≡◌, Ok, Err};
ghost use Rattle.std.specs.Result.{MatchResult};
ghost use Rattle.reader_rules.specs.Reading.{step_at, opening_of};

use answers::Refusal;
pub use reader_rules::Block;

mod steps;

pub use steps::{block_of, opening_of};

/// The caller's chart bytes, and the number of the next block.
#[derive(Clone, Copy)]
pub struct Reader<'a> {
    pub chart: &'a [u8],
    pub next: usize,
}

/// Opens a reader over a chart's very bytes, unless the chart is refused.
pub fn open<'a>(chart: &'a [u8]) -> Result<Reader<'a>, Refusal>
    ensures { MatchResult result (λ reader. (opening_of chart.now ≡ Ok reader.next) × (reader.chart ≡ chart.entry)) (λ why. opening_of chart.now ≡ Err why) }
{
    let next = opening_of(chart)?;
    Ok(Reader { chart, next })
}

impl<'a> Reader<'a> {
    ghost use Rattle.std.specs.Prelude.{◌≡◌};
    ghost use Rattle.reader_rules.specs.Reading.{step_at, after};

    /// What the reader hands out next, or nothing where none is left. It does not move.
    pub fn peek(&self) -> Option<Block>
        ensures handed { result ≡ (step_at self.now.chart.now self.now.next).block }
        ensures next { (step_at self.now.chart.now self.now.next).next ≡ after self.now.next result }
    {
        block_of(self.chart, self.next)
    }

    /// Hands out the next block, and moves on; or nothing where none is left, and stays.
    pub fn next_block(&mut self) -> Option<Block>
        ensures handed { result ≡ (step_at self.old.chart.now self.old.next).block }
        ensures same_chart { self.new.chart ≡ self.old.chart }
        ensures next { self.new.next ≡ (step_at self.old.chart.now self.old.next).next }
    {
        let block = self.peek()?;
        self.next += 1;
        Some(block)
    }
}

impl<'a> Iterator for Reader<'a> {
    type Item = Block;

    ghost use Rattle.std.specs.Prelude.{◌≡◌, ◌-◌};
    ghost use Rattle.std.specs.Iterator.{at_most};
    ghost use Rattle.reader_rules.specs.Reading.{step_at};

    ghost next_gives = { λ s block t. (block ≡ (step_at s.chart.now s.next).block) × ((t.chart ≡ s.chart) × (t.next ≡ (step_at s.chart.now s.next).next)) };

    ghost remaining = { λ s. at_most (255 - s.next) };

    fn next(&mut self) -> Option<Block> {
        self.next_block()
    }
}
