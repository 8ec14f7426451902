// Walks a chart by the reader: reads the chart from standard input and writes a line for each block that is handed out, or the refusal.
#![tactic(auto)]

use reader::{Block, open};
use std::io;

// A block's line: its number, its label and its targets, for the chart's actions.
fn put_block(rt: &impl Print, number: usize, block: Block, actions: usize) -> io::Result<()> {
    print!(rt; "{number} label {}", block.label)?;
    for (a, &target) in block.targets.iter().take(actions).enumerate() {
        text::put_target(rt, target, a)?;
    }
    println!(rt; "")
}

fn list_chart(rt: &impl Print, chart: &[u8]) -> io::Result<()> {
    let reader = match open(chart) {
        Ok(reader) => reader,
        Err(refusal) => return text::put_refusal(rt, refusal),
    };
    let actions = chart[5] as usize;
    let blocks = chart[6] as usize;
    text::put_header(rt, blocks, actions)?;
    for (number, block) in reader.enumerate() {
        put_block(rt, number, block, actions)?;
    }
    println!(rt; "none left")
}

// One byte more than the longest chart is read, so that a longer one is told by its length.
fn main(rt: HostRuntime) -> io::Result<()> {
    let mut input = [0u8; 2558];
    let got = text::read_full(&rt, &mut input)?;
    list_chart(&rt, &input[..got])
}
