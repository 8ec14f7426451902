// The listing program: reads a sheet from standard input and writes its chart, a line for each block, or the refusal.
#![tactic(auto)]

ghost use Rattle.std.specs.Prelude.{◌<◌, ◌≤◌};

use std::io;

// A bound of 2 or 4 bytes, in two's complement.
fn bound(bytes: &[u8]) -> i32 {
    match *bytes {
        [a, b] => i32::from(i16::from_le_bytes([a, b])),
        [a, b, c, d] => i32::from_le_bytes([a, b, c, d]),
        _ => 0,
    }
}

// A block's box: its state, then low and high of each counter.
fn put_box(rt: &impl Print, list: &[u8], width: usize) -> io::Result<()>
    requires { (0 < width) × (width ≤ 4) }
{
    let [state, bounds @ ..] = list else {
        return Ok(());
    };
    print!(rt; " state {state}")?;
    for (v, both) in bounds.chunks_exact(2 * width).enumerate() {
        let (low, high) = both.split_at(width);
        print!(rt; " x{v} {}..{}", bound(low), bound(high))?;
    }
    Ok(())
}

// A block's line: its number and label, its box, and where its actions lead.
fn put_block(
    rt: &impl Print,
    number: usize,
    record: &[u8],
    list: &[u8],
    width: usize,
) -> io::Result<()>
    requires { (0 < width) × (width ≤ 4) }
{
    let [low, high, targets @ ..] = record else {
        return Ok(());
    };
    let label = u16::from_le_bytes([*low, *high]);
    print!(rt; "{number} label {label}")?;
    put_box(rt, list, width)?;
    for (a, &target) in targets.iter().enumerate() {
        text::put_target(rt, target, a)?;
    }
    println!(rt; "")
}

// The chart of an accepted sheet, with so many blocks.
fn put_chart(
    rt: &impl Print,
    sheet: &[u8],
    chart: &[u8; 2557],
    list: &[u8; 6375],
    blocks: usize,
) -> io::Result<()> {
    let wide = sheet.get(3) == Some(&2);
    let width = if wide { 4 } else { 2 };
    let counters = usize::from(sheet.get(5).copied().unwrap_or(0));
    let actions = usize::from(chart[5]);
    text::put_header(rt, blocks, actions)?;
    let records = chart[7..].chunks_exact(2 + actions);
    let boxes = list.chunks_exact(1 + 2 * width * counters);
    for (number, (record, bounds)) in records.zip(boxes).take(blocks).enumerate() {
        put_block(rt, number, record, bounds, width)?;
    }
    Ok(())
}

// The listing of a sheet.
fn list_sheet(rt: &impl Print, sheet: &[u8]) -> io::Result<()> {
    let mut chart = [0u8; 2557];
    let mut list = [0u8; 6375];
    match charting::make(sheet, &mut chart, &mut list) {
        Ok(blocks) => put_chart(rt, sheet, &chart, &list, blocks),
        Err(refusal) => text::put_refusal(rt, refusal),
    }
}

// One byte more than the longest sheet is read, so that a longer one is told by its length.
fn main(rt: HostRuntime) -> io::Result<()> {
    let mut input = [0u8; 6774];
    let got = text::read_full(&rt, &mut input)?;
    list_sheet(&rt, &input[..got])
}
