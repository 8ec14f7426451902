// Standard input and output, for the programs. What a program reads and writes is tested, not proved; a read or a write that fails is returned
// as an error.
// Internal: serves sister crates; a function may ask what its callers have made sure of.
#![tactic(auto)]

ghost use Rattle.std.specs.Prelude.{◌≤◌, length, IfOk};

use answers::Refusal;
use std::io::{self, Read};

// Reads until the buffer is full or the input ends, and returns how many bytes now stand at its start.
pub fn read_full(rt: &impl Input, buffer: &mut [u8]) -> io::Result<usize>
    ensures { IfOk result (λ n. n ≤ length buffer.new) }
{
    let mut reader = rt.reader();
    let mut filled = 0;
    while filled < buffer.len() {
        let got = reader.read(&mut buffer[filled..])?;
        if got == 0 {
            break;
        }
        filled += got;
    }
    Ok(filled)
}

// A refusal's line.
pub fn put_refusal(rt: &impl Print, refusal: Refusal) -> io::Result<()> {
    println!(rt; "{refusal}")
}

// The first line of a chart's listing.
pub fn put_header(rt: &impl Print, blocks: usize, actions: usize) -> io::Result<()> {
    println!(rt; "chart {blocks} blocks {actions} actions")
}

// The target of action a: a block's number, or - for barred.
pub fn put_target(rt: &impl Print, target: u8, a: usize) -> io::Result<()> {
    if target == 255 {
        print!(rt; " a{a} -")
    } else {
        print!(rt; " a{a} {target}")
    }
}
