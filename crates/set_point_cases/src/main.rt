// Asks for set-points of rules with any source, be it a counter that no sheet has: it plays no part. C's function takes no source, so all other
// cases stand in tests/library. Its output is stored.
#![tactic(auto)]

use model::Rule;
use set_point::find;
use std::io;

fn show(rt: &impl Print, source: usize, factor: i64) -> io::Result<()> {
    print!(rt; "carry x{source} factor {factor} offset 5 to 16: ")?;
    let rule = Rule::Carry {
        source,
        factor,
        offset: 5,
    };
    match find(rule, 16) {
        Ok(point) => println!(rt; "old {} remainder {}", point.old, point.remainder),
        Err(refusal) => println!(rt; "{refusal}"),
    }
}

fn main(rt: HostRuntime) -> io::Result<()> {
    show(&rt, 1, 3)?;
    show(&rt, 2, 3)?;
    show(&rt, 3, 3)?;
    show(&rt, 18446744073709551615, 3)?;
    show(&rt, 18446744073709551615, 0)
}
