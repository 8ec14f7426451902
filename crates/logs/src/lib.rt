// Two logs of the same run laid beside each other: the first index where they differ, and what is left of the longer (document 02, U11).
// Public: no function asks anything of its caller, and each contract gives the answer as a definition does.
#![tactic(auto)]

ghost use Rattle.std.specs.Prelude.{◌≡◌, ◌≤◌, length};
ghost use Rattle.log_rules.specs.Compare.{first_difference, rest_of, lent, lent_from, part_of};

// The first index where two logs differ; where none does, the length of the shorter. Nothing behind it is read.
pub fn first_difference(first: &[u16], second: &[u16]) -> usize
    ensures { result ≡ first_difference first.now second.now }
{
    let both = first.len().min(second.len());
    for at in 0..both {
        if first[at] != second[at] {
            return at;
        }
    }
    both
}

// A log from an index on, to its end, where it lies.
fn tail(log: &[u16], start: usize) -> &[u16]
    requires { start ≤ length log.now }
    ensures { lent result ≡ lent_from log.entry start }
{
    &log[start..]
}

// What is left of the longer log where one is the beginning of the other, as a part of that log; else the empty rest of the first.
pub fn rest<'a>(first: &'a [u16], second: &'a [u16]) -> &'a [u16]
    ensures { lent result ≡ part_of (rest_of first.now second.now) first.entry second.entry }
{
    let at = first_difference(first, second);
    if at < first.len().min(second.len()) {
        // they differ
        return tail(first, first.len());
    }
    if first.len() < second.len() {
        return tail(second, at);
    }
    tail(first, at)
}
