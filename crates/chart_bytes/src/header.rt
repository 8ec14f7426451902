// The header of a chart: refusals 1, 2 and 3.
ghost use Rattle.std.specs.Prelude.{◌≡◌, ◌≤◌, length};
ghost use Rattle.chart_bytes.specs.Header.{marked, mark_check, count_check, length_check, header_check};
ghost use Rattle.chart_bytes.specs.Shape.{Counted};

use answers::{Reason, Refusal, demanded};

// Whether mark and version are right.
fn has_mark(c: &[u8]) -> bool
    requires { 7 ≤ length c.now }
    ensures { result ≡ marked c.now }
{
    c.starts_with(b"BCH\x01\0")
}

// 1: shorter than the header, or wrong mark or version.
fn check_mark(c: &[u8]) -> Result<(), Refusal>
    ensures { result ≡ mark_check c.now }
{
    demanded(c.len() >= 7 && has_mark(c), Reason::Header.at(0))
}

// 2: a count outside its limits.
fn check_counts(c: &[u8]) -> Result<(), Refusal>
    requires { 7 ≤ length c.now }
    ensures { result ≡ count_check c.now }
{
    demanded(1 <= c[5] && c[5] <= 8, Reason::Count.at(5))?;
    demanded(1 <= c[6], Reason::Count.at(6))
}

// 3: a length that is not what the counts give.
fn check_length(c: &[u8]) -> Result<(), Refusal>
    requires { Counted c.now }
    ensures { result ≡ length_check c.now }
{
    let actions = c[5] as usize;
    let blocks = c[6] as usize;
    demanded(
        c.len() == 7 + blocks * (2 + actions),
        Reason::Length.at(c.len()),
    )
}

/// The header's refusals by rising number.
pub fn check_header(c: &[u8]) -> Result<(), Refusal>
    ensures { result ≡ header_check c.now }
{
    check_mark(c)?;
    check_counts(c)?;
    check_length(c)
}
