// The header of a sheet: refusals 1, 2 and 3.
ghost use Rattle.std.specs.Prelude.{◌≡◌, ◌≤◌, length, take};
ghost use Rattle.sheet_rules.specs.Layout.{counters_of, actions_of, regions_of, sheet_mark};
ghost use Rattle.sheet_rules.specs.Form.{same_bytes, from_to, check_header, check_counts, check_length};

use answers::{Reason, Refusal, demanded};
use machine_integers::bytes::unsigned16;
use sheet_bytes::fields::{place_by, shape_of};

// Whether the mark is right.
fn has_mark(s: &[u8]) -> bool
    requires { 9 ≤ length s.now }
    ensures { result ≡ same_bytes (take 3 s.now) sheet_mark }
{
    s.starts_with(b"MSH")
}

// Whether a number is from low to high.
fn from_to(low: u16, high: u16, x: u16) -> bool
    ensures { result ≡ from_to low high x }
{
    (low..=high).contains(&x)
}

/// 1: fewer bytes than the fixed header, or wrong mark or version.
pub fn check_header(s: &[u8]) -> Result<(), Refusal>
    ensures { result ≡ check_header s.now }
{
    let refusal = Reason::Header.at(0);
    demanded(s.len() >= 9, refusal)?;
    demanded(has_mark(s), refusal)?;
    demanded(from_to(1, 2, unsigned16(s, 3)), refusal)
}

/// 2: the first count outside its limits.
pub fn check_counts(s: &[u8]) -> Result<(), Refusal>
    requires { 9 ≤ length s.now }
    ensures { result ≡ check_counts s.now }
{
    demanded(from_to(1, 3, s[5] as u16), Reason::Count.at(5))?;
    demanded(from_to(1, 8, s[6] as u16), Reason::Count.at(6))?;
    demanded(from_to(1, 32, s[7] as u16), Reason::Count.at(7))
}

/// 3: the length is not what the counts give, by the width of the bounds.
pub fn check_length(s: &[u8]) -> Result<(), Refusal>
    requires in_bounds { 9 ≤ length s.now }
    requires s_bound { (counters_of s.now ≤ 3) × (actions_of s.now ≤ 8) × (regions_of s.now ≤ 32) }
    ensures { result ≡ check_length s.now }
{
    let shape = shape_of(s);
    let given = place_by(shape, shape.regions);
    demanded(s.len() == given, Reason::Length.at(s.len()))
}
