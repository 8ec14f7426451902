// The values that the fields of a sheet may have: refusal 4.
ghost use Rattle.std.specs.Prelude.{◌≡◌, ◌+◌, ◌*◌, ◌<◌, ◌≤◌, length};
ghost use Rattle.answer_rules.specs.Stages.{each};
ghost use Rattle.sheet_rules.specs.Layout.{counters_of, regions_of, move_size};
ghost use Rattle.sheet_rules.specs.Form.{check_value, check_bound, check_rule, check_zero_rule, check_move, check_fields, check_limits};
ghost use Rattle.sheet_form.specs.Limits.{source_right, factor_right, check_one, check_moves};

use answers::{Reason, Refusal, demanded};
use machine_integers::bytes::{signed8, signed32};
use machine_integers::ranges::near_zero;
use sheet_bytes::Sheet;

// Whether a rule's source is right: 0 for a set rule, a counter's number for a carry rule.
fn source_right(part: &[u8], counters: usize) -> bool
    requires { 7 ≤ length part.now }
    ensures { result ≡ source_right counters part.now }
{
    let source = part[1] as usize;
    if part[0] == 0 {
        source == 0
    } else {
        source < counters
    }
}

// Whether a rule's factor is right: 0 for a set rule, from -100 to 100 and not 0 for a carry rule.
fn factor_right(part: &[u8]) -> bool
    requires { 7 ≤ length part.now }
    ensures { result ≡ factor_right part.now }
{
    let factor = signed8(part, 2);
    if part[0] == 0 {
        near_zero(factor, 0)
    } else {
        near_zero(factor, 100) && !near_zero(factor, 0)
    }
}

// A rule of an open move, from the part that starts with it, which stands at a place of the sheet. Its offset is at most so far from zero.
fn check_rule(part: &[u8], counters: usize, most: u32, place: usize) -> Result<(), Refusal>
    requires in_bounds { 7 ≤ length part.now }
    requires place_bound { place < 10000 }
    ensures { result ≡ check_rule counters most part.now place }
{
    demanded(part[0] <= 1, Reason::Field.at(place))?;
    demanded(source_right(part, counters), Reason::Field.at(place + 1))?;
    demanded(factor_right(part), Reason::Field.at(place + 2))?;
    demanded(
        near_zero(signed32(part, 3), most),
        Reason::Field.at(place + 3),
    )
}

// A rule of a barred move: every field is zero.
fn check_zero_rule(part: &[u8], place: usize) -> Result<(), Refusal>
    requires in_bounds { 7 ≤ length part.now }
    requires place_bound { place < 10000 }
    ensures { result ≡ check_zero_rule part.now place }
{
    demanded(part[0] == 0, Reason::Field.at(place))?;
    demanded(part[1] == 0, Reason::Field.at(place + 1))?;
    demanded(near_zero(signed8(part, 2), 0), Reason::Field.at(place + 2))?;
    demanded(near_zero(signed32(part, 3), 0), Reason::Field.at(place + 3))
}

// The rule of counter v, from the part that starts with its move record.
fn check_one(part: &[u8], counters: usize, most: u32, place: usize, v: usize) -> Result<(), Refusal>
    requires counters_bound { (counters ≤ 3) × (move_size counters ≤ length part.now) }
    requires place_bound { (place < 9000) × (v < counters) }
    ensures { result ≡ check_one counters most part.now place v }
{
    let rule = 2 + 7 * v;
    if part[0] == 0 {
        check_zero_rule(&part[rule..], place + rule)
    } else {
        check_rule(&part[rule..], counters, most, place + rule)
    }
}

// The rules of a move.
fn check_rules(part: &[u8], counters: usize, most: u32, place: usize) -> Result<(), Refusal>
    requires counters_bound { (counters ≤ 3) × (move_size counters ≤ length part.now) }
    requires place_bound { place < 9000 }
    ensures { result ≡ each (check_one counters most part.now place) counters }
{
    for v in 0..counters {
        check_one(part, counters, most, place, v)?;
    }
    Ok(())
}

// A move record, from the part that starts with it.
fn check_move(part: &[u8], counters: usize, most: u32, place: usize) -> Result<(), Refusal>
    requires counters_bound { (counters ≤ 3) × (move_size counters ≤ length part.now) }
    requires place_bound { place < 9000 }
    ensures { result ≡ check_move counters most part.now place }
{
    demanded(part[0] <= 1, Reason::Field.at(place))?;
    if part[0] != 0 {
        return check_rules(part, counters, most, place);
    }
    demanded(part[1] == 0, Reason::Field.at(place + 1))?;
    check_rules(part, counters, most, place)
}

// The start value of counter v.
fn check_value(s: &Sheet<'_>, v: usize) -> Result<(), Refusal>
    requires { v < counters_of s.now }
    ensures { result ≡ check_value s.now v }
{
    let value = s.start_value(v);
    demanded(
        near_zero(value, 1000000),
        Reason::Field.at(s.start_place(v)),
    )
}

// The start values.
fn check_values(s: &Sheet<'_>) -> Result<(), Refusal>
    ensures { result ≡ each (check_value s.now) (counters_of s.now) }
{
    let counters = s.shape().counters;
    for v in 0..counters {
        check_value(s, v)?;
    }
    Ok(())
}

// The bounds of counter v in region i: each within its limits, and in order.
fn check_bound(s: &Sheet<'_>, i: usize, v: usize) -> Result<(), Refusal>
    requires { (i < regions_of s.now) × (v < counters_of s.now) }
    ensures { result ≡ check_bound s.now i v }
{
    let low = s.low_place(i, v);
    let high = low + s.shape().width;
    let range = s.range_at(i, v);
    demanded(near_zero(range.low, 1000000), Reason::Field.at(low))?;
    demanded(near_zero(range.high, 1000000), Reason::Field.at(high))?;
    demanded(range.low <= range.high, Reason::Field.at(high))
}

// The bounds of region i.
fn check_bounds(s: &Sheet<'_>, i: usize) -> Result<(), Refusal>
    requires { i < regions_of s.now }
    ensures { result ≡ each (check_bound s.now i) (counters_of s.now) }
{
    let counters = s.shape().counters;
    for v in 0..counters {
        check_bound(s, i, v)?;
    }
    Ok(())
}

// The moves of region i.
fn check_moves(s: &Sheet<'_>, i: usize) -> Result<(), Refusal>
    requires { i < regions_of s.now }
    ensures { result ≡ check_moves s.now i }
{
    let shape = s.shape();
    let most = s.offset_limit();
    for a in 0..shape.actions {
        let place = s.move_place(i, a);
        check_move(s.move_part(i, a), shape.counters, most, place)?;
    }
    Ok(())
}

// The fields of region i: its label is not what a run writes for a barred action.
fn check_region(s: &Sheet<'_>, i: usize) -> Result<(), Refusal>
    requires { i < regions_of s.now }
    ensures { result ≡ check_fields s.now i }
{
    demanded(s.label_at(i) < 65535, Reason::Field.at(s.region_place(i)))?;
    check_bounds(s, i)?;
    check_moves(s, i)
}

// The fields of all regions.
fn check_regions(s: &Sheet<'_>) -> Result<(), Refusal>
    ensures { result ≡ each (check_fields s.now) (regions_of s.now) }
{
    let regions = s.shape().regions;
    for i in 0..regions {
        check_region(s, i)?;
    }
    Ok(())
}

/// 4: the first field with a value that is not allowed.
pub fn check_limits(s: &Sheet<'_>) -> Result<(), Refusal>
    ensures { result ≡ check_limits s.now }
{
    check_values(s)?;
    check_regions(s)
}
