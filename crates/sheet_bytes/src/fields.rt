// Parts of a sheet: its shape, and the records in it.
ghost use Rattle.std.specs.Prelude.{◌≡◌, ◌+◌, ◌≤◌, length};
ghost use Rattle.integers.specs.LittleEndian.{signed_at};
ghost use Rattle.sheet_rules.specs.Layout.{wide, bound_size, move_size, region_size, place_by};
ghost use Rattle.sheet_rules.specs.Decode.{rule_of, rule_at};
ghost use Rattle.sheet_rules.specs.Shape.{TwoOrFour};
ghost use Rattle.sheet_bytes.specs.Fields.{Small};
ghost use Rattle.sheet_bytes.specs.Three.{shape_of, padded, zero_rule, move_three};

use crate::{RegionMove, Rules, Shape};
use machine_integers::bytes::{signed8, signed16, signed32, unsigned16};
use model::Rule;

// Whether the sheet is wide, that is of version 2.
pub(crate) fn is_wide(s: &[u8]) -> bool
    requires { 9 ≤ length s.now }
    ensures { result ≡ wide s.now }
{
    unsigned16(s, 3) == 2
}

// How many bytes a bound or a start value takes.
fn bound_size(s: &[u8]) -> usize
    requires { 9 ≤ length s.now }
    ensures { result ≡ bound_size s.now }
{
    if is_wide(s) { 4 } else { 2 }
}

// The sheet's counts, and how wide its bounds are.
pub fn shape_of(s: &[u8]) -> Shape
    requires { 9 ≤ length s.now }
    ensures { result ≡ shape_of s.now }
{
    Shape {
        counters: s[5] as usize,
        actions: s[6] as usize,
        regions: s[7] as usize,
        width: bound_size(s),
    }
}

// How many bytes a move record takes.
pub fn move_size(counters: usize) -> usize
    requires { counters ≤ 3 }
    ensures { result ≡ move_size counters }
{
    2 + 7 * counters
}

// How many bytes a region record takes.
fn region_size(shape: Shape) -> usize
    requires { Small shape }
    ensures { result ≡ region_size shape.width shape.counters shape.actions }
{
    3 + 2 * shape.width * shape.counters + shape.actions * move_size(shape.counters)
}

// Where region i begins in a sheet of this shape.
pub fn place_by(shape: Shape, i: usize) -> usize
    requires small { Small shape }
    requires i_le_regions { i ≤ shape.regions }
    ensures { result ≡ place_by shape.width shape.counters shape.actions i }
{
    9 + shape.width * shape.counters + i * region_size(shape)
}

// A bound or a start value, of 2 or 4 bytes.
pub(crate) fn bound_at(s: &[u8], width: usize, at: usize) -> i64
    requires two_or_four { TwoOrFour width }
    requires width_in_bounds { at + width ≤ length s.now }
    ensures { result ≡ signed_at width s.now at }
{
    if width == 2 {
        return signed16(s, at);
    }
    signed32(s, at)
}

// A rule, from a part that starts with it.
pub fn read_rule(part: &[u8]) -> Rule
    requires { 7 ≤ length part.now }
    ensures { result ≡ rule_of part.now }
{
    let offset = signed32(part, 3);
    if part[0] == 0 {
        Rule::Set { offset }
    } else {
        let factor = signed8(part, 2);
        Rule::Carry {
            source: part[1] as usize,
            factor,
            offset,
        }
    }
}

// The rule of counter v, from a part that starts with its move record; set to 0 for a counter that the sheet lacks.
pub fn rule_or_zero(part: &[u8], counters: usize, v: usize) -> Rule
    requires { (counters ≤ 3) × (move_size counters ≤ length part.now) }
    ensures { result ≡ padded zero_rule (rule_at part.now) counters v }
{
    if v < counters {
        read_rule(&part[2 + 7 * v..])
    } else {
        Rule::Set { offset: 0 }
    }
}

// A move, from a part of the sheet that starts with its record; none where it is barred.
pub fn read_move(part: &[u8], counters: usize) -> Option<RegionMove>
    requires { (counters ≤ 3) × (move_size counters ≤ length part.now) }
    ensures { result ≡ move_three counters part.now }
{
    if part[0] == 0 {
        return None;
    }
    let rules = Rules {
        first: rule_or_zero(part, counters, 0),
        second: rule_or_zero(part, counters, 1),
        third: rule_or_zero(part, counters, 2),
    };
    Some(RegionMove {
        target: part[1],
        rules,
    })
}
