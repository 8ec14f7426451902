// A sheet that passed checks 1 to 3, and its fields.
ghost use Rattle.std.specs.Prelude.{◌≡◌, ◌<◌, ◌≤◌, ℕ, List, length};
ghost use Rattle.integers.specs.LittleEndian.{Bytes};
ghost use Rattle.sheet_rules.specs.Layout.{counters_of, actions_of, regions_of, offset_limit, start_place, start_value, region_place, label_at, state_at, low_place, move_place, move_size, move_part};
ghost use Rattle.sheet_rules.specs.Decode.{range_at};
ghost use Rattle.sheet_rules.specs.Shape.{Shaped};
ghost use Rattle.sheet_bytes.specs.Three.{Known, Read, padded, zero_range, box_three, start_padded, start_three, move_three};

use crate::fields::{bound_at, is_wide, move_size, place_by, read_move, shape_of};
use crate::{Config, Ranges, RegionBox, RegionMove, Shape, Values};
use integers::Range;
use machine_integers::bytes::unsigned16;
use std::marker::Model;

/// The bytes of a sheet whose header, counts and length are right, with its shape.
#[derive(Drop)]
pub struct Sheet<'a> {
    bytes: &'a [u8],
    shape: Shape,
}

impl<'a> Model for Sheet<'a> {
    ghost Value = { List ℕ };

    ghost view = { λ s. s.bytes.now };

    ghost invariant = { λ s. Known s.bytes.now s.shape };
}

impl<'a> Sheet<'a> {
    /// A sheet over bytes that are known to have passed checks 1 to 3.
    pub fn over(bytes: &'a [u8]) -> Self
        requires { Shaped bytes.now }
        ensures { result ≡ bytes.now }
    {
        let shape = shape_of(bytes);
        Sheet { bytes, shape }
    }

    /// The bytes.
    pub fn bytes(&self) -> &'a [u8]
        ensures { result.now ≡ self.now }
    {
        self.bytes
    }

    /// The sheet's counts, and how wide its bounds are.
    pub fn shape(&self) -> Shape
        ensures read { Read self.now result }
        ensures bytes { Bytes self.now }
    {
        self.shape
    }

    /// How far from zero an offset may be.
    pub fn offset_limit(&self) -> u32
        ensures { result ≡ offset_limit self.now }
    {
        if is_wide(self.bytes) {
            200000000
        } else {
            4000000
        }
    }

    /// Where region i begins; past the last one, the length of the sheet.
    pub fn region_place(&self, i: usize) -> usize
        requires { i ≤ regions_of self.now }
        ensures value { result ≡ region_place self.now i }
        ensures shaped { Shaped self.now }
    {
        place_by(self.shape, i)
    }

    /// Where the move record of action a stands in region i.
    pub fn move_place(&self, i: usize, a: usize) -> usize
        requires { (i < regions_of self.now) × (a < actions_of self.now) }
        ensures value { result ≡ move_place self.now i a }
        ensures shaped { Shaped self.now }
    {
        let shape = self.shape;
        self.region_place(i) + 3 + 2 * shape.width * shape.counters + a * move_size(shape.counters)
    }

    /// The label of region i.
    pub fn label_at(&self, i: usize) -> u16
        requires { i < regions_of self.now }
        ensures { result ≡ label_at self.now i }
    {
        unsigned16(self.bytes, self.region_place(i))
    }

    /// The state of region i.
    pub fn state_at(&self, i: usize) -> u8
        requires { i < regions_of self.now }
        ensures { result ≡ state_at self.now i }
    {
        let at = self.region_place(i) + 2;
        self.bytes[at]
    }

    /// Where counter v's low bound stands in region i; the high one stands behind it.
    pub fn low_place(&self, i: usize, v: usize) -> usize
        requires { (i < regions_of self.now) × (v < counters_of self.now) }
        ensures value { result ≡ low_place self.now i v }
        ensures shaped { Shaped self.now }
    {
        let width = self.shape.width;
        self.region_place(i) + 3 + 2 * width * v
    }

    /// Counter v's range in region i.
    pub fn range_at(&self, i: usize, v: usize) -> Range
        requires { (i < regions_of self.now) × (v < counters_of self.now) }
        ensures { result ≡ range_at self.now i v }
    {
        let width = self.shape.width;
        let at = self.low_place(i, v);
        let low = bound_at(self.bytes, width, at);
        let high = bound_at(self.bytes, width, at + width);
        Range { low, high }
    }

    /// The same, and 0..0 for a counter that the sheet lacks.
    pub fn range_or_zero(&self, i: usize, v: usize) -> Range
        requires { i < regions_of self.now }
        ensures { result ≡ padded zero_range (range_at self.now i) (counters_of self.now) v }
    {
        if v < self.shape.counters {
            self.range_at(i, v)
        } else {
            Range { low: 0, high: 0 }
        }
    }

    /// The box of region i.
    pub fn box_at(&self, i: usize) -> RegionBox
        requires { i < regions_of self.now }
        ensures { result ≡ box_three self.now i }
    {
        let state = self.state_at(i);
        let ranges = Ranges {
            first: self.range_or_zero(i, 0),
            second: self.range_or_zero(i, 1),
            third: self.range_or_zero(i, 2),
        };
        RegionBox { state, ranges }
    }

    /// Where the start value of counter v stands.
    pub fn start_place(&self, v: usize) -> usize
        requires { v < counters_of self.now }
        ensures value { result ≡ start_place self.now v }
        ensures shaped { Shaped self.now }
    {
        9 + self.shape.width * v
    }

    /// The start value of counter v.
    pub fn start_value(&self, v: usize) -> i64
        requires { v < counters_of self.now }
        ensures { result ≡ start_value self.now v }
    {
        bound_at(self.bytes, self.shape.width, self.start_place(v))
    }

    /// The same, and 0 for a counter that the sheet lacks.
    pub fn start_or_zero(&self, v: usize) -> i64
        ensures { result ≡ start_padded self.now v }
    {
        if v < self.shape.counters {
            self.start_value(v)
        } else {
            0
        }
    }

    /// The start.
    pub fn start(&self) -> Config
        ensures value { result ≡ start_three self.now }
        ensures shaped { Shaped self.now }
        ensures bytes { Bytes self.now }
    {
        let state = self.bytes[8];
        let values = Values {
            first: self.start_or_zero(0),
            second: self.start_or_zero(1),
            third: self.start_or_zero(2),
        };
        Config { state, values }
    }

    /// The part of the sheet that starts with the move record of action a in region i.
    pub fn move_part(&self, i: usize, a: usize) -> &'a [u8]
        requires { (i < regions_of self.now) × (a < actions_of self.now) }
        ensures part { result.now ≡ move_part self.now i a }
        ensures whole { move_size (counters_of self.now) ≤ length result.now }
    {
        let at = self.move_place(i, a);
        &self.bytes[at..]
    }

    /// The move of action a in region i, if it is open.
    pub fn move_at(&self, i: usize, a: usize) -> Option<RegionMove>
        requires { (i < regions_of self.now) × (a < actions_of self.now) }
        ensures value { result ≡ move_three (counters_of self.now) (move_part self.now i a) }
        ensures shaped { Shaped self.now }
        ensures bytes { Bytes self.now }
    {
        read_move(self.move_part(i, a), self.shape.counters)
    }
}
