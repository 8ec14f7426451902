// A chart whose header is right, and its fields.
ghost use Rattle.std.specs.Prelude.{◌≡◌, ◌<◌, ℕ, List, length, Ok};
ghost use Rattle.answer_rules.specs.Stages.{and_then};
ghost use Rattle.model.specs.Chart.{actions_of, blocks_of, record_at, label_of, target_of};
ghost use Rattle.chart_bytes.specs.Header.{header_check, target_at};
ghost use Rattle.chart_bytes.specs.Shape.{Shaped};

use crate::header::check_header;
use answers::Refusal;
use machine_integers::bytes::unsigned16;
use std::marker::Model;

/// The bytes of a chart whose counts are within their limits, with the length that these give.
#[derive(Drop)]
pub struct Chart<'a> {
    bytes: &'a [u8],
}

impl<'a> Model for Chart<'a> {
    ghost Value = { List ℕ };

    ghost view = { λ c. c.bytes.now };

    ghost invariant = { λ c. Shaped c.bytes.now };
}

impl<'a> Chart<'a> {
    /// A chart over its bytes, or the refusal of its header.
    pub fn new(bytes: &'a [u8]) -> Result<Self, Refusal>
        ensures { result ≡ and_then (header_check bytes.now) (Ok bytes.now) }
    {
        check_header(bytes)?;
        Ok(Chart { bytes })
    }

    /// A chart over bytes whose header is known to be right.
    pub fn over(bytes: &'a [u8]) -> Self
        requires { Shaped bytes.now }
        ensures { result ≡ bytes.now }
    {
        Chart { bytes }
    }

    /// Number of actions.
    pub fn actions(&self) -> usize
        ensures value { result ≡ actions_of self.now }
        ensures shaped { Shaped self.now }
    {
        self.bytes[5] as usize
    }

    /// Number of blocks.
    pub fn blocks(&self) -> usize
        ensures value { result ≡ blocks_of self.now }
        ensures shaped { Shaped self.now }
    {
        self.bytes[6] as usize
    }

    /// Block 0, where every run begins.
    pub fn start(&self) -> usize
        ensures value { result ≡ 0 }
        ensures there { result < blocks_of self.now }
    {
        let _ = &self.bytes;
        0
    }

    /// Where the record of block i begins.
    pub fn record_at(&self, i: usize) -> usize
        requires { i < blocks_of self.now }
        ensures value { result ≡ record_at self.now i }
        ensures shaped { Shaped self.now }
    {
        7 + i * (2 + self.actions())
    }

    /// The label of block i.
    pub fn label(&self, i: usize) -> u16
        requires { i < blocks_of self.now }
        ensures { result ≡ label_of self.now i }
    {
        unsigned16(self.bytes, self.record_at(i))
    }

    /// The place of the target of action a in block i.
    pub fn target_at(&self, i: usize, a: usize) -> usize
        requires { (i < blocks_of self.now) × (a < actions_of self.now) }
        ensures { (result ≡ target_at self.now i a) × (result < length self.now) }
    {
        self.record_at(i) + 2 + a
    }

    /// The target of action a in block i: a block's number, or 255 for barred.
    pub fn target_of(&self, i: usize, a: usize) -> usize
        requires { (i < blocks_of self.now) × (a < actions_of self.now) }
        ensures { (result ≡ target_of self.now i a) × (result < 256) }
    {
        self.bytes[self.target_at(i, a)] as usize
    }
}
