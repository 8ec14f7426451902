// What the public functions answer, and the laws of checks and runs. Reasons, their numbers and what each returns are those of document 01's table "Turned back".
// Definitions and laws, and the answers with their numbers and words; the code is in answers.
// Public: no function asks anything of its caller, and each contract gives the answer as a definition does.
#![tactic(auto)]

use std::error::Error;
use std::fmt;

/// Why an input is turned back, in the order of the numbers that document 01's table "Turned back" and document 02 give.
#[derive(Clone, Copy, Debug, PartialEq, Eq, Hash)]
pub enum Reason {
    /// fewer bytes than the fixed header, or wrong mark or version
    Header = 1,
    /// a count outside its limits
    Count = 2,
    /// a length that the counts do not give, or too long a sequence
    Length = 3,
    /// a field with a value that is not allowed
    Field = 4,
    /// a label of two regions
    Label = 5,
    /// two regions that share a configuration
    Overlap = 6,
    /// a start in no region
    Start = 7,
    /// an open move that takes some configuration of its region into no region
    Landing = 8,
    /// more than 255 blocks
    Blocks = 9,
    /// a short buffer
    Room = 10,
    /// an action not below the number of actions
    Action = 11,
    /// blocks that are not numbered as first named
    Numbering = 12,
    /// two blocks of one label that bar different actions
    Bars = 13,
    /// two blocks that no sequence tells apart
    Unparted = 14,
    /// a block number not below the number of blocks
    Block = 15,
    /// two charts with different numbers of actions
    Actions = 16,
    /// no rule with a set-point, or a value outside its limits
    NoSetPoint = 19,
    /// a number outside its limits where counters go round
    GoRound = 22,
}

/// A refusal: its reason, and what the table says is returned.
#[derive(Clone, Copy, Debug, PartialEq, Eq, Hash)]
pub struct Refusal {
    pub reason: Reason,
    pub returned: usize,
}

/// A run: how many entries were written, and the index of the first barred action.
#[derive(Clone, Copy, Debug, PartialEq, Eq, Hash)]
pub struct Run {
    pub entries: usize,
    pub barred: Option<usize>,
}

impl Reason {
    ghost use Rattle.std.specs.Prelude.{◌≡◌};
    ghost use Rattle.answer_rules.specs.Refusal.{number_of, at};

    /// The number that the table gives.
    pub fn number(self) -> u8
        ensures { result ≡ number_of self }
    {
        self as u8
    }

    /// The refusal for this reason, with what is returned.
    pub fn at(self, returned: usize) -> Refusal
        ensures { result ≡ at self returned }
    {
        Refusal {
            reason: self,
            returned,
        }
    }
}

impl fmt::Display for Refusal {
    ghost use Rattle.std.specs.Prelude.{Some};
    ghost use Rattle.answer_rules.specs.Refusal.{text_of};

    ghost output = { λ why. Some (text_of why) };

    fn fmt<W: fmt::Write>(&self, f: &mut fmt::Formatter<W>) -> fmt::Result {
        write!(f, "refused {} at {}", self.reason.number(), self.returned)
    }
}

impl Error for Refusal {}
