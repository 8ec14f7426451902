// A breadth-first search over pairs of blocks of two charts, up to equivalence: the first word that separates them, or that none does.
// Internal: serves sister crates; a function may ask what its callers have made sure of.
#![tactic(auto)]

ghost use Rattle.std.specs.Prelude.{◌≡◌, replicate};
ghost use Rattle.pair_search.specs.Queue.{Comparable};
ghost use Rattle.pair_search.specs.Progress.{Finds};
ghost use Rattle.pair_search.specs.Search.{Searched};

pub use crate::charts::Charts;
use crate::classes::{merge, separate};
use crate::visiting::Pair;
pub use crate::visiting::Search;
use noted_words::Notes;
use std::ops::ControlFlow;

mod charts;
mod classes;
mod visiting;

impl Search {
    /// A search that has not begun.
    pub fn new() -> Self
        ensures { result.notes ≡ record { parents = replicate 510 0; actions = replicate 510 0 } }
    {
        let start = Pair { left: 0, right: 0 };
        Search {
            classes: [0; 510],
            pairs: [start; 510],
            notes: Notes::new(),
        }
    }

    // Looks at the pairs of the queue one after the other, those too that are queued on the way. Begins with one pair. Gives the entry whose word is the
    // first that separates the charts, if any does.
    fn visit_all(&mut self, charts: Charts<'_>) -> Option<usize>
        requires comparable { Comparable charts.first.now charts.second.now }
        requires queue { Searched charts.first.now charts.second.now self.old 1 0 0 }
        ensures { Finds charts.entry.first.now charts.entry.second.now self.new.notes.parents self.new.notes.actions result }
    {
        let mut head = 0;
        let mut size = 1;
        while head < size {
            match self.visit_pair(charts, head, size) {
                ControlFlow::Break(last) => return Some(last),
                ControlFlow::Continue(grown) => size = grown,
            }
            head += 1;
        }
        None
    }

    /// Searches for the first word that separates two charts. Gives the entry of the notes that has it, or nothing where no word separates them.
    pub fn run(&mut self, charts: Charts<'_>) -> Option<usize>
        requires { Comparable charts.first.now charts.second.now }
        ensures { Finds charts.entry.first.now charts.entry.second.now self.new.notes.parents self.new.notes.actions result }
    {
        if charts.first.label(0) != charts.second.label(0) {
            return Some(0);
        }
        let blocks = charts.first.blocks();
        let nodes = blocks + charts.second.blocks();
        separate(&mut self.classes, nodes);
        merge(&mut self.classes, nodes, 0, blocks);
        self.pairs[0] = Pair { left: 0, right: 0 };
        self.visit_all(charts)
    }
}
