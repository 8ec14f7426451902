// Looking at the actions of the pairs of a queue, in order.
ghost use Rattle.std.specs.Prelude.{◌+◌, ◌<◌};
ghost use Rattle.model.specs.Chart.{actions_of, blocks_of};
ghost use Rattle.pair_search.specs.Queue.{Comparable};
ghost use Rattle.pair_search.specs.Comparing.{Comparing};
ghost use Rattle.pair_search.specs.Search.{Searched, Advanced};

use crate::charts::Charts;
use crate::classes::merge;
use noted_words::Notes;
use std::ops::ControlFlow;

// A block of the first chart and one of the second.
#[derive(Clone, Copy)]
pub(crate) struct Pair {
    pub(crate) left: u8,
    pub(crate) right: u8,
}

/// A search over pairs of blocks of two charts, and the tree of words that it notes.
#[derive(Drop)]
pub struct Search {
    // a number for each block, those of the second chart behind those of the first
    pub(crate) classes: [u16; 510],
    // the queue: pair k has the word of entry k of the notes
    pub(crate) pairs: [Pair; 510],
    pub notes: Notes<510>,
}

// What an action of a pair of blocks does: it writes different entries on the two charts; nothing new; or it leads to blocks of different classes.
#[derive(Clone, Copy)]
pub(crate) enum Compared {
    Apart,
    Together,
    Fresh { left: usize, right: usize },
}

impl Search {
    // Takes an action from a pair of blocks.
    fn compare(&self, charts: Charts<'_>, pair: Pair, a: usize) -> Compared
        requires comparable { Comparable charts.first.now charts.second.now }
        requires pair_bound { (pair.left < blocks_of charts.first.now) × (pair.right < blocks_of charts.second.now) × (a < actions_of charts.first.now) }
        ensures { Comparing charts.entry.first.now charts.entry.second.now self.now.classes pair.left pair.right a result }
    {
        let left = charts.first.act(pair.left as usize, a);
        let right = charts.second.act(pair.right as usize, a);
        if charts.first.entry_of(left) != charts.second.entry_of(right) {
            return Compared::Apart;
        }
        let (Some(x), Some(y)) = (left, right) else {
            return Compared::Together;
        };
        if self.classes[x] == self.classes[charts.first.blocks() + y] {
            return Compared::Together;
        }
        Compared::Fresh { left: x, right: y }
    }

    // Looks at one action of the pair at the head. An entry for it is noted behind the queue where it separates the charts, or where it leads to blocks of
    // different classes: these are then a new pair, and their classes are merged. Breaks with the entry where it separates the charts, else goes on with how
    // many pairs are queued.
    fn visit(
        &mut self,
        charts: Charts<'_>,
        head: usize,
        a: usize,
        size: usize,
    ) -> ControlFlow<usize, usize>
        requires comparable { Comparable charts.first.now charts.second.now }
        requires head_lt_size { (head < size) × (a < actions_of charts.first.now) }
        requires queue { Searched charts.first.now charts.second.now self.old size head a }
        ensures { Advanced charts.entry.first.now charts.entry.second.now self.new size head (a + 1) result }
    {
        let pair = self.pairs[head];
        match self.compare(charts, pair, a) {
            Compared::Apart => {
                self.notes.note(size, head as u16, a as u8);
                ControlFlow::Break(size)
            }
            Compared::Together => ControlFlow::Continue(size),
            Compared::Fresh { left, right } => {
                self.notes.note(size, head as u16, a as u8);
                self.pairs[size] = Pair {
                    left: left as u8,
                    right: right as u8,
                };
                let blocks = charts.first.blocks();
                let nodes = blocks + charts.second.blocks();
                merge(&mut self.classes, nodes, left, blocks + right);
                ControlFlow::Continue(size + 1)
            }
        }
    }

    // Looks at all actions of the pair at the head.
    pub(crate) fn visit_pair(
        &mut self,
        charts: Charts<'_>,
        head: usize,
        size: usize,
    ) -> ControlFlow<usize, usize>
        requires comparable { Comparable charts.first.now charts.second.now }
        requires head_lt_size { head < size }
        requires queue { Searched charts.first.now charts.second.now self.old size head 0 }
        ensures { Advanced charts.entry.first.now charts.entry.second.now self.new size (head + 1) 0 result }
    {
        let mut queued = size;
        for a in 0..charts.first.actions() {
            queued = self.visit(charts, head, a, queued)?;
        }
        ControlFlow::Continue(queued)
    }
}
