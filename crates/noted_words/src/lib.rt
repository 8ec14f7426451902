// Words that are noted as a tree: each entry but the first has a parent that stands before it, and an action; its word is the parent's word and then the
// action.
// Internal: serves sister crates; a function may ask what its callers have made sure of.
#![tactic(auto)]

ghost use Rattle.std.specs.Prelude.{◌≡◌, List, ℕ, ◌<◌, ◌≤◌, length, replicate};
ghost use Rattle.answer_rules.specs.Run.{overwrite};
ghost use Rattle.noted_words.specs.Tree.{noting};
ghost use Rattle.noted_words.specs.Words.{Falling, noted_word};

use std::marker::Model;

// The length of the word that is noted for entry k, whatever actions are noted.
pub fn word_length(parents: &[u16], k: usize) -> usize
    requires k_in_bounds { k < length parents.now }
    requires falling { Falling parents.now k }
    ensures { (bs : List ℕ) → result ≡ length (noted_word parents.now bs k) }
{
    let mut at = k;
    let mut steps = 0;
    while at > 0 {
        at = parents[at] as usize;
        steps += 1;
    }
    steps
}

// Writes the word that is noted for entry k, which has so many actions, from the front of a buffer: its last action first.
pub fn write_word(parents: &[u16], actions: &[u8], k: usize, count: usize, out: &mut [u8])
    requires k_in_bounds { k < length parents.now }
    requires actions_len { length actions.now ≡ length parents.now }
    requires falling { Falling parents.now k }
    requires count_value { count ≡ length (noted_word parents.now actions.now k) }
    requires count_in_bounds { count ≤ length out.old }
    ensures { out.new ≡ overwrite (noted_word parents.now actions.now k) out.old }
{
    let mut at = k;
    let mut left = count;
    while at > 0 {
        left -= 1;
        out[left] = actions[at];
        at = parents[at] as usize;
    }
}

/// A tree of words with N entries: of each its parent and its action.
#[derive(Drop)]
pub struct Notes<const N: usize> {
    parents: [u16; N],
    actions: [u8; N],
}

// Clauses see the parents and the actions, each as a list.
impl<const N: usize> Model for Notes<N> {
    ghost use Rattle.noted_words.specs.Tree.{Tree};

    ghost Value = { Tree };

    ghost view = { λ n. record { parents = n.parents; actions = n.actions } };
}

impl<const N: usize> Notes<N> {
    /// Notes that are all 0.
    pub fn new() -> Self
        ensures { result ≡ record { parents = replicate N 0; actions = replicate N 0 } }
    {
        Notes {
            parents: [0; N],
            actions: [0; N],
        }
    }

    /// Notes a parent and an action for entry k.
    pub fn note(&mut self, k: usize, parent: u16, action: u8)
        requires { k < N }
        ensures noted { self.new ≡ noting k parent action self.old }
        ensures room { (length self.old.parents ≡ N) × (length self.old.actions ≡ N) }
    {
        self.parents[k] = parent;
        self.actions[k] = action;
    }

    /// The length of the word that is noted for entry k, whatever actions are noted.
    pub fn word_length(&self, k: usize) -> usize
        requires k_in_bounds { k < N }
        requires falling { Falling self.now.parents k }
        ensures { (bs : List ℕ) → result ≡ length (noted_word self.now.parents bs k) }
    {
        word_length(&self.parents, k)
    }

    /// Writes the word that is noted for entry k, which has so many actions, from the front of a buffer: its last action first.
    pub fn write_word(&self, k: usize, count: usize, out: &mut [u8])
        requires k_in_bounds { k < N }
        requires falling { Falling self.now.parents k }
        requires count_value { count ≡ length (noted_word self.now.parents self.now.actions k) }
        requires count_in_bounds { count ≤ length out.old }
        ensures { out.new ≡ overwrite (noted_word self.now.parents self.now.actions k) out.old }
    {
        write_word(&self.parents, &self.actions, k, count, out);
    }
}
