// The first word of a block of a chart, along the tree of first namings: the shortest action sequence that leads from block 0 to it, and of several the first
// in dictionary order.
// Internal: serves sister crates; a function may ask what its callers have made sure of.
#![tactic(auto)]

ghost use Rattle.std.specs.Prelude.{◌+◌, ◌<◌, ◌≤◌, length};
ghost use Rattle.exploration.specs.FirstWords.{NumberedAsNamed};
ghost use Rattle.model.specs.Chart.{blocks_of, chart_system};
ghost use Rattle.first_words.specs.Notes.{NotedFrom};
ghost use Rattle.first_words.specs.Writing.{Led};

use chart_bytes::Chart;
use noted_words::Notes;

// Notes for each target of record i that it names it, and by which action, over what was noted before. From the last action to the first, so that the first
// of several stays.
fn note_record(c: &Chart<'_>, i: usize, notes: &mut Notes<256>)
    requires i_bound { i < blocks_of c.now }
    requires noted_from { NotedFrom c.now (i + 1) 0 notes.old.parents notes.old.actions }
    ensures { NotedFrom c.now i 0 notes.new.parents notes.new.actions }
{
    for a in (0..c.actions()).rev() {
        let target = c.target_of(i, a);
        notes.note(target, i as u16, a as u8);
    }
}

// Notes for each block that is named which record first does so, and by which action. From the last record to the first, for the same reason.
fn note_all(c: &Chart<'_>, notes: &mut Notes<256>)
    ensures { NotedFrom c.now 0 0 notes.new.parents notes.new.actions }
{
    for i in (0..c.blocks()).rev() {
        note_record(c, i, notes);
    }
}

/// Writes the first word of block k from the front of a buffer that has room for that of any block. Returns its length.
pub fn write_first_word(c: &Chart<'_>, k: usize, out: &mut [u8]) -> usize
    requires numbered_as_named { NumberedAsNamed (chart_system c.now) (blocks_of c.now) }
    requires k_bound { k < blocks_of c.now }
    requires c_in_bounds { blocks_of c.now ≤ length out.old + 1 }
    ensures { Led (chart_system c.now) k result out.old out.new }
{
    prove!(k < c.blocks());
    let mut notes = Notes::new();
    note_all(c, &mut notes);
    let count = notes.word_length(k);
    notes.write_word(k, count, out);
    count
}
