// Sheets as bytes (document 01, "The sheet, mark MSH"): checking one, and running an action sequence on it.
// Public: no function asks anything of its caller, and each contract gives the answer as a definition does.
#![tactic(auto)]

ghost use Rattle.std.specs.Prelude.{◌≡◌, length};
ghost use Rattle.sheet_rules.specs.Check.{sheet_check};
ghost use Rattle.sheet.specs.Whole.{contents_check};
ghost use Rattle.sheet_rules.specs.RunSheet.{sheet_run_check, sheet_ran, sheet_left};

use answers::sequence::check_sequence;
use answers::{Refusal, Run};
use sheet_bytes::Sheet;
use sheet_form::header::{check_counts, check_header, check_length};
use sheet_form::limits::check_limits;
use sheet_regions::{landing, regions};

mod walk;

// 4 to 8, of a sheet that passed 1 to 3.
fn check_contents(s: &Sheet<'_>) -> Result<(), Refusal>
    ensures { result ≡ contents_check s.now }
{
    check_limits(s)?;
    regions::check_labels(s)?;
    regions::check_overlaps(s)?;
    regions::check_start(s)?;
    landing::check_landing(s)
}

/// The check of a sheet: accepted when it passes 1 to 8.
pub fn check(s: &[u8]) -> Result<(), Refusal>
    ensures { result ≡ sheet_check s.now }
{
    check_header(s)?;
    check_counts(s)?;
    check_length(s)?;
    check_contents(&Sheet::over(s))
}

// All refusals of a run: the sheet's, then those of the sequence and the buffer.
fn check_run(s: &[u8], actions: &[u8], room: usize) -> Result<(), Refusal>
    ensures { result ≡ sheet_run_check s.now actions.now room }
{
    check(s)?;
    check_sequence(actions, Sheet::over(s).shape().actions, room)
}

/// The run of an action sequence on a sheet: the label of the start and an entry for each action are written from the buffer's front,
/// unless something is refused.
pub fn run(s: &[u8], actions: &[u8], entries: &mut [u16]) -> Result<Run, Refusal>
    ensures value { result ≡ sheet_ran s.now actions.now (length entries.old) }
    ensures entries_after { entries.new ≡ sheet_left s.now actions.now entries.old }
{
    check_run(s, actions, entries.len())?;
    Ok(walk::walk(&Sheet::over(s), actions, entries))
}
