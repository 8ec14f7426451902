// The steps that checks and runs share: a stage of one test, the checks of an action sequence, the first barred action.
// Public: no function asks anything of its caller, and each contract gives the answer as a definition does.
#![tactic(auto)]

ghost use Rattle.std.specs.Prelude.{◌≡◌};
ghost use Rattle.answer_rules.specs.Stages.{demand};
ghost use Rattle.answer_rules.specs.Run.{noted_at};

pub use answer_rules::{Reason, Refusal, Run};

pub mod sequence;

/// A stage of one test: an error where it fails.
pub fn demanded<E: Copy>(test: bool, error: E) -> Result<(), E>
    ensures { result ≡ demand test error }
{
    if test { Ok(()) } else { Err(error) }
}

/// The first barred action, once the action at a further index was taken or, where it was barred, skipped.
pub fn noted(first: Option<usize>, index: usize, barred: bool) -> Option<usize>
    ensures { result ≡ noted_at first index barred }
{
    first.or(barred.then_some(index))
}
