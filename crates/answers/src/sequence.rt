// The checks of a run on its action sequence and its buffer: 3, 11, 10.
ghost use Rattle.std.specs.Prelude.{◌≡◌, ltb, length, get_or};
ghost use Rattle.answer_rules.specs.declared.Reason.TheVariants.{Action};
ghost use Rattle.answer_rules.specs.Refusal.{at};
ghost use Rattle.answer_rules.specs.Stages.{demand, each};
ghost use Rattle.answer_rules.specs.Run.{run_checks};

use crate::{Reason, Refusal, demanded};

// 11: the first action not below the number of actions.
fn check_actions(actions: &[u8], count: usize) -> Result<(), Refusal>
    ensures { result ≡ each (λ i. demand (ltb (get_or actions.now i 0) count) (at Action i)) (length actions.now) }
{
    for (i, &action) in actions.iter().enumerate() {
        demanded((action as usize) < count, Reason::Action.at(i))?;
    }
    Ok(())
}

/// 3 above 4,096 actions, then 11, then 10 for a buffer below n + 1 entries.
pub fn check_sequence(actions: &[u8], count: usize, room: usize) -> Result<(), Refusal>
    ensures { result ≡ run_checks count actions.now room }
{
    let n = actions.len();
    demanded(n <= 4096, Reason::Length.at(n))?;
    check_actions(actions, count)?;
    demanded(n + 1 <= room, Reason::Room.at(n + 1))
}
