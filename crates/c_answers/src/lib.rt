// Answers as C sees them: a Result cannot cross to C, so it is told by the number that a function returns, 0 or that of the refusal, and by what is
// stored through pointers.
// Internal: serves sister crates; no function asks anything of its caller.
#![tactic(auto)]

ghost use Rattle.std.specs.Prelude.{◌≡◌};
ghost use Rattle.congruence_rules.specs.Congruence.{counts_after};
ghost use Rattle.c_answers.specs.Exports.{number_told, check_returned, value_returned, run_returned, run_barred, part_returned, part_equal, rule_from, point_returned, point_old, point_remainder, solved_returned};

use answer_rules::{Refusal, Run};
use model::Rule;
use set_point_rules::SetPoint;

/// Stores what an answer returns, and gives its number.
pub fn told(answer: Result<usize, Refusal>, returned: &mut usize) -> u8
    ensures value { result ≡ number_told answer }
    ensures returned_after { returned.new ≡ value_returned answer }
{
    match answer {
        Ok(value) => {
            *returned = value;
            0
        }
        Err(refusal) => {
            *returned = refusal.returned;
            refusal.reason.number()
        }
    }
}

/// The same of a check.
pub fn told_check(checked: Result<(), Refusal>, returned: &mut usize) -> u8
    ensures value { result ≡ number_told checked }
    ensures returned_after { returned.new ≡ check_returned checked }
{
    told(checked.map(|()| 0), returned)
}

/// The same of a run of so many actions; which was barred first is stored too.
pub fn told_run(
    ran: Result<Run, Refusal>,
    actions: usize,
    returned: &mut usize,
    barred: &mut usize,
) -> u8
    ensures value { result ≡ number_told ran }
    ensures returned_after { returned.new ≡ run_returned ran }
    ensures barred_after { barred.new ≡ run_barred ran actions barred.old }
{
    if let Ok(run) = ran {
        *barred = run.barred.unwrap_or(actions);
    }
    told(ran.map(|run| run.entries), returned)
}

/// The same of where two charts part: how long the sequence is, and whether they are equal.
pub fn told_part(
    separation: Result<Option<usize>, Refusal>,
    returned: &mut usize,
    equal: &mut u8,
) -> u8
    ensures value { result ≡ number_told separation }
    ensures returned_after { returned.new ≡ part_returned separation }
    ensures equal_after { equal.new ≡ part_equal separation equal.old }
{
    if let Ok(parted) = separation {
        *equal = u8::from(parted.is_none());
    }
    told(separation.map(|parted| parted.unwrap_or(0)), returned)
}

/// A rule from its kind and numbers.
pub fn rule_from(kind: u8, factor: i64, offset: i64) -> Rule
    ensures { result ≡ rule_from kind factor offset }
{
    if kind == 1 {
        Rule::Carry {
            source: 0,
            factor,
            offset,
        }
    } else {
        Rule::Set { offset }
    }
}

/// The same of a set-point.
pub fn told_point(
    point: Result<SetPoint, Refusal>,
    returned: &mut usize,
    old: &mut i64,
    remainder: &mut i64,
) -> u8
    ensures value { result ≡ number_told point }
    ensures returned_after { returned.new ≡ point_returned point }
    ensures after { old.new ≡ point_old point old.old }
    ensures remainder_after { remainder.new ≡ point_remainder point remainder.old }
{
    if let Ok(found) = point {
        *old = found.old;
        *remainder = found.remainder;
    }
    told(point.map(|_| 0), returned)
}

/// The same of counts: how many are given, and these.
pub fn told_solved(
    solved: Result<Option<[u64; 8]>, Refusal>,
    counts: &mut [u64; 8],
    returned: &mut usize,
) -> u8
    ensures value { result ≡ number_told solved }
    ensures returned_after { returned.new ≡ solved_returned solved }
    ensures counts_after { counts.new ≡ counts_after solved counts.old }
{
    if let Ok(Some(given)) = solved {
        *counts = given;
    }
    told(
        solved.map(|given| if given.is_some() { 8 } else { 0 }),
        returned,
    )
}
