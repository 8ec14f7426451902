// Refusal 12: blocks that are not numbered as first named.
ghost use Rattle.std.specs.Prelude.{◌≡◌, ◌≤◌, ◌<◌};
ghost use Rattle.answer_rules.specs.Stages.{each};
ghost use Rattle.model.specs.Chart.{actions_of, blocks_of, next_after, next_in};
ghost use Rattle.chart_form.specs.Form.{record_check, order_check, number_check, numbers_check};

use answers::{Reason, Refusal, demanded};
use chart_bytes::Chart;

// The next unnamed number after a target.
fn next_after(next: usize, t: usize) -> usize
    requires { (next ≤ 255) × (t < 256) }
    ensures { (result ≡ next_after next t) × (result ≤ 255) }
{
    if t == 255 {
        return next;
    }
    if t == next {
        return next + 1;
    }
    next
}

// The next unnamed number after a record.
fn next_in(c: &Chart<'_>, i: usize, before: usize) -> usize
    requires i_bound { (i < blocks_of c.now) × (before ≤ 255) }
    ensures { (result ≡ next_in c.now i before (actions_of c.now)) × (result ≤ 255) }
{
    let mut next = before;
    for a in 0..c.actions() {
        next = next_after(next, c.target_of(i, a));
    }
    next
}

// One target, 255 apart, against the next unnamed number.
fn check_order(c: &Chart<'_>, i: usize, a: usize, next: usize) -> Result<(), Refusal>
    requires i_bound { (i < blocks_of c.now) × (a < actions_of c.now) }
    ensures { result ≡ order_check c.now i a next }
{
    let target = c.target_of(i, a);
    demanded(
        target == 255 || target <= next,
        Reason::Numbering.at(c.target_at(i, a)),
    )
}

// A record's first byte: block 0 needs no name, any other is named by an earlier record.
fn check_named(c: &Chart<'_>, i: usize, next: usize) -> Result<(), Refusal>
    requires i_bound { i < blocks_of c.now }
    ensures { result ≡ record_check c.now i next }
{
    demanded(i == 0 || i < next, Reason::Numbering.at(c.record_at(i)))
}

// The targets of one record, if the next unnamed number was before at its start.
fn check_orders(c: &Chart<'_>, i: usize, before: usize) -> Result<(), Refusal>
    requires i_bound { (i < blocks_of c.now) × (before ≤ 255) }
    ensures { result ≡ each (λ a. order_check c.now i a (next_in c.now i before a)) (actions_of c.now) }
{
    let mut next = before;
    for a in 0..c.actions() {
        check_order(c, i, a, next)?;
        next = next_after(next, c.target_of(i, a));
    }
    Ok(())
}

// One record.
fn check_number(c: &Chart<'_>, i: usize, next: usize) -> Result<(), Refusal>
    requires i_bound { (i < blocks_of c.now) × (next ≤ 255) }
    ensures { result ≡ number_check c.now i next }
{
    check_named(c, i, next)?;
    check_orders(c, i, next)
}

/// All records, in file order.
pub fn check_numbers(c: &Chart<'_>) -> Result<(), Refusal>
    ensures { result ≡ numbers_check c.now }
{
    let mut next = 1;
    for i in 0..c.blocks() {
        check_number(c, i, next)?;
        next = next_in(c, i, next);
    }
    Ok(())
}
