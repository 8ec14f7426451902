// The library that C and Rust programs link. A Result cannot cross to C: each function that may refuse returns 0 where it was done, else
// the refusal's number, and stores through `returned` what document 01's table says is returned. A slice passes as a pointer, then a length; one
// that is handed back is stored as such a pair.
// Public: no function asks anything of its caller, and each contract gives the answer as a definition does.
#![tactic(auto)]

ghost use Rattle.std.specs.Prelude.{◌≡◌, length};
ghost use Rattle.model.specs.Blocks.{chart_of, box_list_of};
ghost use Rattle.sheet_rules.specs.Layout.{bound_size};
ghost use Rattle.sheet_rules.specs.Decode.{decode};
ghost use Rattle.sheet_rules.specs.Check.{sheet_check};
ghost use Rattle.sheet_rules.specs.RunSheet.{sheet_ran, sheet_left};
ghost use Rattle.chart.specs.Check.{chart_check};
ghost use Rattle.chart.specs.Depth.{chart_depth};
ghost use Rattle.chart.specs.RunChart.{chart_ran, chart_left};
ghost use Rattle.making_rules.specs.Making.{make_checks, made_by, written_by};
ghost use Rattle.access_rules.specs.Access.{way_checks, way_to, answered_by};
ghost use Rattle.separation_rules.specs.Separation.{pair_check, evidence, separated_by, left_by};
ghost use Rattle.set_point_rules.specs.SetPoint.{set_point};
ghost use Rattle.congruence_rules.specs.Congruence.{go_round, counts_left};
ghost use Rattle.log_rules.specs.Compare.{first_difference, rest_of, lent, part_of};
ghost use Rattle.c_answers.specs.Exports.{number_told, check_returned, value_returned, run_returned, run_barred, part_returned, part_equal, rule_from, point_returned, point_old, point_remainder, solved_returned};

use c_answers::{rule_from, told, told_check, told_part, told_point, told_run, told_solved};

// Checks a sheet.
#[unsafe(no_mangle)]
pub extern "C" fn pilfstera_check_sheet(sheet: &[u8], returned: &mut usize) -> u8
    ensures value { result ≡ number_told (sheet_check sheet.now) }
    ensures returned_after { returned.new ≡ check_returned (sheet_check sheet.now) }
{
    told_check(sheet::check(sheet), returned)
}

// Runs an action sequence on a sheet.
#[unsafe(no_mangle)]
pub extern "C" fn pilfstera_run_sheet(
    sheet: &[u8],
    actions: &[u8],
    entries: &mut [u16],
    returned: &mut usize,
    barred: &mut usize,
) -> u8
    ensures value { result ≡ number_told (sheet_ran sheet.now actions.now (length entries.old)) }
    ensures entries_after { entries.new ≡ sheet_left sheet.now actions.now entries.old }
    ensures returned_after { returned.new ≡ run_returned (sheet_ran sheet.now actions.now (length entries.old)) }
    ensures barred_after { barred.new ≡ run_barred (sheet_ran sheet.now actions.now (length entries.old)) (length actions.now) barred.old }
{
    let ran = sheet::run(sheet, actions, entries);
    told_run(ran, actions.len(), returned, barred)
}

// Checks a chart.
#[unsafe(no_mangle)]
pub extern "C" fn pilfstera_check_chart(chart: &[u8], returned: &mut usize) -> u8
    ensures value { result ≡ number_told (chart_check chart.now) }
    ensures returned_after { returned.new ≡ check_returned (chart_check chart.now) }
{
    told_check(chart::check(chart), returned)
}

// The settling depth of a chart.
#[unsafe(no_mangle)]
pub extern "C" fn pilfstera_depth(chart: &[u8], returned: &mut usize) -> u8
    ensures value { result ≡ number_told (chart_depth chart.now) }
    ensures returned_after { returned.new ≡ value_returned (chart_depth chart.now) }
{
    told(chart::depth(chart), returned)
}

// Runs an action sequence on a chart.
#[unsafe(no_mangle)]
pub extern "C" fn pilfstera_run_chart(
    chart: &[u8],
    actions: &[u8],
    entries: &mut [u16],
    returned: &mut usize,
    barred: &mut usize,
) -> u8
    ensures value { result ≡ number_told (chart_ran chart.now actions.now (length entries.old)) }
    ensures entries_after { entries.new ≡ chart_left chart.now actions.now entries.old }
    ensures returned_after { returned.new ≡ run_returned (chart_ran chart.now actions.now (length entries.old)) }
    ensures barred_after { barred.new ≡ run_barred (chart_ran chart.now actions.now (length entries.old)) (length actions.now) barred.old }
{
    let ran = chart::run(chart, actions, entries);
    told_run(ran, actions.len(), returned, barred)
}

// Makes a sheet's chart and box list, from the front of two buffers.
#[unsafe(no_mangle)]
pub extern "C" fn pilfstera_make(
    sheet: &[u8],
    chart: &mut [u8],
    list: &mut [u8],
    returned: &mut usize,
) -> u8
    ensures value { result ≡ number_told (made_by (make_checks sheet.now (length chart.old) (length list.old)) (decode sheet.now)) }
    ensures chart_after { chart.new ≡ written_by (make_checks sheet.now (length chart.old) (length list.old)) (chart_of (decode sheet.now)) chart.old }
    ensures list_after { list.new ≡ written_by (make_checks sheet.now (length chart.old) (length list.old)) (box_list_of (bound_size sheet.now) (decode sheet.now)) list.old }
    ensures returned_after { returned.new ≡ value_returned (made_by (make_checks sheet.now (length chart.old) (length list.old)) (decode sheet.now)) }
{
    let made = charting::make(sheet, chart, list);
    told(made, returned)
}

// The way to a block of a sheet's chart, from the front of a buffer.
#[unsafe(no_mangle)]
pub extern "C" fn pilfstera_way(
    sheet: &[u8],
    block: usize,
    actions: &mut [u8],
    returned: &mut usize,
) -> u8
    ensures value { result ≡ number_told (answered_by (way_checks sheet.now block (length actions.old)) (way_to (decode sheet.now) block)) }
    ensures actions_after { actions.new ≡ written_by (way_checks sheet.now block (length actions.old)) (way_to (decode sheet.now) block) actions.old }
    ensures returned_after { returned.new ≡ value_returned (answered_by (way_checks sheet.now block (length actions.old)) (way_to (decode sheet.now) block)) }
{
    let access = access_sequence::find(sheet, block, actions);
    told(access, returned)
}

// The shortest action sequence that parts two charts, from the front of a buffer, or that they are equal in behaviour.
#[unsafe(no_mangle)]
pub extern "C" fn pilfstera_part(
    first: &[u8],
    second: &[u8],
    actions: &mut [u8],
    returned: &mut usize,
    equal: &mut u8,
) -> u8
    ensures value { result ≡ number_told (separated_by (pair_check first.now second.now (length actions.old)) (evidence first.now second.now)) }
    ensures actions_after { actions.new ≡ left_by (pair_check first.now second.now (length actions.old)) (evidence first.now second.now) actions.old }
    ensures returned_after { returned.new ≡ part_returned (separated_by (pair_check first.now second.now (length actions.old)) (evidence first.now second.now)) }
    ensures equal_after { equal.new ≡ part_equal (separated_by (pair_check first.now second.now (length actions.old)) (evidence first.now second.now)) equal.old }
{
    let separation = separating_sequence::find(first, second, actions);
    told_part(separation, returned, equal)
}

// The set-point of a rule, given by its kind and numbers, for a wanted value.
#[unsafe(no_mangle)]
pub extern "C" fn pilfstera_set_point(
    kind: u8,
    factor: i64,
    offset: i64,
    wanted: i64,
    returned: &mut usize,
    old: &mut i64,
    remainder: &mut i64,
) -> u8
    ensures value { result ≡ number_told (set_point (rule_from kind factor offset) wanted) }
    ensures returned_after { returned.new ≡ point_returned (set_point (rule_from kind factor offset) wanted) }
    ensures after { old.new ≡ point_old (set_point (rule_from kind factor offset) wanted) old.old }
    ensures remainder_after { remainder.new ≡ point_remainder (set_point (rule_from kind factor offset) wanted) remainder.old }
{
    let point = set_point::find(rule_from(kind, factor, offset), wanted);
    told_point(point, returned, old, remainder)
}

// How often to use each increment to bring a counter that goes round from a start to a wanted value.
#[unsafe(no_mangle)]
pub extern "C" fn pilfstera_go_round(
    modulus: u64,
    start: u64,
    wanted: u64,
    increments: &[u64],
    counts: &mut [u64; 8],
    returned: &mut usize,
) -> u8
    ensures value { result ≡ number_told (go_round modulus start wanted increments.now) }
    ensures counts_after { counts.new ≡ counts_left modulus start wanted increments.now counts.old }
    ensures returned_after { returned.new ≡ solved_returned (go_round modulus start wanted increments.now) }
{
    let solved = congruence::solve(modulus, start, wanted, increments);
    told_solved(solved, counts, returned)
}

// The first index where two logs differ, or the length of the shorter.
#[unsafe(no_mangle)]
pub extern "C" fn pilfstera_first_difference(first: &[u16], second: &[u16]) -> usize
    ensures { result ≡ first_difference first.now second.now }
{
    logs::first_difference(first, second)
}

// The rest of one of two logs, as a part of that log.
#[unsafe(no_mangle)]
pub extern "C" fn pilfstera_rest<'a>(first: &'a [u16], second: &'a [u16], rest: &mut &'a [u16])
    ensures { lent rest.new ≡ part_of (rest_of first.now second.now) first.entry second.entry }
{
    *rest = logs::rest(first, second);
}
