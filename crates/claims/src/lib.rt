// Two makings of charts, and what is claimed of them (demands 2 and 3). The statements stand in making_rules, specs/Claims.antt.
// Public: no function asks anything of its caller, and each contract gives the answer as a definition does.
#![tactic(auto)]

ghost use Rattle.std.specs.Prelude.{◌≡◌};
ghost use Rattle.making_rules.specs.Claims.{Demand2, Demand3, made, chart_left, list_left};

use charting::{Refusal, make};

/// The answers of two makings.
#[derive(Clone, Copy, Debug, PartialEq, Eq, Hash)]
pub struct TwoMade {
    pub first: Result<usize, Refusal>,
    pub second: Result<usize, Refusal>,
}

/// Makes the charts of two sheets, the first in the first two buffers. Of each: its chart and list are those of the minimal reachable graph, and in buffers
/// that suffice an accepted sheet is refused for more than 255 blocks alone. Of both: the chart bytes are equal just when the sheets behave alike.
pub fn make_two(
    first: &[u8],
    second: &[u8],
    first_chart: &mut [u8],
    first_list: &mut [u8],
    second_chart: &mut [u8],
    second_list: &mut [u8],
) -> TwoMade
    ensures demand3 { Demand3 first.now second.now result.first result.second first_chart.old first_list.old second_chart.old second_list.old first_chart.new second_chart.new }
    ensures demand2 { Demand2 first.now result.first first_chart.old first_list.old first_chart.new first_list.new }
    ensures demand2_2 { Demand2 second.now result.second second_chart.old second_list.old second_chart.new second_list.new }
    ensures first_value { result.first ≡ made first.now first_chart.old first_list.old }
    ensures first_chart_after { first_chart.new ≡ chart_left first.now first_chart.old first_list.old }
    ensures first_list_after { first_list.new ≡ list_left first.now first_chart.old first_list.old }
    ensures second_value { result.second ≡ made second.now second_chart.old second_list.old }
    ensures second_chart_after { second_chart.new ≡ chart_left second.now second_chart.old second_list.old }
    ensures second_list_after { second_list.new ≡ list_left second.now second_chart.old second_list.old }
{
    TwoMade {
        first: make(first, first_chart, first_list),
        second: make(second, second_chart, second_list),
    }
}
