// Regions against one another, and the start: refusals 5, 6 and 7.
ghost use Rattle.std.specs.Prelude.{◌≡◌, not, ◌<◌, eqb};
ghost use Rattle.integers.specs.Range.{vacant, meet};
ghost use Rattle.systems.specs.Search.{any, all};
ghost use Rattle.answer_rules.specs.Stages.{each};
ghost use Rattle.sheet_rules.specs.Layout.{counters_of, regions_of, label_at};
ghost use Rattle.sheet_rules.specs.Decode.{range_at};
ghost use Rattle.sheet_rules.specs.Check.{overlap, check_label, check_overlap, check_start};

use answers::{Reason, Refusal, demanded};
use machine_integers::ranges::{common, is_vacant};
use sheet_bytes::Sheet;

// Whether an earlier region has the label of region j.
fn label_seen(s: &Sheet<'_>, j: usize) -> bool
    requires { j < regions_of s.now }
    ensures { result ≡ any (λ i. eqb (label_at s.now i) (label_at s.now j)) j }
{
    let label = s.label_at(j);
    (0..j).any(|i| s.label_at(i) == label)
}

// Whether each counter's ranges in regions i and j meet.
fn ranges_meet(s: &Sheet<'_>, i: usize, j: usize) -> bool
    requires { (i < regions_of s.now) × (j < regions_of s.now) }
    ensures { result ≡ all (λ v. not (vacant (meet (range_at s.now i v) (range_at s.now j v)))) (counters_of s.now) }
{
    (0..s.shape().counters).all(|v| {
        let both = common(s.range_at(i, v), s.range_at(j, v));
        !is_vacant(both)
    })
}

// Whether regions i and j share a configuration.
fn overlaps(s: &Sheet<'_>, i: usize, j: usize) -> bool
    requires { (i < regions_of s.now) × (j < regions_of s.now) }
    ensures { result ≡ overlap s.now i j }
{
    s.state_at(i) == s.state_at(j) && ranges_meet(s, i, j)
}

// Whether an earlier region shares a configuration with region j.
fn region_seen(s: &Sheet<'_>, j: usize) -> bool
    requires { j < regions_of s.now }
    ensures { result ≡ any (λ i. overlap s.now i j) j }
{
    (0..j).any(|i| overlaps(s, i, j))
}

// 5, region j.
fn check_label(s: &Sheet<'_>, j: usize) -> Result<(), Refusal>
    requires { j < regions_of s.now }
    ensures { result ≡ check_label s.now j }
{
    let seen = label_seen(s, j);
    demanded(!seen, Reason::Label.at(s.region_place(j)))
}

// 6, region j.
fn check_overlap(s: &Sheet<'_>, j: usize) -> Result<(), Refusal>
    requires { j < regions_of s.now }
    ensures { result ≡ check_overlap s.now j }
{
    let seen = region_seen(s, j);
    demanded(!seen, Reason::Overlap.at(s.region_place(j)))
}

/// 5: a label that an earlier region has.
pub fn check_labels(s: &Sheet<'_>) -> Result<(), Refusal>
    ensures { result ≡ each (check_label s.now) (regions_of s.now) }
{
    for j in 0..s.shape().regions {
        check_label(s, j)?;
    }
    Ok(())
}

/// 6: a region that shares a configuration with an earlier one.
pub fn check_overlaps(s: &Sheet<'_>) -> Result<(), Refusal>
    ensures { result ≡ each (check_overlap s.now) (regions_of s.now) }
{
    for j in 0..s.shape().regions {
        check_overlap(s, j)?;
    }
    Ok(())
}

/// 7: the start is in no region.
pub fn check_start(s: &Sheet<'_>) -> Result<(), Refusal>
    ensures { result ≡ check_start s.now }
{
    let start = s.start();
    let i = s.region_of(start);
    demanded(i < s.shape().regions, Reason::Start.at(8))
}
