// Rounds of refinement on the block numbers of a chart. A table of 255 bytes holds for each block the least block of its class.
// Internal: serves sister crates; a function may ask what its callers have made sure of.
#![tactic(auto)]

ghost use Rattle.std.specs.Prelude.{◌≡◌, true, false, ℕ, ◌≤◌, ◌<◌, length, get_or};
ghost use Rattle.systems.specs.Search.{least};
ghost use Rattle.model.specs.Chart.{blocks_of, same_target, refines, round_class};
ghost use Rattle.model.specs.ChartDepth.{depth_of};
ghost use Rattle.model.specs.Rounds.{TargetsRight};
ghost use Rattle.chart_bytes.specs.Classes.{entry, Holds, Refined, Ordered, Differ};

use chart_bytes::Chart;

// The least block with the label of block i.
fn label_class(c: &Chart<'_>, i: usize) -> usize
    requires i_bound { i < blocks_of c.now }
    ensures { (result ≡ round_class c.now 0 i) × (result ≤ i) }
{
    let label = c.label(i);
    for j in 0..i {
        if c.label(j) == label {
            return j;
        }
    }
    i
}

/// The classes by labels.
pub fn by_labels(c: &Chart<'_>, f: &mut [u8; 255])
    ensures holds { Holds c.now 0 f.new }
{
    for i in 0..c.blocks() {
        f[i] = label_class(c, i) as u8;
    }
}

// Whether two targets agree: both are barred, or neither is and their blocks are in one class.
fn same_target(f: &[u8; 255], t: usize, u: usize) -> bool
    requires t_bound { (t < 256) × (u < 256) }
    ensures { result ≡ same_target (entry f.now) t u }
{
    if t == 255 {
        return u == 255;
    }
    if u == 255 {
        return false;
    }
    f[t] == f[u]
}

// Whether two blocks agree, and so do their targets, action by action.
fn agrees(c: &Chart<'_>, f: &[u8; 255], i: usize, j: usize) -> bool
    requires i_bound { (i < blocks_of c.now) × (j < blocks_of c.now) }
    ensures { result ≡ refines c.now (entry f.now) i j }
{
    let actions = c.actions();
    if f[j] != f[i] {
        return false;
    }
    for a in 0..actions {
        if !same_target(f, c.target_of(j, a), c.target_of(i, a)) {
            return false;
        }
    }
    true
}

// The least block that agrees with block i. It has the class of i, so that none below the least of that class does.
fn refined_class(c: &Chart<'_>, f: &[u8; 255], i: usize) -> usize
    requires ordered { Ordered c.now f.now }
    requires i_bound { i < blocks_of c.now }
    ensures { (result ≡ least (refines c.now (entry f.now) i) (blocks_of c.now)) × (result ≤ i) }
{
    prove!(i < c.blocks());
    for j in f[i] as usize..i {
        if agrees(c, f, i, j) {
            return j;
        }
    }
    i
}

// One round, from the classes f to the classes g.
fn refine(c: &Chart<'_>, f: &[u8; 255], g: &mut [u8; 255])
    requires ordered { Ordered c.now f.now }
    ensures refined { Refined c.now f.now g.new }
{
    for i in 0..c.blocks() {
        g[i] = refined_class(c, f, i) as u8;
    }
}

/// One round on the table f, with g to work in: whether it parted nothing.
pub fn settled(c: &Chart<'_>, f: &mut [u8; 255], g: &mut [u8; 255]) -> bool
    requires ordered { Ordered c.now f.old }
    ensures refined { Refined c.now f.old f.new }
    ensures f_unchanged { result ≡ true → f.new ≡ f.old }
    ensures differ { result ≡ false → Differ (blocks_of c.now) f.old f.new }
{
    refine(c, f, g);
    let n = c.blocks();
    if f[..n] == g[..n] {
        return true;
    }
    f[..n].copy_from_slice(&g[..n]);
    false
}

/// Rounds of refinement, to the first that parts nothing, and no more than there are blocks: how many part some blocks.
pub fn refine_all(c: &Chart<'_>, f: &mut [u8; 255], g: &mut [u8; 255]) -> usize
    requires targets_right { TargetsRight c.now }
    requires holds { Holds c.now 0 f.old }
    ensures value { result ≡ depth_of c.now }
    ensures holds_2 { Holds c.now (blocks_of c.now) f.new }
{
    let n = c.blocks();
    for k in 0..n {
        if settled(c, f, g) {
            return k;
        }
    }
    n
}
