// How deep rows are: no sequence of at most so many actions tells the members of a row apart.
ghost use Rattle.std.specs.Prelude.{◌<◌, ◌≤◌};
ghost use Rattle.table_rules.specs.Arrays.{BoundsRoom};
ghost use Rattle.table_rules.specs.Depths.{Within, DeepBelow, Deepened, AtLeast, Levelled, SureDepth, DepthAfter};

// The lesser of a depth and that of a row; the depth itself where there is no row (255).
pub fn shallower(bounds: &[usize; 512], t: usize, low: usize) -> usize
    requires t_bound { t ≤ 255 }
    ensures { (result ≤ low) × Within bounds.now t result }
{
    if t == 255 {
        return low;
    }
    low.min(bounds[t])
}

// The least depth of the rows that the actions of row i lead to; 65,534 where all are barred or deeper.
pub fn reached_depth(targets: &[u8; 2040], bounds: &[usize; 512], actions: usize, i: usize) -> usize
    requires actions_bound { (actions ≤ 8) × (i < 255) }
    ensures { (result ≤ 65534) × DeepBelow targets.now bounds.now i result actions }
{
    let mut low = 65534;
    for a in 0..actions {
        let t = targets[255 * a + i] as usize;
        low = shallower(bounds, t, low);
    }
    low
}

// Row i is one deeper than what all its actions lead to. That is asked once depths are kept by row (that of the first is not 0): a row that came late and
// leads to deep rows is deep after its first turn, where the depth by passes would begin anew.
pub fn deepen(targets: &[u8; 2040], bounds: &mut [usize; 512], actions: usize, i: usize)
    requires actions_bound { (actions ≤ 8) × (i < 255) }
    ensures deepened { Deepened targets.now bounds.old bounds.new actions i }
    ensures bounds_room { BoundsRoom bounds.new }
{
    if bounds[0] == 0 {
        return;
    }
    let low = reached_depth(targets, bounds, actions, i);
    if bounds[i] <= low {
        bounds[i] = low + 1;
    }
}

// A depth that all rows below n have.
pub fn common_depth(bounds: &[usize; 512], n: usize) -> usize
    requires n_bound { n ≤ 255 }
    ensures { AtLeast bounds.now n result }
{
    let mut low = 65535;
    for k in 0..n {
        low = low.min(bounds[k]);
    }
    low
}

// Every row below n is at least so deep.
pub fn level(bounds: &mut [usize; 512], n: usize, depth: usize)
    requires n_bound { n ≤ 255 }
    ensures { Levelled bounds.old bounds.new n depth }
{
    for k in 0..n {
        bounds[k] = bounds[k].max(depth);
    }
}

// What is known of all rows: the depth by passes, or the least of their own, once these are kept. They are looked at in the pass
// after the first of a new row, and in every sixteenth from there on.
pub fn sure_depth(bounds: &[usize; 512], n: usize, depth: usize) -> usize
    requires n_bound { n ≤ 255 }
    ensures { SureDepth bounds.now n depth result }
{
    if bounds[0] == 0 || depth % 16 != 1 {
        return depth;
    }
    common_depth(bounds, n).max(depth)
}

// How deep all rows are after a pass before which n rows were so deep. Where a row came late the others keep their depth from then on, each its own.
pub fn depth_after(bounds: &mut [usize; 512], n: usize, rows: usize, before: usize) -> usize
    requires n_bound { n ≤ 255 }
    ensures { DepthAfter bounds.old bounds.new n rows before result }
{
    if rows > n {
        if before > 15 {
            level(bounds, n, before);
        }
        return 0;
    }
    if before > 65534 {
        return before;
    }
    before + 1
}
