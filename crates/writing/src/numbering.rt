// The numbers of the blocks: a walk over row numbers and stored targets, breadth first.
ghost use Rattle.std.specs.Prelude.{◌+◌, ◌<◌};
ghost use Rattle.refinement.specs.Numbering.{walk};
ghost use Rattle.refinement.specs.Walk.{Numbered};
ghost use Rattle.table_rules.specs.Arrays.{target_in};
ghost use Rattle.writing.specs.Numbers.{entry_in, Unnumbered, Walkable, Walked};

// Looks at the target of action a in member m: it gets the next number, if it has none. Returns how many have one.
fn number_target(
    targets: &[u8; 2040],
    actions: usize,
    n: usize,
    order: &mut [u8; 255],
    number: &mut [u8; 256],
    m: usize,
    a: usize,
    c: usize,
) -> usize
    requires walkable { Walkable targets.now actions n }
    requires m_lt_n { (m < n) × (a < actions) }
    requires walked { Walked targets.now actions m a order.old number.old c }
    ensures { Walked targets.now actions m (a + 1) order.new number.new result }
{
    let i = order[m] as usize;
    let j = targets[255 * a + i];
    if j == 255 {
        return c;
    }
    if number[j as usize] < 255 {
        return c;
    }
    order[c] = j;
    number[j as usize] = c as u8;
    c + 1
}

// The same for all actions of member m.
fn number_targets(
    targets: &[u8; 2040],
    actions: usize,
    n: usize,
    order: &mut [u8; 255],
    number: &mut [u8; 256],
    m: usize,
    before: usize,
) -> usize
    requires walkable { Walkable targets.now actions n }
    requires m_lt_n { m < n }
    requires walked { Walked targets.now actions m 0 order.old number.old before }
    ensures { Walked targets.now actions (m + 1) 0 order.new number.new result }
{
    let mut c = before;
    for a in 0..actions {
        c = number_target(targets, actions, n, order, number, m, a, c);
    }
    c
}

// Numbers the rows of a completed table: `order` then has the row of each number, `number` the number of each row.
pub(crate) fn number_rows(
    targets: &[u8; 2040],
    actions: usize,
    n: usize,
    order: &mut [u8; 255],
    number: &mut [u8; 256],
)
    requires unnumbered { Unnumbered number.old }
    requires walkable { Walkable targets.now actions n }
    ensures { Numbered (walk (target_in targets.now) actions 255) (entry_in order.new) (entry_in number.new) n }
{
    order[0] = 0;
    number[0] = 0;
    let mut c = 1;
    for m in 0..n {
        c = number_targets(targets, actions, n, order, number, m, c);
    }
}
