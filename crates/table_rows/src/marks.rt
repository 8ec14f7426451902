// Flags of actions, and stored targets.
ghost use Rattle.std.specs.Prelude.{◌+◌, ◌<◌, ◌≤◌, length};
ghost use Rattle.table_rules.specs.Marks.{RaisedAt, RaisedTo, RowRaised, AnyRaised, LastRaised};

// Raises the flags of all rows below n whose target for one action is i. The targets and flags for that action start at a place.
pub fn raise_at(targets: &[u8], flags: &mut [u8], at: usize, i: u8, n: usize)
    requires n_in_bounds { at + n ≤ length targets.now }
    requires n_in_bounds_2 { at + n ≤ length flags.old }
    ensures { RaisedAt targets.now at i n flags.old flags.new }
{
    for k in 0..n {
        let old = flags[at + k];
        let new = if targets[at + k] == i { 1 } else { old };
        flags[at + k] = new;
    }
}

// Raises the flags of all actions with the target i, of the rows from `from` on and below n.
pub fn raise(
    targets: &[u8; 2040],
    flags: &mut [u8; 2040],
    actions: usize,
    i: u8,
    from: usize,
    n: usize,
)
    requires actions_bound { (actions ≤ 8) × (from ≤ n) × (n ≤ 255) }
    ensures { RaisedTo targets.now i from n flags.old flags.new actions }
{
    for b in 0..actions {
        raise_at(targets, flags, 255 * b + from, i, n - from);
    }
}

// Raises all flags of row k.
pub fn raise_row(flags: &mut [u8; 2040], k: usize)
    requires k_bound { k < 255 }
    ensures { RowRaised flags.old flags.new k }
{
    for b in 0..8 {
        flags[255 * b + k] = 1;
    }
}

// Whether a flag of row k is up.
pub fn any_raised(flags: &[u8; 2040], actions: usize, k: usize) -> bool
    requires actions_bound { (actions ≤ 8) × (k < 255) }
    ensures { AnyRaised flags.now actions k result }
{
    for b in 0..actions {
        if flags[255 * b + k] > 0 {
            return true;
        }
    }
    false
}

// The last row below n of which a flag is up.
pub fn last_raised(flags: &[u8; 2040], actions: usize, n: usize) -> Option<usize>
    requires actions_bound { (actions ≤ 8) × (n ≤ 255) }
    ensures { LastRaised flags.now actions n result }
{
    for k in (0..n).rev() {
        if any_raised(flags, actions, k) {
            return Some(k);
        }
    }
    None
}
