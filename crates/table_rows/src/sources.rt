// The lowest row that leads to a row, and the lowest that may have a flag up: nobody need look below them.
ghost use Rattle.std.specs.Prelude.{◌<◌, length};
ghost use Rattle.table_rules.specs.Sources.{LoweredAt, Begun};

// Lowers the number at a place to k, if it is above that.
pub fn lower(bounds: &mut [usize], at: usize, k: usize)
    requires { at < length bounds.old }
    ensures { LoweredAt bounds.old bounds.new at k }
{
    if bounds[at] > k {
        bounds[at] = k;
    }
}

// Row n begins at depth 0; no row is known to lead to it, and its flags are up.
pub fn begin_row(bounds: &mut [usize; 512], n: usize)
    requires n_bound { n < 255 }
    ensures { Begun bounds.old bounds.new n }
{
    bounds[n] = 0;
    bounds[255 + n] = 255;
    lower(bounds, 510, n);
}
