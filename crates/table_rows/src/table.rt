// The refinement's table: rows of representatives, each with a box, what its actions lead to, and how deep it is.
ghost use Rattle.std.specs.Prelude.{◌≡◌, pos, replicate};

/// Room for 255 rows, in flat arrays.
#[derive(Drop)]
pub struct Table {
    // nine of a row: the three values of its representative, then low and high of its three ranges
    pub cells: [i64; 2295],
    // two of a row: the number of its region, and its state
    pub homes: [u8; 510],
    // of each row for each of eight actions: the row it leads to, and whether that has to be looked at again
    pub targets: [u8; 2040],
    pub flags: [u8; 2040],
    // of each row its depth, then the lowest row that leads to it; then the lowest rows that may have a flag up
    pub bounds: [usize; 512],
}

impl Table {
    /// A table in which no row is stored.
    pub fn new() -> Table
        ensures cells { result.cells ≡ replicate 2295 (pos 0) }
        ensures homes { result.homes ≡ replicate 510 0 }
        ensures targets { result.targets ≡ replicate 2040 0 }
        ensures flags { result.flags ≡ replicate 2040 0 }
        ensures bounds { result.bounds ≡ replicate 512 0 }
    {
        Table {
            cells: [0; 2295],
            homes: [0; 510],
            targets: [0; 2040],
            flags: [0; 2040],
            bounds: [0; 512],
        }
    }
}
