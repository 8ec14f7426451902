// Classes of nodes: an array holds for each node the number of its class.
ghost use Rattle.std.specs.Prelude.{◌≡◌, ℕ, ◌≤◌, ◌<◌, get_or};
ghost use Rattle.pair_search.specs.Classes.{merged};
ghost use Rattle.pair_search.specs.Queue.{Merged};

// Puts each of n nodes into a class of its own.
pub(crate) fn separate(classes: &mut [u16; 510], n: usize)
    requires n_bound { n ≤ 510 }
    ensures { (z : ℕ) → z < n → get_or classes.new z 0 ≡ z }
{
    for z in 0..n {
        classes[z] = z as u16;
    }
}

// The number of a class once the nodes of class `from` are in class `to`.
fn moved(class: u16, from: u16, to: u16) -> u16
    ensures { result ≡ merged from to class }
{
    if class == from { to } else { class }
}

// Puts the nodes of the class of y into that of x.
pub(crate) fn merge(classes: &mut [u16; 510], n: usize, x: usize, y: usize)
    requires n_bound { n ≤ 510 }
    requires x_lt_n { (x < n) × (y < n) }
    ensures { Merged n x y classes.old classes.new }
{
    let to = classes[x];
    let from = classes[y];
    for z in 0..n {
        classes[z] = moved(classes[z], from, to);
    }
}
