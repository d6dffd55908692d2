//! A Fenwick tree of nodes above counts. Node j holds the sum of the counts from j up to the next number that has fewer binary
//! digits below its lowest 1, so a sum from a count on takes a node for each digit at most, and a change of a count writes as many. Node 0
//! is above no count, so a caller may keep a number there.
ghost use Rattle.std.specs.Prelude.{◌≡◌, ℕ, ◌+◌, ◌-◌, ◌^◌, ◌<◌, ◌≤◌, length, slice_index};
ghost use Rattle.clru_curve.specs.Tree.{up_by, IsCounted, Falls};

/// The sum of the counts from `first` on.
pub(crate) fn count_from(nodes: &[usize], first: usize) -> usize
    requires after { 0 < first }
    requires short { length nodes.now < 2 ^ 63 }
    requires counted { (f : ℕ → ℕ) × (IsCounted f nodes.now × (f first < 2 ^ 64)) }
    ensures { (f : ℕ → ℕ) → IsCounted f nodes.now → result ≡ f first }
{
    let mut count = 0;
    let mut node = first;
    while node < nodes.len() {
        count += nodes[node];
        node = (node | (node - 1)) + 1;
    }
    count
}

/// The count at `position` has so much more.
pub(crate) fn add_at(nodes: &mut [usize], position: usize, amount: usize)
    requires inside { position < length nodes.old }
    requires counted { (f : ℕ → ℕ) × (IsCounted f nodes.old × ((j : ℕ) → f j + amount < 2 ^ 64)) }
    ensures length { length nodes.new ≡ length nodes.old }
    ensures counted { (f : ℕ → ℕ) → IsCounted f nodes.old → IsCounted (λ j. f j + up_by amount j position) nodes.new }
{
    let mut node = position;
    while node > 0 {
        nodes[node] += amount;
        node &= node - 1;
    }
}

/// The count at `position` has so much less.
pub(crate) fn subtract_at(nodes: &mut [usize], position: usize, amount: usize)
    requires inside { position < length nodes.old }
    requires counted { (f : ℕ → ℕ) × (Falls f × IsCounted (λ j. f j + up_by amount j position) nodes.old) }
    ensures length { length nodes.new ≡ length nodes.old }
    ensures first { slice_index nodes.new 0 ≡ slice_index nodes.old 0 }
    ensures counted { (f : ℕ → ℕ) → IsCounted (λ j. f j + up_by amount j position) nodes.old → IsCounted f nodes.new }
{
    let mut node = position;
    while node > 0 {
        nodes[node] -= amount;
        node &= node - 1;
    }
}
