// Edits in order, by index.
ghost use Rattle.std.specs.Prelude.{ℕ, ◌<◌, ◌≤◌, get_or};
ghost use Rattle.graph.specs.links.Marks.{mark_limit};

use graph::links::Marks;

// Indexes past the count are of no meaning, but indexes too.
// Kept: an array with its count: places past it are indexes too, so that no index is tested when it is read.
#[derive(Clone, Copy)]
pub struct Row {
    pub indexes: Marks,
    pub count: usize,
    ghost few: { count ≤ mark_limit },
    ghost low: { (q : ℕ) → get_or indexes q 0 < mark_limit },
}
