// A row of edits, by index.
ghost use Rattle.std.specs.Prelude.{◌<◌, ◌≤◌};
ghost use Rattle.graph.specs.links.Marks.{mark_limit};

use graph::links::Marks;

// Indexes past the count are of no meaning. The last one before them stands beside, since a row has always one.
#[derive(Clone, Copy)]
pub struct LeastRow {
    pub indexes: Marks,
    pub count: usize,
    pub last: usize,
    ghost few: { count ≤ mark_limit },
    ghost low: { last < mark_limit },
}
