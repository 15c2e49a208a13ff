// A row of the reversed graph, as it is noted before it is linked.
ghost use Rattle.std.specs.Prelude.{◌<◌};
ghost use Rattle.graph.specs.links.Marks.{mark_limit};

// The indexes of its edits. A row that is none leads from 255, which is no edit's.
// Kept: 255 for no row: a row of notafter is noted at its own number, where it has a place for sure, and the rows of other rules leave gaps between,
// which are linked with it. Linked at once it would need none, but that no row stands under two keys would have to be shown.
#[derive(Clone, Copy)]
pub struct ReversedRow {
    pub from: u8,
    pub to: u8,
    ghost low: { to < mark_limit },
}
