// Bundles, votes and elections (document 01, "Proposals and votes"): the types and, in its specs, the theory. Crates above it have the code.
#![tactic(auto)]

ghost use Rattle.std.specs.Prelude.{◌≡◌, Bool, ◌++◌, ◌≤◌, length, drop};
ghost use Rattle.lists.specs.Lists.{Has, filter};

use record_rows::row;

// How many benches there are.
pub const BENCHES: usize = row::BENCHES as usize;

// One row of the roll.
#[derive(Clone, Copy, Default)]
pub struct RollRow {
    pub bench: u8,
    pub weight: u16,
}

// What an election comes to, where nothing is refused.
#[derive(Clone, Copy, Default)]
pub struct ElectionResult {
    pub won: bool,
    pub greatest: u32,
    pub silent: u32,
    pub total: u32,
}

// Writes the elements that pass a test over the first of a table, in their order, and gives their number. What stands after them stays.
// Kept: a counter: a filter zipped with the table's places would have to count what it wrote as well, for the answer.
pub fn select<T: Copy, F: Fn(T) -> bool>(from: &[T], test: F, into: &mut [T]) -> usize
    requires callable { F.IsAlwaysCallable test }
    requires places { length from.now ≤ length into.old }
    ensures { (p : T → Bool) → ((x : T) (b : Bool) → Has x from.now → F.post test x b → b ≡ p x)
        → (result ≡ length (filter p from.now)) × (into.new ≡ filter p from.now ++ drop (length (filter p from.now)) into.old) }
{
    let mut count = 0;
    for x in from {
        if test(*x) {
            into[count] = *x;
            count += 1;
        }
    }
    count
}
