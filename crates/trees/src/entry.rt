// What the walk holds of a finished tree.
ghost use Rattle.std.specs.Prelude.{ℕ, ◌<◌};

use sets::{StateSet, is_member};

// The set of the states that the tree belongs to, and its start: how many nodes stand before it.
#[derive(Clone, Copy)]
pub struct Entry {
    pub states: StateSet,
    pub start: u16,

    // A number of 16 bits, in proofs too.
    pub ghost few: { start < 65536 },
}

impl Entry {
    ghost use Rattle.std.specs.Prelude.{◌≡◌};
    ghost use Rattle.sets.specs.Set.{member};

    // What stands on a stack before there are trees.
    pub const EMPTY: Entry = Entry {
        states: StateSet { words: [0; 4] },
        start: 0,
    };

    // Whether the tree belongs to state q. The set is asked where it stands, and not copied.
    pub fn belongs(&self, q: u8) -> bool
        ensures { result ≡ member self.now.states.words q }
    {
        is_member(&self.states.words, q)
    }
}
