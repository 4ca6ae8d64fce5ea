// New names of states: of each the representative of its block (document 01: "group"), and of each kept state its number.
ghost use Rattle.std.specs.Prelude.{◌≡◌, true, ℕ, ◌≤◌, ◌<◌, eqb};
ghost use Rattle.lists.specs.Lists.{from, any};
ghost use Rattle.sets.specs.Set.{member};
ghost use Rattle.sets.specs.Inner.{states_in, Has};
ghost use Rattle.stages.specs.Steps.{equivalent, first_of, position};
ghost use Rattle.reduction.specs.Inner.{name_in};

use refinement::Relation;
use sets::StateSet;

// The smallest state that is equivalent to q; q itself where none below it is.
fn representative(relation: &Relation, q: u8) -> u8
    ensures upper_bound { result ≤ q }
    ensures value { equivalent relation.now q q ≡ true
        → result ≡ first_of (equivalent relation.now q) (from 0 256) }
{
    (0..q)
        .find(|r| relation.has(q, *r) && relation.has(*r, q))
        .unwrap_or(q)
}

// Names each state of a set after its representative.
pub fn name_blocks(relation: &Relation, states: StateSet) -> [u8; 256]
    ensures low { (q : ℕ) → q < 256 → name_in result q ≤ q }
    ensures named { (q : ℕ) → q < 256 → member states.words q ≡ true → equivalent relation.now q q ≡ true
        → name_in result q ≡ first_of (equivalent relation.now q) (from 0 256) }
{
    let mut names = [0; 256];
    for q in states.states() {
        names[usize::from(q)] = representative(relation, q);
    }
    names
}

// Numbers the states of a set, in order.
pub fn number_states(states: StateSet) -> [u8; 256]
    ensures low { (q : ℕ) → q < 256 → name_in result q ≤ q }
    ensures numbered { (q : ℕ) → q < 256 → member states.words q ≡ true
        → name_in result q ≡ position (states_in 256 states.words) q }
{
    let mut names = [0; 256];
    for (i, q) in states.states().enumerate() {
        names[usize::from(q)] = i as u8;
    }
    names
}

// The new names of the states of a set.
pub fn rename_set(states: StateSet, names: &[u8; 256]) -> StateSet
    ensures { Has result.words (λ (r : ℕ). any (λ (q : ℕ). eqb (name_in names.now q) r) (states_in 256 states.words)) }
{
    let mut renamed = StateSet::empty();
    for q in states.states() {
        renamed.insert(names[usize::from(q)]);
    }
    renamed
}
