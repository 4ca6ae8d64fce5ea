// Sets of states.
ghost use Rattle.std.specs.Prelude.{◌≡◌, ℕ, ◌≤◌, ◌||◌, ltb, length, get_or, ◌^◌, ◌<◌};
ghost use Rattle.lists.specs.Lists.{all, any, among};
ghost use Rattle.sets.specs.Set.{member, empty_set, with_state, without_state, union_of, meet_of, same_set};

use crate::states::States;

// State q is bit q mod 64 of word q div 64.
#[derive(Clone, Copy, Debug, PartialEq, Eq)]
pub struct StateSet {
    pub words: [u64; 4],

    // Four words of 64 bits, in proofs too.
    pub ghost four: { length words ≡ 4 },
    pub ghost bits: { (i : ℕ) → get_or words i 0 < 2 ^ 64 },
}

impl StateSet {
    ghost use Rattle.sets.specs.Inner.{states_in, states_left, set_bytes, Has};

    // The set of no state.
    pub fn empty() -> Self
        ensures { result.words ≡ empty_set }
    {
        StateSet { words: [0; 4] }
    }

    // The set of the states below n.
    pub fn below(n: usize) -> Self
        requires { n ≤ 256 }
        ensures { Has result.words (λ (q : ℕ). ltb q n) }
    {
        let mut set = StateSet::empty();
        for q in 0..n {
            set.insert(q as u8);
        }
        set
    }

    // Whether state q is in the set.
    pub fn has(self, q: u8) -> bool
        ensures { result ≡ member self.words q }
    {
        is_member(&self.words, q)
    }

    // Whether all of some states are in the set.
    pub fn has_all(&self, states: &[u8]) -> bool
        ensures { result ≡ all (member self.now.words) states.now }
    {
        states.iter().all(|q| is_member(&self.words, *q))
    }

    // Whether one of some states is in the set.
    pub fn has_any(&self, states: &[u8]) -> bool
        ensures { result ≡ any (member self.now.words) states.now }
    {
        states.iter().any(|q| is_member(&self.words, *q))
    }

    // Whether no state is in the set.
    pub fn is_empty(self) -> bool
        ensures { result ≡ same_set self.words empty_set }
    {
        self == StateSet::empty()
    }

    // How many states are in the set.
    pub fn len(self) -> usize
        ensures { result ≡ length (states_in 256 self.words) }
    {
        self.words
            .iter()
            .map(|word| word.count_ones() as usize)
            .sum()
    }

    // The states of the set, rising.
    pub fn states(self) -> States
        ensures { states_left result ≡ states_in 256 self.words }
    {
        States::of(self.words)
    }

    // The set's bytes: eight to a word, the lowest first.
    pub fn bytes(self) -> [u8; 32]
        ensures { result ≡ set_bytes self.words }
    {
        let mut bytes = [0; 32];
        bytes.copy_from_slice(self.words.map(u64::to_le_bytes).as_flattened());
        bytes
    }

    // Adds state q to the set.
    pub fn insert(&mut self, q: u8)
        ensures { self.new.words ≡ with_state self.old.words q }
    {
        self.words[usize::from(q / 64)] |= 1 << (q % 64);
    }

    // Takes state q out of the set.
    pub fn remove(&mut self, q: u8)
        ensures { self.new.words ≡ without_state self.old.words q }
    {
        self.words[usize::from(q / 64)] &= !(1 << (q % 64));
    }

    // The set with state q.
    pub fn with(self, q: u8) -> Self
        ensures { result.words ≡ with_state self.words q }
    {
        let mut set = self;
        set.insert(q);
        set
    }

    // The set with some more states.
    pub fn with_all(self, states: &[u8]) -> Self
        ensures { Has result.words (λ (r : ℕ). member self.words r || among states.now r) }
    {
        let mut set = self;
        for q in states {
            set.insert(*q);
        }
        set
    }

    // The set without state q.
    pub fn without(self, q: u8) -> Self
        ensures { result.words ≡ without_state self.words q }
    {
        let mut set = self;
        set.remove(q);
        set
    }

    // The states of either set.
    pub fn union(self, other: StateSet) -> Self
        ensures { result.words ≡ union_of self.words other.words }
    {
        let a = self.words;
        let b = other.words;
        StateSet {
            words: [a[0] | b[0], a[1] | b[1], a[2] | b[2], a[3] | b[3]],
        }
    }

    // The states of both sets.
    pub fn meet(self, other: StateSet) -> Self
        ensures { result.words ≡ meet_of self.words other.words }
    {
        let a = self.words;
        let b = other.words;
        StateSet {
            words: [a[0] & b[0], a[1] & b[1], a[2] & b[2], a[3] & b[3]],
        }
    }
}

// Whether state q is in the set of these words.
pub fn is_member(words: &[u64; 4], q: u8) -> bool
    ensures { result ≡ member words.now q }
{
    (words[usize::from(q / 64)] >> (q % 64)) % 2 == 1
}
