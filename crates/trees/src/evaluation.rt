// A tree, in postfix order, against a decoded table, in one walk. The stack holds, for each finished tree, the set of the states that it belongs to,
// and its start: how many nodes stand before it. A tree ends where the one above it starts, and the topmost one after the last node, so that its size is
// a difference. From the top: `accept_tree` takes the record apart, `accept_nodes` picks a stack for the nodes in it, `evaluate` goes through them, one
// `step` for each, and `accept_stack` answers for what they leave.
ghost use Rattle.std.specs.Prelude.{ℕ, ◌+◌, ◌-◌, ◌/◌, ◌≤◌, ◌<◌, ◌≡◌, cond, length, min};
ghost use mathlib.Core.List.{Memᴰ};
ghost use Rattle.lists.specs.Lists.{any};
ghost use Rattle.sets.specs.Set.{empty_set, same_set, with_state};
ghost use Rattle.sets.specs.Inner.{Has};
ghost use Rattle.records.specs.Bytes as bytes;
ghost use Rattle.records.specs.Record.{opened};
ghost use Rattle.records.specs.Answers.{reading_of};
ghost use Rattle.automaton.specs.Automaton.{Rule, WellFormed};
ghost use Rattle.automaton.specs.Row.{rule_at};
ghost use Rattle.indexing.specs.Index.{Indexes};
ghost use Rattle.trees.specs.Postfix.{is_tree_record};
ghost use Rattle.trees.specs.Walk as spec;
ghost use Rattle.trees.specs.Walk.{advance, advance_all, closing};
ghost use Rattle.trees.specs.Subtree.{first_of};
ghost use Rattle.trees.specs.Answers.{finding_of};
ghost use Rattle.trees.specs.declared.entry.Entry.{Entry};
ghost use Rattle.trees.specs.Inner as inner;
ghost use Rattle.trees.specs.Inner.{in_order, rule_gives, nodes_finding, tree_finding};

use crate::entry::Entry;
use automaton::{RULES, TableRef};
use indexing::{BySymbol, Index};
use records::{Kind, Opened, Refusal, body, number2, open};
use sets::StateSet;
use std::marker::Model;

// A subtree, by the number of its top node in postfix order, counted from 0, and by how many nodes it has.
#[derive(Clone, Copy, Debug, PartialEq, Eq)]
pub struct Subtree {
    pub node: usize,
    pub size: usize,
}

// Of a tree that is not accepted, the subtree that is named. An `Option` of a subtree would be no plainer: `None` would say that the tree is accepted.
#[derive(Clone, Copy, Debug, PartialEq, Eq)]
pub enum Answer {
    Accepted,
    Rejected(Subtree),
}

// Whether the children are states of the trees, one each and in order. At most two children, the most frequent cases, go without a loop; no branch hangs
// on a state.
fn fits(trees: &[Entry], children: &[u8]) -> bool
    requires { length children.now ≤ length trees.now }
    ensures { result ≡ in_order trees.now children.now }
{
    if children.is_empty() {
        return true;
    }
    let first = trees[0].belongs(children[0]);
    if children.len() == 1 {
        return first;
    }
    let both = first & trees[1].belongs(children[1]);
    if children.len() == 2 {
        return both;
    }
    let mut all = both;
    for (tree, q) in trees[2..].iter().zip(&children[2..]) {
        all &= tree.belongs(*q);
    }
    all
}

// Whether one of the trees belongs to no state.
fn has_empty(trees: &[Entry]) -> bool
    ensures { result ≡ any (λ (t : Entry). same_set t.states.words empty_set) trees.now }
{
    trees.iter().any(|tree| tree.states.is_empty())
}

// Adds state q to a set if `bit` is true, and leaves the set if not. The words of the set stand two places apart: so they are read back one by
// one, and not in pairs for which the processor would wait.
fn add_if(spread: &mut [u64; 8], q: u8, bit: bool)
    ensures { inner.gathered spread.new
        ≡ cond bit (with_state (inner.gathered spread.old) q) (inner.gathered spread.old) }
{
    let w = 2 * usize::from(q / 64);
    spread[w] |= u64::from(bit) << (q % 64);
}

// The set whose words stand two places apart.
fn gathered(spread: &[u64; 8]) -> StateSet
    ensures { result.words ≡ inner.gathered spread.now }
{
    StateSet {
        words: [spread[0], spread[2], spread[4], spread[6]],
    }
}

// Where a node's tree starts: at the node itself, if it has no children, and otherwise where its first child does.
fn start_of(children: &[Entry], node: usize) -> u16
    requires { node < 16384 }
    ensures { result ≡ inner.start_of children.now node }
{
    match children.first() {
        Some(child) => child.start,
        None => node as u16,
    }
}

// The first node whose tree belongs to no state, after one more, whose tree has this start and belongs to these states.
fn noted(first: Option<Subtree>, node: usize, start: usize, states: StateSet) -> Option<Subtree>
    requires { (start ≤ node) × (node < 16384) }
    ensures { first_of result ≡ spec.noted (first_of first) node (node + 1 - start) (same_set states.words empty_set) }
{
    if first.is_none() && states.is_empty() {
        return Some(Subtree {
            node,
            size: node + 1 - start,
        });
    }
    first
}

// What the walk holds between nodes: the trees that wait, on a stack for N of them, how many nodes there were, and the first of them whose tree belongs
// to no state, with the size of that tree.
#[derive(Drop)]
struct Walk<'a, const N: usize> {
    stack: &'a mut [Entry; N],
    height: usize,
    nodes: usize,
    first: Option<Subtree>,
}

impl<'a, const N: usize> Model for Walk<'a, N> {
    ghost use Rattle.trees.specs.Walk as spec;
    ghost use Rattle.trees.specs.Inner.{walk_in, FillsNodes};

    ghost Value = { spec.Walk };

    ghost view = { λ w. walk_in w.stack.now w.height w.nodes w.first };

    ghost invariant = { λ w. FillsNodes N w.stack.now w.height w.nodes };
}

impl<'a, const N: usize> Walk<'a, N> {
    // No node yet.
    fn new(stack: &'a mut [Entry; N]) -> Walk<'a, N>
        requires { N ≤ 1024 }
        ensures { result ≡ spec.start }
    {
        Walk {
            stack,
            height: 0,
            nodes: 0,
            first: None,
        }
    }
}

// What trees are evaluated against: a table, and the index of its rules by symbol.
#[derive(Drop)]
struct Evaluator<'a> {
    table: &'a TableRef<'a>,
    index: &'a Index<RULES>,
}

impl<'a> Model for Evaluator<'a> {
    ghost use Rattle.automaton.specs.Automaton.{Automaton};
    ghost use Rattle.trees.specs.Inner.{Evaluable};

    ghost Value = { Automaton };

    ghost view = { λ t. t.table.now };

    ghost invariant = { λ t. Evaluable t.table.now t.index.now };
}

impl<'a> Evaluator<'a> {
    // Of a decoded table and the index of its rules.
    fn new(table: &'a TableRef<'a>, index: &'a Index<RULES>) -> Evaluator<'a>
        requires { Indexes (λ (u : Rule). u.symbol) table.now.rules index.now }
        ensures value { result ≡ table.now }
        ensures well_formed { WellFormed result }
    {
        // For the proof: a table's automaton is well-formed.
        let _ = &table.rules;
        Evaluator { table, index }
    }

    // The targets of those rules, by their numbers and each with one child for each of the trees, whose children are states of the trees, in order.
    // Inlined, and the next one too: a set that comes back through memory is read in pairs of words, for which the processor would wait.
    #[inline(always)]
    fn targets(&self, numbers: &[u16], trees: &[Entry]) -> StateSet
        requires { (i : ℕ) → Memᴰ i numbers.now → (i < length self.now.rules)
            × (length (rule_at self.now.rules i).children ≡ length trees.now) }
        ensures { Has result.words
            (λ (q : ℕ). any (rule_gives self.now.rules trees.now q) numbers.now) }
    {
        let rules = self.table.rules();
        let mut spread = [0; 8];
        for i in numbers {
            let rule = &rules[usize::from(*i)];
            let children = rule.children_of_rank(trees.len());
            add_if(&mut spread, rule.target(), fits(trees, children));
        }
        gathered(&spread)
    }

    // The same. In a walk no set is empty before the first tree without a state, so that sets are tested only from then on; where one is empty, no rule
    // is looked at. One child and two, the most frequent numbers, each get a loop for themselves: there it is known how many they are.
    #[inline(always)]
    fn states_over(&self, numbers: &[u16], trees: &[Entry], first: Option<Subtree>) -> StateSet
        requires { (i : ℕ) → Memᴰ i numbers.now → (i < length self.now.rules)
            × (length (rule_at self.now.rules i).children ≡ length trees.now) }
        ensures { Has result.words
            (λ (q : ℕ). any (rule_gives self.now.rules trees.now q) numbers.now) }
    {
        // For the proof: what holds of the value's fields.
        let _ = &self.table;
        if first.is_some() && has_empty(trees) {
            return StateSet::empty();
        }
        match trees.len() {
            1 => self.targets(numbers, &trees[..1]),
            2 => self.targets(numbers, &trees[..2]),
            _ => self.targets(numbers, trees),
        }
    }

    // One node: its tree takes the place of its children's on the stack.
    fn step<'w, const N: usize>(
        &self,
        symbol: usize,
        walk: Walk<'w, N>,
    ) -> Result<Walk<'w, N>, Refusal>
        requires { (walk.nodes < 16384) × (min (length walk.stack + 1) 1024 ≤ N) }
        ensures { reading_of result ≡ advance self.now walk.entry symbol }
    {
        let Walk {
            stack,
            height,
            nodes,
            first,
        } = walk;
        let rank = *self
            .table
            .ranks()
            .get(symbol)
            .ok_or(Refusal::UnknownSymbol)?;
        let e = height
            .checked_sub(usize::from(rank))
            .ok_or(Refusal::Unbalanced)?;
        if e >= 1024 {
            return Err(Refusal::TreeAboveLimit);
        }
        let numbers = self.index.numbers(symbol as u8);
        let trees = &stack[..];
        let children = &trees[e..height];
        let states = self.states_over(numbers, children, first);
        let start = start_of(children, nodes);
        stack[e] = Entry { states, start };
        Ok(Walk {
            stack,
            height: e + 1,
            nodes: nodes + 1,
            first: noted(first, nodes, usize::from(start), states),
        })
    }

    // All nodes of a tree's body, one after the other.
    #[inline(never)]
    fn evaluate<'w, const N: usize>(
        &self,
        b: &[u8],
        walk: Walk<'w, N>,
    ) -> Result<Walk<'w, N>, Refusal>
        requires { (walk.nodes + length b.now / 2 ≤ 16384) × (min (length walk.stack + length b.now / 2) 1024 ≤ N) }
        ensures { reading_of result ≡ advance_all self.now walk.entry (bytes.numbers b.now) }
    {
        let mut walk = walk;
        for symbol in b.chunks_exact(2) {
            walk = self.step(usize::from(number2(symbol, 0)), walk)?;
        }
        Ok(walk)
    }

    // The answer for the tree that waits, if there is one alone. The subtree to be named is the first that belongs to no state, or the whole tree.
    fn accept_stack<const N: usize>(&self, walk: &Walk<N>) -> Result<Answer, Refusal>
        requires { length walk.now.stack ≤ walk.now.nodes }
        ensures { finding_of result ≡ closing self.now walk.now }
    {
        if walk.height != 1 {
            return Err(Refusal::Unbalanced);
        }
        let stack = &walk.stack[..];
        if !stack[0].states.meet(self.table.finals()).is_empty() {
            return Ok(Answer::Accepted);
        }
        let whole = Subtree {
            node: walk.nodes - 1,
            size: walk.nodes,
        };
        Ok(Answer::Rejected(walk.first.unwrap_or(whole)))
    }

    // The answer for a tree's body, on a stack for N trees, which are enough for its nodes.
    fn accept_nodes_in<const N: usize>(&self, b: &[u8]) -> Result<Answer, Refusal>
        requires trees { N ≤ 1024 }
        requires room { (length b.now / 2 ≤ 16384) × (min (length b.now / 2) 1024 ≤ N) }
        ensures { finding_of result ≡ nodes_finding self.now (bytes.numbers b.now) }
    {
        let mut stack = [Entry::EMPTY; N];
        let walk = self.evaluate(b, Walk::new(&mut stack))?;
        self.accept_stack(&walk)
    }

    // The answer for a tree's body; a body of at most 64 nodes gets a small stack, which is cleared sooner.
    fn accept_nodes(&self, b: &[u8]) -> Result<Answer, Refusal>
        requires { length b.now / 2 ≤ 16384 }
        ensures { finding_of result ≡ nodes_finding self.now (bytes.numbers b.now) }
    {
        if b.len() <= 128 {
            self.accept_nodes_in::<64>(b)
        } else {
            self.accept_nodes_in::<1024>(b)
        }
    }
}

// Whether `t` is one record of kind 16 with an even body, and nothing after it.
fn is_tree(t: &[u8]) -> bool
    ensures { result ≡ is_tree_record (opened t.now) t.now }
{
    let Ok(Some(Opened { kind, end })) = open(t) else {
        return false;
    };
    kind == u16::from(Kind::Tree) && end == t.len() && body(t).len() % 2 == 0
}

// Whether a decoded table accepts a tree, and if not, the subtree to be named; or the tree's first cause of refusal.
pub fn accept_tree(table: &TableRef, tree: &[u8]) -> Result<Answer, Refusal>
    ensures { finding_of result ≡ tree_finding table.now tree.now }
{
    if !is_tree(tree) {
        return Err(Refusal::NotATree);
    }
    let b = body(tree);
    if b.len() / 2 > 16384 {
        return Err(Refusal::TreeAboveLimit);
    }
    // For the proof: a table's automaton is well-formed.
    let _ = &table.rules;
    let mut index = Index::<RULES>::empty();
    index.fill::<BySymbol>(table.rules());
    Evaluator::new(table, &index).accept_nodes(b)
}
