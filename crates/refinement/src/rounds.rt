// The largest downward simulation of decoded rules, by rounds: each makes the next relation from the whole of the last one, and looks only
// at rules that the last round's changes touch. The rules that ask for matches and those that answer are lent apart.
ghost use Rattle.std.specs.Prelude.{◌≡◌, true, false, not, ◌&&◌, ◌||◌, ℕ, ◌≤◌, ◌<◌, List, length, eqb};
ghost use Rattle.lists.specs.Lists.{all};
ghost use Rattle.sets.specs.Set.{member, empty_set, same_set};
ghost use Rattle.sets.specs.Inner.{states_in, Has};
ghost use Rattle.sets.specs.Entries.{entry_at};
ghost use Rattle.automaton.specs.Automaton.{Rule};
ghost use Rattle.automaton.specs.Row.{rule_of, rules_of};
ghost use Rattle.refinement.specs.Simulation as simulation;
ghost use Rattle.indexing.specs.Index.{Indexes};
ghost use Rattle.refinement.specs.Inner.{relation_in, Simulable, Copied, is_target, answers, touches, Quiet, Roundable, Rounded};

use crate::matching::Relation;
use automaton::Row;
use indexing::Index;
use sets::StateSet;

// For each symbol the set of the targets of its rules, over sets that are empty.
fn hold_targets(others: &[Row], holders: &mut [StateSet; 256])
    requires { (f : ℕ) → f < 256 → entry_at holders.old f ≡ empty_set }
    ensures { (f : ℕ) → f < 256 → Has (entry_at holders.new f) (is_target (rules_of others.now) f) }
{
    for rule in others {
        holders[usize::from(rule.symbol())].insert(rule.target());
    }
}

// The first relation: the rows of some states are all these states, the others are empty.
fn start(states: StateSet, rows: &mut [StateSet; 256])
    ensures { (q : ℕ) → q < 256 → Has (entry_at rows.new q)
        (λ (r : ℕ). member states.words q && member states.words r) }
{
    *rows = [StateSet::empty(); 256];
    for q in states.states() {
        rows[usize::from(q)] = states;
    }
}

// The first round, where all pairs are there: r stays in the row of q where it has a rule of each symbol that q has.
fn first_round(rules: &[Row], holders: &[StateSet; 256], rows: &mut [StateSet; 256])
    ensures { (q : ℕ) → q < 256 → Has (entry_at rows.new q) (λ (r : ℕ). member (entry_at rows.old q) r
        && all (λ (u : Rule). not (eqb u.target q) || member (entry_at holders.now u.symbol) r)
        (rules_of rules.now)) }
{
    for rule in rules {
        let q = usize::from(rule.target());
        rows[q] = rows[q].meet(holders[usize::from(rule.symbol())]);
    }
}

// Copies the rows of some states; returns those of them whose row is not all of them.
fn copy_rows(states: StateSet, rows: &[StateSet; 256], next: &mut [StateSet; 256]) -> StateSet
    ensures copied { Copied states.words (relation_in rows.now) next.new }
    ensures has { Has result.words (λ (q : ℕ). member states.words q
        && not (same_set (entry_at rows.now q) states.words)) }
{
    let mut changed = StateSet::empty();
    for q in states.states() {
        let row = rows[usize::from(q)];
        next[usize::from(q)] = row;
        if row != states {
            changed.insert(q);
        }
    }
    changed
}

// A row without the states that have no rule that matches this one.
fn narrow<const R: usize>(
    row: StateSet,
    relation: &Relation,
    rule: &Row,
    others: &[Row],
    index: &Index<R>,
) -> StateSet
    requires { Indexes (λ (u : Rule). u.target) (rules_of others.now) index.now }
    ensures { Has result.words (λ (r : ℕ). member row.words r
        && simulation.matched (rules_of others.now) relation.now r (rule_of rule.now)) }
{
    let mut narrowed = row;
    for r in row.states() {
        if !relation.has_match(rule, others, index.numbers(r)) {
            narrowed = narrowed.without(r);
        }
    }
    narrowed
}

// A round: narrows the next relation's rows, which are the last one's, by those of the rules that have a child whose row changed in the round
// before; returns the states whose rows change.
fn round<const R: usize>(
    changed: StateSet,
    relation: &Relation,
    next: &mut [StateSet; 256],
    rules: &[Row],
    others: &[Row],
    index: &Index<R>,
) -> StateSet
    requires { Indexes (λ (u : Rule). u.target) (rules_of others.now) index.now }
    ensures { (states : List ℕ) → Roundable states relation.now next.old (rules_of rules.now)
        → Quiet (rules_of rules.now) (rules_of others.now) relation.now (touches changed.words)
        → Rounded states (answers (rules_of rules.now) (rules_of others.now) relation.now) relation.now next.new result.words }
{
    let mut lost = StateSet::empty();
    for rule in rules {
        let touched = changed.has_any(rule.children());
        if touched {
            let q = rule.target();
            let row = next[usize::from(q)];
            let narrowed = narrow(row, relation, rule, others, index);
            if narrowed != row {
                next[usize::from(q)] = narrowed;
                lost.insert(q);
            }
        }
    }
    lost
}

// Puts the changed rows in the place of the last ones.
fn put_back(changed: StateSet, next: &[StateSet; 256], rows: &mut [StateSet; 256])
    ensures changed { (q : ℕ) → q < 256 → member changed.words q ≡ true → entry_at rows.new q ≡ entry_at next.now q }
    ensures others { (q : ℕ) → q < 256 → member changed.words q ≡ false → entry_at rows.new q ≡ entry_at rows.old q }
    ensures long { length rows.new ≡ 256 }
{
    for q in changed.states() {
        rows[usize::from(q)] = next[usize::from(q)];
    }
}

// The largest downward simulation of decoded rules on the states of a set, with an index of the rules by target; returns its rounds.
pub fn simulate<const R: usize>(
    states: StateSet,
    rules: &[Row],
    index: &Index<R>,
    relation: &mut Relation,
) -> usize
    requires indexed { Indexes (λ (u : Rule). u.target) (rules_of rules.now) index.now }
    requires simulable { Simulable (rules_of rules.now) (states_in 256 states.words) }
    ensures value { result ≡ simulation.rounds (rules_of rules.now) (states_in 256 states.words) }
    ensures relation_after { relation.new ≡ simulation.relation (rules_of rules.now) (states_in 256 states.words) }
{
    let mut next = [StateSet::empty(); 256];
    hold_targets(rules, &mut next);
    let rows = &mut relation.rows;
    start(states, rows);
    first_round(rules, &next, rows);
    let mut changed = copy_rows(states, rows, &mut next);
    let mut rounds = 0;
    while !changed.is_empty() {
        changed = round(changed, relation, &mut next, rules, rules, index);
        put_back(changed, &next, &mut relation.rows);
        rounds += 1;
    }
    rounds
}
