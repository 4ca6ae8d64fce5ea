// Marks of the rules that a step keeps.
ghost use Rattle.std.specs.Prelude.{◌≡◌, ℕ, Bool, true, List, ◌≤◌, ◌<◌, length};
ghost use Rattle.automaton.specs.Automaton.{Rule};
ghost use Rattle.automaton.specs.Row.{rule_of, rule_at, rules_of};
ghost use Rattle.indexing.specs.Index.{keyed};
ghost use Rattle.refinement.specs.Simulation as simulation;
ghost use Rattle.reduction.specs.Inner.{marked, repeats, dominates};
ghost use Rattle.reduction.specs.Inner as spec;
ghost use Rattle.reduction.specs.Laws.{repeats_same_target, dominates_same_target};

use crate::rows::retain;
use automaton::{RULES, Row};
use indexing::{ByTarget, Index};
use refinement::Relation;

// Why a rule goes because of another of its target.
pub trait Why {
    // A rule goes because of another, given whether that one stands before it.
    ghost goes_for: { simulation.Relation → Rule → Rule → Bool → Bool };

    fn goes(relation: &Relation, rule: &Row, other: &Row, is_before: bool) -> bool
        requires { (rule_of other.now).target ≡ (rule_of rule.now).target }
        ensures { result ≡ goes_for relation.now (rule_of rule.now) (rule_of other.now) is_before };

    // A rule goes only for one of its target.
    ghost same_target: { (R : simulation.Relation) (u v : Rule) (before : Bool) → goes_for R u v before ≡ true → v.target ≡ u.target };
}

// An equal rule stands before it.
pub struct Repeated;

// The other dominates it.
pub struct Dominated;

impl Why for Repeated {
    ghost goes_for = { repeats };

    ghost same_target = { repeats_same_target };

    fn goes(_relation: &Relation, rule: &Row, other: &Row, is_before: bool) -> bool {
        is_before && other.symbol() == rule.symbol() && other.children() == rule.children()
    }
}

impl Why for Dominated {
    ghost goes_for = { dominates };

    ghost same_target = { dominates_same_target };

    fn goes(relation: &Relation, rule: &Row, other: &Row, _is_before: bool) -> bool {
        relation.matches(rule, other) && rule.children() != other.children()
    }
}

// Whether rule i goes because of rule j.
fn goes_for<W: Why>(relation: &Relation, rules: &[Row], i: usize, j: u16) -> bool
    requires in_bounds { (i < length rules.now) × (j < length rules.now) }
    requires target { (rule_at (rules_of rules.now) j).target ≡ (rule_at (rules_of rules.now) i).target }
    ensures { result ≡ spec.goes_at W.goes_for relation.now (rules_of rules.now) i j }
{
    let j = usize::from(j);
    W::goes(relation, &rules[i], &rules[j], j < i)
}

// Whether rule i stays: it goes for no rule. Only those of its target are looked at, by their numbers.
fn stays<W: Why>(relation: &Relation, rules: &[Row], numbers: &[u16], i: usize) -> bool
    requires in_bounds { i < length rules.now }
    requires numbers { numbers.now ≡ keyed (λ (u : Rule). u.target) (rules_of rules.now) (rule_at (rules_of rules.now) i).target }
    ensures { result ≡ spec.stays W.goes_for relation.now (rules_of rules.now) i }
{
    !numbers
        .iter()
        .any(|j| goes_for::<W>(relation, rules, i, *j))
}

// Marks the rules that stay.
fn mark_staying<W: Why>(relation: &Relation, rules: &[Row]) -> [bool; RULES]
    requires { length rules.now ≤ 1024 }
    ensures { (i : ℕ) → i < length rules.now → marked result i
        ≡ spec.stays W.goes_for relation.now (rules_of rules.now) i }
{
    let mut index = Index::<RULES>::empty();
    index.fill::<ByTarget>(rules);
    let mut marks = [false; RULES];
    for (i, rule) in rules.iter().enumerate() {
        let numbers = index.numbers(rule.target());
        marks[i] = stays::<W>(relation, rules, numbers, i);
    }
    marks
}

// Moves the rules that stay to the front, in order, and returns them.
pub fn keep_staying<'r, W: Why>(relation: &Relation, rules: &'r mut [Row]) -> &'r mut [Row]
    requires { length rules.old ≤ 1024 }
    ensures few { length result.now ≤ length rules.old }
    ensures rules { rules_of result.now ≡ spec.staying W.goes_for relation.now (rules_of rules.old) }
{
    let marks = mark_staying::<W>(relation, rules);
    retain(rules, |i, _| marks[i])
}
