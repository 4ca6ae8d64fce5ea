// A set of states that grows, pass by pass over the rules, until a pass adds none.
ghost use Rattle.std.specs.Prelude.{◌≡◌, ◌||◌, ◌&&◌, ℕ, Bool, eqb};
ghost use Rattle.lists.specs.Lists.{all, among};
ghost use Rattle.sets.specs.Set.{member};
ghost use Rattle.sets.specs.Inner.{Has};
ghost use Rattle.automaton.specs.Automaton.{Rule};
ghost use Rattle.automaton.specs.Row.{rule_of, rules_of};
ghost use Rattle.stages.specs.Steps as steps;
ghost use Rattle.stages.specs.Steps.{closure};
ghost use Rattle.stages.specs.Inner.{Sound};
ghost use Rattle.reduction.specs.Inner.{grows, Adding, Pass};
ghost use Rattle.reduction.specs.Laws.{up_adding, down_adding};

use automaton::Row;
use sets::StateSet;

// Which way a set grows along a rule.
pub trait Way {
    // What a rule adds to a set of states.
    ghost adds: { (ℕ → Bool) → Rule → ℕ → Bool };

    // The set with what a rule adds.
    fn add(set: StateSet, rule: &Row) -> StateSet
        ensures { Has result.words (λ (q : ℕ). member set.words q || adds (member set.words) (rule_of rule.now) q) };

    // To a larger set no fewer states are added, and only states that the rule names.
    ghost laws: { Adding adds };
}

// From the children up: a rule adds its target, if all its children are in the set.
pub struct Up;

// From the target down: a rule adds its children, if its target is in the set.
pub struct Down;

impl Way for Up {
    ghost adds = { λ set u q. eqb u.target q && all set u.children };

    ghost laws = { up_adding };

    fn add(set: StateSet, rule: &Row) -> StateSet {
        if set.has_all(rule.children()) {
            set.with(rule.target())
        } else {
            set
        }
    }
}

impl Way for Down {
    ghost adds = { λ set u q. set u.target && among u.children q };

    ghost laws = { down_adding };

    fn add(set: StateSet, rule: &Row) -> StateSet {
        if set.has(rule.target()) {
            set.with_all(rule.children())
        } else {
            set
        }
    }
}

// A pass: the set with what each of some rules adds.
fn grow_once<W: Way>(set: StateSet, rules: &[Row]) -> StateSet
    ensures { Pass W.adds (rules_of rules.now) set.words result.words }
{
    let mut grown = set;
    for rule in rules {
        grown = W::add(grown, rule);
    }
    grown
}

// The states from which no pass goes on: up from none, those to which a tree belongs; down from the final ones, those that step 5 keeps.
pub fn grow<W: Way>(start: StateSet, rules: &[Row]) -> StateSet
    ensures { (S : steps.Stage) → Sound S → rules_of rules.now ≡ S.rules
        → Has start.words (among S.finals) → Has result.words (among (closure (grows W.adds S) S.states)) }
{
    let mut set = start;
    for _ in 0..256u16 {
        let grown = grow_once::<W>(set, rules);
        if grown == set {
            break;
        }
        set = grown;
    }
    set
}
