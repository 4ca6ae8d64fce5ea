// The six steps over decoded rules, in place. What is in work is seen as the stage that the definitions of the steps speak of.
ghost use Rattle.std.specs.Prelude.{◌≡◌, ◌≤◌, ℕ, length};
ghost use mathlib.Core.List.{Memᴰ};
ghost use Rattle.lists.specs.Lists.{keep};
ghost use Rattle.sets.specs.Inner.{states_in};
ghost use Rattle.automaton.specs.Automaton.{WellFormed};
ghost use Rattle.automaton.specs.Row.{rules_of};
ghost use Rattle.refinement.specs.Inner.{Simulable};
ghost use Rattle.stages.specs.Steps.{names_only, trimmed, below, rounds_in, quotient, pruned, restricted, numbered, reduce, reduction_rounds};

use crate::blocks::{name_blocks, number_states, rename_set};
use crate::growth::{Down, Up, grow};
use crate::marking::{Dominated, Repeated, keep_staying};
use crate::rows::{rename_rules, retain};
use automaton::{RULES, Row, Table};
use indexing::{ByTarget, Index};
use refinement::{Relation, simulate};
use sets::StateSet;
use std::marker::Model;

// A table in work: the states that are left, the final ones among them, and the rules between them.
#[derive(Drop)]
struct Work<'r> {
    states: StateSet,
    finals: StateSet,
    rules: &'r mut [Row],
}

impl<'r> Model for Work<'r> {
    ghost use Rattle.stages.specs.Steps.{Stage};

    ghost Value = { Stage };

    ghost use Rattle.reduction.specs.Inner.{stage_of, InOrder};

    ghost view = { stage_of };

    ghost invariant = { InOrder };
}

// Of some rules those that name states of a set alone, over that set.
fn keep_named<'r>(states: StateSet, finals: StateSet, rules: &'r mut [Row]) -> Work<'r>
    requires few { length rules.old ≤ 1024 }
    requires finals { (q : ℕ) → Memᴰ q (states_in 256 finals.words) → Memᴰ q (states_in 256 states.words) }
    ensures { result ≡ record {
      states = states_in 256 states.words;
      finals = states_in 256 finals.words;
      rules = keep (names_only (states_in 256 states.words)) (rules_of rules.old);
    } }
{
    let is_named = |_, rule: &Row| states.has(rule.target()) && states.has_all(rule.children());
    Work {
        states,
        finals,
        rules: retain(rules, is_named),
    }
}

// Step 1: drops the states to which no tree belongs, and each rule that names one.
fn trim<'t, 'r>(table: Table<'t, 'r>) -> Work<'r>
    ensures { result ≡ trimmed table.entry }
{
    let Table { finals, rules, .. } = table;
    let states = grow::<Up>(StateSet::empty(), rules);
    keep_named(states, finals.meet(states), rules)
}

// Step 2: the simulation preorder on what step 1 leaves; returns its rounds.
fn simulate_left(work: &Work, relation: &mut Relation) -> usize
    requires { Simulable work.now.rules work.now.states }
    ensures value { result ≡ rounds_in work.now }
    ensures relation_after { relation.new ≡ below work.now }
{
    let mut index = Index::<RULES>::empty();
    index.fill::<ByTarget>(work.rules);
    simulate(work.states, work.rules, &index, relation)
}

// Step 3: groups equivalent states under their representatives; of equal rules the first stays.
fn group<'r>(work: Work<'r>, relation: &Relation) -> Work<'r>
    requires { relation.now ≡ below work }
    ensures { result ≡ quotient (below work.entry) work.entry }
{
    let Work {
        states,
        finals,
        rules,
    } = work;
    let names = name_blocks(relation, states);
    rename_rules(rules, &names);
    Work {
        states: rename_set(states, &names),
        finals: rename_set(finals, &names),
        rules: keep_staying::<Repeated>(relation, rules),
    }
}

// Step 4: drops together all dominated rules.
fn prune<'r>(work: Work<'r>, relation: &Relation) -> Work<'r>
    ensures { result ≡ pruned relation.now work.entry }
{
    let Work {
        states,
        finals,
        rules,
    } = work;
    Work {
        states,
        finals,
        rules: keep_staying::<Dominated>(relation, rules),
    }
}

// Step 5: keeps the final states and, repeatedly, the children of rules whose target is kept.
fn restrict<'r>(work: Work<'r>) -> Work<'r>
    ensures { result ≡ restricted work.entry }
{
    let Work { finals, rules, .. } = work;
    let states = grow::<Down>(finals, rules);
    keep_named(states, finals, rules)
}

// Step 6: numbers the states that are left in order, and gives the table with these ranks.
fn number<'t, 'r>(work: Work<'r>, ranks: &'t [u8]) -> Table<'t, 'r>
    requires { WellFormed (numbered ranks.now work) }
    ensures { result ≡ numbered ranks.now work.entry }
{
    let Work {
        states,
        finals,
        rules,
    } = work;
    let names = number_states(states);
    rename_rules(rules, &names);
    Table::new(states.len(), ranks, rename_set(finals, &names), rules)
}

// A reduced table, and the rounds of step 2.
#[derive(Drop)]
pub struct Short<'t, 'r> {
    pub table: Table<'t, 'r>,
    pub rounds: usize,
}

// All six steps.
pub fn reduce_table<'t, 'r>(table: Table<'t, 'r>) -> Short<'t, 'r>
    ensures table { result.table ≡ reduce table.entry }
    ensures rounds { result.rounds ≡ reduction_rounds table.entry }
{
    let ranks = table.ranks;
    let trimmed = trim(table);
    let mut relation = Relation::empty();
    let rounds = simulate_left(&trimmed, &mut relation);
    let grouped = group(trimmed, &relation);
    let left = restrict(prune(grouped, &relation));
    Short {
        table: number(left, ranks),
        rounds,
    }
}
