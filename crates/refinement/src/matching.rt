// What a relation says of two states, of the children of two rules, and of two rules.
ghost use Rattle.std.specs.Prelude.{ℕ, ◌≡◌, ◌<◌, [], length};
ghost use Rattle.lists.specs.Lists.{All, any};
ghost use Rattle.automaton.specs.Row.{rule_of, rules_of, rule_at};
ghost use Rattle.refinement.specs.Simulation as simulation;
ghost use Rattle.refinement.specs.Inner.{relation_in};

use automaton::Row;
use sets::{StateSet, is_member};
use std::marker::Model;

// A relation of states: row q is the set of the states that q is related to. Contracts see its pairs, which fix its rows.
#[derive(Clone, Copy)]
pub struct Relation {
    pub(crate) rows: [StateSet; 256],
}

impl Model for Relation {
    ghost use Rattle.std.specs.Prelude.{◌≡◌, length};
    ghost use Rattle.refinement.specs.Simulation.{Relation};
    ghost use Rattle.refinement.specs.Inner.{relation_in};
    ghost use Rattle.refinement.specs.Rows.{rows_of, rows_back};

    ghost Value = { Relation };

    ghost view = { λ r. relation_in r.rows };

    ghost invariant = { λ r. length r.rows ≡ 256 };

    ghost inverse = { λ R. record { rows = rows_of R } };

    ghost inverse_ok = { λ r h i. record { rows = rows_back r.rows h i } };
}

impl Relation {
    // No pair.
    pub fn empty() -> Self
        ensures { result ≡ [] }
    {
        Relation {
            rows: [StateSet::empty(); 256],
        }
    }

    // The relation that some rows hold.
    pub fn of(rows: [StateSet; 256]) -> Self
        ensures { result ≡ relation_in rows }
    {
        Relation { rows }
    }

    // Its rows.
    pub fn rows(&self) -> &[StateSet; 256]
        ensures { relation_in result.now ≡ self.now }
    {
        &self.rows
    }

    // Whether q is related to r.
    pub fn has(&self, q: u8, r: u8) -> bool
        ensures { result ≡ simulation.related self.now q r }
    {
        is_member(&self.rows[usize::from(q)].words, r)
    }

    // Whether some states are related to others, position by position.
    pub fn pairs(&self, qs: &[u8], rs: &[u8]) -> bool
        ensures { result ≡ simulation.paired self.now qs.now rs.now }
    {
        qs.len() == rs.len() && qs.iter().zip(rs).all(|(q, r)| self.has(*q, *r))
    }

    // Whether a rule is matched by another.
    pub fn matches(&self, rule: &Row, other: &Row) -> bool
        ensures { result ≡ simulation.matched_by self.now (rule_of rule.now) (rule_of other.now) }
    {
        rule.symbol() == other.symbol() && self.pairs(rule.children(), other.children())
    }

    // Whether a rule is matched by one of some others, by their numbers.
    pub fn has_match(&self, rule: &Row, others: &[Row], numbers: &[u16]) -> bool
        requires { All (λ (j : ℕ). j < length others.now) numbers.now }
        ensures { result ≡ any (λ (j : ℕ). simulation.matched_by self.now
            (rule_of rule.now) (rule_at (rules_of others.now) j)) numbers.now }
    {
        numbers
            .iter()
            .any(|j| self.matches(rule, &others[usize::from(*j)]))
    }
}
