// The relation query and the pair query.
ghost use Rattle.std.specs.Prelude.{ℕ, ◌*◌, ◌+◌, ◌≤◌, ◌<◌, ◌≡◌, length};
ghost use Rattle.lists.specs.Over.{over};
ghost use Rattle.automaton.specs.Table.{judge};
ghost use Rattle.automaton.specs.Automaton.{Rule};
ghost use Rattle.automaton.specs.Row.{rules_of};
ghost use Rattle.indexing.specs.Index.{Indexes};
ghost use Rattle.records.specs.Answers.{reading_of};
ghost use Rattle.simulation.specs.Query.{simulation_of, rounds_of, relation_query, relation_after, Compares};
ghost use Rattle.simulation.specs.Inner.{bytes_of, pairs_of, FirstUnmatched, ComparedBy};

use automaton::{RULES, Row, Table, decode};
use indexing::{ByTarget, Index};
use records::Refusal;
use refinement::{Relation, simulate};
use sets::StateSet;

// The rounds and the number of pairs.
#[derive(Clone, Copy, Debug, PartialEq, Eq)]
pub struct Related {
    pub rounds: usize,
    pub pairs: usize,
}

// The bytes of some rows of states, in order, at the start of `out`.
fn put_rows(rows: &[StateSet], out: &mut [u8])
    requires { 32 * length rows.now ≤ length out.old }
    ensures { out.new ≡ over out.old 0 (bytes_of rows.now) }
{
    for (q, row) in rows.iter().enumerate() {
        out[32 * q..32 * q + 32].copy_from_slice(&row.bytes());
    }
}

// How many pairs some rows hold.
fn count_pairs(rows: &[StateSet]) -> usize
    requires { length rows.now ≤ 256 }
    ensures { result ≡ pairs_of rows.now }
{
    rows.iter().map(|row| row.len()).sum()
}

// The simulation preorder of all states of a decoded table; returns its rounds, and leaves the index of the rules by target.
fn simulate_all(table: &Table, index: &mut Index<RULES>, relation: &mut Relation) -> usize
    ensures value { result ≡ rounds_of table.now }
    ensures relation_after { relation.new ≡ simulation_of table.now }
    ensures indexed { Indexes (λ (u : Rule). u.target) table.now.rules index.new }
{
    let states = StateSet::below(table.size().states);
    let rules = table.rules();
    index.fill::<ByTarget>(rules);
    simulate(states, rules, index, relation)
}

// Writes the simulation preorder of a table's states to the start of `out`, 32 bytes to a state, and returns its rounds
// and the number of its pairs. Refuses a table as `judge` does, and an `out` that is too short with 13; a refusal leaves
// `out` as it is.
pub fn relate(table: &[u8], out: &mut [u8]) -> Result<Related, Refusal>
    ensures result_value { reading_of result ≡ relation_query table.now out.old }
    ensures out_after { out.new ≡ relation_after (judge table.now) out.old }
{
    let mut rows = [Row::EMPTY; RULES];
    let decoded = decode(table, &mut rows)?;
    let n = decoded.size().states;
    if out.len() < 32 * n {
        return Err(Refusal::ShortOutput);
    }
    let mut index = Index::empty();
    let mut relation = Relation::empty();
    let rounds = simulate_all(&decoded, &mut index, &mut relation);
    let related = &relation.rows()[..n];
    put_rows(related, out);
    Ok(Related {
        rounds,
        pairs: count_pairs(related),
    })
}

// The number of the first rule of q that no rule of r matches, if there is one; with an index of the rules by target.
fn first_unmatched(
    relation: &Relation,
    rules: &[Row],
    index: &Index<RULES>,
    q: u8,
    r: u8,
) -> Option<usize>
    requires { Indexes (λ (u : Rule). u.target) (rules_of rules.now) index.now }
    ensures { FirstUnmatched (rules_of rules.now) relation.now q r result }
{
    let numbers = index.numbers(r);
    rules.iter().position(|rule| rule.target() == q && !relation.has_match(rule, rules, numbers))
}

// Of two states q and r of a decoded table: none if q is simulated by r, and otherwise the number of the first rule of q that no rule of r matches.
fn compare_states(table: &Table, q: u8, r: u8) -> Option<usize>
    requires { (q < table.now.states) × (r < table.now.states) }
    ensures { ComparedBy table.now.rules (simulation_of table.now) q r result }
{
    let mut index = Index::empty();
    let mut relation = Relation::empty();
    simulate_all(table, &mut index, &mut relation);
    if relation.has(q, r) {
        return None;
    }
    first_unmatched(&relation, table.rules(), &index, q, r)
}

// None if state q is simulated by state r; otherwise the number of the first rule of q that no rule of r matches.
// Refuses a table as `judge` does, and a state that the table does not have with 12.
pub fn compare(table: &[u8], q: usize, r: usize) -> Result<Option<usize>, Refusal>
    ensures { Compares table.now q r result }
{
    let mut rows = [Row::EMPTY; RULES];
    let decoded = decode(table, &mut rows)?;
    let n = decoded.size().states;
    if q >= n || r >= n {
        return Err(Refusal::UnknownState);
    }
    Ok(compare_states(&decoded, q as u8, r as u8))
}
