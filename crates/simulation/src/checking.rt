// Checking a tree against a table, and the counts of the answers.
ghost use Rattle.std.specs.Prelude.{ℕ, ◌≡◌, ◌≤◌, ◌*◌, length};
ghost use Rattle.trees.specs.Answers.{acceptance_of, finding_of};
ghost use Rattle.simulation.specs.Check as spec;

use automaton::{FEW_RULES, RULES, Refusal, Row, decode};
use trees::{Answer, accept_tree};

// How many checks got each answer (document 01: the "gate"). A count stays at 4,294,967,295.
#[derive(Clone, Copy, Debug, PartialEq, Eq)]
pub struct Counts {
    pub accepted: u32,
    pub rejected: u32,
    pub refused: u32,
}

// The counts after a check, and its answer.
#[derive(Clone, Copy, Debug, PartialEq, Eq)]
pub struct Checked {
    pub counts: Counts,
    pub answer: Result<Answer, Refusal>,
}

impl Counts {
    // No check yet.
    pub fn fresh() -> Self
        ensures { result ≡ spec.fresh }
    {
        Counts {
            accepted: 0,
            rejected: 0,
            refused: 0,
        }
    }

    // One more of an answer.
    fn with(self, answer: Result<Answer, Refusal>) -> Self
        ensures { result ≡ spec.counted self (acceptance_of answer) }
    {
        match answer {
            Ok(Answer::Accepted) => Counts {
                accepted: more(self.accepted),
                ..self
            },
            Ok(Answer::Rejected(_)) => Counts {
                rejected: more(self.rejected),
                ..self
            },
            Err(_) => Counts {
                refused: more(self.refused),
                ..self
            },
        }
    }
}

// One more, up to the ceiling.
fn more(count: u32) -> u32
    ensures { result ≡ spec.more count }
{
    count.saturating_add(1)
}

// Checks a tree against a table: the answer, which names a subtree to look at where the tree is not accepted, and the counts with one more of it.
// The table is judged first.
pub fn check(counts: Counts, table: &[u8], tree: &[u8]) -> Checked
    ensures { spec.Checks counts table.now tree.now result }
{
    let answer = check_tree(table, tree);
    Checked {
        counts: counts.with(answer),
        answer,
    }
}

// Whether a table accepts a tree, and if not, the subtree to look at; or the first cause of refusal. A rule takes ten bytes at least, so a short
// table gets a short array, which is cleared sooner.
fn check_tree(table: &[u8], tree: &[u8]) -> Result<Answer, Refusal>
    ensures { finding_of result ≡ spec.finding table.now tree.now }
{
    if table.len() <= 1280 {
        check_tree_in::<FEW_RULES>(table, tree)
    } else {
        check_tree_in::<RULES>(table, tree)
    }
}

// The same, with an array for so many rules.
fn check_tree_in<const R: usize>(table: &[u8], tree: &[u8]) -> Result<Answer, Refusal>
    requires few { R ≤ 1024 }
    requires room { (k : ℕ) → k ≤ 1024 → 10 * k ≤ length table.now → k ≤ R }
    ensures { finding_of result ≡ spec.finding table.now tree.now }
{
    let mut rows = [Row::EMPTY; R];
    let decoded = decode(table, &mut rows)?;
    accept_tree(&decoded.view(), tree)
}
