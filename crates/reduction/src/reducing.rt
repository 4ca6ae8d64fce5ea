// Reducing a table.
ghost use Rattle.std.specs.Prelude.{◌≡◌};
ghost use Rattle.records.specs.Answers.{reading_of};
ghost use Rattle.automaton.specs.Table.{judge};
ghost use Rattle.reduction.specs.Reduce.{reduction, reduction_after};
ghost use Rattle.reduction.specs.Demand3.{MeetsDemand3};

use crate::steps::reduce_table;
use automaton::{RULES, Row, Size, decode, write};
use records::Refusal;

// The length of the reduced table, the counts of the table and of the reduced one, and the rounds of step 2, which are those of the
// simulation on what step 1 leaves.
#[derive(Clone, Copy, Debug, PartialEq, Eq)]
pub struct Reduction {
    pub length: usize,
    pub old: Size,
    pub new: Size,
    pub rounds: usize,
}

// Writes the reduced table to the start of `out`: it meets demand 3. Refuses a table with 1 to 7, as `judge` does, and an `out` that is too
// short with 13; a refusal leaves `out` as it is.
pub fn reduce(table: &[u8], out: &mut [u8]) -> Result<Reduction, Refusal>
    ensures result_value { reading_of result ≡ reduction table.now out.old }
    ensures out_after { out.new ≡ reduction_after (judge table.now) out.old }
    ensures meets_demand3 { MeetsDemand3 table.now out.old result out.new }
{
    let mut rows = [Row::EMPTY; RULES];
    let decoded = decode(table, &mut rows)?;
    let old = decoded.size();
    let short = reduce_table(decoded);
    let length = write(&short.table.view(), out)?;
    Ok(Reduction {
        length,
        old,
        new: short.table.size(),
        rounds: short.rounds,
    })
}
