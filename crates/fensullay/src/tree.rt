// Checking a tree against a table.
ghost use Rattle.std.specs.Prelude.{◌≡◌};
ghost use Rattle.fensullay.specs.Exports as spec;

use crate::numbers::{NO, OK, SHORT_ARRAY, put_all};
use simulation::{Answer, Counts, Subtree, check};

// The numbers of the counts: accepted, rejected, refused.
fn counts_numbers(c: Counts) -> [u32; 3]
    ensures { result ≡ spec.counts_numbers c }
{
    [c.accepted, c.rejected, c.refused]
}

// Checks a tree against a table: 0 accepted; 101 not accepted, and in `numbers` the subtree to look at, its top node and how many nodes it has; or the
// refusal, 1 to 11. One more of that answer in `counts`, which are accepted, not accepted, refused. Or 100 where `counts` has fewer than 3, or
// `numbers` fewer than 2.
#[unsafe(no_mangle)]
pub extern "C" fn fensullay_check(
    counts: &mut [u32],
    table: &[u8],
    tree: &[u8],
    numbers: &mut [usize],
) -> u32
    ensures value { result ≡ (spec.checking counts.old table.now tree.now numbers.old).code }
    ensures counts_after { counts.new
        ≡ (spec.checking counts.old table.now tree.now numbers.old).numbers }
    ensures numbers_after { numbers.new
        ≡ (spec.checking counts.old table.now tree.now numbers.old).out }
{
    if counts.len() < 3 || numbers.len() < 2 {
        return SHORT_ARRAY;
    }
    let old = Counts {
        accepted: counts[0],
        rejected: counts[1],
        refused: counts[2],
    };
    let checked = check(old, table, tree);
    put_all(counts, &counts_numbers(checked.counts));
    match checked.answer {
        Ok(Answer::Accepted) => OK,
        Ok(Answer::Rejected(Subtree { node, size })) => {
            put_all(numbers, &[node, size]);
            NO
        }
        Err(cause) => u32::from(cause),
    }
}
