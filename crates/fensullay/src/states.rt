// Which states of a table simulate which.
ghost use Rattle.std.specs.Prelude.{◌≡◌};
ghost use Rattle.fensullay.specs.Exports as spec;

use crate::numbers::{NO, OK, SHORT_ARRAY, answer, put_all};
use simulation::{Related, compare, relate};

// The numbers of a relation: rounds, pairs.
fn relation_numbers(r: Related) -> [usize; 2]
    ensures { result ≡ spec.relation_numbers r }
{
    [r.rounds, r.pairs]
}

// The relation of a table's states into `out`, 32 bytes to a state: 0, and the rounds and the number of pairs in `numbers`; or the
// refusal, 1 to 7, or 13 where `out` is too short; or 100 where `numbers` has fewer than 2.
#[unsafe(no_mangle)]
pub extern "C" fn fensullay_relate(table: &[u8], out: &mut [u8], numbers: &mut [usize]) -> u32
    ensures value { result ≡ (spec.relating table.now out.old numbers.old).code }
    ensures numbers_after { numbers.new ≡ (spec.relating table.now out.old numbers.old).numbers }
    ensures out_after { out.new ≡ (spec.relating table.now out.old numbers.old).out }
{
    if numbers.len() < 2 {
        return SHORT_ARRAY;
    }
    answer(numbers, relate(table, out).map(relation_numbers))
}

// Whether state q is simulated by state r: 0 for yes; 101 for no, and the number of a rule of q that no rule of r matches in `numbers`;
// or the refusal, 1 to 7 or 12; or 100 where `numbers` is empty.
#[unsafe(no_mangle)]
pub extern "C" fn fensullay_compare(table: &[u8], q: usize, r: usize, numbers: &mut [usize]) -> u32
    ensures { spec.ComparesInto table.now q r numbers.old result numbers.new }
{
    if numbers.is_empty() {
        return SHORT_ARRAY;
    }
    match compare(table, q, r) {
        Ok(None) => OK,
        Ok(Some(rule)) => {
            put_all(numbers, &[rule]);
            NO
        }
        Err(cause) => u32::from(cause),
    }
}
