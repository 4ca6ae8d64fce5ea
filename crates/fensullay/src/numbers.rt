// The numbers that a call returns, and the values and counts in the arrays that a caller lends.
ghost use Rattle.std.specs.Prelude.{◌≡◌, ◌++◌, ◌≤◌, length, drop};
ghost use Rattle.fensullay.specs.Exports as spec;

use automaton::Refusal;

// Done; or yes.
pub const OK: u32 = 0;

// An array for numbers or counts is too short.
pub const SHORT_ARRAY: u32 = 100;

// No.
pub const NO: u32 = 101;

// The values at the start of an array; what stands after them stays.
pub fn put_all<T: Copy>(array: &mut [T], values: &[T])
    requires { length values.now ≤ length array.old }
    ensures { array.new ≡ values.now ++ drop (length values.now) array.old }
{
    array[..values.len()].copy_from_slice(values);
}

// What a call returns that did its work: 0, with the values in `numbers`; or the refusal, which leaves them.
pub fn answer<const N: usize>(numbers: &mut [usize], found: Result<[usize; N], Refusal>) -> u32
    requires { N ≤ length numbers.old }
    ensures value { result ≡ (spec.answered found.entry numbers.old).code }
    ensures numbers_after { numbers.new ≡ (spec.answered found.entry numbers.old).numbers }
{
    match found {
        Ok(values) => {
            put_all(numbers, &values);
            OK
        }
        Err(cause) => u32::from(cause),
    }
}
