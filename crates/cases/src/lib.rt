// What the programs of worked examples share: the cases of a reader and their fields, a checksum, and lines to a writer.
#![tactic(auto)]

ghost use Rattle.std.specs.Prelude.{◌≡◌, ℕ, List, ◌≤◌, ◌<◌, ◌∷◌, ◌++◌, [], None, IfOk, IfSome, OnOk, IsTrue, IsFalse, EachIndex, length, slice_index, fold, take};
ghost use Rattle.std.specs.Io.KnownBytes.{Appends, Consumes, IsAtEnd};
ghost use Rattle.cases.specs.Case.{IsNamed, IsLast};
ghost use Rattle.cases.specs.Checksum.{more};
ghost use Rattle.cases.specs.Field.{IsNumber, IsField, IsNoField};
ghost use Rattle.cases.specs.Line.{spaced};
ghost use Rattle.cases.specs.Run.{Runs};

use std::fmt::Display;
use std::io;
use std::io::{Read, Write};

// The most cases that `run` does.
const CASES: u32 = 1000000;

// Reads the cases of `input` one after the other. It writes the line that names a case and then calls `case`, until the input ends,
// `case` returns false, or a million cases are done.
pub fn run<R: Read, W: Write, F: FnMut(&mut R, &mut W) -> io::Result<bool>>(
    input: &mut R,
    out: &mut W,
    mut case: F,
) -> io::Result<()>
    requires { F.IsAlwaysCallable case }
    ensures { OnOk result (Runs R.remaining W.contents F.FnMut (record { input = input.old; out = out.old; case = case }) input.new out.new) }
{
    for _ in 0..CASES {
        if !next_case(input, out)? || !case(input, out)? {
            break;
        }
    }
    Ok(())
}

// The next case's name, and the line that names it: false where the input has ended.
pub fn next_case<R: Read, W: Write>(input: &mut R, out: &mut W) -> io::Result<bool>
    ensures named { IfOk result (λ more. IsTrue more → (name : List ℕ) × IsNamed name (R.remaining input.old) (R.remaining input.new) (W.contents out.old) (W.contents out.new)) }
    ensures last { IfOk result (λ more. IsFalse more → IsLast (R.remaining input.old) (R.remaining input.new) (W.contents out.old) (W.contents out.new)) }
{
    let mut name = [0u8; 255];
    let Some(name) = next_field(input, 1, &mut name)? else {
        return Ok(false);
    };
    out.write_all(b"case ")?;
    out.write_all(name)?;
    out.write_all(b"\n")?;
    Ok(true)
}

// The next number of the input, of `width` bytes, one to four, little-endian; none where the input has ended.
pub fn number<R: Read>(input: &mut R, width: usize) -> io::Result<Option<u32>>
    ensures number { IfOk result (λ found. IfSome found (IsNumber width (R.remaining input.old) (R.remaining input.new))) }
    ensures end { IfOk result (λ found. found ≡ None → width ≤ 4 → IsAtEnd (R.remaining input.new)) }
{
    let mut bytes = [0u8; 4];
    if width > bytes.len() || read_full(input, &mut bytes[..width])? < width {
        return Ok(None);
    }
    Ok(Some(u32::from_le_bytes(bytes)))
}

// Reads until `buf` is full or the input ends, and returns how many bytes it put at the start of `buf`.
pub fn read_full<R: Read>(input: &mut R, buf: &mut [u8]) -> io::Result<usize>
    ensures bound { IfOk result (λ n. n ≤ length buf.new) }
    ensures bytes { IfOk result (λ n. Consumes (R.remaining input.old) (R.remaining input.new) (take n buf.new)) }
    ensures end { IfOk result (λ n. n < length buf.old → IsAtEnd (R.remaining input.new)) }
{
    let mut done = 0;
    while done < buf.len() {
        let n = input.read(&mut buf[done..])?;
        if n == 0 {
            break;
        }
        done += n;
    }
    Ok(done)
}

// The next field of the input, a number of `width` bytes and then as many bytes: these, as a part of `buf`, or none where the input has
// ended or `buf` is too short.
pub fn next_field<'a, R: Read>(
    input: &mut R,
    width: usize,
    buf: &'a mut [u8],
) -> io::Result<Option<&'a [u8]>>
    ensures bound { IfOk result (λ found. IfSome found (λ part. length part.now ≤ length buf.old)) }
    ensures field { IfOk result (λ found. IfSome found (λ part. IsField width (R.remaining input.old) (R.remaining input.new) part.now)) }
    ensures none { IfOk result (λ found. found ≡ None → width ≤ 4 → IsNoField width (R.remaining input.old) (R.remaining input.new) (length buf.old)) }
{
    let Some(length) = number(input, width)? else {
        return Ok(None);
    };
    let Some(part) = buf.get_mut(..length as usize) else {
        return Ok(None);
    };
    if read_full(input, part)? < part.len() {
        return Ok(None);
    }
    Ok(Some(part))
}

// The checksums are below this number, a prime.
pub const MODULUS: u64 = 4294967291;

// The checksum `sum` with a byte more.
pub fn add(sum: u64, b: u8) -> u64
    requires { sum < MODULUS }
    ensures bound { result < MODULUS }
    ensures value { result ≡ more sum b }
{
    (sum * 257 + u64::from(b) + 1) % MODULUS
}

// The checksum `sum` with the bytes of `b` more.
pub fn add_all(mut sum: u64, b: &[u8]) -> u64
    requires { sum < MODULUS }
    ensures bound { result < MODULUS }
    ensures value { result ≡ fold more sum b.now }
{
    for x in b {
        sum = add(sum, *x);
    }
    sum
}

// A line: a word, each value after a space, and the line's end.
pub fn line<W: Write, T: Display>(out: &mut W, word: &[u8], values: &[T]) -> io::Result<()>
    ensures { OnOk result (IfSome (spaced T.output values.now) (λ text. Appends (W.contents out.old) (W.contents out.new) (word.now ++ text ++ (10 ∷ [])))) }
{
    out.write_all(word)?;
    write_spaced(out, values)?;
    out.write_all(b"\n")
}

// Each value after a space.
pub fn write_spaced<W: Write, T: Display>(out: &mut W, values: &[T]) -> io::Result<()>
    ensures { OnOk result (IfSome (spaced T.output values.now) (Appends (W.contents out.old) (W.contents out.new))) }
{
    for value in values {
        write!(out, " {value}")?;
    }
    Ok(())
}

// An array that is full of the byte 170.
pub fn filled<const N: usize>() -> [u8; N]
    ensures length { N ≡ length result }
    ensures bytes { EachIndex result (λ k. slice_index result k ≡ 170) }
{
    [170; N]
}
