// Writes the report on the table of standard input, of which it reads the first 27,417 bytes.
#![tactic(auto)]

use std::io;
use std::io::Write;

fn main(rt: HostRuntime) -> io::Result<()> {
    let mut table = [0u8; 27417];
    let n = cases::read_full(&mut rt.stdin(), &mut table)?;
    let mut lines = [0u8; 64];
    let end = reporting::report(&table[..n], &mut lines);
    rt.stdout().write_all(&lines[..end])
}
