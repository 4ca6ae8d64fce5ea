// Reads cases from standard input, each a name and some bytes, and writes what opening, judging, decoding and writing find.
// A case: its name, after a byte of length, and its bytes, after four bytes of length.
#![tactic(auto)]

mod case;

use std::io;
use std::io::{Read, Write};

fn main(rt: HostRuntime) -> io::Result<()> {
    cases::run(&mut rt.stdin(), &mut rt.stdout(), one)
}

// What follows a case's name: false where the input has ended.
fn one<R: Read, W: Write>(input: &mut R, out: &mut W) -> io::Result<bool> {
    let mut bytes = [0u8; 65536];
    let Some(table) = cases::next_field(input, 4, &mut bytes)? else {
        return Ok(false);
    };
    case::report(out, table)?;
    Ok(true)
}
