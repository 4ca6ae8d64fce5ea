// A record: a length (4 bytes), a kind (2 bytes) and a body; the length counts kind and body.
ghost use Rattle.std.specs.Prelude.{◌≡◌};
ghost use Rattle.records.specs.Record.{opened, body_of};
ghost use Rattle.records.specs.Answers.{opening_of};

use crate::bytes::{number2, number4};
use crate::refusal::Refusal;

// A record's kind, and the number of bytes up to its end. The kind is a number, since a record of any kind opens.
#[derive(Clone, Copy, Debug, PartialEq, Eq)]
pub struct Opened {
    pub kind: u16,
    pub end: usize,
}

// Opens the first record of `t`: none where nothing is left, and cause 1 where `t` is not empty and holds no whole record.
pub fn open(t: &[u8]) -> Result<Option<Opened>, Refusal>
    ensures { opening_of result ≡ opened t.now }
{
    if t.is_empty() {
        return Ok(None);
    }
    if t.len() < 6 {
        return Err(Refusal::BrokenRecord);
    }
    let length = number4(t);
    if length < 2 || t.len() - 4 < length {
        return Err(Refusal::BrokenRecord);
    }
    Ok(Some(Opened {
        kind: number2(t, 4),
        end: 4 + length,
    }))
}

// The body of the first record of `t`, as a part of `t`: an empty one where no record opens.
pub fn body(t: &[u8]) -> &[u8]
    ensures { result.now ≡ body_of t.now }
{
    let Ok(Some(Opened { end, .. })) = open(t) else {
        return &t[..0];
    };
    &t[6..end]
}
