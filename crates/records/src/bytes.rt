// Numbers of two and of four bytes, little-endian.
ghost use Rattle.std.specs.Prelude.{◌≡◌, ◌+◌, ◌≤◌, length, drop};
ghost use Rattle.records.specs.Bytes as bytes;

// The number in the two bytes from `at` on.
pub fn number2(b: &[u8], at: usize) -> u16
    requires { at + 2 ≤ length b.now }
    ensures { result ≡ bytes.number2 (drop at b.now) }
{
    u16::from_le_bytes([b[at], b[at + 1]])
}

// The number in the first four bytes.
pub fn number4(b: &[u8]) -> usize
    requires { 4 ≤ length b.now }
    ensures { result ≡ bytes.number4 b.now }
{
    u32::from_le_bytes([b[0], b[1], b[2], b[3]]) as usize
}
