// What writes into a lent buffer. Each method says which bytes stand where afterwards; the others stay.
#![tactic(auto, using(crate::proofs::Pens::by_pen))]

ghost use Rattle.std.specs.Prelude.{◌≡◌, ◌++◌, ◌+◌, ◌*◌, ◌≤◌, length};
ghost use Rattle.records.specs.Bytes.{bytes2, bytes4, fields};

// A lent buffer, and the place in it where the next byte goes.
#[derive(Drop)]
pub struct Pen<'a> {
    out: &'a mut [u8],
    at: usize,
}

impl<'a> Pen<'a> {
    ghost use Rattle.records.specs.Pen.{pen_on, put_in, HasRoom};

    // At the start of the buffer.
    pub fn new(out: &'a mut [u8]) -> Pen<'a>
        ensures { result ≡ pen_on out.entry }
    {
        Pen { out, at: 0 }
    }

    // The place: how many bytes stand before the next one.
    pub fn place(&self) -> usize
        ensures { result ≡ self.now.at }
    {
        self.at
    }

    // Some bytes.
    pub fn put(&mut self, bytes: &[u8])
        requires { HasRoom (length bytes.now) self.old }
        ensures { self.new ≡ put_in bytes.now self.old }
    {
        let end = self.at + bytes.len();
        self.out[self.at..end].copy_from_slice(bytes);
        self.at = end;
    }

    // A number, in two bytes.
    pub fn put2(&mut self, v: u16)
        requires { HasRoom 2 self.old }
        ensures { self.new ≡ put_in (bytes2 v) self.old }
    {
        self.put(&v.to_le_bytes());
    }

    // The length and the kind of a record whose body has `size` bytes.
    pub fn put_head(&mut self, kind: u16, size: usize)
        requires room { HasRoom 6 self.old }
        requires size_bound { size ≤ 65535 }
        ensures { self.new ≡ put_in (bytes4 (2 + size) ++ bytes2 kind) self.old }
    {
        self.put(&(2 + size as u32).to_le_bytes());
        self.put2(kind);
    }

    // Some bytes as numbers, two bytes each.
    pub fn put_fields(&mut self, numbers: &[u8])
        requires { HasRoom (2 * length numbers.now) self.old }
        ensures { self.new ≡ put_in (fields numbers.now) self.old }
    {
        for v in numbers {
            self.put2(u16::from(*v));
        }
    }
}
