// Bytes written one after another into a buffer; what does not fit is only counted.
ghost use Rattle.std.specs.Prelude.{◌≡◌, ◌^◌, ◌<◌, [], ◌∷◌, length, decimal, slice_set};
ghost use Rattle.listing.specs.Bytes.{Wrote, Writes, fields_of, line_of};

// The buffer is the caller's, since no call allocates, and the count goes on past its end.
#[derive(Drop)]
pub struct Out<'a> {
    bytes: &'a mut [u8],
    len: usize,
}

impl<'a> Out<'a> {
    pub(crate) fn new(bytes: &'a mut [u8]) -> Self
        ensures wrote { Wrote bytes.old [] result }
        ensures lender { result.bytes.ghost_name ≡ bytes.entry.ghost_name }
    {
        Out { bytes, len: 0 }
    }

    pub(crate) fn len(&self) -> usize
        ensures { result ≡ self.now.len }
    {
        self.len
    }

    fn put(&mut self, b: u8)
        ensures { Writes (b ∷ []) self.old self.new }
    {
        let at = self.len;
        write(self.bytes, at, b);
        self.len = at.saturating_add(1);
    }

    // A number in decimal digits. By hand, since `write!` promises its text only where it succeeds, and not that it does.
    fn put_decimal(&mut self, n: u64)
        ensures { Writes (decimal n) self.old self.new }
    {
        if n < 10 {
            self.put(b'0' + n as u8);
            return;
        }
        self.put_decimal(n / 10);
        self.put(b'0' + (n % 10) as u8);
    }

    // The fields, each after one space.
    fn put_fields(&mut self, fields: &[u64])
        ensures { Writes (fields_of fields.now) self.old self.new }
    {
        for field in fields {
            self.put(b' ');
            self.put_decimal(*field);
        }
    }

    // A line: its mark, the fields and a line feed.
    pub(crate) fn put_line(&mut self, mark: u8, fields: &[u64])
        ensures { Writes (line_of mark fields.now) self.old self.new }
    {
        self.put(mark);
        self.put_fields(fields);
        self.put(b'\n');
    }
}

// Writes a byte, where the buffer goes so far.
fn write(bytes: &mut [u8], at: usize, b: u8)
    ensures after { bytes.new ≡ slice_set bytes.old at b }
    ensures fits { length bytes.old < 2 ^ 64 }
{
    if at < bytes.len() {
        bytes[at] = b;
    }
}
