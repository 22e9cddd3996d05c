// The lines of comments and irregular spaces, one for each row.
ghost use Rattle.std.specs.Prelude.{◌≡◌, ℕ, List};
ghost use Rattle.listing.specs.Bytes.{Writes};
ghost use Rattle.listing.specs.Listing.{comment_fields, comment_line, space_line, lines_of};

use crate::out::Out;
use builder::span::Span;
use comments::comment::Comment;

// A row that has a line of its own.
pub trait Listed {
    ghost line: { Self → List ℕ };

    fn put_row(&self, out: &mut Out<'_>)
        ensures { Writes (line self.now) out.old out.new };
}

fn fields_of(c: &Comment) -> [u64; 8]
    ensures { result ≡ comment_fields c.now }
{
    [
        u64::from(c.start),
        u64::from(c.end),
        u64::from(u8::from(c.kind)),
        u64::from(u8::from(c.content)),
        u64::from(u8::from(c.position)),
        u64::from(c.attached_to),
        u64::from(c.preceded_by_newline),
        u64::from(c.followed_by_newline),
    ]
}

impl Listed for Comment {
    ghost line = { λ c. comment_line c };

    fn put_row(&self, out: &mut Out<'_>) {
        out.put_line(b'C', &fields_of(self));
    }
}

impl Listed for Span {
    ghost line = { λ s. space_line s };

    fn put_row(&self, out: &mut Out<'_>) {
        out.put_line(b'W', &[u64::from(self.start), u64::from(self.end)]);
    }
}

// The lines of rows, one after another.
pub(crate) fn put_rows<T: Listed>(out: &mut Out<'_>, rows: &[T])
    ensures { Writes (lines_of T.line rows.now) out.old out.new }
{
    for row in rows {
        row.put_row(out);
    }
}
