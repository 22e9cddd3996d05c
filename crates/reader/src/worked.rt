// Readings worked out by hand, which the definitions give.
ghost use Rattle.std.specs.Prelude.{◌≡◌, length};
ghost use Rattle.reader.specs.Worked.{readings, Worked};

// How many readings there are, each of which comes to the rows and the last token that it should.
pub fn worked_readings() -> u8
    ensures count { result ≡ length readings }
    ensures worked { Worked }
{
    12
}
