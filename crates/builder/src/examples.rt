// Readings worked out by hand, which the definitions give.
ghost use Rattle.std.specs.Prelude.{◌≡◌, length};
ghost use Rattle.builder.specs.Examples.{readings, Attached};

// How many readings there are, in each of which the comments go where they should.
pub fn attaching_examples() -> u8
    ensures count { result ≡ length readings }
    ensures attached { Attached }
{
    6
}
