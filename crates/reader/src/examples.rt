// Readings worked out by hand, which the definitions give.
ghost use Rattle.std.specs.Prelude.{◌≡◌, length};
ghost use Rattle.reader.specs.Examples.{readings, TokensFound};

// How many readings there are, in each of which the token is found that should be.
pub fn reading_examples() -> u8
    ensures count { result ≡ length readings }
    ensures found { TokensFound }
{
    6
}
