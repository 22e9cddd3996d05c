// White space and line terminators by their characters, and the character at a place of a text.
ghost use Rattle.std.specs.Prelude.{◌≡◌};
ghost use Rattle.std.specs.Str.{IsCharBoundary};
ghost use Rattle.source.specs.Unicode.{irregular_whitespace, irregular_line_terminator, line_terminator, char_at, Spelt};

pub const LF: char = '\u{000A}';

pub const CR: char = '\u{000D}';

pub const LS: char = '\u{2028}';

pub const PS: char = '\u{2029}';

// The white space besides space and tab.
pub fn is_irregular_whitespace(c: char) -> bool
    ensures { result ≡ irregular_whitespace c }
{
    matches!(
        c,
        '\u{000B}' | '\u{000C}' | '\u{00A0}' | '\u{1680}' | '\u{2000}'..='\u{200A}'
            | '\u{202F}'
            | '\u{205F}'
            | '\u{3000}'
            | '\u{FEFF}'
    )
}

// The line terminators that are no control characters.
pub fn is_irregular_line_terminator(c: char) -> bool
    ensures { result ≡ irregular_line_terminator c }
{
    c == LS || c == PS
}

pub fn is_line_terminator(c: char) -> bool
    ensures { result ≡ line_terminator c }
{
    c == LF || c == CR || is_irregular_line_terminator(c)
}

// The character whose first byte is at a place, or none at the end of the text.
pub(crate) fn char_at(text: &str, at: usize) -> Option<char>
    requires { IsCharBoundary text.now at }
    ensures value { result ≡ char_at text.now at }
    ensures spelt { Spelt text.now at result }
{
    text[at..].chars().next()
}
