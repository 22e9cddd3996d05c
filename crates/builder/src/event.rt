// What an event does, by the builder's two flags and whether comments wait to be attached.
ghost use Rattle.std.specs.Prelude.{◌≡◌};
ghost use Rattle.builder.specs.Events.{becomes, effect_of, event_of};

use comments::comment::CommentKind;

#[derive(Clone, Copy, Debug, PartialEq, Eq)]
pub enum Event {
    LineComment,
    BlockComment,
    Newline,
    Token,
}

impl From<CommentKind> for Event {
    ghost from_gives = { λ kind event. event ≡ event_of kind };

    fn from(kind: CommentKind) -> Self {
        if kind.is_line() {
            Event::LineComment
        } else {
            Event::BlockComment
        }
    }
}

// What becomes of the rows that are not attached yet: a value and no closure, since the promises tell its cases apart.
#[derive(Clone, Copy, Debug, PartialEq, Eq)]
pub enum Attach {
    // They wait on.
    Wait,
    // The last of them is followed by a line break.
    MarkLast,
    // The last of them ends the token's line, and if it may leave the next token, all go to the token before.
    EndLine,
    // Each goes to the token before or to the new one.
    ToToken,
}

#[derive(Clone, Copy, Debug, PartialEq, Eq)]
pub struct Effect {
    pub saw_newline: bool,
    pub saw_newline_for_comment: bool,
    pub attach: Attach,
}

impl Effect {
    // Both flags are set after a line break, or a line comment, which ends with one, and neither after a token.
    fn both(newline: bool, attach: Attach) -> Self
        ensures { result ≡ becomes newline newline attach }
    {
        Effect {
            saw_newline: newline,
            saw_newline_for_comment: newline,
            attach,
        }
    }
}

// The flags, whether rows wait and the event are four values in one match, as the rules have them in one table.
pub fn match_event(
    saw_newline: bool,
    saw_newline_for_comment: bool,
    pending: bool,
    event: Event,
) -> Effect
    ensures { result ≡ effect_of saw_newline saw_newline_for_comment pending event }
{
    match (saw_newline, saw_newline_for_comment, pending, event) {
        (_, _, false, Event::Newline) => Effect::both(true, Attach::Wait),
        (true, _, true, Event::Newline) => Effect::both(true, Attach::MarkLast),
        (false, _, true, Event::Newline) => Effect::both(true, Attach::EndLine),
        (true, _, _, Event::LineComment) => Effect::both(true, Attach::Wait),
        (false, _, _, Event::LineComment) => Effect::both(true, Attach::EndLine),
        (_, _, _, Event::BlockComment) => Effect {
            saw_newline,
            saw_newline_for_comment: false,
            attach: Attach::Wait,
        },
        (_, _, false, Event::Token) => Effect::both(false, Attach::Wait),
        (_, _, true, Event::Token) => Effect::both(false, Attach::ToToken),
    }
}
