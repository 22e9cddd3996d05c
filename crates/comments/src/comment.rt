// The comment row: where a comment stands, of which kind and class it is, and the token that it belongs to.
ghost use Rattle.std.specs.Prelude.{◌≡◌};
ghost use Rattle.comments.specs.Rows.{kind_number, position_number, content_number, line_kind, block_kind, stays_leading};

use table::Row;

#[derive(Clone, Copy, Debug, Default, PartialEq, Eq)]
pub enum CommentKind {
    #[default]
    Line,
    SingleLineBlock,
    MultiLineBlock,
}

#[derive(Clone, Copy, Debug, Default, PartialEq, Eq)]
pub enum CommentPosition {
    #[default]
    Leading,
    Trailing,
}

#[derive(Clone, Copy, Debug, Default, PartialEq, Eq)]
pub enum CommentContent {
    #[default]
    None,
    Legal,
    Jsdoc,
    JsdocLegal,
    Pure,
    PureNotApplied,
    NoSideEffects,
    NoSideEffectsNotApplied,
    PropertyKey,
    Webpack,
    Vite,
    Turbopack,
    CoverageIgnore,
    CoverageIgnoreFile,
}

#[derive(Clone, Copy, Debug, Default, PartialEq, Eq)]
pub struct Comment {
    pub start: u32,
    pub end: u32,
    pub kind: CommentKind,
    pub content: CommentContent,
    pub position: CommentPosition,
    pub attached_to: u32,
    pub preceded_by_newline: bool,
    pub followed_by_newline: bool,
}

impl Row for Comment {
    ghost from = { λ c. c.start };

    fn start(&self) -> usize {
        self.start as usize
    }
}

// The kind's number, 0 to 2.
impl From<CommentKind> for u8 {
    ghost from_gives = { λ kind number. number ≡ kind_number kind };

    fn from(kind: CommentKind) -> u8 {
        kind as u8
    }
}

impl CommentKind {
    pub fn is_line(self) -> bool
        ensures { result ≡ line_kind self }
    {
        matches!(self, CommentKind::Line)
    }

    pub fn is_block(self) -> bool
        ensures { result ≡ block_kind self }
    {
        matches!(
            self,
            CommentKind::SingleLineBlock | CommentKind::MultiLineBlock
        )
    }
}

// The position's number, 0 or 1.
impl From<CommentPosition> for u8 {
    ghost from_gives = { λ position number. number ≡ position_number position };

    fn from(position: CommentPosition) -> u8 {
        position as u8
    }
}

// The class's number, 0 to 13.
impl From<CommentContent> for u8 {
    ghost from_gives = { λ content number. number ≡ content_number content };

    fn from(content: CommentContent) -> u8 {
        content as u8
    }
}

impl CommentContent {
    // Whether a comment of this class stays with what follows it. Legal comments are kept before the statement that they stand
    // before, and annotations speak of the next token, so by itself neither goes back to the token before.
    pub fn should_stay_leading(self) -> bool
        ensures { result ≡ stays_leading self }
    {
        matches!(
            self,
            CommentContent::Legal
                | CommentContent::JsdocLegal
                | CommentContent::Pure
                | CommentContent::PureNotApplied
                | CommentContent::NoSideEffects
                | CommentContent::NoSideEffectsNotApplied
                | CommentContent::PropertyKey
        )
    }
}
