// The kinds of tokens, numbered in the order in which they stand here, and what the builder asks of a kind.
ghost use Rattle.std.specs.Prelude.{◌≡◌, ◌==◌, ◌++◌, Some, Decides, codes, decimal};
ghost use Rattle.kinds.specs.Kinds.{number_of, can_end_expression, continues_previous_expression, keeps_line_comment_leading};
ghost use Rattle.kinds.specs.Conversions.{GivesNumber, GivesKind};

use std::error::Error;
use std::fmt;

// `==` compares the numbers (specs/Equality.antt).
#[derive(Clone, Copy, Debug, PartialEq, Eq, Default)]
pub enum Kind {
    #[default]
    Eof,
    Undetermined,
    Skip,
    HashbangComment,
    Ident,
    Await,
    Break,
    Case,
    Catch,
    Class,
    Const,
    Continue,
    Debugger,
    Default,
    Delete,
    Do,
    Else,
    Enum,
    Export,
    Extends,
    Finally,
    For,
    Function,
    If,
    Import,
    In,
    Instanceof,
    New,
    Return,
    Super,
    Switch,
    This,
    Throw,
    Try,
    Typeof,
    Var,
    Void,
    While,
    With,
    Async,
    From,
    Get,
    Meta,
    Of,
    Set,
    Target,
    Accessor,
    Source,
    Defer,
    Abstract,
    As,
    Asserts,
    Assert,
    Any,
    Boolean,
    Constructor,
    Declare,
    Infer,
    Intrinsic,
    Is,
    KeyOf,
    Module,
    Namespace,
    Never,
    Out,
    Readonly,
    Require,
    Number,
    Object,
    Satisfies,
    String,
    Symbol,
    Type,
    Undefined,
    Unique,
    Using,
    Unknown,
    Global,
    BigInt,
    Override,
    Implements,
    Interface,
    Let,
    Package,
    Private,
    Protected,
    Public,
    Static,
    Yield,
    True,
    False,
    Null,
    Amp,
    Amp2,
    Amp2Eq,
    AmpEq,
    Bang,
    Caret,
    CaretEq,
    Colon,
    Comma,
    Dot,
    Dot3,
    Eq,
    Eq2,
    Eq3,
    GtEq,
    LAngle,
    LBrack,
    LCurly,
    LParen,
    LtEq,
    Minus,
    Minus2,
    MinusEq,
    Neq,
    Neq2,
    Percent,
    PercentEq,
    Pipe,
    Pipe2,
    Pipe2Eq,
    PipeEq,
    Plus,
    Plus2,
    PlusEq,
    Question,
    Question2,
    Question2Eq,
    QuestionDot,
    RAngle,
    RBrack,
    RCurly,
    RParen,
    Semicolon,
    ShiftLeft,
    ShiftLeftEq,
    ShiftRight,
    ShiftRight3,
    ShiftRight3Eq,
    ShiftRightEq,
    Slash,
    SlashEq,
    Star,
    Star2,
    Star2Eq,
    StarEq,
    Tilde,
    Arrow,
    Decimal,
    Float,
    Binary,
    Octal,
    Hex,
    PositiveExponential,
    NegativeExponential,
    DecimalBigInt,
    BinaryBigInt,
    OctalBigInt,
    HexBigInt,
    Str,
    RegExp,
    NoSubstitutionTemplate,
    TemplateHead,
    TemplateMiddle,
    TemplateTail,
    PrivateIdentifier,
    JSXText,
    At,
}

// Each table has one entry for each kind, by its number.
const KINDS: [Kind; 169] = [
    Kind::Eof,
    Kind::Undetermined,
    Kind::Skip,
    Kind::HashbangComment,
    Kind::Ident,
    Kind::Await,
    Kind::Break,
    Kind::Case,
    Kind::Catch,
    Kind::Class,
    Kind::Const,
    Kind::Continue,
    Kind::Debugger,
    Kind::Default,
    Kind::Delete,
    Kind::Do,
    Kind::Else,
    Kind::Enum,
    Kind::Export,
    Kind::Extends,
    Kind::Finally,
    Kind::For,
    Kind::Function,
    Kind::If,
    Kind::Import,
    Kind::In,
    Kind::Instanceof,
    Kind::New,
    Kind::Return,
    Kind::Super,
    Kind::Switch,
    Kind::This,
    Kind::Throw,
    Kind::Try,
    Kind::Typeof,
    Kind::Var,
    Kind::Void,
    Kind::While,
    Kind::With,
    Kind::Async,
    Kind::From,
    Kind::Get,
    Kind::Meta,
    Kind::Of,
    Kind::Set,
    Kind::Target,
    Kind::Accessor,
    Kind::Source,
    Kind::Defer,
    Kind::Abstract,
    Kind::As,
    Kind::Asserts,
    Kind::Assert,
    Kind::Any,
    Kind::Boolean,
    Kind::Constructor,
    Kind::Declare,
    Kind::Infer,
    Kind::Intrinsic,
    Kind::Is,
    Kind::KeyOf,
    Kind::Module,
    Kind::Namespace,
    Kind::Never,
    Kind::Out,
    Kind::Readonly,
    Kind::Require,
    Kind::Number,
    Kind::Object,
    Kind::Satisfies,
    Kind::String,
    Kind::Symbol,
    Kind::Type,
    Kind::Undefined,
    Kind::Unique,
    Kind::Using,
    Kind::Unknown,
    Kind::Global,
    Kind::BigInt,
    Kind::Override,
    Kind::Implements,
    Kind::Interface,
    Kind::Let,
    Kind::Package,
    Kind::Private,
    Kind::Protected,
    Kind::Public,
    Kind::Static,
    Kind::Yield,
    Kind::True,
    Kind::False,
    Kind::Null,
    Kind::Amp,
    Kind::Amp2,
    Kind::Amp2Eq,
    Kind::AmpEq,
    Kind::Bang,
    Kind::Caret,
    Kind::CaretEq,
    Kind::Colon,
    Kind::Comma,
    Kind::Dot,
    Kind::Dot3,
    Kind::Eq,
    Kind::Eq2,
    Kind::Eq3,
    Kind::GtEq,
    Kind::LAngle,
    Kind::LBrack,
    Kind::LCurly,
    Kind::LParen,
    Kind::LtEq,
    Kind::Minus,
    Kind::Minus2,
    Kind::MinusEq,
    Kind::Neq,
    Kind::Neq2,
    Kind::Percent,
    Kind::PercentEq,
    Kind::Pipe,
    Kind::Pipe2,
    Kind::Pipe2Eq,
    Kind::PipeEq,
    Kind::Plus,
    Kind::Plus2,
    Kind::PlusEq,
    Kind::Question,
    Kind::Question2,
    Kind::Question2Eq,
    Kind::QuestionDot,
    Kind::RAngle,
    Kind::RBrack,
    Kind::RCurly,
    Kind::RParen,
    Kind::Semicolon,
    Kind::ShiftLeft,
    Kind::ShiftLeftEq,
    Kind::ShiftRight,
    Kind::ShiftRight3,
    Kind::ShiftRight3Eq,
    Kind::ShiftRightEq,
    Kind::Slash,
    Kind::SlashEq,
    Kind::Star,
    Kind::Star2,
    Kind::Star2Eq,
    Kind::StarEq,
    Kind::Tilde,
    Kind::Arrow,
    Kind::Decimal,
    Kind::Float,
    Kind::Binary,
    Kind::Octal,
    Kind::Hex,
    Kind::PositiveExponential,
    Kind::NegativeExponential,
    Kind::DecimalBigInt,
    Kind::BinaryBigInt,
    Kind::OctalBigInt,
    Kind::HexBigInt,
    Kind::Str,
    Kind::RegExp,
    Kind::NoSubstitutionTemplate,
    Kind::TemplateHead,
    Kind::TemplateMiddle,
    Kind::TemplateTail,
    Kind::PrivateIdentifier,
    Kind::JSXText,
    Kind::At,
];

const CAN_END_EXPRESSION: [bool; 169] = [
    false, false, false, false, true, false, false, false, false, false, false, false, false,
    false, false, false, false, false, false, false, false, false, false, false, false, false,
    false, false, false, true, false, true, false, false, false, false, false, false, false, true,
    true, true, true, true, true, true, true, true, true, true, true, true, true, true, true, true,
    true, true, true, true, true, true, true, true, true, true, true, true, true, true, true, true,
    true, true, true, true, true, true, true, true, true, true, true, true, true, true, true, true,
    false, true, true, true, false, false, false, false, false, false, false, false, false, false,
    false, false, false, false, false, false, false, false, false, false, false, true, false,
    false, false, false, false, false, false, false, false, false, true, false, false, false,
    false, false, true, true, true, true, false, false, false, false, false, false, false, false,
    false, false, false, false, false, false, false, true, true, true, true, true, true, true,
    true, true, true, true, true, true, true, false, false, true, true, true, false,
];

const CONTINUES_PREVIOUS_EXPRESSION: [bool; 169] = [
    false, false, false, false, false, false, false, false, false, false, false, false, false,
    false, false, false, false, false, false, false, false, false, false, false, false, true, true,
    false, false, false, false, false, false, false, false, false, false, false, false, false,
    false, false, false, false, false, false, false, false, false, false, false, false, false,
    false, false, false, false, false, false, false, false, false, false, false, false, false,
    false, false, false, false, false, false, false, false, false, false, false, false, false,
    false, false, false, false, false, false, false, false, false, false, false, false, false,
    true, true, true, true, false, true, true, false, false, false, false, true, true, true, true,
    true, false, false, false, true, true, false, true, true, true, true, true, true, true, true,
    true, true, false, true, false, true, true, false, true, false, false, false, false, true,
    true, true, true, true, true, true, true, true, true, true, true, false, false, false, false,
    false, false, false, false, false, false, false, false, false, false, false, false, false,
    false, false, false, false, false,
];

const KEEPS_LINE_COMMENT_LEADING: [bool; 169] = [
    false, false, false, false, false, false, false, false, false, false, false, false, false,
    false, false, false, false, false, false, false, false, false, false, false, false, false,
    false, false, false, false, false, false, false, false, false, false, false, false, false,
    false, false, false, false, false, false, false, false, false, false, false, false, false,
    false, false, false, false, false, false, false, false, false, false, false, false, false,
    false, false, false, false, false, false, false, false, false, false, false, false, false,
    false, false, false, false, false, false, false, false, false, false, false, false, false,
    false, false, false, false, false, false, false, false, true, false, false, false, true, false,
    false, false, false, false, false, true, false, false, false, false, false, false, false,
    false, false, false, false, false, false, false, false, false, false, false, false, false,
    false, false, false, false, false, false, false, false, false, false, false, false, false,
    false, false, false, false, false, false, false, false, false, false, false, false, false,
    false, false, false, false, false, false, false, false, false, false, false, false,
];

// Each of the three questions indexes its own table: a helper that takes the table would be no plainer.
impl Kind {
    // Whether a kind is another. The derived `==` says it; here stands what that promises.
    #[tactic(auto, using(crate::specs::Equality::is_value))]
    pub fn is(self, other: Kind) -> bool
        ensures value { result ≡ (number_of self == number_of other) }
        ensures same { Decides result (self ≡ other) }
    {
        self == other
    }

    // Whether a token of this kind can be the completed left-hand side of an infix or suffix boundary.
    pub fn can_end_expression(self) -> bool
        ensures { result ≡ can_end_expression self }
    {
        CAN_END_EXPRESSION[self as usize]
    }

    // Whether a token of this kind goes on with the expression before it.
    pub fn continues_previous_expression(self) -> bool
        ensures { result ≡ continues_previous_expression self }
    {
        CONTINUES_PREVIOUS_EXPRESSION[self as usize]
    }

    // Whether a line comment right after a token of this kind stays with the token that follows.
    pub fn keeps_line_comment_leading(self) -> bool
        ensures { result ≡ keeps_line_comment_leading self }
    {
        KEEPS_LINE_COMMENT_LEADING[self as usize]
    }
}

// The kind's number, 0 to 168.
impl From<Kind> for u8 {
    ghost from_gives = { GivesNumber };

    fn from(kind: Kind) -> u8 {
        kind as u8
    }
}

// A number that no kind has.
#[derive(Clone, Copy, Debug, PartialEq, Eq)]
pub struct UnknownKind(pub u8);

// The kind that has the number, if one does.
impl TryFrom<u8> for Kind {
    type Error = UnknownKind;

    ghost try_from_gives = { GivesKind };

    fn try_from(number: u8) -> Result<Kind, UnknownKind> {
        KINDS
            .get(number as usize)
            .copied()
            .ok_or(UnknownKind(number))
    }
}

impl fmt::Display for UnknownKind {
    ghost output = { λ unknown. Some (codes "no kind has number " ++ decimal unknown.0) };

    fn fmt<W: fmt::Write>(&self, f: &mut fmt::Formatter<W>) -> fmt::Result {
        write!(f, "no kind has number {}", self.0)
    }
}

impl Error for UnknownKind {}
