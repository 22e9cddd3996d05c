// The layout of a recorded token in eleven bytes: the mark, the kind's number, the start and the end.
ghost use Rattle.std.specs.Prelude.{◌≡◌, Some, codes};
ghost use Rattle.tokens.specs.Layout.{GivesRecord};
ghost use Rattle.tokens.specs.declared.layout.NotARecord.{NotARecord};

use kinds::kind::{Kind, UnknownKind};
use std::error::Error;
use std::fmt;

// How many bytes a record has.
pub const RECORD_LEN: usize = 11;

// A recorded token: its kind, and the places where it starts and ends.
#[derive(Clone, Copy, Debug, PartialEq, Eq)]
pub struct Record {
    pub kind: Kind,
    pub start: u32,
    pub end: u32,
}

// Bytes that spell no record.
#[derive(Clone, Copy, Debug, PartialEq, Eq)]
pub struct NotARecord;

// The record that the bytes spell, if they spell one.
impl TryFrom<&[u8]> for Record {
    type Error = NotARecord;

    ghost try_from_gives = { λ bytes r. GivesRecord bytes.now r };

    fn try_from(bytes: &[u8]) -> Result<Record, NotARecord> {
        match bytes {
            [b'T', b' ', number, s0, s1, s2, s3, e0, e1, e2, e3] => Ok(Record {
                kind: Kind::try_from(*number)?,
                start: u32::from_le_bytes([*s0, *s1, *s2, *s3]),
                end: u32::from_le_bytes([*e0, *e1, *e2, *e3]),
            }),
            _ => Err(NotARecord),
        }
    }
}

impl From<UnknownKind> for NotARecord {
    ghost from_gives = { λ _ e. e ≡ record {} };

    fn from(_: UnknownKind) -> NotARecord {
        NotARecord
    }
}

impl fmt::Display for NotARecord {
    ghost output = { λ _. Some (codes "the bytes spell no record") };

    fn fmt<W: fmt::Write>(&self, f: &mut fmt::Formatter<W>) -> fmt::Result {
        f.write_str("the bytes spell no record")
    }
}

impl Error for NotARecord {}
