// Why a case gives no text.
ghost use Rattle.std.specs.Prelude.{◌≡◌, alloc_error};
ghost use Rattle.cases.specs.declared.error.CaseError.TheVariants.{Alloc};
ghost use Rattle.cases.specs.Words.{words_of};

use std::alloc::{AllocError, AllocFailed};
use std::error::Error;
use std::fmt;

// What `scan_cases` prints for a case that has a malformed field.
const MALFORMED: &str = "! a field that is missing, not hexadecimal, or repeated too often";

#[derive(Clone, Copy, Debug, PartialEq, Eq)]
pub enum CaseError {
    // A field is missing, not hexadecimal, or repeated too often.
    Malformed,
    // Memory ran out.
    Alloc(AllocError),
}

impl From<AllocError> for CaseError {
    ghost from_gives = { λ e error. error ≡ Alloc e };

    fn from(e: AllocError) -> CaseError {
        CaseError::Alloc(e)
    }
}

impl<T: Drop> From<AllocFailed<T>> for CaseError {
    ghost from_gives = { λ _ error. error ≡ Alloc alloc_error };

    fn from(_e: AllocFailed<T>) -> CaseError {
        CaseError::Alloc(AllocError)
    }
}

impl fmt::Display for CaseError {
    ghost output = { words_of };

    fn fmt<W: fmt::Write>(&self, f: &mut fmt::Formatter<W>) -> fmt::Result {
        match self {
            CaseError::Malformed => f.write_str(MALFORMED),
            CaseError::Alloc(cause) => write!(f, "{cause}"),
        }
    }
}

impl Error for CaseError {}
