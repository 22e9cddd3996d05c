// The questions that a line may ask, each of a case.
use crate::answers::{print_hashbang, print_json, print_kinds, print_pieces, print_recorded};
use cases::error::CaseError;
use cases::line::{field_of, is_skipped, split_word, text_of};
use std::alloc::Global;
use std::str::FromStr;

#[derive(Clone, Copy)]
enum Question {
    Pieces,
    Hashbang,
    Json,
    Recorded,
}

// A word that names no question.
#[derive(Clone, Copy)]
struct NoQuestion;

impl FromStr for Question {
    type Err = NoQuestion;

    fn from_str(word: &str) -> Result<Question, NoQuestion> {
        match word {
            "pieces" => Ok(Question::Pieces),
            "hashbang" => Ok(Question::Hashbang),
            "json" => Ok(Question::Json),
            "recorded" => Ok(Question::Recorded),
            _ => Err(NoQuestion),
        }
    }
}

// The bytes of one field, where `-` stands for none.
fn bytes_of(heap: Global, field: &str) -> Result<Vec<u8>, CaseError> {
    if field == "-" {
        return Ok(Vec::new(heap));
    }
    field_of(heap, field)
}

// The text of a case and its recorded list, which is empty where the question has none.
fn text_and_list(
    heap: Global,
    question: Question,
    fields: &str,
) -> Result<(Vec<u8>, Vec<u8>), CaseError> {
    match question {
        Question::Pieces | Question::Hashbang | Question::Json => {
            Ok((text_of(heap, fields)?, Vec::new(heap)))
        }
        Question::Recorded => {
            let (first, second) = split_word(fields);
            Ok((bytes_of(heap, first)?, bytes_of(heap, second)?))
        }
    }
}

fn answer(rt: &HostRuntime, question: Question, fields: &str) -> anyhow::Result<()> {
    let (bytes, list) = match text_and_list(rt.alloc(), question, fields) {
        Ok(both) => both,
        Err(CaseError::Alloc(e)) => return Err(e.into()),
        Err(malformed) => {
            println!(rt; "{malformed}")?;
            return Ok(());
        }
    };
    let Ok(text) = std::str::from_utf8(bytes.as_slice()) else {
        println!(rt; "! not UTF-8")?;
        return Ok(());
    };
    // One arm for each question: a closure for each would say the same at more length.
    match question {
        Question::Pieces => print_pieces(rt, text)?,
        Question::Hashbang => print_hashbang(rt, text)?,
        Question::Json => print_json(rt, text)?,
        Question::Recorded => print_recorded(rt, text, list.as_slice())?,
    }
    Ok(())
}

// Answers one line, which has its number among the lines of the input.
pub fn ask(rt: &HostRuntime, number: u64, line: &str) -> anyhow::Result<()> {
    if is_skipped(line) {
        return Ok(());
    }
    if line == "kinds" {
        print_kinds(rt)?;
        return Ok(());
    }
    let (word, case) = split_word(line);
    let (name, fields) = split_word(case);
    match word.parse::<Question>() {
        Ok(question) if !name.is_empty() => {
            println!(rt; "= {name}")?;
            answer(rt, question, fields)
        }
        _ => {
            println!(rt; "! line {number} is no question with the name of a case")?;
            Ok(())
        }
    }
}
