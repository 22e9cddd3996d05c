// The answers of the libraries, printed.
use kinds::kind::Kind;
use scanner::comment::read_hashbang_comment;
use scanner::gap::measure_gap;
use scanner::piece::{Piece, Trivia, piece_at};
use source::source::Source;
use std::io;
use tokens::json::Json;
use tokens::recorded::RecordedList;
use tokens::token_reader::{TokenReader, Told};

// Every kind in the order of the numbers, with its answers to the three questions about kinds.
pub fn print_kinds(rt: &HostRuntime) -> io::Result<()> {
    for number in 0..=u8::MAX {
        if let Ok(kind) = Kind::try_from(number) {
            let ends = u8::from(kind.can_end_expression());
            let continues = u8::from(kind.continues_previous_expression());
            let keeps = u8::from(kind.keeps_line_comment_leading());
            println!(rt; "{number} {kind:?} {ends} {continues} {keeps}")?;
        }
    }
    Ok(())
}

fn print_piece(rt: &HostRuntime, piece: &Piece<'_>) -> io::Result<()> {
    let start = piece.start;
    let after = piece.end;
    match piece.trivia {
        Trivia::Whitespace => Ok(()),
        Trivia::LineBreak => println!(rt; "N {start} {after}"),
        Trivia::IrregularWhitespace => println!(rt; "S {start} {after}"),
        Trivia::IrregularLineBreak => println!(rt; "I {start} {after}"),
        Trivia::SingleLineBlock(_) => println!(rt; "B {start} {after}"),
        Trivia::MultiLineBlock(_) => println!(rt; "M {start} {after}"),
        Trivia::LineComment(comment) => {
            let end = start.saturating_add(comment.len());
            println!(rt; "L {start} {end} {after}")
        }
    }
}

// The pieces of the gap at the start of the text, and the gap.
pub fn print_pieces(rt: &HostRuntime, text: &str) -> io::Result<()> {
    let source = Source::new(text);
    let mut ahead = source;
    while let Ok(Some(piece)) = piece_at(&ahead) {
        print_piece(rt, &piece)?;
        ahead.set_position(piece.end);
    }
    let gap = measure_gap(&source, None, None);
    let end = gap.end;
    let newline = u8::from(gap.newline);
    let unterminated = u8::from(gap.unterminated);
    println!(rt; "G {end} {newline} {unterminated}")
}

// The end of the hashbang line at the start of the text.
pub fn print_hashbang(rt: &HostRuntime, text: &str) -> io::Result<()> {
    let bytes = text.as_bytes();
    if bytes.starts_with(b"#!") {
        let end = read_hashbang_comment(bytes, 2);
        println!(rt; "H {end}")
    } else {
        println!(rt; "- 0")
    }
}

fn print_token(rt: &HostRuntime, place: usize, told: Told) -> io::Result<()> {
    let kind = u8::from(told.kind);
    let end = told.end;
    println!(rt; "T {kind} {place} {end}")
}

// The token of JSON at the start of the text.
pub fn print_json(rt: &HostRuntime, text: &str) -> io::Result<()> {
    match Json.tell(text, 0) {
        Some(told) => print_token(rt, 0, told),
        None => println!(rt; "- 0"),
    }
}

// The tokens that a recorded list tells, place by place.
pub fn print_recorded(rt: &HostRuntime, text: &str, list: &[u8]) -> io::Result<()> {
    let recorded = RecordedList::new(list);
    for place in 0..=text.len() {
        if let Some(told) = recorded.tell(text, place) {
            print_token(rt, place, told)?;
        }
    }
    Ok(())
}
