#![tactic(auto)]
// Plays a list of cases: for each text prints what lock_comments would print.
use cases::error::CaseError;
use cases::line::{Loose, gather, is_skipped, split_word};
use settings::{LISTING, answer};
use std::io::{BufRead, BufReader, Write};

fn play(rt: &HostRuntime, line: &str) -> anyhow::Result<()> {
    let (name, fields) = split_word(line);
    println!(rt; "= {name}")?;
    match gather::<Loose>(rt.alloc(), fields) {
        Ok(text) => {
            let mut out = [0u8; LISTING];
            let n = answer(text.as_slice(), &mut out);
            rt.stdout().write_all(&out[0..n])?;
        }
        Err(CaseError::Malformed) => {
            println!(rt; "! a field that is not hexadecimal, or is repeated too often")?
        }
        Err(CaseError::Alloc(e)) => return Err(e.into()),
    }
    Ok(())
}

fn main(rt: HostRuntime) -> anyhow::Result<()> {
    for line in BufReader::new(rt.alloc(), rt.stdin())?.lines(rt.alloc()) {
        let line = line?;
        if !is_skipped(line.as_str()) {
            play(&rt, line.as_str())?;
        }
    }
    Ok(())
}
