#![tactic(auto)]
// Replays stored facts: prints what the libraries answer about kinds, the pieces of a gap and the tokens of a text.
mod answers;
mod questions;

use crate::questions::ask;
use std::io::{BufRead, BufReader, ErrorKind};

fn main(rt: HostRuntime) -> anyhow::Result<()> {
    let mut number = 0u64;
    for line in BufReader::new(rt.alloc(), rt.stdin())?.lines(rt.alloc()) {
        number = number.saturating_add(1);
        match line {
            Ok(line) => ask(&rt, number, line.as_str())?,
            Err(e) if e.kind() == ErrorKind::InvalidData => {
                println!(rt; "! line {number} is not UTF-8")?
            }
            Err(e) => return Err(e.into()),
        }
    }
    Ok(())
}
