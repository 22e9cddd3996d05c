#![tactic(auto)]
// Prints the listing of a settings text that it reads from standard input.
ghost use Rattle.std.specs.Prelude.{◌≤◌, length, IfOk};

use settings::{LIMIT, LISTING, answer};
use std::io;
use std::io::{Read, Write};

// Reads until the input ends or the buffer is full; the answer is how many bytes were read.
// The count stands beside the buffer, which is of a fixed size: the program takes no memory.
fn read_text(rt: &HostRuntime, text: &mut [u8]) -> io::Result<usize>
    ensures { IfOk result (λ n. n ≤ length text.old) }
{
    let mut len = 0;
    for _ in 0..text.len() {
        let n = rt.stdin().read(&mut text[len..])?;
        if n == 0 {
            break;
        }
        len += n;
    }
    Ok(len)
}

fn main(rt: HostRuntime) -> io::Result<()> {
    // One byte past the limit tells that a text is too long, and no more of it is read.
    let mut text = [0u8; LIMIT + 1];
    let len = read_text(&rt, &mut text)?;
    let mut out = [0u8; LISTING];
    let n = answer(&text[0..len], &mut out);
    rt.stdout().write_all(&out[0..n])
}
