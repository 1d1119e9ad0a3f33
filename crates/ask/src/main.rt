// Answers questions to the readings: each line of standard input is a question, and each line of
// standard output the answer to it. The input may be any bytes, and its last line may lack a newline.
#![tactic(auto)]

use crate::line_buffer::LineBuffer;
use question::{ANSWER_ROOM, answer};
use std::io;
use std::io::{Read, Write};

mod line_buffer;

// The bytes that are read at once.
const CHUNK: usize = 4096;

fn main(rt: HostRuntime) -> io::Result<()> {
    let mut line = LineBuffer::new();
    for _ in 0..u64::MAX {
        if !take_chunk(&rt, &mut line)? {
            break;
        }
    }
    if line.is_begun() {
        tell(&rt, &line)?;
    }
    Ok(())
}

// Reads on, and answers the lines that end; says whether there was anything to read.
fn take_chunk(rt: &HostRuntime, line: &mut LineBuffer) -> io::Result<bool> {
    let mut chunk = [0u8; CHUNK];
    let mut input = rt.stdin();
    let n = input.read(&mut chunk)?;
    take_bytes(rt, line, &chunk[0..n])?;
    Ok(n > 0)
}

// Adds bytes to a line, and answers it at each newline.
fn take_bytes(rt: &HostRuntime, line: &mut LineBuffer, bytes: &[u8]) -> io::Result<()> {
    for b in bytes {
        if *b == b'\n' {
            tell(rt, line)?;
            line.clear();
        } else {
            line.push(*b);
        }
    }
    Ok(())
}

// Writes the answer to a line.
fn tell(rt: &HostRuntime, line: &LineBuffer) -> io::Result<()> {
    let mut out = [0; ANSWER_ROOM];
    if let Ok(n) = answer(line.bytes(), &mut out) {
        let mut output = rt.stdout();
        output.write_all(&out[0..n])?;
        output.write_all(b"\n")?;
    }
    Ok(())
}
