// Reads a sheet file from standard input and prints the edit lines that build its tree, or the line
// of the refusal. What is printed is made by the library; this only reads and writes.
#![tactic(auto)]

use anyhow::anyhow;
use notation::edit_lines::{MAX_ANSWER, write_edit_lines};
use std::io::{Read, Write};

fn run(rt: &HostRuntime) -> anyhow::Result<()> {
    let heap = rt.alloc();
    let mut file = Vec::new(heap);
    rt.stdin().read_to_end(&mut file)?;
    let mut out = vec![in heap; 0; MAX_ANSWER]?;
    match write_edit_lines(file.as_slice(), out.as_mut_slice()) {
        Ok(n) if n <= out.len() => rt.stdout().write_all(&out[0..n])?,
        _ => return Err(anyhow!("the buffer is too short")),
    }
    Ok(())
}

fn main(rt: HostRuntime) -> anyhow::Result<()> {
    run(&rt)
}
