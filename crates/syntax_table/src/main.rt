// Answers a table of questions to the libraries below it, one a line, so that many examples can be
// compared with what they should give. Bytes are written in hexadecimal, none as `-`.
//
//   read BYTES              the group number at the front, and how many bytes follow it
//   write NUMBER ROOM       a group number in a buffer of so many bytes, and the whole buffer after it
//   node BYTES ROOM         the node at the front, written again into such a buffer
//   scan CAPACITY BYTES     the nodes and the height of a sheet file
//   lines ROOM BYTES        the edit lines of a sheet file, in a buffer of so many bytes
//   field SORT [TEXT]       the argument that a field holds, printed again
//   kind WORD               the code and the number of children of a kind
#![tactic(auto)]

use anyhow::{Context, anyhow};
use layout::group::read_group;
use layout::scan::scan;
use layout::symbol_bytes::read_symbol;
use notation::argument_text::{parse_argument, write_argument};
use notation::edit_lines::write_edit_lines;
use notation::group::write_group;
use notation::symbol::write_symbol;
use std::alloc::Global;
use std::io::Write;
use syntax::fault::Fault;
use syntax::kind::{Kind, Sort};

fn digit(b: u8) -> anyhow::Result<u8> {
    match b {
        b'0'..=b'9' => Ok(b - b'0'),
        b'a'..=b'f' => Ok(b - b'a' + 10),
        _ => Err(anyhow!("no hexadecimal digit")),
    }
}

fn bytes(heap: Global, text: &str) -> anyhow::Result<Vec<u8>> {
    let mut out = Vec::new(heap);
    let mut high = None;
    if text == "-" {
        return Ok(out);
    }
    for b in text.bytes() {
        let d = digit(b)?;
        high = match high {
            None => Some(d),
            Some(h) => {
                out.push((h & 15) * 16 + (d & 15))?;
                None
            }
        };
    }
    Ok(out)
}

fn buffer(heap: Global, room: &str) -> anyhow::Result<Vec<u8>> {
    Ok(vec![in heap; 0xaa; room.parse::<usize>()?]?)
}

fn print_hex(rt: &HostRuntime, all: &[u8]) -> anyhow::Result<()> {
    for b in all {
        print!(rt; " {b:02x}")?;
    }
    println!(rt; "")?;
    Ok(())
}

// A writer's answer, and the buffer as it was left.
fn print_written(rt: &HostRuntime, r: Result<usize, Fault>, out: &[u8]) -> anyhow::Result<()> {
    match r {
        Ok(n) => print!(rt; "{n}:")?,
        Err(fault) => print!(rt; "{fault}:")?,
    }
    print_hex(rt, out)
}

fn read(rt: &HostRuntime, front: &str) -> anyhow::Result<()> {
    match read_group(bytes(rt.alloc(), front)?.as_slice()) {
        Some((value, rest)) => {
            let left = rest.len();
            println!(rt; "{value} before {left}")?;
        }
        None => println!(rt; "none")?,
    }
    Ok(())
}

fn write(rt: &HostRuntime, value: &str, room: &str) -> anyhow::Result<()> {
    let mut out = buffer(rt.alloc(), room)?;
    let r = write_group(value.parse::<u32>()?, out.as_mut_slice());
    print_written(rt, r, out.as_slice())
}

fn node(rt: &HostRuntime, front: &str, room: &str) -> anyhow::Result<()> {
    let file = bytes(rt.alloc(), front)?;
    let Some((symbol, _)) = read_symbol(file.as_slice()) else {
        println!(rt; "none")?;
        return Ok(());
    };
    let mut out = buffer(rt.alloc(), room)?;
    let r = write_symbol(symbol, out.as_mut_slice());
    print_written(rt, r, out.as_slice())
}

fn figures(rt: &HostRuntime, capacity: &str, file: &str) -> anyhow::Result<()> {
    match scan(
        bytes(rt.alloc(), file)?.as_slice(),
        capacity.parse::<usize>()?,
    ) {
        Ok(found) => {
            let nodes = found.nodes;
            let height = found.height;
            println!(rt; "nodes {nodes} height {height}")?;
        }
        Err(fault) => println!(rt; "{fault}")?,
    }
    Ok(())
}

fn lines(rt: &HostRuntime, room: &str, file: &str) -> anyhow::Result<()> {
    let mut out = buffer(rt.alloc(), room)?;
    match write_edit_lines(bytes(rt.alloc(), file)?.as_slice(), out.as_mut_slice()) {
        Ok(n) => {
            if n <= out.len() {
                rt.stdout().write_all(&out.as_slice()[0..n])?;
            }
            Ok(())
        }
        Err(fault) => {
            let number = u8::from(fault);
            println!(rt; "refused with {number}")?;
            Ok(())
        }
    }
}

fn sort_of(name: &str) -> anyhow::Result<Sort> {
    match name {
        "nothing" => Ok(Sort::Nothing),
        "number" => Ok(Sort::Number),
        "name" => Ok(Sort::Name),
        "label" => Ok(Sort::Label),
        _ => Err(anyhow!("no sort of argument")),
    }
}

fn field(rt: &HostRuntime, sort: &str, text: Option<&str>) -> anyhow::Result<()> {
    let text = text.map(|text| text.as_bytes());
    let mut out = buffer(rt.alloc(), "8")?;
    match parse_argument(sort_of(sort)?, text) {
        Ok(argument) => {
            let r = write_argument(argument, out.as_mut_slice());
            print_written(rt, r, out.as_slice())
        }
        Err(fault) => print_written(rt, Err(fault), out.as_slice()),
    }
}

fn kind(rt: &HostRuntime, word: &str) -> anyhow::Result<()> {
    match Kind::try_from(word.as_bytes()) {
        Ok(kind) => {
            let code = u32::from(kind);
            let children = kind.arity();
            println!(rt; "code {code} children {children}")?;
        }
        Err(_) => println!(rt; "none")?,
    }
    Ok(())
}

fn answer(rt: &HostRuntime, line: &str) -> anyhow::Result<()> {
    let (question, rest) = line.split_once(' ').context("a question without a space")?;
    let (first, second) = match rest.split_once(' ') {
        Some((first, second)) => (first, Some(second)),
        None => (rest, None),
    };
    match (question, second) {
        ("read", None) => read(rt, first),
        ("write", Some(room)) => write(rt, first, room),
        ("node", Some(room)) => node(rt, first, room),
        ("scan", Some(file)) => figures(rt, first, file),
        ("lines", Some(file)) => lines(rt, first, file),
        ("field", text) => field(rt, first, text),
        ("kind", None) => kind(rt, first),
        _ => Err(anyhow!("an unknown question")),
    }
}

fn run(rt: &HostRuntime) -> anyhow::Result<()> {
    for line in rt.lines(rt.alloc()) {
        answer(rt, line?.as_str())?;
    }
    Ok(())
}

fn main(rt: HostRuntime) -> anyhow::Result<()> {
    run(&rt)
}
