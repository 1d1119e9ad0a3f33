// Answers to lines, and the buffers that they are written into. What a line is answered is tested
// line by line on the program that answers them.
use question::{ANSWER_ROOM, answer};
use syntax::fault::Fault;

// Whether a line gets an answer in a buffer of so many bytes: none, where the buffer is too short.
fn gets(line: &[u8], text: &[u8], room: usize) -> bool {
    let mut out = [7u8; 2049];
    if room > 2049 {
        return false;
    }
    is_told(line, text, &mut out[0..room])
}

fn is_told(line: &[u8], text: &[u8], out: &mut [u8]) -> bool {
    match answer(line, out) {
        Ok(n) => n == text.len() && out.starts_with(text),
        Err(fault) => fault == Fault::ShortBuffer && text.is_empty(),
    }
}

#[test]
fn buffers(rt: HostRuntime) {
    assert!(rt; gets(b"names var x", b"030178000000", ANSWER_ROOM));
    assert!(rt; gets(b"names var x", b"030178000000", ANSWER_ROOM + 1));
    assert!(rt; gets(b"names var x", b"", ANSWER_ROOM - 1));
    assert!(rt; gets(b"names var x", b"", 0));
}

#[test]
fn refused_lines(rt: HostRuntime) {
    assert!(rt; gets(b"", b"no 1", ANSWER_ROOM));
    assert!(rt; gets(b"types var x", b"no 1", ANSWER_ROOM));
    assert!(rt; gets(b"names var x zz", b"no 1", ANSWER_ROOM));
    assert!(rt; gets(b"names nothing x zz", b"no 1", ANSWER_ROOM));
    assert!(rt; gets(b"names nothing x 05", b"no 2", ANSWER_ROOM));
    assert!(rt; gets(b"names lam - 05", b"no 2", ANSWER_ROOM));
    assert!(rt; gets(b"names lam x 05", b"no 12", ANSWER_ROOM));
    assert!(rt; gets(b"names lam x", b"no 12", ANSWER_ROOM));
}
