// Reads tests from standard input, a line each: bytes as hex digits, at most 64 bytes. Says of each line `ok` where the bytes are well-formed UTF-8, and
// `bad` with the place of the first bad sequence where they are not. make_vectors.py writes the lines, and what another decoder says of them.
#![tactic(auto)]

use rules::IllFormed;
use vector_lines::{Fields, Lines, say};

// Checks line after line.
fn main(rt: HostRuntime) {
    let mut text = [0u8; 65536];
    let n = input::read_full(&mut rt.stdin(), &mut text);
    for line in Lines::of(&text[..n]) {
        test(&rt, line);
    }
}

// Says what the bytes are that a line writes.
fn test(rt: &impl Print, line: &[u8]) {
    let mut bytes = [0u8; 64];
    match utf8::check(Fields::of(line).bytes(&mut bytes)) {
        Ok(()) => say(rt, "ok"),
        Err(IllFormed { at }) => say(rt, format_args!("bad {at}")),
    }
}
