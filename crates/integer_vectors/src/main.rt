// Reads lines and writes a line about each: of an integer its decimal, what it is in a field of 32 and of 8 bits, its four words, and how it
// compares with the integer before it; of a type, a line that begins with 'i', its width; of any other line that it is refused.
// The lines of stdin and the answers of stdout are made by make_vectors.py, which knows nothing of this code.
#![tactic(auto)]

use rules::Words;
use std::fmt;
use vector_lines::{Lines, Text, front, say};
use wide::Wide;

// Writes about each line of a text.
fn main(rt: HostRuntime) {
    let mut text = [0u8; 65536];
    let n = input::read_full(&mut rt.stdin(), &mut text);
    let mut before = None;
    for line in Lines::of(&text[..n]) {
        before = say_line(&rt, line, before);
    }
}

// Writes about a line, and answers the integer that the next is compared with.
fn say_line(rt: &impl Print, line: &[u8], before: Option<Wide>) -> Option<Wide> {
    if line.starts_with(b"i") {
        say(rt, Field(wide::type_width(line)));
        return before;
    }
    let Some(w) = Wide::from_digits(line) else {
        say(rt, "refused");
        return before;
    };
    say_integer(rt, w, before);
    Some(w)
}

// Writes about an integer, where before is the one before it.
fn say_integer(rt: &impl Print, w: Wide, before: Option<Wide>) {
    let mut digits = [0u8; 40];
    let n = w.write_decimal(&mut digits);
    let Words { a, b, c, d } = Words::from(w);
    let order = order(w, before);
    say(
        rt,
        format_args!(
            "{} {} {} {a} {b} {c} {d} {order}",
            Text(front(&digits, n)),
            Field(w.fits(u32::MAX)),
            Field(w.fits(u8::MAX as u32)),
        ),
    );
}

// What a field holds, as it is written.
#[derive(Clone, Copy)]
struct Field(Option<u32>);

impl fmt::Display for Field {
    fn fmt<W: fmt::Write>(&self, f: &mut fmt::Formatter<W>) -> fmt::Result {
        match self.0 {
            Some(n) => write!(f, "{n}"),
            None => write!(f, "refused"),
        }
    }
}

// How an integer compares with the one before it.
fn order(w: Wide, before: Option<Wide>) -> &'static str {
    match before {
        None => "first",
        Some(v) if w.less(v) => "less",
        Some(v) if w.same(v) => "same",
        Some(_) => "more",
    }
}
