// Lexes the text that each line of standard input spells, whole, byte by byte and in other cuts, and prints `TOKENS NUMBER PLACE`, or that the cuts differ.
// A text of up to 256 bytes is cut in two at every place; a longer one into parts of several lengths.
#![tactic(auto)]

ghost use Rattle.std.specs.Prelude.{◌≤◌, length};

use rules::{LexRefusal, LexReport};
use stream::Stream;
use vector_lines::{Lines, Spelt, capital_digit, say, spell};

// Reads up to 131,072 bytes of lines.
fn main(rt: HostRuntime) {
    let mut input = [0u8; 131072];
    let n = input::read_full(&mut rt.stdin(), &mut input);
    for line in Lines::of(&input[..n]) {
        replay(&rt, line);
    }
}

// Says what the text of a line comes to in all its cuts, as far as it has 65,600 bytes.
fn replay(rt: &impl Print, line: &[u8]) {
    let mut text = [0u8; 65600];
    say_report(rt, spell(line, &mut text, first));
}

// What the rest of a line spells first: `\xHH` is a byte by its hexadecimal digits in capitals, `\rNNNNNB` the byte B so many times, five digits of them;
// any other byte is itself.
fn first(rest: &[u8]) -> Spelt {
    match rest {
        [b'\\', b'x', a, b, ..] => Spelt::once(capital_digit(*a) * 16 + capital_digit(*b), 4),
        [b'\\', _, a, b, c, d, e, byte, ..] => Spelt {
            byte: *byte,
            times: number(&[*a, *b, *c, *d, *e]),
            len: 8,
        },
        [byte, ..] => Spelt::once(*byte, 1),
        [] => Spelt::once(0, 1),
    }
}

// The number that decimal digits stand for.
fn number(digits: &[u8]) -> usize {
    digits.iter().fold(0, |n: usize, digit| {
        n.saturating_mul(10)
            .saturating_add(capital_digit(*digit).into())
    })
}

// Says what a text comes to in all its cuts.
fn say_report(rt: &impl Print, text: &[u8]) {
    let report = stream::lex_at_once(text);
    if !cuts_alike(text, report) {
        say(rt, "the cuts differ");
        return;
    }
    let told = report.refusal.unwrap_or(LexRefusal {
        number: 0,
        place: 0,
    });
    say(
        rt,
        format_args!("{} {} {}", report.tokens, told.number, told.place),
    );
}

// Whether every cutting of a text that is tried gives one report.
fn cuts_alike(text: &[u8], report: LexReport) -> bool {
    if text.len() <= 256 {
        return in_parts(text, 1) == report && halves_alike(text, report);
    }
    [1, 7, 4095, 4096, 4097]
        .iter()
        .all(|bytes| in_parts(text, *bytes) == report)
}

// Whether a text that is cut in two gives one report, at whichever place.
fn halves_alike(text: &[u8], report: LexReport) -> bool {
    (0..=text.len()).all(|at| in_halves(text, at) == report)
}

// The report of a text that is cut in two at a place.
fn in_halves(text: &[u8], at: usize) -> LexReport
    requires { at ≤ length text.now }
{
    let (front, rest) = text.split_at(at);
    Stream::start().part(front).part(rest).end()
}

// The report of a text in parts of so many bytes.
fn in_parts(text: &[u8], bytes: usize) -> LexReport
    requires { 1 ≤ bytes }
{
    let fed = text
        .chunks(bytes)
        .fold(Stream::start(), |state, part| state.part(part));
    fed.end()
}
