// Prints the tokens of each line of standard input: `kind first past;` for each, then `end` or `refused PLACE`.
// A line spells a text: `\xHH` is a byte by its hexadecimal digits in capitals, any other byte is itself.
#![tactic(auto)]

ghost use Rattle.std.specs.Prelude.{◌≤◌, ◌<◌, length};

use rules::{Cursor, Lexed};
use vector_lines::{Lines, Spelt, capital_digit, say, spell};

// Reads up to 65,536 bytes of lines.
fn main(rt: HostRuntime) {
    let mut input = [0u8; 65536];
    let n = input::read_full(&mut rt.stdin(), &mut input);
    for line in Lines::of(&input[..n]) {
        print_line(&rt, line);
    }
}

// Prints the tokens of the text that a line spells, as far as it has 4,096 bytes.
fn print_line(rt: &impl Print, line: &[u8]) {
    let mut text = [0u8; 4096];
    print_tokens(rt, spell(line, &mut text, first));
}

// What the rest of a line spells first.
fn first(rest: &[u8]) -> Spelt {
    match rest {
        [b'\\', _, a, b, ..] => Spelt::once(capital_digit(*a) * 16 + capital_digit(*b), 4),
        [byte, ..] => Spelt::once(*byte, 1),
        [] => Spelt::once(0, 1),
    }
}

// Prints the tokens of a text.
fn print_tokens(rt: &impl Print, text: &[u8]) {
    let mut at = 0;
    while at <= text.len() {
        at = print_next(rt, text, at);
    }
}

// Prints what the lexer finds at or after a place, and answers where to go on: past the text where it found no token.
fn print_next(rt: &impl Print, text: &[u8], at: usize) -> usize
    requires { at ≤ length text.now }
    ensures { at < result }
{
    match lexer::next_token(text, Cursor { at }) {
        Lexed::Found(token) => {
            let _ = print!(rt; "{} {} {};", token.kind as usize, token.first, token.past);
            token.past
        }
        Lexed::End => {
            say(rt, "end");
            text.len() + 1
        }
        Lexed::Refused(place) => {
            say(rt, format_args!("refused {place}"));
            text.len() + 1
        }
    }
}
