// Tells of each line of standard input whether it is an instruction's name, a keyword or neither.
#![tactic(auto)]

use instructions::Instruction;
use vector_lines::{Lines, Text, say};

// Tells of each line of a text.
fn main(rt: HostRuntime) {
    let mut text = [0u8; 65536];
    let n = input::read_full(&mut rt.stdin(), &mut text);
    for line in Lines::of(&text[..n]) {
        tell(&rt, line);
    }
}

// Tells of one word.
fn tell(rt: &impl Print, word: &[u8]) {
    if let Some(instruction) = instructions::instruction(word) {
        tell_instruction(rt, instruction);
    } else if let Some(keyword) = instructions::keyword(word) {
        say(rt, format_args!("keyword {}", keyword as u64));
    } else {
        say(rt, "other");
    }
}

// Tells an instruction's place, its arity, and its name as it is written.
fn tell_instruction(rt: &impl Print, instruction: Instruction) {
    let place = instruction.place;
    let arity = instruction.arity();
    let name = Text(instruction.name());
    say(rt, format_args!("instruction {place} arity {arity} {name}"));
}
