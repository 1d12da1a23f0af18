// Replays a sample of the comparison with the Rust crate. Each line of standard input is a question, and what is said of it is one line: reads.rt has
// the readings, print_lines.rt the prints and names.
#![tactic(auto)]

mod print_lines;
mod reads;

use vector_lines::{Fields, Lines};

// Replays each line of up to 524,288 bytes.
fn main(rt: HostRuntime) {
    let mut input = [0u8; 524288];
    let n = input::read_full(&mut rt.stdin(), &mut input);
    for line in Lines::of(&input[..n]) {
        replay(&rt, Fields::of(line));
    }
}

// Answers the question of a line.
fn replay(rt: &impl Print, mut fields: Fields<'_>) {
    match fields.letter() {
        b'P' => print_lines::replay_print(rt, fields),
        b'D' => print_lines::replay_damaged(rt, fields),
        b'N' => print_lines::replay_name(rt, fields),
        letter => reads::replay_read(rt, letter, fields),
    }
}
