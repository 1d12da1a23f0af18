// Answers questions about rules on disk, one to a line of standard input. make_vectors.py writes them, and what each comes to, from docs/RULES.md, section 10, alone.
//
// `L TEXT ITEMS STATEMENTS OPERANDS ATTRIBUTES HEX` loads the file of the hex digits into so many bytes of text and words of each table: said is the number and
// the place; or 0, the bytes of text, the four counts, and what a store of what was loaded into 1,000 bytes comes to. `S OUTPUT HEX` reads replacements into 15 rows of
// each table and stores them into so many bytes: said is the number and the place; or 0, the bytes written, and the file in hex digits.
#![tactic(auto)]

mod loads;
mod stores;

use vector_lines::{Fields, Lines};

// Answers each line of up to 524,288 bytes.
fn main(rt: HostRuntime) {
    let mut input = [0u8; 524288];
    let n = input::read_full(&mut rt.stdin(), &mut input);
    for line in Lines::of(&input[..n]) {
        answer(&rt, Fields::of(line));
    }
}

// Answers the question of a line.
fn answer(rt: &impl Print, mut fields: Fields<'_>) {
    match fields.letter() {
        b'S' => stores::answer_store(rt, fields),
        _ => loads::answer_load(rt, fields),
    }
}
