// The words that a text can hold: the instructions, whose names and arities are constant tables, and the other keywords.
// A word is looked for among those of its length and first letter; how it is looked for shows nowhere outside.
#![tactic(auto)]

mod compare;
mod keywords;
mod search;
mod table;

ghost use Rattle.std.specs.Prelude.{◌≡◌};
ghost use Rattle.rules.specs.Out.{Wrote};
ghost use Rattle.rules.specs.Instructions.{arity_of, instruction_name};

pub use keywords::keyword;
pub use search::instruction;
pub use table::Instruction;

// How many operands the instruction at place k takes; 0 past the table, as docs/PROMISES.md has it, so that it stands beside the method.
pub fn arity(k: usize) -> usize
    ensures { result ≡ arity_of k }
{
    match Instruction::at(k) {
        Some(i) => i.arity(),
        None => 0,
    }
}

// Writes the name of the instruction at place k at the front of an output that has room for it, and answers the name's length; 0 past the table, where the
// word of a row may lie.
pub fn put_instruction(k: usize, out: &mut [u8]) -> usize
    ensures { Wrote (instruction_name k) out.old out.new result }
{
    match Instruction::at(k) {
        Some(i) => i.put(out),
        None => 0,
    }
}
