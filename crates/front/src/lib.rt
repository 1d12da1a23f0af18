// What the programs over standard input share: a text of at most 65,536 bytes is read and printed in memory of their own.
//
// A program has its stack and nothing else, some 8 MB, and a row of each table for each byte would take 9.7. Fewer rows are proved to be enough: an item has two
// tokens of its own, a statement or an attribute three, an operand one (reading, Progress). So 7 never comes; neither does 9, as 3S + O + 1 is at most
// twice the text's bytes and one; nor 10, as a print is at most twice as long as its text (grammar, PrintedLength). Never has it proved.
#![tactic(auto)]

pub mod console;

ghost use Rattle.rules.specs.Answers.{Reads};
ghost use Rattle.rules.specs.Results.{read_answer, print_answer};
ghost use Rattle.front.specs.Told.{Tells};

use rules::{Counts, Entry, Refusal};
use std::io::Read;

// The words of the tables that a program lends: 32,768 rows of items, 21,846 of statements and attributes, 65,536 of operands.
pub const ITEMS: usize = 294912;

pub const STATEMENTS: usize = 218460;

pub const OPERANDS: usize = 458752;

pub const ATTRIBUTES: usize = 240306;

// The words of the work area that a program lends to a print.
pub const WORK: usize = 131073;

// Prints what standard input lists, or says in a line why it is refused.
pub fn run(from: &mut impl Read, out: &impl Print, err: &impl Print, entry: Entry) {
    let mut text = [0u8; 65537];
    let mut output = [0u8; 131072];
    let Ok(n) = input::fill(from, &mut text) else {
        console::complain(err, "standard input cannot be read");
        return;
    };
    let printed = print_text(entry, &text[..n], &mut output);
    console::tell(out, err, printed, &output);
}

// The print of a text at the front of the output, and how long it is; or why it is refused.
pub fn print_text(entry: Entry, text: &[u8], output: &mut [u8]) -> Result<u64, Refusal>
    ensures { Tells entry text.now output.old (print_answer result) output.new }
{
    let mut items = [0u32; ITEMS];
    let mut statements = [0u32; STATEMENTS];
    let mut operands = [0u32; OPERANDS];
    let mut attributes = [0u32; ATTRIBUTES];
    let mut work = [0u32; WORK];
    print_with(
        entry,
        text,
        &mut items,
        &mut statements,
        &mut operands,
        &mut attributes,
        &mut work,
        output,
    )
}

// The same, in tables and a work area that are lent.
fn print_with(
    entry: Entry,
    text: &[u8],
    items: &mut [u32; ITEMS],
    statements: &mut [u32; STATEMENTS],
    operands: &mut [u32; OPERANDS],
    attributes: &mut [u32; ATTRIBUTES],
    work: &mut [u32; WORK],
    output: &mut [u8],
) -> Result<u64, Refusal>
    ensures { Tells entry text.now output.old (print_answer result) output.new }
{
    match read(entry, text, items, statements, operands, attributes) {
        Ok(rows) => peldarox::print(
            text,
            items,
            statements,
            operands,
            attributes,
            rows.items as u64,
            rows.statements as u64,
            rows.operands as u64,
            rows.attributes as u64,
            work,
            output,
        ),
        Err(refusal) => Err(refusal),
    }
}

// The read of an entry point.
pub fn read(
    entry: Entry,
    text: &[u8],
    items: &mut [u32],
    statements: &mut [u32],
    operands: &mut [u32],
    attributes: &mut [u32],
) -> Result<Counts, Refusal>
    ensures { Reads entry text.now items.old statements.old operands.old attributes.old (read_answer result) items.new statements.new operands.new attributes.new }
{
    match entry {
        Entry::Replacements => {
            peldarox::read_replacements(text, items, statements, operands, attributes)
        }
        Entry::LeftHandSides => {
            peldarox::read_left_hand_sides(text, items, statements, operands, attributes)
        }
        Entry::RightHandSides => {
            peldarox::read_right_hand_sides(text, items, statements, operands, attributes)
        }
    }
}
