// A file is loaded, and what it holds is printed.
ghost use Rattle.rules.specs.Results.{print_answer};
ghost use Rattle.front_stored.specs.Told.{TellsPrint};

use front::{ATTRIBUTES, ITEMS, OPERANDS, STATEMENTS, WORK, console};
use rules::{Reason, Refusal};
use std::io::Read;

// The bytes of the text that a program lends to a load.
const TEXT: usize = 65536;

// Prints the stored file that standard input is, or says in a line on standard error why it is refused.
pub fn print(from: &mut impl Read, out: &impl Print, err: &impl Print) {
    let mut file = [0u8; 2250114];
    let mut output = [0u8; 131072];
    print_input(from, out, err, &mut file, &mut output);
}

// The same, in a file and an output that are lent: 15 where the file has no byte to spare for what standard input holds.
fn print_input(
    from: &mut impl Read,
    out: &impl Print,
    err: &impl Print,
    file: &mut [u8],
    output: &mut [u8],
) {
    let Ok(n) = input::fill(from, file) else {
        console::complain(err, "standard input cannot be read");
        return;
    };
    if n == file.len() {
        let refusal = Refusal {
            reason: Reason::NoRoom,
            place: 0,
        };
        console::refuse(err, refusal);
        return;
    }
    match print_stored(&file[..n], output) {
        Ok(bytes) => console::put_front(out, err, output, bytes),
        Err(refusal) => console::refuse(err, refusal),
    }
}

// The print of a file at the front of the output, and how long it is; or why it is refused.
pub fn print_stored(file: &[u8], output: &mut [u8]) -> Result<u64, Refusal>
    ensures { TellsPrint file.now output.old (print_answer result) output.new }
{
    let mut text = [0u8; TEXT];
    let mut items = [0u32; ITEMS];
    let mut statements = [0u32; STATEMENTS];
    let mut operands = [0u32; OPERANDS];
    let mut attributes = [0u32; ATTRIBUTES];
    let mut work = [0u32; WORK];
    print_with(
        file,
        &mut text,
        &mut items,
        &mut statements,
        &mut operands,
        &mut attributes,
        &mut work,
        output,
    )
}

// The same, in a text, tables and a work area that are lent.
fn print_with(
    file: &[u8],
    text: &mut [u8; TEXT],
    items: &mut [u32; ITEMS],
    statements: &mut [u32; STATEMENTS],
    operands: &mut [u32; OPERANDS],
    attributes: &mut [u32; ATTRIBUTES],
    work: &mut [u32; WORK],
    output: &mut [u8],
) -> Result<u64, Refusal>
    ensures { TellsPrint file.now output.old (print_answer result) output.new }
{
    let held = peldarox::load(file, text, items, statements, operands, attributes)?;
    let letters = &text[..held.text as usize];
    peldarox::print(
        letters,
        items,
        statements,
        operands,
        attributes,
        held.rows.items as u64,
        held.rows.statements as u64,
        held.rows.operands as u64,
        held.rows.attributes as u64,
        work,
        output,
    )
}
