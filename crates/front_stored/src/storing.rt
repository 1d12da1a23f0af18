// A text is read, and what it reads as is stored.
ghost use Rattle.rules.specs.Results.{store_answer};
ghost use Rattle.front_stored.specs.Told.{TellsFile};

use front::{ATTRIBUTES, ITEMS, OPERANDS, STATEMENTS, console, read};
use rules::{Entry, Refusal};
use std::io::Read;

// Writes the file of what standard input lists, or says in a line on standard error why it is refused.
pub fn store(from: &mut impl Read, out: &impl Print, err: &impl Print, entry: Entry) {
    let mut text = [0u8; 65537];
    let mut output = [0u8; 2250113];
    store_input(from, out, err, entry, &mut text, &mut output);
}

// The same, in a text and an output that are lent.
fn store_input(
    from: &mut impl Read,
    out: &impl Print,
    err: &impl Print,
    entry: Entry,
    text: &mut [u8],
    output: &mut [u8],
) {
    let Ok(n) = input::fill(from, text) else {
        console::complain(err, "standard input cannot be read");
        return;
    };
    match store_text(entry, &text[..n], output) {
        Ok(bytes) => console::put_front(out, err, output, bytes),
        Err(refusal) => console::refuse(err, refusal),
    }
}

// The file of a text at the front of the output, and how long it is; or why it is refused.
pub fn store_text(entry: Entry, text: &[u8], output: &mut [u8]) -> Result<u64, Refusal>
    ensures { TellsFile entry text.now output.old (store_answer result) output.new }
{
    let mut items = [0u32; ITEMS];
    let mut statements = [0u32; STATEMENTS];
    let mut operands = [0u32; OPERANDS];
    let mut attributes = [0u32; ATTRIBUTES];
    store_with(
        entry,
        text,
        &mut items,
        &mut statements,
        &mut operands,
        &mut attributes,
        output,
    )
}

// The same, in tables that are lent.
fn store_with(
    entry: Entry,
    text: &[u8],
    items: &mut [u32; ITEMS],
    statements: &mut [u32; STATEMENTS],
    operands: &mut [u32; OPERANDS],
    attributes: &mut [u32; ATTRIBUTES],
    output: &mut [u8],
) -> Result<u64, Refusal>
    ensures { TellsFile entry text.now output.old (store_answer result) output.new }
{
    match read(entry, text, items, statements, operands, attributes) {
        Ok(rows) => peldarox::store(
            text,
            items,
            statements,
            operands,
            attributes,
            rows.items as u64,
            rows.statements as u64,
            rows.operands as u64,
            rows.attributes as u64,
            output,
        ),
        Err(refusal) => Err(refusal),
    }
}
