// Loads of files.
use crate::stores::{Rules, say_refusal};
use rules::Counts;
use vector_lines::{Fields, front};

// A load of the file of a line into the memory that the line lends.
pub(crate) fn answer_load(rt: &impl Print, mut fields: Fields<'_>) {
    let mut file = [0u8; 66000];
    let mut text = [0u8; 66000];
    let mut items = [0u32; 200];
    let mut statements = [0u32; 200];
    let mut operands = [0u32; 200];
    let mut attributes = [0u32; 200];
    let text = &mut text[..fields.number(66000)];
    let items = &mut items[..fields.number(200)];
    let statements = &mut statements[..fields.number(200)];
    let operands = &mut operands[..fields.number(200)];
    let attributes = &mut attributes[..fields.number(200)];
    let file = fields.bytes(&mut file);
    match peldarox::load(file, text, items, statements, operands, attributes) {
        Ok(held) => {
            let Counts {
                items: i,
                statements: s,
                operands: o,
                attributes: a,
            } = held.rows;
            let _ = print!(rt; "0 {} {i} {s} {o} {a} ", held.text);
            let rules = Rules {
                text: front(text, held.text as usize),
                items,
                statements,
                operands,
                attributes,
                rows: held.rows,
            };
            rules.answer_store(rt, 1000);
        }
        Err(refusal) => say_refusal(rt, refusal),
    }
}
