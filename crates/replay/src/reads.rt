// Readings. A line is an entry point (R, L or T), the capacities of the four tables in rows and a text in hex digits; said of it is the number, the place
// and the four counts of its read.
use rules::{Counts, Entry, Refusal};
use vector_lines::{Fields, say};

// Tables of 15 rows.
#[derive(Drop)]
pub(crate) struct Tables {
    pub items: [u32; 135],
    pub statements: [u32; 150],
    pub operands: [u32; 105],
    pub attributes: [u32; 165],
}

impl Tables {
    // Tables with no row.
    pub fn empty() -> Tables {
        Tables {
            items: [0; 135],
            statements: [0; 150],
            operands: [0; 105],
            attributes: [0; 165],
        }
    }

    // Reads a text into all rows.
    pub fn read(&mut self, entry: Entry, text: &[u8]) -> Result<Counts, Refusal> {
        front::read(
            entry,
            text,
            &mut self.items,
            &mut self.statements,
            &mut self.operands,
            &mut self.attributes,
        )
    }
}

// The entry point of a letter.
pub(crate) fn entry_of(letter: u8) -> Entry {
    match letter {
        b'L' => Entry::LeftHandSides,
        b'T' => Entry::RightHandSides,
        _ => Entry::Replacements,
    }
}

// Reads the text of a line into so many rows, and says what came of it.
pub(crate) fn replay_read(rt: &impl Print, letter: u8, mut fields: Fields<'_>) {
    let mut tables = Tables::empty();
    let items = &mut tables.items[..fields.number(15) * 9];
    let statements = &mut tables.statements[..fields.number(15) * 10];
    let operands = &mut tables.operands[..fields.number(15) * 7];
    let attributes = &mut tables.attributes[..fields.number(15) * 11];
    let mut bytes = [0u8; 65537];
    let text = fields.bytes(&mut bytes);
    match front::read(
        entry_of(letter),
        text,
        items,
        statements,
        operands,
        attributes,
    ) {
        Ok(rows) => {
            let Counts {
                items,
                statements,
                operands,
                attributes,
            } = rows;
            say(
                rt,
                format_args!("0 0 {items} {statements} {operands} {attributes}"),
            );
        }
        Err(refusal) => {
            let number = refusal.reason.number();
            say(rt, format_args!("{number} {} 0 0 0 0", refusal.place));
        }
    }
}
