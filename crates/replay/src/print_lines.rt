// Prints and names of tables of 15 rows that the text of a line has been read into by the entry point of the line's second letter.
//
// `P ENTRY WORK OUTPUT HEX` is a print with so many words of work area and so many bytes of output, `D ENTRY TABLE WORD VALUE HEX` a print after one word
// of a table (0 to 3) is set to a value, with room enough; said of both is the number, the place, and the bytes printed in hex digits. `N ENTRY ROW HEX`
// is the name of a statement row; said is its length and its bytes.
ghost use Rattle.std.specs.Prelude.{◌≤◌};

use crate::reads::{Tables, entry_of};
use rules::{Counts, Refusal};
use vector_lines::{Fields, Hex, front, say};

// A print with the room that a line has.
pub(crate) fn replay_print(rt: &impl Print, mut fields: Fields<'_>) {
    let entry = entry_of(fields.letter());
    let words = fields.number(64);
    let room = fields.number(500);
    let mut bytes = [0u8; 256];
    let text = fields.bytes(&mut bytes);
    let mut tables = Tables::empty();
    let read = tables.read(entry, text);
    tables.say_print(rt, read, text, words, room);
}

// A print after a word of a table is set, with the room that is enough.
pub(crate) fn replay_damaged(rt: &impl Print, mut fields: Fields<'_>) {
    let entry = entry_of(fields.letter());
    let table = fields.number(4);
    let word = fields.number(200);
    let value = fields.number(4294967295) as u32;
    let mut bytes = [0u8; 256];
    let text = fields.bytes(&mut bytes);
    let mut tables = Tables::empty();
    let read = tables.read(entry, text);
    tables.set(table, word, value);
    tables.say_print(rt, read, text, 64, 500);
}

// The name of the row of a line.
pub(crate) fn replay_name(rt: &impl Print, mut fields: Fields<'_>) {
    let entry = entry_of(fields.letter());
    let row = fields.number(65536) as u64;
    let mut bytes = [0u8; 256];
    let text = fields.bytes(&mut bytes);
    let mut tables = Tables::empty();
    let read = tables.read(entry, text);
    tables.say_name(rt, read, text, row);
}

impl Tables {
    // Sets a word of one of the four tables to a value, where there are such a table and word.
    fn set(&mut self, table: usize, word: usize, value: u32) {
        match table {
            0 => set(&mut self.items, word, value),
            1 => set(&mut self.statements, word, value),
            2 => set(&mut self.operands, word, value),
            3 => set(&mut self.attributes, word, value),
            _ => {}
        }
    }

    // Says what a print of a read with so much room comes to.
    fn say_print(
        &self,
        rt: &impl Print,
        read: Result<Counts, Refusal>,
        text: &[u8],
        words: usize,
        room: usize,
    )
        requires words_bound { words ≤ 64 }
        requires room_bound { room ≤ 500 }
    {
        let mut work = [0u32; 64];
        let mut output = [0u8; 500];
        let Ok(rows) = read else {
            say(rt, "no read");
            return;
        };
        let output = &mut output[..room];
        match peldarox::print(
            text,
            &self.items,
            &self.statements,
            &self.operands,
            &self.attributes,
            rows.items as u64,
            rows.statements as u64,
            rows.operands as u64,
            rows.attributes as u64,
            &mut work[..words],
            output,
        ) {
            Ok(n) => say(rt, format_args!("0 {n} {}", Hex(front(output, n as usize)))),
            Err(refusal) => {
                let number = refusal.reason.number();
                say(rt, format_args!("{number} {} ", refusal.place));
            }
        }
    }

    // Says the name of a row of a read.
    fn say_name(&self, rt: &impl Print, read: Result<Counts, Refusal>, text: &[u8], row: u64) {
        let Ok(rows) = read else {
            say(rt, "no read");
            return;
        };
        let name = peldarox::name(
            text,
            &self.items,
            &self.statements,
            &self.operands,
            &self.attributes,
            rows.items as u64,
            rows.statements as u64,
            rows.operands as u64,
            rows.attributes as u64,
            row,
        );
        say(rt, format_args!("{} {}", name.len(), Hex(name)));
    }
}

// Sets a word of a table, where it has the word.
fn set(table: &mut [u32], word: usize, value: u32) {
    if let Some(place) = table.get_mut(word) {
        *place = value;
    }
}
