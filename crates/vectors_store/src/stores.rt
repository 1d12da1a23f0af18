// Stores of texts that are read, and of what was loaded.
ghost use Rattle.std.specs.Prelude.{◌≤◌};

use rules::{Counts, Refusal};
use vector_lines::{Fields, Hex, front, say};

// A text, the tables that it was read or loaded with, and how many rows of each count.
#[derive(Clone, Copy)]
pub(crate) struct Rules<'a> {
    pub text: &'a [u8],
    pub items: &'a [u32],
    pub statements: &'a [u32],
    pub operands: &'a [u32],
    pub attributes: &'a [u32],
    pub rows: Counts,
}

impl<'a> Rules<'a> {
    // Says what a store into so many bytes comes to.
    pub fn answer_store(self, rt: &impl Print, room: usize)
        requires { room ≤ 1000 }
    {
        let mut output = [0u8; 1000];
        let output = &mut output[..room];
        match peldarox::store(
            self.text,
            self.items,
            self.statements,
            self.operands,
            self.attributes,
            self.rows.items as u64,
            self.rows.statements as u64,
            self.rows.operands as u64,
            self.rows.attributes as u64,
            output,
        ) {
            Ok(n) => say(rt, format_args!("0 {n} {}", Hex(front(output, n as usize)))),
            Err(refusal) => say_refusal(rt, refusal),
        }
    }
}

// A store of the replacements of a line.
pub(crate) fn answer_store(rt: &impl Print, mut fields: Fields<'_>) {
    let room = fields.number(1000);
    let mut bytes = [0u8; 256];
    let text = fields.bytes(&mut bytes);
    let mut i = [0u32; 135];
    let mut s = [0u32; 150];
    let mut o = [0u32; 105];
    let mut a = [0u32; 165];
    match peldarox::read_replacements(text, &mut i, &mut s, &mut o, &mut a) {
        Ok(rows) => {
            let rules = Rules {
                text,
                items: &i,
                statements: &s,
                operands: &o,
                attributes: &a,
                rows,
            };
            rules.answer_store(rt, room);
        }
        Err(_) => say(rt, "no read"),
    }
}

// Says a refusal by its number and place.
pub(crate) fn say_refusal(rt: &impl Print, refusal: Refusal) {
    say(
        rt,
        format_args!("{} {}", refusal.reason.number(), refusal.place),
    );
}
