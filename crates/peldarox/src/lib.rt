// The public calls. Nothing is asked of a caller: whatever is lent, each call ends with an answer of the table in docs/RULES.md, and its contract determines that
// answer and every lent word. The crate peldarox_c has the same calls for C.
#![tactic(auto)]

ghost use Rattle.std.specs.Prelude.{◌≡◌, ℕ, get_or};
ghost use Rattle.rules.specs.Answers.{Ends, Reads, refusal, outcome, lent, fault_number, start as start_of};
ghost use Rattle.rules.specs.Results.{number_of, read_answer};
ghost use Rattle.rules.specs.Reading.{items as items_rule};
ghost use Rattle.parser.specs.Stands.{Keeps, told, number_of as number_in};

use parser::stand::{Stand, Text};
use parser::{Fault, Parser, What};
pub use prints::{name, print};
use reader::items::items_of;
use rules::{Counts, Entry, Reason, Refusal, Spot};
pub use store::{load, store};
pub use stream::Stream;

// Replacements, up to the end of the text.
pub fn read_replacements(
    text: &[u8],
    items: &mut [u32],
    statements: &mut [u32],
    operands: &mut [u32],
    attributes: &mut [u32],
) -> Result<Counts, Refusal>
    ensures { Reads Entry.Replacements text.now items.old statements.old operands.old attributes.old (read_answer result) items.new statements.new operands.new attributes.new }
{
    read(
        text,
        items,
        statements,
        operands,
        attributes,
        Entry::Replacements,
    )
}

// Left-hand sides, up to the end of the text.
pub fn read_left_hand_sides(
    text: &[u8],
    items: &mut [u32],
    statements: &mut [u32],
    operands: &mut [u32],
    attributes: &mut [u32],
) -> Result<Counts, Refusal>
    ensures { Reads Entry.LeftHandSides text.now items.old statements.old operands.old attributes.old (read_answer result) items.new statements.new operands.new attributes.new }
{
    read(
        text,
        items,
        statements,
        operands,
        attributes,
        Entry::LeftHandSides,
    )
}

// Right-hand sides, up to the end of the text.
pub fn read_right_hand_sides(
    text: &[u8],
    items: &mut [u32],
    statements: &mut [u32],
    operands: &mut [u32],
    attributes: &mut [u32],
) -> Result<Counts, Refusal>
    ensures { Reads Entry.RightHandSides text.now items.old statements.old operands.old attributes.old (read_answer result) items.new statements.new operands.new attributes.new }
{
    read(
        text,
        items,
        statements,
        operands,
        attributes,
        Entry::RightHandSides,
    )
}

// Refusal 1 by the length alone, then 2 over the whole text, then what comes first while reading. The lent tables are passed one by one: by value, or two structs deep, no proof
// carries what a struct of them leaves back to the caller.
fn read(
    text: &[u8],
    items: &mut [u32],
    statements: &mut [u32],
    operands: &mut [u32],
    attributes: &mut [u32],
    entry: Entry,
) -> Result<Counts, Refusal>
    ensures { Reads entry text.now items.old statements.old operands.old attributes.old (read_answer result) items.new statements.new operands.new attributes.new }
{
    let too_long = 65536 < text.len();
    if too_long {
        let why = Refusal {
            reason: Reason::TextTooLong,
            place: 65536,
        };
        return refused(items, statements, operands, attributes, why);
    }
    match utf8::check(text) {
        Err(bad) => {
            let why = Refusal {
                reason: Reason::NotUtf8,
                place: bad.at as u64,
            };
            refused(items, statements, operands, attributes, why)
        }
        Ok(()) => read_checked(
            Text { bytes: text },
            items,
            statements,
            operands,
            attributes,
            entry,
        ),
    }
}

// A refusal: every lent word is 0.
fn refused(
    items: &mut [u32],
    statements: &mut [u32],
    operands: &mut [u32],
    attributes: &mut [u32],
    why: Refusal,
) -> Result<Counts, Refusal>
    ensures { Ends (refusal (number_of why.reason) why.place) items.old statements.old operands.old attributes.old (read_answer result) items.new statements.new operands.new attributes.new }
{
    items.fill(0);
    statements.fill(0);
    operands.fill(0);
    attributes.fill(0);
    Err(why)
}

// The reason to refuse for what is at fault.
#[tactic(auto, unfolding(rules::specs::Answers::fault_number))]
fn reason_of(what: What) -> Reason
    ensures { number_of result ≡ fault_number (number_in what) }
{
    match what {
        What::Lexer => Reason::NoToken,
        What::Token | What::End => Reason::Unwanted,
        What::Integer => Reason::BadInteger,
        What::Unknown | What::Redefined | What::NoBlock => Reason::BadName,
        What::NoRow => Reason::NoRow,
    }
}

// What a reading came to: the counted rows and zeros behind them, or why and where it is refused.
fn finish(p: &mut Parser, ended: Result<(), Fault>) -> Result<Counts, Refusal>
    ensures ends { Ends (outcome (told (λ u. u) ended p.old)) p.old.items.now p.old.statements.now p.old.operands.now p.old.attributes.now (read_answer result) p.new.items.now p.new.statements.now p.new.operands.now p.new.attributes.now }
    ensures keeps { Keeps p.old p.new }
{
    match ended {
        Ok(()) => {
            p.clear();
            Ok(p.counts)
        }
        Err(f) => {
            p.counts = Counts::NONE;
            p.clear();
            Err(Refusal {
                reason: reason_of(f.what),
                place: f.at.first as u64,
            })
        }
    }
}

// A well-formed text within the limit, with an index that holds nothing.
fn read_indexed(
    text: Text,
    items: &mut [u32],
    statements: &mut [u32],
    operands: &mut [u32],
    attributes: &mut [u32],
    index: &mut [u16],
    entry: Entry,
) -> Result<Counts, Refusal>
    requires { (h : ℕ) → get_or index.old h 0 ≡ 0 }
    ensures { Ends (outcome (items_rule entry (start_of text.entry.bytes.now (lent items.old statements.old operands.old attributes.old)))) items.old statements.old operands.old attributes.old (read_answer result) items.new statements.new operands.new attributes.new }
{
    let none = Spot {
        kind: 0,
        first: 0,
        past: 0,
    };
    let mut p = Parser {
        text,
        stand: Stand {
            at: 0,
            ahead: None,
            last: none,
        },
        scope: 0,
        counts: Counts::NONE,
        items,
        statements,
        operands,
        attributes,
        index,
    };
    let ended = items_of(&mut p, entry);
    finish(&mut p, ended)
}

// A well-formed text within the limit. Of an index only what the text can need is laid out: none where it is short, else links for a statement to every six bytes, which is the
// fewest that one has.
fn read_checked(
    text: Text,
    items: &mut [u32],
    statements: &mut [u32],
    operands: &mut [u32],
    attributes: &mut [u32],
    entry: Entry,
) -> Result<Counts, Refusal>
    ensures { Ends (outcome (items_rule entry (start_of text.entry.bytes.now (lent items.old statements.old operands.old attributes.old)))) items.old statements.old operands.old attributes.old (read_answer result) items.new statements.new operands.new attributes.new }
{
    if text.bytes.len() <= 512 {
        let mut index: [u16; 0] = [0; 0];
        return read_indexed(
            text, items, statements, operands, attributes, &mut index, entry,
        );
    }
    if text.bytes.len() <= 8192 {
        let mut index: [u16; 2391] = [0; 2391];
        return read_indexed(
            text, items, statements, operands, attributes, &mut index, entry,
        );
    }
    let mut index: [u16; 11948] = [0; 11948];
    read_indexed(
        text, items, statements, operands, attributes, &mut index, entry,
    )
}
