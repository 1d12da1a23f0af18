// The calls for rules on disk, for C, as include/peldarox.h has them: a slice is a pointer and a count of elements, a report is eight words of 64 bits.
ghost use Rattle.std.specs.Prelude.{◌≡◌, [], ◌∷◌};
ghost use Rattle.rules.specs.Stored.{store_report, load_report, StoreReports, LoadReports};
ghost use Rattle.rules.specs.Results.{number_of, store_answer, load_answer};
ghost use Rattle.rules.specs.WellFormed.{counts};

use rules::{Loaded, Refusal};
use store::{load, store};

// A store as eight words: number, bytes written or place.
#[tactic(auto, unfolding(rules::specs::Stored::store_report))]
fn tell_store(stored: Result<u64, Refusal>, report: &mut [u64; 8])
    ensures { report.new ≡ store_report (store_answer stored) }
{
    *report = match stored {
        Ok(n) => [0, n, 0, 0, 0, 0, 0, 0],
        Err(refusal) => refused(refusal),
    };
}

// A load as eight words: number, bytes of text or place, counts of items, statements, operands, attributes.
#[tactic(auto, unfolding(rules::specs::Stored::load_report))]
fn tell_load(loaded: Result<Loaded, Refusal>, report: &mut [u64; 8])
    ensures { report.new ≡ load_report (load_answer loaded) }
{
    *report = match loaded {
        Ok(l) => [
            0,
            l.text,
            l.rows.items.into(),
            l.rows.statements.into(),
            l.rows.operands.into(),
            l.rows.attributes.into(),
            0,
            0,
        ],
        Err(refusal) => refused(refusal),
    };
}

// A refusal as eight words: number, place.
fn refused(refusal: Refusal) -> [u64; 8]
    ensures { result ≡ number_of refusal.reason ∷ refusal.place ∷ 0 ∷ 0 ∷ 0 ∷ 0 ∷ 0 ∷ 0 ∷ [] }
{
    [
        refusal.reason.number().into(),
        refusal.place,
        0,
        0,
        0,
        0,
        0,
        0,
    ]
}

#[unsafe(no_mangle)]
pub extern "C" fn peldarox_store(
    text: &[u8],
    items: &[u32],
    statements: &[u32],
    operands: &[u32],
    attributes: &[u32],
    item_count: u64,
    statement_count: u64,
    operand_count: u64,
    attribute_count: u64,
    output: &mut [u8],
    report: &mut [u64; 8],
)
    ensures { StoreReports text.now items.now statements.now operands.now attributes.now (counts item_count statement_count operand_count attribute_count) output.old report.new output.new }
{
    tell_store(
        store(
            text,
            items,
            statements,
            operands,
            attributes,
            item_count,
            statement_count,
            operand_count,
            attribute_count,
            output,
        ),
        report,
    );
}

#[unsafe(no_mangle)]
pub extern "C" fn peldarox_load(
    file: &[u8],
    text: &mut [u8],
    items: &mut [u32],
    statements: &mut [u32],
    operands: &mut [u32],
    attributes: &mut [u32],
    report: &mut [u64; 8],
)
    ensures { LoadReports file.now text.old items.old statements.old operands.old attributes.old report.new text.new items.new statements.new operands.new attributes.new }
{
    tell_load(
        load(file, text, items, statements, operands, attributes),
        report,
    );
}
