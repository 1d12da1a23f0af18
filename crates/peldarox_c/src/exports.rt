// The public calls for C, as include/peldarox.h has them: a slice is a pointer and a count of elements, a report is six words of 64 bits.
ghost use Rattle.std.specs.Prelude.{◌≡◌};
ghost use Rattle.rules.specs.Answers.{report_of, refusal_report, Reports};
ghost use Rattle.rules.specs.Results.{number_of, read_answer, print_answer};
ghost use Rattle.rules.specs.Prints.{PrintReports, name_part, name_report};
ghost use Rattle.rules.specs.WellFormed.{counts};

use peldarox::{read_left_hand_sides, read_replacements, read_right_hand_sides};
use prints::{name_part, print};
use rules::{Counts, Entry, Refusal};

// A read as six words: number, place, counts of items, statements, operands, attributes.
#[tactic(auto, unfolding(rules::specs::Answers::report_of))]
fn tell_read(read: Result<Counts, Refusal>, report: &mut [u64; 6])
    ensures { report.new ≡ report_of (read_answer read) }
{
    *report = match read {
        Ok(rows) => [
            0,
            0,
            rows.items.into(),
            rows.statements.into(),
            rows.operands.into(),
            rows.attributes.into(),
        ],
        Err(refusal) => refused(refusal),
    };
}

// A print as six words: number, bytes written or place.
#[tactic(auto, unfolding(rules::specs::Answers::report_of))]
fn tell_print(printed: Result<u64, Refusal>, report: &mut [u64; 6])
    ensures { report.new ≡ report_of (print_answer printed) }
{
    *report = match printed {
        Ok(n) => [0, n, 0, 0, 0, 0],
        Err(refusal) => refused(refusal),
    };
}

// A refusal as six words: number, place.
fn refused(refusal: Refusal) -> [u64; 6]
    ensures { result ≡ refusal_report (number_of refusal.reason) refusal.place }
{
    [refusal.reason.number().into(), refusal.place, 0, 0, 0, 0]
}

#[unsafe(no_mangle)]
pub extern "C" fn peldarox_read_replacements(
    text: &[u8],
    items: &mut [u32],
    statements: &mut [u32],
    operands: &mut [u32],
    attributes: &mut [u32],
    report: &mut [u64; 6],
)
    ensures { Reports Entry.Replacements text.now items.old statements.old operands.old attributes.old report.new items.new statements.new operands.new attributes.new }
{
    tell_read(
        read_replacements(text, items, statements, operands, attributes),
        report,
    );
}

#[unsafe(no_mangle)]
pub extern "C" fn peldarox_read_left_hand_sides(
    text: &[u8],
    items: &mut [u32],
    statements: &mut [u32],
    operands: &mut [u32],
    attributes: &mut [u32],
    report: &mut [u64; 6],
)
    ensures { Reports Entry.LeftHandSides text.now items.old statements.old operands.old attributes.old report.new items.new statements.new operands.new attributes.new }
{
    tell_read(
        read_left_hand_sides(text, items, statements, operands, attributes),
        report,
    );
}

#[unsafe(no_mangle)]
pub extern "C" fn peldarox_read_right_hand_sides(
    text: &[u8],
    items: &mut [u32],
    statements: &mut [u32],
    operands: &mut [u32],
    attributes: &mut [u32],
    report: &mut [u64; 6],
)
    ensures { Reports Entry.RightHandSides text.now items.old statements.old operands.old attributes.old report.new items.new statements.new operands.new attributes.new }
{
    tell_read(
        read_right_hand_sides(text, items, statements, operands, attributes),
        report,
    );
}

#[unsafe(no_mangle)]
pub extern "C" fn peldarox_print(
    text: &[u8],
    items: &[u32],
    statements: &[u32],
    operands: &[u32],
    attributes: &[u32],
    item_count: u64,
    statement_count: u64,
    operand_count: u64,
    attribute_count: u64,
    work: &mut [u32],
    output: &mut [u8],
    report: &mut [u64; 6],
)
    ensures { PrintReports text.now items.now statements.now operands.now attributes.now (counts item_count statement_count operand_count attribute_count) work.old output.old report.new work.new output.new }
{
    tell_print(
        print(
            text,
            items,
            statements,
            operands,
            attributes,
            item_count,
            statement_count,
            operand_count,
            attribute_count,
            work,
            output,
        ),
        report,
    );
}

// A name as six words: 0, its first byte, its length.
#[unsafe(no_mangle)]
pub extern "C" fn peldarox_name(
    text: &[u8],
    items: &[u32],
    statements: &[u32],
    operands: &[u32],
    attributes: &[u32],
    item_count: u64,
    statement_count: u64,
    operand_count: u64,
    attribute_count: u64,
    row: u64,
    report: &mut [u64; 6],
)
    ensures { report.new ≡ name_report (name_part text.now items.now statements.now operands.now attributes.now (counts item_count statement_count operand_count attribute_count) row) }
{
    let part = name_part(
        text,
        items,
        statements,
        operands,
        attributes,
        item_count,
        statement_count,
        operand_count,
        attribute_count,
        row,
    );
    *report = [
        0,
        part.first as u64,
        (part.past - part.first) as u64,
        0,
        0,
        0,
    ];
}
