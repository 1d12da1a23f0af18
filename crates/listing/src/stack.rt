// The stack: words from the marks on. An entry is twice a row's number while the row is to be traced, and 1 more once it is finished.
ghost use Rattle.std.specs.Prelude.{◌≡◌, ◌+◌, ◌-◌, ◌*◌, ◌≤◌, ◌<◌, length};
ghost use Rattle.rules.specs.Rows.{statement_length, operand_length, statement_at};
ghost use Rattle.rules.specs.WellFormed.{has_block};
ghost use Rattle.rules.specs.Meaning.{All};
ghost use Rattle.listing.specs.References.{named, size, references};
ghost use Rattle.listing.specs.Work.{Pushed};

use rules::code;
use tables::{OPERAND_LENGTH, STATEMENT_LENGTH};

// Words of a statement row: the row of its block, the first of its operands, and the one past the last.
const BLOCK: usize = 5;

const FIRST: usize = 6;

const PAST: usize = 7;

// The word of an operand row that has the row of its value.
const ROW: usize = 1;

// Whether a statement of this code refers to a block.
fn has_block(kind: u32) -> bool
    ensures { result ≡ has_block kind }
{
    let is_phi = kind == code::PHI;
    is_phi || kind == code::BLOCKPC
}

// How many words the stack has once the rows that operand rows from `first` up to `past` name are pushed, the first of them at the top.
fn push_operands(
    operands: &[u32],
    work: &mut [u32],
    base: usize,
    depth: usize,
    first: u32,
    past: u32,
) -> usize
    requires operands_inside { past * operand_length ≤ length operands.now }
    requires room { base + depth + (past - first) ≤ length work.old }
    requires small_rows { All (λ j. j < 65536) (named operands.now first (past - first)) }
    ensures { Pushed (named operands.now first (past - first)) work.old base depth (past - first) work.new result }
{
    let mut t = depth;
    let mut k = past;
    while first < k {
        k -= 1;
        let at = k as usize * OPERAND_LENGTH;
        if operands[at] == code::VALUE {
            work[base + t] = 2 * operands[at + ROW];
            t += 1;
        }
    }
    t
}

// How many words the stack has once all that a statement row refers to is pushed, its block at the top and its operands in their order.
pub fn push_references(
    statements: &[u32],
    operands: &[u32],
    work: &mut [u32],
    base: usize,
    depth: usize,
    row: u32,
) -> usize
    requires row_inside { (row + 1) * statement_length ≤ length statements.now }
    requires operands_inside { (statement_at statements.now row).operands.past * operand_length ≤ length operands.now }
    requires room { base + depth + (size statements.now row + 1) ≤ length work.old }
    requires small_rows { All (λ j. j < 65536) (references statements.now operands.now row) }
    ensures { Pushed (references statements.now operands.now row) work.old base depth (size statements.now row + 1) work.new result }
{
    let at = row as usize * STATEMENT_LENGTH;
    let first = statements[at + FIRST];
    let past = statements[at + PAST];
    let t = push_operands(operands, work, base, depth, first, past);
    if has_block(statements[at]) {
        work[base + t] = 2 * statements[at + BLOCK];
        return t + 1;
    }
    t
}
