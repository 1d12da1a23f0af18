// References, and operand rows.
ghost use Rattle.std.specs.Prelude.{◌≡◌, ◌-◌};
ghost use Rattle.rules.specs.WellFormed.{long as long_of, among as among_of, refers_to, refers_to_block, at_most, width_fits, value_ok, constant_ok, operand_ok, operands_ok};

use crate::sort::is_assignment;
use rules::{Operand, Span, Words, code};
use tables::rows::{Table, code_at, operand_at};

// How many rows a span has.
pub fn long(s: Span) -> u32
    ensures { result ≡ long_of s }
{
    s.past.saturating_sub(s.first)
}

// Whether row i is one from `first` up to `past`.
#[tactic(auto, unfolding(rules::specs::WellFormed::among))]
fn among(first: u32, past: u32, i: u32) -> bool
    ensures { result ≡ among_of first past i }
{
    (first..past).contains(&i)
}

// Whether row i is an assignment among the statements from `first` up to `past`.
#[tactic(auto, unfolding(rules::specs::WellFormed::refers_to))]
pub fn refers_to<T: Table>(statements: T, first: u32, past: u32, i: u32) -> bool
    ensures { result ≡ refers_to (T.words statements) first past i }
{
    among(first, past, i) && is_assignment(code_at(statements, i))
}

// Whether row i is a block among them.
#[tactic(auto, unfolding(rules::specs::WellFormed::refers_to_block))]
pub fn refers_to_block<T: Table>(statements: T, first: u32, past: u32, i: u32) -> bool
    ensures { result ≡ refers_to_block (T.words statements) first past i }
{
    among(first, past, i) && code_at(statements, i) == code::BLOCK
}

// Whether four words are a number up to n.
#[tactic(auto, unfolding(rules::specs::WellFormed::at_most))]
pub fn at_most(n: u32, w: Words) -> bool
    ensures { result ≡ at_most n w }
{
    w.a == 0 && w.b == 0 && w.c == 0 && w.d <= n
}

// Whether a width is a type's, or 0 for none.
#[tactic(auto, unfolding(rules::specs::WellFormed::width_fits))]
pub fn width_fits(w: u32) -> bool
    ensures { result ≡ width_fits w }
{
    w <= 65535
}

// Whether a value refers to an assignment from `first` up to `past`, and is 0 otherwise.
#[tactic(auto, unfolding(rules::specs::WellFormed::value_ok))]
fn value_ok<T: Table>(statements: T, first: u32, past: u32, r: Operand) -> bool
    ensures { result ≡ value_ok (T.words statements) first past r }
{
    refers_to(statements, first, past, r.row) && r.width == 0 && at_most(0, r.bits)
}

// Whether a row is a constant's.
#[tactic(auto, unfolding(rules::specs::WellFormed::constant_ok))]
fn constant_ok(r: Operand) -> bool
    ensures { result ≡ constant_ok r }
{
    r.code == code::CONSTANT && r.row == 0 && width_fits(r.width)
}

// Whether an operand's row is a constant's, or refers to an assignment from `first` up to `past`.
#[tactic(auto, unfolding(rules::specs::WellFormed::operand_ok))]
fn operand_ok<T: Table>(statements: T, first: u32, past: u32, r: Operand) -> bool
    ensures { result ≡ operand_ok (T.words statements) first past r }
{
    if r.code == code::VALUE {
        return value_ok(statements, first, past, r);
    }
    constant_ok(r)
}

// Whether the operand rows of a span are so.
pub fn operands_ok<T: Table>(statements: T, operands: T, first: u32, past: u32, s: Span) -> bool
    ensures { result ≡ operands_ok (T.words statements) (T.words operands) first past s }
{
    (s.first..s.past).all(|i| operand_ok(statements, first, past, operand_at(operands, i)))
}
