// Whether rows are consecutive: the spans that own them, in reading order, each begin where the one before ended.
ghost use Rattle.std.specs.Prelude.{◌≡◌, ℕ, [], ◌∷◌, ◌-◌, ◌^◌, ◌≤◌, ◌<◌, List, Option};
ghost use Rattle.rules.specs.declared.Span.{Span};
ghost use Rattle.rules.specs.Rows.{◌up_to◌, span_at, statement_length};
ghost use Rattle.rules.specs.Syntax.{flat};
ghost use Rattle.rules.specs.View.{each, along};
ghost use Rattle.rules.specs.WellFormed.{operand_spans, attribute_spans, statements_owned, operands_owned, attributes_owned};
ghost use Rattle.wellformed.specs.Reached.{Reaches};

use rules::{Item, Span};
use tables::STATEMENT_LENGTH;
use tables::rows::{Table, item_at, span_at};

// Where a statement's row has the spans of its operands and of its attributes.
const OPERANDS: usize = 6;

const ATTRIBUTES: usize = 8;

// How far a span reaches that begins where rows are owned up to; none where it does not.
fn follow(s: Span, at: u32) -> Option<u32>
    ensures { Reaches at (s ∷ []) result }
{
    if s.first != at {
        return None;
    }
    if s.past < at {
        return None;
    }
    Some(s.past)
}

// How far the spans of the rows from `first` up to `end` reach, each as far as `step` says.
fn reach<F: Fn(u32, u32) -> Option<u32>>(first: u32, end: u32, at: u32, step: F) -> Option<u32>
    requires { F.IsAlwaysCallable step }
    ensures { (spans : ℕ → List Span) → ((i : ℕ) → (a : ℕ) → (r : Option ℕ) → F.post step i a r → Reaches a (spans i) r) → Reaches at (flat spans (each (λ i. i) first (end - first))) result }
{
    let mut reached = at;
    for i in first..end {
        reached = step(i, reached)?;
    }
    Some(reached)
}

// How far the spans in a column of the statements from `first` up to `end` reach.
fn follow_statements<T: Table>(
    statements: T,
    column: usize,
    first: u32,
    end: u32,
    at: u32,
) -> Option<u32>
    requires { column ≤ 8 }
    ensures { Reaches at (along (λ i. span_at statement_length (T.words statements) i column) (first up_to end)) result }
{
    reach(
        first,
        end,
        at,
        |i, reached| follow(span_at(statements, STATEMENT_LENGTH, i, column), reached),
    )
}

// How far an item's operands reach.
fn follow_operands<T: Table>(statements: T, r: Item, at: u32) -> Option<u32>
    ensures { Reaches at (operand_spans (T.words statements) r) result }
{
    let s = r.statements;
    let own = follow_statements(statements, OPERANDS, s.first, s.past, at)?;
    follow(r.operands, own)
}

// How far an item's attributes reach.
fn follow_attributes<T: Table>(statements: T, r: Item, at: u32) -> Option<u32>
    ensures { Reaches at (attribute_spans (T.words statements) r) result }
{
    let s = r.statements;
    let own = follow_statements(statements, ATTRIBUTES, s.first, r.middle, at)?;
    let behind = follow(r.attributes, own)?;
    follow_statements(statements, ATTRIBUTES, r.middle, s.past, behind)
}

// Whether n items own `count` statements, each once and in order.
pub fn statements_owned<T: Table>(items: T, n: u32, count: u32) -> bool
    ensures { result ≡ statements_owned (T.words items) n count }
{
    reach(0, n, 0, |i, at| follow(item_at(items, i).statements, at)) == Some(count)
}

// Whether n items and their statements own `count` operands, each once and in order.
pub fn operands_owned<T: Table>(items: T, statements: T, n: u32, count: u32) -> bool
    ensures { result ≡ operands_owned (T.words items) (T.words statements) n count }
{
    reach(
        0,
        n,
        0,
        |i, at| follow_operands(statements, item_at(items, i), at),
    ) == Some(count)
}

// Whether n items and their statements own `count` attributes, each once and in order.
pub fn attributes_owned<T: Table>(items: T, statements: T, n: u32, count: u32) -> bool
    ensures { result ≡ attributes_owned (T.words items) (T.words statements) n count }
{
    reach(
        0,
        n,
        0,
        |i, at| follow_attributes(statements, item_at(items, i), at),
    ) == Some(count)
}
