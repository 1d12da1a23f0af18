// What sort of thing a code is.
ghost use Rattle.std.specs.Prelude.{◌≡◌};
ghost use Rattle.rules.specs.Bytes.{inside as inside_of};
ghost use Rattle.rules.specs.WellFormed.{is_instruction, is_assignment, is_condition, has_block, infers as infers_of};

use rules::code;

// Whether n is from `lo` up to and with `hi`.
#[tactic(auto, unfolding(rules::specs::Bytes::inside))]
pub fn inside(lo: u32, hi: u32, n: u32) -> bool
    ensures { result ≡ inside_of lo hi n }
{
    (lo..=hi).contains(&n)
}

// Whether a statement with code c is an instruction.
#[tactic(auto, unfolding(rules::specs::WellFormed::is_instruction))]
pub fn is_instruction(c: u32) -> bool
    ensures { result ≡ is_instruction c }
{
    inside(1, 59, c)
}

// Whether it is an assignment, as instructions are too.
#[tactic(auto, unfolding(rules::specs::WellFormed::is_assignment))]
pub fn is_assignment(c: u32) -> bool
    ensures { result ≡ is_assignment c }
{
    inside(1, code::RESERVEDCONST, c)
}

// Whether it is a pc or a blockpc.
#[tactic(auto, unfolding(rules::specs::WellFormed::is_condition))]
pub fn is_condition(c: u32) -> bool
    ensures { result ≡ is_condition c }
{
    inside(code::PC, code::BLOCKPC, c)
}

// Whether it refers to a block.
#[tactic(auto, unfolding(rules::specs::WellFormed::has_block))]
pub fn has_block(c: u32) -> bool
    ensures { result ≡ has_block c }
{
    matches!(c, code::PHI | code::BLOCKPC)
}

// Whether an item of kind k has an infer line.
#[tactic(auto, unfolding(rules::specs::WellFormed::infers))]
pub fn infers(k: u32) -> bool
    ensures { result ≡ infers_of k }
{
    matches!(k, code::INFER_RESULT | code::LEFT_HAND_SIDE)
}
