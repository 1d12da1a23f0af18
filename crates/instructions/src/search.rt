// The search for an instruction: candidates are chosen by the word's length, then by its first letter, and where these are more than two by its second;
// the one or two that are left are compared.
ghost use Rattle.std.specs.Prelude.{◌≡◌, length};
ghost use Rattle.rules.specs.Bytes.{byte};
ghost use Rattle.rules.specs.Instructions.{instruction_of};
ghost use Rattle.instructions.specs.Candidates.{among, beginning, all_instructions, instructions_of};
ghost use Rattle.instructions.specs.Number.{instruction_number};

use crate::compare::{either, only};
use crate::table::Instruction;

// The instruction that w names, if it names one.
pub fn instruction(w: &[u8]) -> Option<Instruction>
    ensures { instruction_number result ≡ instruction_of w.now }
{
    let place = place(w)?;
    Some(Instruction { place })
}

// The same, by its place in the table.
fn place(w: &[u8]) -> Option<u8>
    ensures { result ≡ among w.now all_instructions }
{
    match w.len() {
        2 => of_two(w),
        3 => of_three(w),
        4 => of_four(w),
        5 => of_five(w),
        6 => of_six(w),
        8 => of_eight(w),
        9 => of_nine(w),
        10 => only(w, b"bitreverse", 41),
        12 => only(w, b"extractvalue", 56),
        18 => of_eighteen(w),
        _ => None,
    }
}

// The same, of instructions of two letters alone.
fn of_two(w: &[u8]) -> Option<u8>
    requires { length w.now ≡ 2 }
    ensures { result ≡ among w.now (instructions_of 2) }
{
    match w[0] {
        b'o' => only(w, b"or", 19),
        b'e' => only(w, b"eq", 33),
        b'n' => only(w, b"ne", 34),
        _ => None,
    }
}

// The same, of instructions of three letters alone.
fn of_three(w: &[u8]) -> Option<u8>
    requires { length w.now ≡ 3 }
    ensures { result ≡ among w.now (instructions_of 3) }
{
    match w[0] {
        b'a' => either(w, b"add", 0, b"and", 18),
        b's' => of_three_by_s(w),
        b'm' => only(w, b"mul", 8),
        b'x' => only(w, b"xor", 20),
        b'u' => either(w, b"ult", 35, b"ule", 37),
        _ => None,
    }
}

// The same, of instructions of three letters that begin with s alone.
fn of_three_by_s(w: &[u8]) -> Option<u8>
    requires { length w.now ≡ 3 }
    ensures { result ≡ among w.now (beginning (byte "s") (instructions_of 3)) }
{
    match w[1] {
        b'u' => only(w, b"sub", 4),
        b'h' => only(w, b"shl", 21),
        b'l' => either(w, b"slt", 36, b"sle", 38),
        _ => None,
    }
}

// The same, of instructions of four letters alone.
fn of_four(w: &[u8]) -> Option<u8>
    requires { length w.now ≡ 4 }
    ensures { result ≡ among w.now (instructions_of 4) }
{
    match w[0] {
        b'u' => either(w, b"udiv", 12, b"urem", 16),
        b's' => of_four_by_s(w),
        b'l' => only(w, b"lshr", 25),
        b'a' => only(w, b"ashr", 27),
        b'z' => only(w, b"zext", 30),
        b'c' => either(w, b"cttz", 42, b"ctlz", 43),
        b'f' => either(w, b"fshl", 44, b"fshr", 45),
        b'h' => only(w, b"hole", 57),
        _ => None,
    }
}

// The same, of instructions of four letters that begin with s alone.
fn of_four_by_s(w: &[u8]) -> Option<u8>
    requires { length w.now ≡ 4 }
    ensures { result ≡ among w.now (beginning (byte "s") (instructions_of 4)) }
{
    match w[1] {
        b'd' => only(w, b"sdiv", 13),
        b'r' => only(w, b"srem", 17),
        b'e' => only(w, b"sext", 31),
        _ => None,
    }
}

// The same, of instructions of five letters alone.
fn of_five(w: &[u8]) -> Option<u8>
    requires { length w.now ≡ 5 }
    ensures { result ≡ among w.now (instructions_of 5) }
{
    match w[0] {
        b'a' => only(w, b"addnw", 3),
        b's' => either(w, b"subnw", 7, b"shlnw", 24),
        b'm' => only(w, b"mulnw", 11),
        b't' => only(w, b"trunc", 32),
        b'c' => only(w, b"ctpop", 39),
        b'b' => only(w, b"bswap", 40),
        _ => None,
    }
}

// The same, of instructions of six letters alone.
fn of_six(w: &[u8]) -> Option<u8>
    requires { length w.now ≡ 6 }
    ensures { result ≡ among w.now (instructions_of 6) }
{
    match w[0] {
        b'a' => either(w, b"addnsw", 1, b"addnuw", 2),
        b's' => of_six_by_s(w),
        b'm' => either(w, b"mulnsw", 9, b"mulnuw", 10),
        b'f' => only(w, b"freeze", 58),
        _ => None,
    }
}

// The same, of instructions of six letters that begin with s alone.
fn of_six_by_s(w: &[u8]) -> Option<u8>
    requires { length w.now ≡ 6 }
    ensures { result ≡ among w.now (beginning (byte "s") (instructions_of 6)) }
{
    match w[1] {
        b'u' => either(w, b"subnsw", 5, b"subnuw", 6),
        b'h' => either(w, b"shlnsw", 22, b"shlnuw", 23),
        b'e' => only(w, b"select", 29),
        _ => None,
    }
}

// The same, of instructions of eight letters alone.
fn of_eight(w: &[u8]) -> Option<u8>
    requires { length w.now ≡ 8 }
    ensures { result ≡ among w.now (instructions_of 8) }
{
    match w[0] {
        b's' => either(w, b"sadd.sat", 52, b"ssub.sat", 54),
        b'u' => either(w, b"uadd.sat", 53, b"usub.sat", 55),
        _ => None,
    }
}

// The same, of instructions of nine letters alone.
fn of_nine(w: &[u8]) -> Option<u8>
    requires { length w.now ≡ 9 }
    ensures { result ≡ among w.now (instructions_of 9) }
{
    match w[0] {
        b'u' => only(w, b"udivexact", 14),
        b's' => only(w, b"sdivexact", 15),
        b'l' => only(w, b"lshrexact", 26),
        b'a' => only(w, b"ashrexact", 28),
        _ => None,
    }
}

// The same, of instructions of eighteen letters alone.
fn of_eighteen(w: &[u8]) -> Option<u8>
    requires { length w.now ≡ 18 }
    ensures { result ≡ among w.now (instructions_of 18) }
{
    match w[0] {
        b's' => of_eighteen_by_s(w),
        b'u' => of_eighteen_by_u(w),
        _ => None,
    }
}

// The same, of instructions of eighteen letters that begin with s alone.
fn of_eighteen_by_s(w: &[u8]) -> Option<u8>
    requires { length w.now ≡ 18 }
    ensures { result ≡ among w.now (beginning (byte "s") (instructions_of 18)) }
{
    match w[1] {
        b'a' => only(w, b"sadd.with.overflow", 46),
        b's' => only(w, b"ssub.with.overflow", 48),
        b'm' => only(w, b"smul.with.overflow", 50),
        _ => None,
    }
}

// The same, of instructions of eighteen letters that begin with u alone.
fn of_eighteen_by_u(w: &[u8]) -> Option<u8>
    requires { length w.now ≡ 18 }
    ensures { result ≡ among w.now (beginning (byte "u") (instructions_of 18)) }
{
    match w[1] {
        b'a' => only(w, b"uadd.with.overflow", 47),
        b's' => only(w, b"usub.with.overflow", 49),
        b'm' => only(w, b"umul.with.overflow", 51),
        _ => None,
    }
}
