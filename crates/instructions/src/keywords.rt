// The search for a keyword: by the word's length, then by its first letter; at most one candidate is left, and is compared.
ghost use Rattle.std.specs.Prelude.{◌≡◌, length};
ghost use Rattle.rules.specs.Instructions.{keyword_of};
ghost use Rattle.rules.specs.Keywords.{keyword_number};
ghost use Rattle.instructions.specs.Candidates.{among, keywords_of};

use crate::compare::only;
use rules::keyword::Keyword;

// The keyword that w is, if it is one.
pub fn keyword(w: &[u8]) -> Option<Keyword>
    ensures { keyword_number result ≡ keyword_of w.now }
{
    match w.len() {
        2 => only(w, b"pc", Keyword::Pc),
        3 => of_three(w),
        4 => only(w, b"cand", Keyword::Cand),
        5 => of_five(w),
        6 => only(w, b"result", Keyword::Result),
        7 => of_seven(w),
        8 => of_eight(w),
        10 => only(w, b"powerOfTwo", Keyword::PowerOfTwo),
        11 => only(w, b"nonNegative", Keyword::NonNegative),
        12 => of_twelve(w),
        13 => only(w, b"reservedconst", Keyword::Reservedconst),
        15 => only(w, b"hasExternalUses", Keyword::HasExternalUses),
        16 => only(w, b"harvestedFromUse", Keyword::HarvestedFromUse),
        _ => None,
    }
}

// The same, of keywords of three letters alone.
fn of_three(w: &[u8]) -> Option<Keyword>
    requires { length w.now ≡ 3 }
    ensures { result ≡ among w.now (keywords_of 3) }
{
    match w[0] {
        b'v' => only(w, b"var", Keyword::Var),
        b'p' => only(w, b"phi", Keyword::Phi),
        _ => None,
    }
}

// The same, of keywords of five letters alone.
fn of_five(w: &[u8]) -> Option<Keyword>
    requires { length w.now ≡ 5 }
    ensures { result ≡ among w.now (keywords_of 5) }
{
    match w[0] {
        b'b' => only(w, b"block", Keyword::Block),
        b'i' => only(w, b"infer", Keyword::Infer),
        b'r' => only(w, b"range", Keyword::Range),
        _ => None,
    }
}

// The same, of keywords of seven letters alone.
fn of_seven(w: &[u8]) -> Option<Keyword>
    requires { length w.now ≡ 7 }
    ensures { result ≡ among w.now (keywords_of 7) }
{
    match w[0] {
        b'b' => only(w, b"blockpc", Keyword::Blockpc),
        b'n' => only(w, b"nonZero", Keyword::NonZero),
        _ => None,
    }
}

// The same, of keywords of eight letters alone.
fn of_eight(w: &[u8]) -> Option<Keyword>
    requires { length w.now ≡ 8 }
    ensures { result ≡ among w.now (keywords_of 8) }
{
    match w[0] {
        b'n' => only(w, b"negative", Keyword::Negative),
        b's' => only(w, b"signBits", Keyword::SignBits),
        _ => None,
    }
}

// The same, of keywords of twelve letters alone.
fn of_twelve(w: &[u8]) -> Option<Keyword>
    requires { length w.now ≡ 12 }
    ensures { result ≡ among w.now (keywords_of 12) }
{
    match w[0] {
        b'r' => only(w, b"reservedinst", Keyword::Reservedinst),
        b'd' => only(w, b"demandedBits", Keyword::DemandedBits),
        _ => None,
    }
}
