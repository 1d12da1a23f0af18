// The parser: where it stands in a text, and the tables that it claims rows of. Its token helpers, in the order of the crate's `impl Parser`.
// A rule of the grammar is a function over a parser. What is at fault ends the rule, and by `?` every rule that called it.
// What is called for each token is inlined everywhere: as calls, reading takes an eighth longer.
#![tactic(auto)]

pub mod claims;
pub mod fault;
pub mod names;
pub mod stand;

ghost use Rattle.std.specs.Prelude.{◌≡◌, ◌≤◌, ◌+◌, Some};
ghost use Rattle.rules.specs.Reading as R;
ghost use Rattle.rules.specs.Keywords.{keyword_number};
ghost use Rattle.instructions.specs.Number.{instruction_number};
ghost use Rattle.wide.specs.Wide.{bits};
ghost use Rattle.parser.specs.Stands.{Runs, RunsTo, ahead_of, is_ahead, int_below, lent_words};
ghost use Rattle.parser.specs.Next.{next_of};
ghost use Rattle.rules.specs.Tokens.{token_at};

pub use fault::{Fault, What};
use instructions::Instruction;
use rules::keyword::Keyword;
use rules::{Counts, Cursor, Lexed, Spot, kind};
use stand::{Stand, Text};
use tables::letters;
use wide::Wide;

// A text that is read: where the parser stands in it, the row of the item's first statement, the rows claimed, the lent tables, and an index of the item's names.
#[derive(Drop)]
pub struct Parser<'a, 'i> {
    pub text: Text<'a>,
    pub stand: Stand,
    pub scope: u32,
    pub counts: Counts,
    pub items: &'a mut [u32],
    pub statements: &'a mut [u32],
    pub operands: &'a mut [u32],
    pub attributes: &'a mut [u32],
    pub index: &'i mut [u16],
}

// The text's last byte; 0 for the empty text.
fn last_byte(text: Text) -> Spot
    ensures { result ≡ R.last_byte text.entry.bytes.now }
{
    let at = text.bytes.len().saturating_sub(1) as u32;
    Spot {
        kind: 0,
        first: at,
        past: at,
    }
}

// The token at or after a byte, or none at the end of the text: each token is lexed here, once.
#[inline(always)]
fn lexed(text: Text, from: u32) -> Result<Option<Spot>, Fault>
    ensures { result ≡ next_of (token_at text.entry.bytes.now from) }
{
    match lexer::next_token(text.bytes, Cursor { at: from as usize }) {
        Lexed::Found(t) => Ok(Some(Spot {
            kind: t.kind,
            first: t.first as u32,
            past: t.past as u32,
        })),
        Lexed::End => Ok(None),
        Lexed::Refused(p) => Err(Fault {
            what: What::Lexer,
            at: Spot {
                kind: 0,
                first: p as u32,
                past: p as u32,
            },
        }),
    }
}

// The keyword that a token of a text is.
pub fn keyword_at(text: &[u8], t: Spot) -> Option<Keyword>
    ensures { keyword_number result ≡ R.keyword_at text.now t }
{
    if t.kind != kind::IDENT {
        return None;
    }
    instructions::keyword(letters(text, t.first, t.past))
}

// The instruction that a token of a text names.
pub fn instruction_at(text: &[u8], t: Spot) -> Option<Instruction>
    ensures { instruction_number result ≡ R.instruction_at text.now t }
{
    if t.kind != kind::IDENT {
        return None;
    }
    instructions::instruction(letters(text, t.first, t.past))
}

// The number of a keyword in the definition's list, or that a word is none.
fn number_of(k: Option<Keyword>) -> u8
    ensures { result ≡ keyword_number k }
{
    match k {
        Some(Keyword::Var) => 0,
        Some(Keyword::Block) => 1,
        Some(Keyword::Phi) => 2,
        Some(Keyword::Reservedinst) => 3,
        Some(Keyword::Reservedconst) => 4,
        Some(Keyword::Pc) => 5,
        Some(Keyword::Blockpc) => 6,
        Some(Keyword::Infer) => 7,
        Some(Keyword::Result) => 8,
        Some(Keyword::Cand) => 9,
        Some(Keyword::PowerOfTwo) => 10,
        Some(Keyword::Negative) => 11,
        Some(Keyword::NonNegative) => 12,
        Some(Keyword::NonZero) => 13,
        Some(Keyword::HasExternalUses) => 14,
        Some(Keyword::SignBits) => 15,
        Some(Keyword::Range) => 16,
        Some(Keyword::DemandedBits) => 17,
        Some(Keyword::HarvestedFromUse) => 18,
        None => 19,
    }
}

impl<'a, 'i> Parser<'a, 'i> {
    // The next token, looked at and not taken; none at the end of the text.
    #[tactic(auto, unfolding(crate::specs::Stands::lent_words))]
    #[inline(always)]
    pub fn lookahead(&mut self) -> Result<Option<Spot>, Fault>
        ensures runs { RunsTo ahead_of R.lookahead self.old result self.new }
        ensures leaves { lent_words self.new ≡ lent_words self.old }
    {
        if let Some(t) = self.stand.ahead {
            return Ok(Some(t));
        }
        let Some(t) = lexed(self.text, self.stand.at)? else {
            return Ok(None);
        };
        let at = t.past;
        self.stand = Stand {
            at,
            ahead: Some(t),
            last: t,
        };
        Ok(Some(t))
    }

    // The next token, taken.
    #[tactic(auto, unfolding(crate::specs::Stands::lent_words))]
    #[inline(always)]
    pub fn token(&mut self) -> Result<Spot, Fault>
        ensures runs { Runs R.token self.old result self.new }
        ensures leaves { lent_words self.new ≡ lent_words self.old }
    {
        if let Some(t) = self.stand.ahead {
            self.stand = Stand {
                at: self.stand.at,
                ahead: None,
                last: t,
            };
            return Ok(t);
        }
        let Some(t) = lexed(self.text, self.stand.at)? else {
            return Err(Fault::new(What::End, last_byte(self.text)));
        };
        self.stand = Stand {
            at: t.past,
            ahead: None,
            last: t,
        };
        Ok(t)
    }

    // A token of a kind.
    #[tactic(auto, using(crate::proofs::Chains::ends), unfolding(rules::specs::Reading::expect))]
    #[inline(always)]
    pub fn expect(&mut self, kind: u32) -> Result<Spot, Fault>
        ensures runs { Runs (R.expect kind) self.old result self.new }
        ensures leaves { lent_words self.new ≡ lent_words self.old }
    {
        let t = self.token()?;
        if t.kind == kind {
            return Ok(t);
        }
        Err(Fault::new(What::Token, t))
    }

    // The letters of a token.
    pub fn letters(&self, t: Spot) -> &[u8]
        ensures { result.now ≡ R.letters self.now.text.bytes.now t }
    {
        letters(self.text.bytes, t.first, t.past)
    }

    // The keyword that a token is.
    pub fn keyword_at(&self, t: Spot) -> Option<Keyword>
        ensures { keyword_number result ≡ R.keyword_at self.now.text.bytes.now t }
    {
        keyword_at(self.text.bytes, t)
    }

    // The instruction that a token names.
    pub fn instruction_at(&self, t: Spot) -> Option<Instruction>
        ensures { instruction_number result ≡ R.instruction_at self.now.text.bytes.now t }
    {
        instruction_at(self.text.bytes, t)
    }

    // The keyword that comes next, looked at and not taken.
    #[tactic(auto, using(crate::proofs::Chains::ends), unfolding(rules::specs::Reading::lookahead_ident))]
    #[inline(always)]
    pub fn keyword_ahead(&mut self) -> Result<Option<Keyword>, Fault>
        ensures runs { RunsTo keyword_number R.lookahead_ident self.old result self.new }
        ensures leaves { lent_words self.new ≡ lent_words self.old }
    {
        match self.lookahead()? {
            Some(t) => Ok(self.keyword_at(t)),
            None => Ok(None),
        }
    }

    // Whether a token of a kind comes next.
    #[tactic(auto, using(crate::proofs::Chains::ends), unfolding(crate::specs::Stands::is_ahead))]
    #[inline(always)]
    pub fn is_ahead(&mut self, kind: u32) -> Result<bool, Fault>
        requires { 1 ≤ kind }
        ensures runs { Runs (is_ahead kind) self.old result self.new }
        ensures leaves { lent_words self.new ≡ lent_words self.old }
    {
        match self.lookahead()? {
            Some(t) => Ok(t.kind == kind),
            None => Ok(false),
        }
    }

    // A keyword.
    #[tactic(auto, using(crate::proofs::Chains::ends), unfolding(rules::specs::Reading::ident))]
    pub fn ident(&mut self, which: Keyword) -> Result<Spot, Fault>
        ensures runs { Runs (R.ident (keyword_number (Some which))) self.old result self.new }
        ensures leaves { lent_words self.new ≡ lent_words self.old }
    {
        let t = self.token()?;
        if self.keyword_at(t) == Some(which) {
            return Ok(t);
        }
        Err(Fault::new(What::Token, t))
    }

    // A word, by the number that the definition gives its keyword, or that it gives a word that is none.
    #[tactic(auto, using(crate::proofs::Chains::ends), unfolding(rules::specs::Reading::ident))]
    pub fn ident_of(&mut self, which: u8) -> Result<Spot, Fault>
        ensures runs { Runs (R.ident which) self.old result self.new }
        ensures leaves { lent_words self.new ≡ lent_words self.old }
    {
        let t = self.token()?;
        let n = number_of(self.keyword_at(t));
        if n == which {
            return Ok(t);
        }
        Err(Fault::new(What::Token, t))
    }

    // An integer.
    #[tactic(auto, using(crate::proofs::Chains::ends), unfolding(rules::specs::Reading::int))]
    #[inline(always)]
    pub fn int(&mut self) -> Result<Wide, Fault>
        ensures runs { RunsTo bits R.int self.old result self.new }
        ensures leaves { lent_words self.new ≡ lent_words self.old }
    {
        let t = self.expect(kind::INT)?;
        match Wide::from_digits(self.letters(t)) {
            Some(w) => Ok(w),
            None => Err(Fault::new(What::Integer, t)),
        }
    }

    // An integer that fits a field, unsigned; a fault at its token where it is above the most that does.
    #[tactic(auto, using(crate::proofs::Chains::ends), unfolding(crate::specs::Stands::int_below))]
    fn int_field(&mut self, most: u32) -> Result<u32, Fault>
        ensures runs { Runs (int_below (most + 1)) self.old result self.new }
        ensures leaves { lent_words self.new ≡ lent_words self.old }
    {
        let n = self.int()?;
        match n.fits(most) {
            Some(v) => Ok(v),
            None => Err(Fault::new(What::Integer, self.stand.last)),
        }
    }

    // An integer that fits 8 bits, unsigned.
    pub fn int_8(&mut self) -> Result<u32, Fault>
        ensures runs { Runs (R.int_field 8) self.old result self.new }
        ensures leaves { lent_words self.new ≡ lent_words self.old }
    {
        self.int_field(u8::MAX as u32)
    }

    // An integer that fits 32 bits, unsigned.
    pub fn int_32(&mut self) -> Result<u32, Fault>
        ensures runs { Runs (R.int_field 32) self.old result self.new }
        ensures leaves { lent_words self.new ≡ lent_words self.old }
    {
        self.int_field(u32::MAX)
    }

    // A type's width.
    pub fn type_width(&mut self) -> Result<u32, Fault>
        ensures runs { Runs R.type self.old result self.new }
        ensures leaves { lent_words self.new ≡ lent_words self.old }
    {
        let t = self.expect(kind::IDENT)?;
        match wide::type_width(self.letters(t)) {
            Some(n) => Ok(n),
            None => Err(Fault::new(What::Token, t)),
        }
    }

    // ':' and a type's width, or 0.
    #[inline(always)]
    pub fn type_if_any(&mut self) -> Result<u32, Fault>
        ensures runs { Runs R.type_if_any self.old result self.new }
        ensures leaves { lent_words self.new ≡ lent_words self.old }
    {
        if self.is_ahead(kind::COLON)? {
            self.token()?;
            return self.type_width();
        }
        Ok(0)
    }
}
