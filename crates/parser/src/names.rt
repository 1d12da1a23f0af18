// Names, looked for among the item's statements by an index.
ghost use Rattle.std.specs.Prelude.{◌≡◌, Ok};
ghost use Rattle.rules.specs.Reading as R;
ghost use Rattle.rules.specs.Rows.{statement_at, statement_length};
ghost use Rattle.rules.specs.World.{World};
ghost use Rattle.tables.specs.Stands.{table};
ghost use Rattle.index.specs.Linked.{Holds};
ghost use Rattle.parser.specs.Stands.{Ready, Runs, rests, world, lent_words, lent_tables};

use crate::Parser;
use crate::fault::{Fault, What};
use rules::{Spot, code, kind};
use tables::letters;
use tables::rows::{code_at, number_at};

// The statement that has the name which a token is, among those of a scope that are counted.
#[inline(always)]
pub fn in_scope(
    text: &[u8],
    statements: &[u32],
    index: &[u16],
    t: Spot,
    first: u32,
    past: u32,
) -> Option<u32>
    ensures { Holds text.now statements.now index.now first past → (w : World) → w.text ≡ text.now → w.scope ≡ first → w.tables.statements ≡ table statement_length past statements.now → result ≡ R.in_scope t w }
{
    index::find(
        text,
        statements,
        index,
        letters(text, t.first, t.past),
        first,
        past,
    )
}

impl<'a, 'i> Parser<'a, 'i> {
    // The item's statement that has the name which a token is.
    #[inline(always)]
    pub fn in_scope(&self, t: Spot) -> Option<u32>
        ensures { Ready self.now → result ≡ R.in_scope t (world self.now) }
    {
        let first = self.scope;
        let past = self.counts.statements;
        in_scope(self.text.bytes, self.statements, self.index, t, first, past)
    }

    // The code of a statement, by its row.
    fn code_of(&self, row: u32) -> u32
        ensures { result ≡ (statement_at self.now.statements.now row).code }
    {
        code_at(&*self.statements, row)
    }

    // The number of a statement, by its row.
    pub fn number_of(&self, row: u32) -> u32
        ensures { result ≡ (statement_at self.now.statements.now row).number }
    {
        number_at(&*self.statements, row)
    }

    // A name in scope, by its statement's row.
    #[tactic(auto, using(crate::proofs::Chains::ends), unfolding(rules::specs::Reading::value))]
    #[inline(always)]
    pub fn value(&mut self) -> Result<u32, Fault>
        requires { Ready self.old }
        ensures runs { Runs R.value self.old result self.new }
        ensures leaves { lent_words self.new ≡ lent_words self.old }
    {
        let t = self.expect(kind::VAL_NAME)?;
        match self.in_scope(t) {
            Some(r) => Ok(r),
            None => Err(Fault::new(What::Unknown, t)),
        }
    }

    // A name that is not in scope yet.
    #[tactic(auto, using(crate::proofs::Chains::ends), unfolding(rules::specs::Reading::new_name))]
    pub fn new_name(&mut self) -> Result<Spot, Fault>
        requires { Ready self.old }
        ensures runs { Runs R.new_name self.old result self.new }
        ensures leaves { lent_words self.new ≡ lent_words self.old }
    {
        let t = self.expect(kind::VAL_NAME)?;
        match self.in_scope(t) {
            Some(_) => Err(Fault::new(What::Redefined, t)),
            None => Ok(t),
        }
    }

    // The name of a block in scope, by its statement's row.
    #[tactic(auto, using(crate::proofs::Chains::ends), unfolding(rules::specs::Reading::block))]
    pub fn block(&mut self) -> Result<u32, Fault>
        requires { Ready self.old }
        ensures runs { Runs R.block self.old result self.new }
        ensures leaves { lent_words self.new ≡ lent_words self.old }
    {
        let t = self.expect(kind::VAL_NAME)?;
        let Some(r) = self.in_scope(t) else {
            return Err(Fault::new(What::NoBlock, t));
        };
        if self.code_of(r) == code::BLOCK {
            return Ok(r);
        }
        Err(Fault::new(What::NoBlock, t))
    }

    // Statement rows of the item enter an index.
    fn hold_in(&self, index: &mut [u16])
        ensures { Holds self.now.text.bytes.now self.now.statements.now index.old self.now.scope self.now.counts.statements → Holds self.now.text.bytes.now self.now.statements.now index.new self.now.scope self.now.counts.statements }
    {
        index::hold(
            self.text.bytes,
            self.statements,
            index,
            self.scope,
            self.counts.statements,
        );
    }

    // Statement rows of the item enter the index, once there are many that have not. It is taken out meanwhile: no proof covers a call that is lent both.
    #[tactic(auto, unfolding(crate::specs::Stands::lent_tables))]
    pub fn hold(&mut self)
        ensures runs { Runs rests self.old (Ok tt) self.new }
        ensures leaves { lent_tables self.new ≡ lent_tables self.old }
    {
        let words = std::mem::take(&mut self.index);
        self.hold_in(words);
        self.index = words;
    }
}
