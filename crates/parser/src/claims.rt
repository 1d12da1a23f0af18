// Rows that are claimed, zeros behind them, and the scope that ends with an item.
ghost use Rattle.std.specs.Prelude.{◌≡◌, Ok};
ghost use Rattle.parser.specs.declared.fault.What.{What};
ghost use Rattle.rules.specs.World as W;
ghost use Rattle.tables.specs.Stands.{Cleared};
ghost use Rattle.parser.specs.Stands.{Keeps, Runs, end_scope, lent_words, but_items, but_statements, but_operands, but_attributes};

use crate::Parser;
use crate::fault::{Fault, What};
use rules::{Attribute, Item, Operand, Statement};
use tables::{ATTRIBUTE_LENGTH, ITEM_LENGTH, OPERAND_LENGTH, STATEMENT_LENGTH, clear};

impl<'a, 'i> Parser<'a, 'i> {
    // No row is left: the last token found is at fault.
    fn no_row(&self) -> Fault
        ensures what { result.what ≡ What.NoRow }
        ensures at { result.at ≡ self.now.stand.last }
    {
        Fault::new(What::NoRow, self.stand.last)
    }

    // An item's row, refused where none is left.
    #[tactic(auto, unfolding(crate::specs::Stands::but_items))]
    pub fn claim_item(&mut self, row: Item) -> Result<(), Fault>
        ensures runs { Runs (W.claim_item row) self.old result self.new }
        ensures leaves { but_items self.new ≡ but_items self.old }
    {
        let count = self.counts.items;
        if tables::claim_item(self.items, count, row) {
            self.counts.items = count + 1;
            return Ok(());
        }
        Err(self.no_row())
    }

    // A statement's row, refused where none is left.
    #[tactic(auto, unfolding(crate::specs::Stands::but_statements))]
    pub fn claim_statement(&mut self, row: Statement) -> Result<(), Fault>
        ensures runs { Runs (W.claim_statement row) self.old result self.new }
        ensures leaves { but_statements self.new ≡ but_statements self.old }
    {
        let count = self.counts.statements;
        if tables::claim_statement(self.statements, count, row) {
            self.counts.statements = count + 1;
            return Ok(());
        }
        Err(self.no_row())
    }

    // An operand's row, refused where none is left.
    #[tactic(auto, unfolding(crate::specs::Stands::but_operands))]
    pub fn claim_operand(&mut self, row: Operand) -> Result<(), Fault>
        ensures runs { Runs (W.claim_operand row) self.old result self.new }
        ensures leaves { but_operands self.new ≡ but_operands self.old }
    {
        let count = self.counts.operands;
        if tables::claim_operand(self.operands, count, row) {
            self.counts.operands = count + 1;
            return Ok(());
        }
        Err(self.no_row())
    }

    // An attribute's row, refused where none is left. Inlined, as what calls it is: what is handed back in memory is waited for.
    #[tactic(auto, unfolding(crate::specs::Stands::but_attributes))]
    #[inline(always)]
    pub fn claim_attribute(&mut self, row: Attribute) -> Result<(), Fault>
        ensures runs { Runs (W.claim_attribute row) self.old result self.new }
        ensures leaves { but_attributes self.new ≡ but_attributes self.old }
    {
        let count = self.counts.attributes;
        if tables::claim_attribute(self.attributes, count, row) {
            self.counts.attributes = count + 1;
            return Ok(());
        }
        Err(self.no_row())
    }

    // The scope ends with the item: it begins anew behind the statements that are claimed.
    #[tactic(auto, unfolding(crate::specs::Stands::lent_words))]
    pub fn end_scope(&mut self)
        ensures runs { Runs end_scope self.old (Ok tt) self.new }
        ensures leaves { lent_words self.new ≡ lent_words self.old }
    {
        self.scope = self.counts.statements;
    }

    // Zeros behind the rows that are claimed, in each table.
    pub fn clear(&mut self)
        ensures clears { Cleared self.old.counts self.old.items.now self.old.statements.now self.old.operands.now self.old.attributes.now self.new.items.now self.new.statements.now self.new.operands.now self.new.attributes.now }
        ensures counts { self.new.counts ≡ self.old.counts }
        ensures keeps { Keeps self.old self.new }
        ensures stand { self.new.stand ≡ self.old.stand }
        ensures scope { self.new.scope ≡ self.old.scope }
        ensures index { self.new.index.now ≡ self.old.index.now }
    {
        let counts = self.counts;
        clear(self.items, counts.items as usize * ITEM_LENGTH);
        clear(
            self.statements,
            counts.statements as usize * STATEMENT_LENGTH,
        );
        clear(self.operands, counts.operands as usize * OPERAND_LENGTH);
        clear(
            self.attributes,
            counts.attributes as usize * ATTRIBUTE_LENGTH,
        );
    }
}
