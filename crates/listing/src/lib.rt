// The listing: each statement after all it refers to, depth first. A walk hands out one row after another, so that measuring, writing and counting go the same way.
// The work area has a mark for each of the counted rows and then the stack, 3S + O + 1 words in all; marks are kept from root to root.
#![tactic(auto)]

pub mod marks;
mod stack;

ghost use Rattle.std.specs.Prelude.{◌≡◌, List, ℕ, suc, ◌+◌, ◌≤◌, ◌<◌, length, get_or, false, None};
ghost use Rattle.listing.specs.References.{Sound};
ghost use Rattle.listing.specs.Machine.{trace as tracing};
ghost use Rattle.listing.specs.Work.{has_mark, entry_of, Ready, Begun, Traced, Advanced};

// The counted statement rows and their operands, which a walk follows.
#[derive(Clone, Copy)]
pub struct Graph<'a> {
    pub statements: &'a [u32],
    pub operands: &'a [u32],
    pub rows: u32,
}

// Where a walk stands: how many words its stack has.
#[derive(Clone, Copy)]
pub struct Walk {
    pub depth: usize,
}

impl Graph<'_> {
    // A walk that lists what a root reaches, without the rows that have a mark.
    pub fn begin(&self, work: &mut [u32], root: u32) -> Walk
        requires rows_in_bounds { self.now.rows < length work.old }
        requires rows_bound { self.now.rows ≤ 65536 }
        requires root_lt_rows { root < self.now.rows }
        ensures { (statements : List ℕ) (operands : List ℕ) → Sound statements operands self.now.rows → Ready statements operands self.now.rows work.old 0 → Begun statements operands self.now.rows work.old root work.new result.depth }
    {
        work[self.rows as usize] = 2 * root;
        Walk { depth: 1 }
    }

    // How many words the stack has once a row, popped from its top with no mark, has its mark and stands there as finished, under all it refers to.
    fn trace(&self, work: &mut [u32], depth: usize, row: u32) -> usize
        requires sound { Sound self.now.statements.now self.now.operands.now self.now.rows }
        requires ready { Ready self.now.statements.now self.now.operands.now self.now.rows work.old (suc depth) }
        requires row_lt_rows { row < self.now.rows }
        requires traced { entry_of (get_or work.old (self.now.rows + depth) 0) ≡ tracing row }
        requires unmarked { has_mark work.old row ≡ false }
        ensures { Traced self.now.statements.now self.now.operands.now self.now.rows work.old (suc depth) work.new result }
    {
        let base = self.rows as usize;
        marks::mark(work, row);
        work[base + depth] = 2 * row + 1;
        stack::push_references(self.statements, self.operands, work, base, depth + 1, row)
    }

    // The next row of a walk, and none at its end, where the walk stays as it was.
    pub fn advance(&self, work: &mut [u32], walk: &mut Walk) -> Option<u32>
        requires sound { Sound self.now.statements.now self.now.operands.now self.now.rows }
        requires ready { Ready self.now.statements.now self.now.operands.now self.now.rows work.old walk.old.depth }
        ensures advanced { Advanced self.now.statements.now self.now.operands.now self.now.rows work.old walk.old.depth work.new result walk.new.depth }
        ensures stays_at_end { result ≡ None → walk.new ≡ walk.old }
    {
        let base = self.rows as usize;
        let mut depth = walk.depth;
        while 0 < depth {
            depth -= 1;
            let entry = work[base + depth];
            let row = entry / 2;
            if entry % 2 == 1 {
                walk.depth = depth;
                return Some(row);
            }
            let unmarked = !marks::is_marked(work, row);
            if unmarked {
                depth = self.trace(work, depth, row);
            }
        }
        None
    }
}
