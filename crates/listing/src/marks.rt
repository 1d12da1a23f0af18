// Marks: which rows are listed already. They stand in the work area before the stack, a word each, and are known through these functions alone.
ghost use Rattle.std.specs.Prelude.{◌≡◌, ◌≤◌, ◌<◌, length};
ghost use Rattle.listing.specs.Listing.{none};
ghost use Rattle.listing.specs.Work.{has_mark, with_mark, marks_of};

// Whether a row has a mark.
pub fn is_marked(work: &[u32], row: u32) -> bool
    requires { row < length work.now }
    ensures { result ≡ has_mark work.now row }
{
    work[row as usize] != 0
}

// Gives a row its mark.
pub fn mark(work: &mut [u32], row: u32)
    requires { row < length work.old }
    ensures { work.new ≡ with_mark work.old row }
{
    work[row as usize] = 1;
}

// Takes the marks of all rows away.
pub fn clear_marks(work: &mut [u32], rows: u32)
    requires { rows ≤ length work.old }
    ensures { marks_of work.new rows ≡ none }
{
    for i in 0..rows as usize {
        work[i] = 0;
    }
}
