// A table's count, and the words past the counted rows.
ghost use Rattle.std.specs.Prelude.{◌≡◌, ◌≤◌};
ghost use Rattle.rules.specs.WellFormed.{only, is_zero, table_ok};

// Whether words are all unused.
fn unused(words: &[u32]) -> bool
    ensures { result ≡ only is_zero words.now }
{
    words.iter().all(|w| *w == 0)
}

// Whether a table of rows of a length has room for so many rows, and is 0 behind them.
#[tactic(auto, unfolding(rules::specs::WellFormed::table_ok, rules::specs::WellFormed::count_fits, rules::specs::WellFormed::rest_unused))]
pub fn table_ok(table: &[u32], length: usize, rows: u64) -> bool
    requires { 1 ≤ length }
    ensures { result ≡ table_ok length table.now rows }
{
    let n = rows as usize;
    if 65536 < n {
        return false;
    }
    if table.len() / length < n {
        return false;
    }
    let at = n * length;
    unused(&table[at..])
}
