// Names looked for among the statement rows of an item: the newest rows one by one, those before them by an index. In the index each name has a slot by its letters, each slot
// a head, which leads to the last row held that has the slot, and each row a link, which leads to the row before it that has the same slot. Nothing is cleared between items:
// rows below the item's first are passed by. Any words may be lent as an index; what is found in one that holds what was entered is what a search along the rows finds.
#![tactic(auto)]

ghost use Rattle.std.specs.Prelude.{◌≡◌, ℕ, ◌+◌, ◌-◌, ◌≤◌, ◌<◌, max, length, get_or};
ghost use Rattle.rules.specs.Reading.{find_row};
ghost use Rattle.index.specs.Slots.{slot_of, slots_in};
ghost use Rattle.index.specs.Linked.{room as room_of, held, Linked, Holds};

use tables::letters;
use tables::rows::name_at;

// How many heads an index has: as many as there are slots. Behind them stands how many rows it holds, and behind that a link for each row.
pub const HEADS: usize = 1024;

// So many rows are looked along before they enter.
const NEAR: u32 = 8;

// The slot of a name: the letters behind its '%' are the digits of a number. No letters have none.
#[tactic(auto, unfolding(crate::specs::Slots::slot_of))]
fn slot_of(name: &[u8]) -> usize
    ensures { (result ≡ slot_of name.now) × (result ≤ 1024) }
{
    let Some((_, letters)) = name.split_first() else {
        return HEADS;
    };
    let mut h: usize = 0;
    for letter in letters {
        h = (h * 37 + *letter as usize) % HEADS;
    }
    h
}

// A word of an index; 0 past its end.
fn entry(index: &[u16], at: usize) -> u32
    ensures { result ≡ get_or index.now at 0 }
{
    index.get(at).copied().unwrap_or(0) as u32
}

// The link of a row.
fn link(index: &[u16], row: u32) -> u32
    ensures { result ≡ get_or index.now (1025 + row) 0 }
{
    entry(index, HEADS + 1 + row as usize)
}

// The first row that an index does not hold, or the item's first row.
fn near(index: &[u16], first: u32) -> u32
    ensures { result ≡ max first (held index.now) }
{
    first.max(entry(index, HEADS))
}

// How many rows an index has links for.
#[tactic(auto, unfolding(crate::specs::Linked::room))]
fn room(index: &[u16]) -> u32
    ensures { result ≡ room_of index.now }
{
    index.len().saturating_sub(HEADS + 1).min(65535) as u32
}

// The row behind those that were entered enters under its slot; a row that has none does not.
fn enter(index: &mut [u16], row: u32, slot: usize)
    requires { row < room_of index.old }
    ensures { (length index.new ≡ length index.old) × ((slots : ℕ → ℕ) (first : ℕ) → slots row ≡ slot → Linked slots index.old first row → Linked slots index.new first (row + 1)) }
{
    if HEADS <= slot {
        return;
    }
    index[HEADS + 1 + row as usize] = index[slot];
    index[slot] = (row + 1) as u16;
}

// The statement rows from one up to another enter, behind those that were entered; then the index holds them.
fn enter_rows(text: &[u8], statements: &[u32], index: &mut [u16], from: u32, past: u32)
    requires { (from ≤ past) × (past ≤ room_of index.old) × (0 < past) }
    ensures { (first : ℕ) → first ≤ past → Linked (slots_in text.now statements.now) index.old first from → Holds text.now statements.now index.new first past }
{
    for i in from..past {
        let span = name_at(statements, i);
        enter(index, i, slot_of(letters(text, span.first, span.past)));
    }
    index[HEADS] = past as u16;
}

// The statement rows of an item enter, from `first` up to `past`, once there are many that have not and where the index has links for them.
pub fn hold(text: &[u8], statements: &[u32], index: &mut [u16], first: u32, past: u32)
    ensures { Holds text.now statements.now index.old first past → Holds text.now statements.now index.new first past }
{
    let from = near(index, first);
    if past <= from {
        return;
    }
    if past - from < NEAR {
        return;
    }
    if room(index) < past {
        return;
    }
    enter_rows(text, statements, index, from, past);
}

// The last of the statement rows from `first` up to `past` that has a name, row by row: on to the next candidate at the first letter that differs. The letters are
// compared from the last one back, since the names of an item mostly differ there.
fn along(text: &[u8], statements: &[u32], name: &[u8], first: u32, past: u32) -> Option<u32>
    ensures { result ≡ find_row text.now statements.now name.now first (past - first) }
{
    let mut i = past;
    'candidates: while first < i {
        i -= 1;
        let span = name_at(statements, i);
        let other = letters(text, span.first, span.past);
        if other.len() != name.len() {
            continue 'candidates;
        }
        let mut j = name.len();
        while 0 < j {
            j -= 1;
            if other[j] != name[j] {
                continue 'candidates;
            }
        }
        return Some(i);
    }
    None
}

// The last row from `first` on that has a name, by the links from a slot's head down: on to the next row at the first letter that differs.
fn by_links(
    text: &[u8],
    statements: &[u32],
    index: &[u16],
    name: &[u8],
    first: u32,
    slot: usize,
) -> Option<u32>
    ensures { (past : ℕ) → slot < 1024 → slot ≡ slot_of name.now → Linked (slots_in text.now statements.now) index.now first past → result ≡ find_row text.now statements.now name.now first (past - first) }
{
    let mut i = entry(index, slot);
    'candidates: while first < i {
        let row = i - 1;
        let next = link(index, row);
        if row < next {
            return None;
        }
        i = next;
        let span = name_at(statements, row);
        let linked = letters(text, span.first, span.past);
        if linked.len() != name.len() {
            continue 'candidates;
        }
        let mut j = name.len();
        while 0 < j {
            j -= 1;
            if linked[j] != name[j] {
                continue 'candidates;
            }
        }
        return Some(row);
    }
    None
}

// The last of the rows from `first` up to `past` that has a name, where the index holds them.
fn among_held(
    text: &[u8],
    statements: &[u32],
    index: &[u16],
    name: &[u8],
    first: u32,
    past: u32,
) -> Option<u32>
    ensures { (first < past → Linked (slots_in text.now statements.now) index.now first past) → result ≡ find_row text.now statements.now name.now first (past - first) }
{
    if past <= first {
        return None;
    }
    let slot = slot_of(name);
    if HEADS <= slot {
        return along(text, statements, name, first, past);
    }
    by_links(text, statements, index, name, first, slot)
}

// The last of the statement rows from `first` up to `past` that has a name.
pub fn find(
    text: &[u8],
    statements: &[u32],
    index: &[u16],
    name: &[u8],
    first: u32,
    past: u32,
) -> Option<u32>
    ensures { Holds text.now statements.now index.now first past → result ≡ find_row text.now statements.now name.now first (past - first) }
{
    let from = near(index, first);
    match along(text, statements, name, from, past) {
        Some(r) => Some(r),
        None => among_held(text, statements, index, name, first, from),
    }
}
