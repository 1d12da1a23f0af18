// Which names were seen: each name has a slot among some marks, by its letters. A name whose slot has no mark is new; names may share a slot.
ghost use Rattle.std.specs.Prelude.{◌≡◌, ◌≤◌, ◌<◌};
ghost use Rattle.wellformed.specs.Slots.{slot_of};

// The slot of a name among n marks: its letters are the digits of a number.
pub fn slot(name: &[u8], n: usize) -> usize
    requires { 1 ≤ n }
    ensures { (result ≡ slot_of n name.now) × (result < n) }
{
    let mut h: usize = 0;
    for letter in name {
        h = (h * 37 + *letter as usize) % 65536;
    }
    h % n
}
