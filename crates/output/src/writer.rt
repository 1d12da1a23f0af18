// A writer: it lends to each word in turn what the words before it left of an output.
ghost use Rattle.std.specs.Prelude.{◌≡◌, List, ℕ, ◌<◌, ◌^◌};
ghost use Rattle.output.specs.Writing.{Put, Writes};

use crate::put;

// An output that is lent, and how many bytes were to be written into it so far, whether there was room for them or not.
#[derive(Drop)]
pub struct Writer<'a> {
    pub out: &'a mut [u8],
    pub count: usize,
}

impl<'a> Writer<'a> {
    // A writer that has written nothing.
    pub fn new(out: &'a mut [u8]) -> Writer<'a>
        ensures same_reference { result.out.ghost_name ≡ out.entry.ghost_name }
        ensures same { result.out.now ≡ out.old }
        ensures nothing { result.count ≡ 0 }
    {
        Writer { out, count: 0 }
    }

    // Writes a word behind all that was written.
    pub fn put(&mut self, word: &[u8])
        ensures { Writes word.now self.old self.new }
    {
        self.append(|rest| put(word, rest));
    }

    // Lends the unwritten rest to what writes a word there and answers its length.
    pub fn append<F: FnOnce(&mut [u8]) -> usize>(&mut self, write: F)
        requires callable { F.IsAlwaysCallable write }
        ensures { (word : List ℕ) → ((rest : _) (n : ℕ) (left : _) → F.post write rest n left → n < 2 ^ 64 → Put word rest.now left.now n) → Writes word self.old self.new }
    {
        let at = self.count.min(self.out.len());
        let n = write(&mut self.out[at..]);
        self.count = self.count.saturating_add(n);
    }
}
