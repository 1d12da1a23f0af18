// Writing into an output that is lent. Every writer is lent the unwritten rest of the output, writes there if there is room, and
// answers its whole length whether there is or not: on an empty output it measures.
#![tactic(auto)]

pub mod writer;

ghost use Rattle.std.specs.Prelude.{◌≡◌, min};
ghost use Rattle.rules.specs.Out.{Wrote};

// The smaller of two numbers: with an output's length, where its unwritten rest starts.
pub fn least(a: usize, b: usize) -> usize
    ensures { result ≡ min a b }
{
    a.min(b)
}

// Writes a word at the front of an output that has room for it, and answers the word's length. By a loop, as `copy_from_slice` calls `memmove`: the archive for C is to need
// no function from outside but `memset` and `memcpy`.
pub fn put(word: &[u8], out: &mut [u8]) -> usize
    ensures { Wrote word.now out.old out.new result }
{
    let n = word.len();
    if out.len() < n {
        return n;
    }
    for i in 0..n {
        out[i] = word[i];
    }
    n
}
