// The state as fourteen words of 64 bits, for callers that can keep nothing else between calls; and back, from any words.
ghost use Rattle.std.specs.Prelude.{◌≡◌, ◌≤◌, ◌++◌, length, drop};
ghost use Rattle.stream.specs.Words.{low_of, byte_of, numbers_of, Small, mode_numbers, mode_of, sequence_numbers, sequence_of, ahead_of, decoded, Keeps};

use crate::{Ahead, Lexing, Mode, Sequence, Stream};

// How many words a state has.
pub const WORDS: usize = 14;

// Where a machine stands, as numbers: in which of its states, and what that state holds.
#[derive(Clone, Copy, Debug, PartialEq, Eq)]
pub struct Numbers {
    pub tag: u64,
    pub first: u64,
    pub size: u64,
    pub kind: u64,
    pub lo: u64,
    pub hi: u64,
    pub more: u64,
}

// The low 32 bits of a word.
fn low(w: u64) -> u32
    ensures { result ≡ low_of w }
{
    (w % 4294967296) as u32
}

// The low 8 bits of a word.
fn byte(w: u64) -> u8
    ensures { result ≡ byte_of w }
{
    (w % 256) as u8
}

impl Numbers {
    // Numbers that a word takes and gives back.
    fn plain(tag: u64, first: u32, size: u32, kind: u32) -> Self
        ensures value { result ≡ numbers_of tag first size kind 0 0 0 }
        ensures small { Small first size kind 0 0 0 }
    {
        Numbers {
            tag,
            first: first.into(),
            size: size.into(),
            kind: kind.into(),
            lo: 0,
            hi: 0,
            more: 0,
        }
    }

    // The same of a state inside a sequence.
    fn inside(tag: u64, first: u32, size: u32, ahead: Ahead) -> Self
        ensures value { result ≡ numbers_of tag first size 0 ahead.lo ahead.hi ahead.more }
        ensures small { Small first size 0 ahead.lo ahead.hi ahead.more }
    {
        Numbers {
            tag,
            first: first.into(),
            size: size.into(),
            kind: 0,
            lo: ahead.lo.into(),
            hi: ahead.hi.into(),
            more: ahead.more.into(),
        }
    }

    // The same of a refusal, whose place has all 64 bits.
    fn stopped(number: u32, place: u64) -> Self
        ensures value { result ≡ numbers_of 7 place number 0 0 0 0 }
        ensures fits { low_of number ≡ number }
    {
        Numbers {
            tag: 7,
            first: place,
            size: number.into(),
            kind: 0,
            lo: 0,
            hi: 0,
            more: 0,
        }
    }

    // What a sequence needs, from numbers.
    fn ahead(self) -> Ahead
        ensures { result ≡ ahead_of self }
    {
        Ahead {
            lo: byte(self.lo),
            hi: byte(self.hi),
            more: byte(self.more),
        }
    }
}

// A mode as numbers, which are that mode.
impl From<Mode> for Numbers {
    ghost from_gives = { λ m n. (n ≡ mode_numbers m) × (mode_of n ≡ m) };

    fn from(mode: Mode) -> Self {
        match mode {
            Mode::Gap => Numbers::plain(0, 0, 0, 0),
            Mode::Comment => Numbers::plain(1, 0, 0, 0),
            Mode::Wide { first, ahead, code } => Numbers::inside(2, first, code, ahead),
            Mode::Percent { first } => Numbers::plain(3, first, 0, 0),
            Mode::Run {
                kind,
                first,
                length,
            } => Numbers::plain(4, first, length, kind),
            Mode::Known { first, letters } => Numbers::plain(5, first, letters, 0),
            Mode::Equals { first } => Numbers::plain(6, first, 0, 0),
            Mode::Stopped { number, place } => Numbers::stopped(number, place),
        }
    }
}

// Where the check of UTF-8 stands as numbers, which are that place.
impl From<Sequence> for Numbers {
    ghost from_gives = { λ s n. (n ≡ sequence_numbers s) × (sequence_of n ≡ s) };

    fn from(sequence: Sequence) -> Self {
        match sequence {
            Sequence::Between => Numbers::plain(0, 0, 0, 0),
            Sequence::Inside(first, ahead) => Numbers::inside(1, first, 0, ahead),
            Sequence::Bad(first) => Numbers::plain(2, first, 0, 0),
        }
    }
}

// The mode that numbers are; any are one.
impl From<Numbers> for Mode {
    ghost from_gives = { λ n m. m ≡ mode_of n };

    #[tactic(auto, unfolding(crate::specs::Words::mode_of))]
    fn from(n: Numbers) -> Self {
        let first = low(n.first);
        let size = low(n.size);
        match n.tag {
            0 => Mode::Gap,
            1 => Mode::Comment,
            2 => Mode::Wide {
                first,
                ahead: n.ahead(),
                code: size,
            },
            3 => Mode::Percent { first },
            4 => Mode::Run {
                kind: low(n.kind),
                first,
                length: size,
            },
            5 => Mode::Known {
                first,
                letters: size,
            },
            6 => Mode::Equals { first },
            _ => Mode::Stopped {
                number: size,
                place: n.first,
            },
        }
    }
}

// Where the check of UTF-8 stands, from numbers; any are a place.
impl From<Numbers> for Sequence {
    ghost from_gives = { λ n s. s ≡ sequence_of n };

    #[tactic(auto, unfolding(crate::specs::Words::sequence_of))]
    fn from(n: Numbers) -> Self {
        let first = low(n.first);
        match n.tag {
            0 => Sequence::Between,
            1 => Sequence::Inside(first, n.ahead()),
            _ => Sequence::Bad(first),
        }
    }
}

// The state that words are.
#[tactic(auto, unfolding(crate::specs::Words::decoded))]
pub fn state_of(words: &[u64]) -> Stream
    requires { 14 ≤ length words.now }
    ensures { result ≡ decoded words.now }
{
    let mode = Mode::from(Numbers {
        tag: words[2],
        first: words[3],
        size: words[4],
        kind: words[5],
        lo: words[6],
        hi: words[7],
        more: words[8],
    });
    let sequence = Sequence::from(Numbers {
        tag: words[9],
        first: words[10],
        size: 0,
        kind: 0,
        lo: words[11],
        hi: words[12],
        more: words[13],
    });
    Stream {
        seen: low(words[0]),
        sequence,
        lexing: Lexing {
            mode,
            count: low(words[1]),
        },
    }
}

// A count that a word takes and gives back.
fn counted(n: u32) -> u64
    ensures value { result ≡ n }
    ensures fits { low_of n ≡ n }
{
    n.into()
}

// Stores a row at the front of words; those behind it stay. By a loop: with `copy_from_slice` here and `fold` in `Stream::short_part` a text in single bytes takes half as long again.
fn put(row: &[u64], words: &mut [u64])
    requires { length row.now ≤ length words.old }
    ensures { words.new ≡ row.now ++ drop (length row.now) words.old }
{
    for i in 0..row.len() {
        words[i] = row[i];
    }
}

// Keeps the state in words; those behind its own stay.
pub fn keep(s: Stream, words: &mut [u64])
    requires { 14 ≤ length words.old }
    ensures { Keeps s words.old words.new }
{
    let seen = counted(s.seen);
    let tokens = counted(s.lexing.count);
    let m = Numbers::from(s.lexing.mode);
    let q = Numbers::from(s.sequence);
    put(
        &[
            seen, tokens, m.tag, m.first, m.size, m.kind, m.lo, m.hi, m.more, q.tag, q.first, q.lo,
            q.hi, q.more,
        ],
        words,
    );
}
