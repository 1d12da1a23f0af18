// Bytes that a line spells, and hex digits.
ghost use Rattle.std.specs.Prelude.{◌≤◌, ◌<◌, length};

use crate::parts::{behind, front};

// What a line spells first: a byte, how often it stands, and how many bytes of the line say so.
#[derive(Clone, Copy, Debug, PartialEq, Eq)]
pub struct Spelt {
    pub byte: u8,
    pub times: usize,
    pub len: usize,
}

impl Spelt {
    // A byte that so many bytes of a line say.
    pub fn once(byte: u8, len: usize) -> Spelt {
        Spelt {
            byte,
            times: 1,
            len,
        }
    }
}

// The bytes that a line spells, as far as there is room, where `first` says what stands first in each part of the line.
pub fn spell<'b, F: Fn(&[u8]) -> Spelt>(line: &[u8], room: &'b mut [u8], first: F) -> &'b [u8]
    requires { F.IsAlwaysCallable first }
    ensures { length result.now ≤ length room.old }
{
    let mut rest = line;
    let mut n: usize = 0;
    while !rest.is_empty() {
        let next = first(rest);
        let past = n.saturating_add(next.times).min(room.len());
        room[n..past].fill(next.byte);
        n = past;
        rest = behind(rest, next.len.max(1));
    }
    front(room, n)
}

// The number that a hex digit stands for, its letters being small; 0 for any other byte.
pub fn small_digit(c: u8) -> u8
    ensures { result < 16 }
{
    if c.is_ascii_uppercase() { 0 } else { digit(c) }
}

// The number that a hex digit stands for, its letters being capitals; 0 for any other byte.
pub fn capital_digit(c: u8) -> u8
    ensures { result < 16 }
{
    if c.is_ascii_lowercase() { 0 } else { digit(c) }
}

// The number that a hex digit stands for; 0 for any other byte.
fn digit(c: u8) -> u8
    ensures { result < 16 }
{
    char::from(c).to_digit(16).unwrap_or(0) as u8
}
