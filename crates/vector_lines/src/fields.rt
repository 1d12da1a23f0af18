// The fields of a line, each with a byte behind it that parts it from the next.
ghost use Rattle.std.specs.Prelude.{◌≤◌, length};

use crate::parts::{behind, front};
use crate::spelling::small_digit;

// The part of a line that is still to be read.
#[derive(Clone, Copy, Debug)]
pub struct Fields<'a> {
    rest: &'a [u8],
}

impl<'a> Fields<'a> {
    // The fields of a line.
    pub fn of(line: &'a [u8]) -> Fields<'a> {
        Fields { rest: line }
    }

    // The letter that stands next; 0 at the end.
    pub fn letter(&mut self) -> u8 {
        let letter = self.rest.first().copied().unwrap_or(0);
        self.rest = behind(self.rest, 2);
        letter
    }

    // The number that is written in decimal up to a space, and no more than `most`.
    pub fn number(&mut self, most: usize) -> usize
        ensures { result ≤ most }
    {
        let len = self
            .rest
            .iter()
            .position(|c| *c == b' ')
            .unwrap_or(self.rest.len());
        let value = front(self.rest, len).iter().fold(0, with_digit);
        self.rest = behind(self.rest, len + 1);
        value.min(most)
    }

    // The bytes that the hex digits of what is left write, as far as there is room.
    pub fn bytes<'b>(self, room: &'b mut [u8]) -> &'b [u8]
        ensures { length result.now ≤ length room.old }
    {
        let n = room.len().min(self.rest.len() / 2);
        for (byte, pair) in room.iter_mut().zip(self.rest.chunks_exact(2)) {
            *byte = small_digit(pair[0]) * 16 + small_digit(pair[1]);
        }
        front(room, n)
    }
}

// A number with one more digit, as far as it can be counted.
fn with_digit(value: usize, c: &u8) -> usize {
    value
        .saturating_mul(10)
        .saturating_add(small_digit(*c) as usize)
}
