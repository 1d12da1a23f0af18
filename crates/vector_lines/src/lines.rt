// The lines of a text.
ghost use Rattle.std.specs.Prelude.{◌≡◌, length, MatchOption};
ghost use Rattle.std.specs.Iterator.{at_most};
ghost use Rattle.vector_lines.specs.Lines.{IsFirstLine};

use crate::parts::{behind, front};

// The lines of a text that are still to come; each goes up to a line feed, or to the end.
#[derive(Drop)]
pub struct Lines<'a> {
    rest: &'a [u8],
}

impl<'a> Lines<'a> {
    // The lines of a text, without the line feeds that end them.
    pub fn of(text: &'a [u8]) -> Lines<'a>
        ensures { result.rest.now ≡ text.now }
    {
        Lines { rest: text }
    }
}

impl<'a> Iterator for Lines<'a> {
    type Item = &'a [u8];

    ghost next_gives = { λ s line t. MatchOption line (length s.rest.now ≡ 0) (λ l. IsFirstLine s.rest.now l.now t.rest.now) };

    ghost remaining = { λ s. at_most (length s.rest.now) };

    fn next(&mut self) -> Option<&'a [u8]> {
        let text = self.rest;
        if text.is_empty() {
            return None;
        }
        let len = scan::line_len(text);
        self.rest = behind(text, len + 1);
        Some(front(text, len))
    }
}
