// The lexer: the next token of a text at or after a cursor. The text is lent to each call, and the cursor is a value.
#![tactic(auto)]

pub mod space;
pub mod token;

ghost use Rattle.std.specs.Prelude.{◌≡◌};
ghost use Rattle.rules.specs.Tokens.{token_at};

use rules::{Cursor, Front, Lexed, Token};

// The next token of the text at or after the cursor, or the end of the text, or where the text is refused.
pub fn next_token(text: &[u8], cursor: Cursor) -> Lexed
    ensures { result ≡ token_at text.now cursor.at }
{
    let at = cursor.at;
    if text.len() <= at {
        return Lexed::End;
    }
    let i = at + space::skip_gap(&text[at..]);
    match token::front(&text[i..]) {
        Front::Spelt(kind, n) => Lexed::Found(Token {
            kind,
            first: i,
            past: i + n,
        }),
        Front::Fault(n) => Lexed::Refused(i + n),
        Front::Nothing => Lexed::End,
    }
}
