// Where a parser stands, and the text that it reads.
ghost use Rattle.std.specs.Prelude.{◌≤◌, length};
ghost use Rattle.std.specs.Option.{ForSome};

use rules::Spot;

// A text whose places fit the rows: at most 65,536 bytes.
#[derive(Clone, Copy)]
pub struct Text<'a> {
    pub bytes: &'a [u8],
    ghost short: { length bytes.now ≤ 65536 },
}

// Past the last token lexed; the token looked at and not yet taken; the last token found.
#[derive(Clone, Copy)]
pub struct Stand {
    pub at: u32,
    pub ahead: Option<Spot>,
    pub last: Spot,
    ghost seen: { ForSome ahead (λ t. 1 ≤ t.kind) },
}
