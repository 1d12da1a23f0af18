// Lexes standard input as it comes, part after part as `read` gives them, in memory of a fixed size, and prints the report in a line:
// `tokens N`, or `refused NUMBER at PLACE after N tokens`. A failure is said on standard error.
#![tactic(auto)]

use rules::{LexRefusal, LexReport};
use std::io::{self, Read};
use stream::Stream;

fn main(rt: HostRuntime) {
    let mut part = [0u8; 65536];
    match feed(&mut rt.stdin(), &mut part) {
        Ok(state) => tell(&rt.stdout(), &rt.stderr(), state.end()),
        Err(_) => complain(&rt.stderr(), "standard input cannot be read"),
    }
}

// Feeds the lexer what each read brings, to the end of standard input. No more parts come than a 64-bit number counts.
fn feed<R: Read>(from: &mut R, part: &mut [u8]) -> io::Result<Stream> {
    let mut state = Stream::start();
    for _ in 0..u64::MAX {
        let n = from.read(part)?;
        if n == 0 {
            return Ok(state);
        }
        state = state.part(&part[..n]);
    }
    Err(io::ErrorKind::Other.into())
}

// Writes a report as a line, piece by piece: of each piece that cannot be written it is said.
fn tell(out: &impl Print, err: &impl Print, report: LexReport) {
    let tokens = report.tokens;
    let Some(LexRefusal { number, place }) = report.refusal else {
        put(out, err, b"tokens ");
        let _ = out.print(tokens);
        put(out, err, b"\n");
        return;
    };
    put(out, err, b"refused ");
    let _ = out.print(number);
    put(out, err, b" at ");
    let _ = out.print(place);
    put(out, err, b" after ");
    let _ = out.print(tokens);
    put(out, err, b" tokens\n");
}

// Writes to standard output.
fn put(out: &impl Print, err: &impl Print, bytes: &[u8]) {
    if out.write_all(bytes).is_err() {
        complain(err, "standard output cannot be written");
    }
}

// Says what failed.
fn complain(err: &impl Print, what: &str) {
    let _ = err.println(what);
}
