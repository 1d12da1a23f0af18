// Standard output and standard error. No contract can say which bytes go there; nothing is cut in silence: what fails is said on standard error.
use rules::Refusal;

// Writes a print, which stands at the front of the output, or a refusal as a line.
pub fn tell(out: &impl Print, err: &impl Print, printed: Result<u64, Refusal>, output: &[u8]) {
    match printed {
        Ok(n) => put_front(out, err, output, n),
        Err(refusal) => say_refusal(out, err, refusal.reason.number(), refusal.place),
    }
}

// Writes the first bytes of an output.
pub fn put_front(out: &impl Print, err: &impl Print, output: &[u8], bytes: u64) {
    put(out, err, output.get(..bytes as usize).unwrap_or(output));
}

// Says a refusal as a line on standard error.
pub fn refuse(err: &impl Print, refusal: Refusal) {
    say_refusal(err, err, refusal.reason.number(), refusal.place);
}

// Writes a refusal of any number as a line, piece by piece: of each piece that cannot be written it is said.
pub fn say_refusal(to: &impl Print, err: &impl Print, number: u32, place: u64) {
    put(to, err, b"refused ");
    let _ = to.print(number);
    put(to, err, b" at ");
    let _ = to.print(place);
    put(to, err, b"\n");
}

// Writes to standard output or standard error.
fn put(to: &impl Print, err: &impl Print, bytes: &[u8]) {
    if to.write_all(bytes).is_err() {
        complain(err, "standard output cannot be written");
    }
}

// Says what failed, as a line.
pub fn complain(err: &impl Print, what: &str) {
    let _ = err.println(what);
}

// Says what failed, in bytes that end a line or do not.
pub fn complain_in(err: &impl Print, what: &[u8]) {
    let _ = err.write_all(what);
}
