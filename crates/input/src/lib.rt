// Standard input as it comes to the programs: bytes at the front of a buffer, in memory of a fixed size.
#![tactic(auto)]

ghost use Rattle.std.specs.Prelude.{◌≤◌, length, IfOk, IfErr};
ghost use Rattle.input.specs.Counts.{IsPrefixLen};

use std::io::Read;

// A read that failed, and how many bytes came before it.
#[derive(Clone, Copy, Debug, PartialEq, Eq)]
pub struct ReadFailed {
    pub bytes: usize,
}

// Reads until there is no more room or the input ends, and answers how many bytes stand at the front of `bytes`.
pub fn fill<R: Read>(from: &mut R, bytes: &mut [u8]) -> Result<usize, ReadFailed>
    ensures ok { IfOk result (λ n. IsPrefixLen n bytes.new) }
    ensures err { IfErr result (λ failed. IsPrefixLen failed.bytes bytes.new) }
{
    let mut done = 0;
    while done < bytes.len() {
        let n = from
            .read(&mut bytes[done..])
            .map_err(|_| ReadFailed { bytes: done })?;
        if n == 0 {
            break;
        }
        done += n;
    }
    Ok(done)
}

// The same, where a read that fails ends the input.
pub fn read_full<R: Read>(from: &mut R, bytes: &mut [u8]) -> usize
    ensures { IsPrefixLen result bytes.new }
{
    match fill(from, bytes) {
        Ok(n) => n,
        Err(failed) => failed.bytes,
    }
}
