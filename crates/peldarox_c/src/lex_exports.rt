// Lexing as it arrives, for C, as include/peldarox.h has it: the state lies in words that the caller lends, and a report is eight words of 64 bits.
ghost use Rattle.std.specs.Prelude.{◌≡◌};
ghost use Rattle.rules.specs.Streamed.{lex_report_of};
ghost use Rattle.stream.specs.Words.{nothing, too_few, Starts, Parts, end_report};

use rules::{LexRefusal, LexReport};
use stream::Stream;
use stream::words::{WORDS, keep, state_of};

// Nothing is reported before the end.
fn tell_nothing(report: &mut [u64; 8])
    ensures { report.new ≡ nothing }
{
    *report = [0; 8];
}

// The state has too few words: 9, and how many it needs.
fn tell_too_few(report: &mut [u64; 8])
    ensures { report.new ≡ too_few }
{
    *report = [9, 14, 0, 0, 0, 0, 0, 0];
}

// A report as eight words: number and place, 0 where nothing is refused, and how many tokens.
#[tactic(auto, unfolding(rules::specs::Streamed::lex_report_of))]
fn tell_lexed(r: LexReport, report: &mut [u64; 8])
    ensures { report.new ≡ lex_report_of r }
{
    let told = r.refusal.unwrap_or(LexRefusal {
        number: 0,
        place: 0,
    });
    *report = [
        told.number.into(),
        told.place,
        r.tokens.into(),
        0,
        0,
        0,
        0,
        0,
    ];
}

#[unsafe(no_mangle)]
pub extern "C" fn peldarox_lex_start(state: &mut [u64], report: &mut [u64; 8])
    ensures { Starts state.old report.new state.new }
{
    if state.len() < WORDS {
        tell_too_few(report);
        return;
    }
    keep(Stream::start(), state);
    tell_nothing(report);
}

#[unsafe(no_mangle)]
pub extern "C" fn peldarox_lex_part(state: &mut [u64], part: &[u8], report: &mut [u64; 8])
    ensures { Parts part.now state.old report.new state.new }
{
    if state.len() < WORDS {
        tell_too_few(report);
        return;
    }
    keep(state_of(state).part(part), state);
    tell_nothing(report);
}

#[unsafe(no_mangle)]
pub extern "C" fn peldarox_lex_end(state: &[u64], report: &mut [u64; 8])
    ensures { report.new ≡ end_report state.now }
{
    if state.len() < WORDS {
        tell_too_few(report);
        return;
    }
    tell_lexed(state_of(state).end(), report);
}
