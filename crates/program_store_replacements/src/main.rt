// Stores the replacements that standard input lists, as a file on standard output.
#![tactic(auto)]

use rules::Entry;

fn main(rt: HostRuntime) {
    front_stored::store(
        &mut rt.stdin(),
        &rt.stdout(),
        &rt.stderr(),
        Entry::Replacements,
    );
}
