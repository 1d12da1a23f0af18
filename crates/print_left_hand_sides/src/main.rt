// Prints the left-hand sides that standard input lists.
#![tactic(auto)]

use rules::Entry;

fn main(rt: HostRuntime) {
    front::run(
        &mut rt.stdin(),
        &rt.stdout(),
        &rt.stderr(),
        Entry::LeftHandSides,
    );
}
