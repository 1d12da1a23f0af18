// Prints the stored file that standard input is.
#![tactic(auto)]

fn main(rt: HostRuntime) {
    front_stored::print(&mut rt.stdin(), &rt.stdout(), &rt.stderr());
}
