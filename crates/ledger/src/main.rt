// The ledger: the guarantee book as a tool for people (README.md). With no argument it answers standard input; with a journal's name it
// keeps the book in that file.
#![tactic(auto)]

fn main(rt: HostRuntime) {
    serving::run(&rt);
}
