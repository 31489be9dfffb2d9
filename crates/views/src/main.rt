// A test of what is shown of a journal: the ledger is run for each group of arguments between two words `/`, so that the gate compares items, extracts
// and an audit with the reference.
#![tactic(auto)]

// Whether the argument at a place is the word between two groups.
fn is_between(rt: &HostRuntime, place: usize) -> bool {
    let mut word = io::buffer();
    storage::argument(rt, place, &mut word).is_ok_and(|n| &word[..n] == b"/".as_slice())
}

fn main(rt: HostRuntime) {
    let count = storage::argument_count(&rt);
    let mut from = 1;
    for place in 1..count {
        if is_between(&rt, place) {
            serving::run_by(&rt, from, place);
            from = place + 1;
        }
    }
    serving::run_by(&rt, from, count);
}
