// A test of the kept way: the ledger keeps the journal that its argument names, and then the file is printed behind a line `--`, so that the
// gate compares the answers and what was kept.
#![tactic(auto)]

use std::fs::File;
use std::os::fd::AsRawFd;
use std::str;
use storage::Stream;

// Prints bytes.
fn print(rt: &HostRuntime, bytes: &[u8]) {
    let _ = storage::write_whole(rt, Stream::Output, bytes);
}

// Prints the first 65,536 bytes of the file with a name, if it can be had.
fn print_file(rt: &HostRuntime, name: &[u8]) {
    let Ok(path) = str::from_utf8(name) else {
        return;
    };
    if let Ok(file) = File::open(rt, path) {
        let mut buffer = io::large_buffer();
        let n = io::read_full(file.as_raw_fd(), &mut buffer);
        print(rt, &buffer[..n]);
    }
}

fn main(rt: HostRuntime) {
    serving::run(&rt);
    print(&rt, b"--\n");
    let mut name = io::buffer();
    if let Ok(n) = storage::argument(&rt, 1, &mut name) {
        print_file(&rt, &name[..n]);
    }
}
