// The judging program: a plan file on standard input, its verdict and, for a plan that fails, its shown run on standard output.
// Of input that is longer than any plan file no more is read than shows that it is.
#![tactic(auto)]

use std::io;
use streams::read_start;

fn main(rt: HostRuntime) -> io::Result<()> {
    let mut file = [0u8; 4096];
    let n = read_start(&mut rt.stdin(), &mut file);
    judging::tell(&rt, &file[..n])
}
