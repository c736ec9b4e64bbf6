// The program `splitlist`: document 01, "records on standard input", and the listing on standard output.
#![tactic(auto)]

use program_input::read_full;
use std::io;

// "a file over 65,536 bytes is refused first": one byte more is read, so that a longer file is refused and not cut.
fn list(rt: &(impl Input + Print), buf: &mut [u8]) -> io::Result<()> {
    let n = read_full(&mut rt.reader(), buf)?;
    print_run::print_run(&mut io::writer(rt), &buf[..n])
}

fn main(rt: HostRuntime) -> io::Result<()> {
    let mut buf = [0u8; 65537];
    list(&rt, &mut buf)
}
