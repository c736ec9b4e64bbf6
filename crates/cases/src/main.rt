// Document 01's cases through the entries' functions: for each case a line with the answer's number, section and address, and then the
// bytes that are left in the outputs. `stdout` beside src/ has what must come out; the same cases are a theorem over the definition in
// crates/toposort/proofs/Cases.antt.
#![tactic(auto)]

use program_input::Answer;
use std::io;

fn show_bytes(rt: &impl Print, bytes: &[u8]) -> io::Result<()> {
    for b in bytes {
        print!(rt; " {b}")?;
    }
    println!(rt; "")
}

// A call of the entry, whose two outputs are slices of their own.
fn toposort(
    rt: &impl Print,
    nodes: u32,
    edges: &[u8],
    out: &mut [u8],
    counts: &mut [u8],
) -> io::Result<()> {
    let answer = Answer {
        word: entry_toposort::toposort(nodes, edges, out, counts),
    };
    println!(rt; "{answer}")?;
    show_bytes(rt, out)?;
    show_bytes(rt, counts)
}

// P1 to P4; the outputs hold other bytes before.
fn toposort_cases(rt: &impl Print) -> io::Result<()> {
    let mut counts = [9u8; 2];
    let mut none: [u8; 0] = [];
    let edges: [u8; 0] = [];
    print!(rt; "P1 ")?;
    toposort(rt, 0, &edges, &mut none, &mut counts)?;
    let mut four = [9u8; 8];
    print!(rt; "P2 ")?;
    toposort(
        rt,
        3,
        b"\x00\x00\x02\x00\x01\x00\x02\x00",
        &mut four,
        &mut counts,
    )?;
    let mut three = [9u8; 6];
    print!(rt; "P3 ")?;
    toposort(
        rt,
        3,
        b"\x00\x00\x01\x00\x01\x00\x02\x00\x02\x00\x01\x00",
        &mut three,
        &mut counts,
    )?;
    let mut two = [9u8; 4];
    print!(rt; "P4 ")?;
    toposort(rt, 2, b"\x00\x00\x02\x00", &mut two, &mut counts)
}

// The other refusals, and outputs that are odd or too short.
fn toposort_refusals(rt: &impl Print) -> io::Result<()> {
    let mut out = [9u8; 5];
    let mut counts = [9u8; 3];
    let edges: [u8; 0] = [];
    print!(rt; "nodes ")?;
    toposort(rt, 1025, &edges, &mut out, &mut counts)?;
    let mut again = [9u8; 5];
    print!(rt; "cut ")?;
    toposort(
        rt,
        2,
        b"\x00\x00\x01\x00\x01\x00\x00",
        &mut again,
        &mut counts,
    )?;
    let many = [0u8; 8196];
    let mut third = [9u8; 5];
    print!(rt; "edges ")?;
    toposort(rt, 1, &many, &mut third, &mut counts)?;
    let mut short = [9u8; 3];
    let mut one = [9u8; 1];
    print!(rt; "short ")?;
    toposort(
        rt,
        2,
        b"\x00\x00\x01\x00\x01\x00\x00\x00",
        &mut short,
        &mut one,
    )
}

fn main(rt: HostRuntime) -> io::Result<()> {
    toposort_cases(&rt)?;
    toposort_refusals(&rt)
}
