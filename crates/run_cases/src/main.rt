// Record files through the run: `stdin` beside src/ has the cases, for each its title and its bytes, in a form that is said there; `stdout` has for each its title, and
// then what `splitlist` prints for it: the Rust's listing, or document 01's refusal.
#![tactic(auto)]

use program_input::{CaseReader, Turn};
use std::io;
use std::io::Read;

// ---- a case is run

// How far the cases are read: `open` says that there is one.
#[derive(Clone, Copy)]
pub struct Reading {
    pub open: bool,
}

// The cases: the reader of their bytes, and how far they are read.
#[derive(Drop)]
pub struct Cases<'b> {
    pub case: CaseReader<'b>,
    pub reading: Reading,
}

impl Cases<'_> {
    // What the case that was read prints, where there is one.
    fn close(&self, rt: &impl Print) -> io::Result<()> {
        if self.reading.open {
            print_run::print_run(&mut io::writer(rt), self.case.bytes.bytes())?;
        }
        Ok(())
    }

    // The next case begins.
    fn next_case(&mut self, rt: &impl Print) -> io::Result<()> {
        self.close(rt)?;
        self.case.clear();
        self.case.high = None;
        self.reading.open = true;
        rt.write_all(b"=")
    }

    // A character more; a title is printed as it stands.
    fn turn(&mut self, rt: &impl Print, c: u8) -> io::Result<()> {
        match self.case.turn(c) {
            Turn::Begins => self.next_case(rt),
            Turn::Title(letter) => rt.write_all(&[letter]),
            Turn::Taken | Turn::Sign(_) => Ok(()),
        }
    }

    fn read_text(&mut self, rt: &impl Print, text: &[u8]) -> io::Result<()> {
        for c in text {
            self.turn(rt, *c)?;
        }
        Ok(())
    }
}

// ---- all cases

// All of standard input, a part at a time; the last case ends with it. A proved loop has to end, and nothing says that the input does: so the turns are counted, up to a
// number that no input uses up.
fn run(rt: &(impl Input + Print), buffer: &mut [u8]) -> io::Result<()> {
    let mut text = [0u8; 4096];
    let mut input = rt.reader();
    let mut s = Cases {
        case: CaseReader::new(buffer),
        reading: Reading { open: false },
    };
    for _ in 0..u64::MAX {
        let n = input.read(&mut text)?;
        if n == 0 {
            break;
        }
        s.read_text(rt, &text[..n])?;
    }
    s.close(rt)
}

// "a file over 65,536 bytes is refused first": one byte more is kept of a case, so that a longer one is refused and not cut.
// `main` of `splitlist` has the same room: a program has a `main` of its own, so it can't be shared.
fn main(rt: HostRuntime) -> io::Result<()> {
    let mut buffer = [0u8; 65537];
    run(&rt, &mut buffer)
}
