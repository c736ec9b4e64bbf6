// Record files and stage tables through the entries `check_file` and `check_tables`. `stdin` beside src/ has the cases: for each its title and its bytes, in a
// form that is said there. For each case a line is printed: its title, the answer's number, section and address, and for a file the counts of names,
// sections, symbols, relocations, splits and units. `stdout` has what must come out, by document 01 and the decisions.
#![tactic(auto)]

use program_input::{Answer, CaseReader, Gathered, Turn, digit, longer, read_full};
use std::io;

// ---- what is read

// What the next character belongs to.
#[derive(Clone, Copy)]
pub enum Mode {
    // what every program's cases have
    Case,
    // `"text"`
    Text,
    // `@width*count`: the last `width` bytes stand so many times in all
    Width { width: usize },
    // `<k` keeps the first k tables of the case before
    Keep,
}

// How far a case is read: table k ends at cuts[k].
#[derive(Clone, Copy)]
pub struct Reading {
    pub mode: Mode,
    pub table: usize,
    pub cuts: [usize; 9],
}

// The cases: the reader of their bytes, and how far the one that is read is read.
#[derive(Drop)]
pub struct Cases<'b> {
    pub case: CaseReader<'b>,
    pub reading: Reading,
}

// Bytes more.
fn push_all(bytes: &mut Gathered, more: &[u8]) {
    for byte in more {
        bytes.push(*byte);
    }
}

// The record of name i, of two bytes that no other name has.
fn push_name(bytes: &mut Gathered, i: usize) {
    push_all(bytes, b"\x02\x00\x00\x00\x01\x00");
    bytes.push((33 + i / 94 % 94) as u8);
    bytes.push((33 + i % 94) as u8);
}

// A record file's 4,096 names of two bytes, all different.
fn push_names(bytes: &mut Gathered) {
    for i in 0..4096 {
        push_name(bytes, i);
    }
}

// ---- a character more. Each kind of character takes the reading, what is printed to and the character: a struct of these would be made for one character.

impl Cases<'_> {
    fn add_names(&mut self) {
        push_names(&mut self.case.bytes);
        self.case.high = None;
    }

    fn in_text(&mut self, c: u8) {
        if c == b'"' {
            self.reading.mode = Mode::Case;
            return;
        }
        self.case.add(c);
    }

    fn in_width(&mut self, width: usize, c: u8) {
        if let Some(d @ 0..=9) = digit(c) {
            let width = longer(width, d);
            self.reading.mode = Mode::Width { width };
            return;
        }
        self.reading.mode = Mode::Case;
        self.case.start_count(width);
    }

    // Table k ends where the bytes so far do.
    fn cut(&mut self) {
        if self.reading.table < 9 {
            self.reading.cuts[self.reading.table] = self.case.bytes.used;
            self.reading.table += 1;
        }
    }

    fn in_keep(&mut self, c: u8) {
        self.reading.mode = Mode::Case;
        if let Some(k @ 1..=8) = digit(c) {
            self.reading.table = k as usize;
            self.case
                .bytes
                .take_up(self.reading.cuts[self.reading.table - 1]);
        }
    }

    // The next case begins.
    fn next_case(&mut self) {
        self.case.clear();
        self.reading.table = 0;
    }

    fn on_sign(&mut self, rt: &impl Print, c: u8) -> io::Result<()> {
        match c {
            b'"' => self.reading.mode = Mode::Text,
            b'@' => self.reading.mode = Mode::Width { width: 0 },
            b'<' => self.reading.mode = Mode::Keep,
            b'|' => self.cut(),
            b'N' => self.add_names(),
            b'?' => return self.check_file(rt),
            b'!' => return self.check_tables(rt),
            _ => (),
        }
        Ok(())
    }

    fn in_case(&mut self, rt: &impl Print, c: u8) -> io::Result<()> {
        match self.case.turn(c) {
            Turn::Taken => (),
            Turn::Begins => self.next_case(),
            Turn::Title(b'\n') => return rt.write_all(b": "),
            Turn::Title(letter) => return rt.write_all(&[letter]),
            Turn::Sign(sign) => return self.on_sign(rt, sign),
        }
        Ok(())
    }

    fn turn(&mut self, rt: &impl Print, c: u8) -> io::Result<()> {
        match self.reading.mode {
            Mode::Case => return self.in_case(rt, c),
            Mode::Text => self.in_text(c),
            Mode::Width { width } => self.in_width(width, c),
            Mode::Keep => self.in_keep(c),
        }
        Ok(())
    }
}

// ---- a case is run

fn show_counts(rt: &impl Print, counts: &[u8]) -> io::Result<()> {
    let (pairs, _) = counts.as_chunks::<2>();
    for pair in pairs {
        let count = u16::from_le_bytes(*pair);
        print!(rt; " {count}")?;
    }
    println!(rt; "")
}

// The bytes in from..to, none where these are no places.
fn part(bytes: &[u8], from: usize, to: usize) -> &[u8] {
    bytes.get(from..to).unwrap_or(&[])
}

impl Cases<'_> {
    fn check_file(&self, rt: &impl Print) -> io::Result<()> {
        let mut counts = [9u8; 12];
        let answer = Answer {
            word: entry_check_file::check_file(self.case.bytes.bytes(), &mut counts),
        };
        print!(rt; "{answer}")?;
        show_counts(rt, &counts)
    }

    // Where table k ends: tables that a case doesn't have are empty.
    fn end(&self, k: usize) -> usize {
        if (self.reading.table <= k) | (9 <= k) {
            return self.case.bytes.used;
        }
        self.reading.cuts[k]
    }

    // Out of the whole buffer: `<k` may take up fewer bytes than an earlier cut has.
    fn table(&self, k: usize) -> &[u8] {
        let bytes = &*self.case.bytes.buffer;
        if k == 0 {
            return part(bytes, 0, self.end(0));
        }
        part(bytes, self.end(k - 1), self.end(k))
    }

    fn check_tables(&self, rt: &impl Print) -> io::Result<()> {
        let answer = Answer {
            word: entry_check_tables::check_tables(
                self.table(0),
                self.table(1),
                self.table(2),
                self.table(3),
                self.table(4),
                self.table(5),
                self.table(6),
                self.table(7),
                self.table(8),
            ),
        };
        print!(rt; "{answer}")?;
        println!(rt; "")
    }
}

// ---- all cases

fn run(rt: &impl Print, text: &[u8], buffer: &mut [u8]) -> io::Result<()> {
    let mut s = Cases {
        case: CaseReader::new(buffer),
        reading: Reading {
            mode: Mode::Case,
            table: 0,
            cuts: [0; 9],
        },
    };
    for c in text {
        s.turn(rt, *c)?;
    }
    Ok(())
}

fn main(rt: HostRuntime) -> io::Result<()> {
    let mut text = [0u8; 65536];
    let mut buffer = [0u8; 131072];
    let n = read_full(&mut rt.reader(), &mut text)?;
    run(&rt, &text[..n], &mut buffer)
}
