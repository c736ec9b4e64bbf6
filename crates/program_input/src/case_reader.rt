// Cases that stand in text: for each its title and its bytes. The reader knows what more than one program has in its cases; what a character means beyond that is for the
// program, which is handed it.
ghost use Rattle.std.specs.Prelude.{◌≡◌, ℕ, ◌+◌, ◌-◌, ◌*◌, ◌<◌, length, None, Some};
ghost use Rattle.std.proofs.Common.{set};
ghost use Rattle.names.specs.GapName.{digit};
ghost use Rattle.program_input.specs.declared.case_reader.Mode.TheVariants as mode;
ghost use Rattle.program_input.specs.declared.case_reader.Turn.TheVariants.{Taken, Begins, Title, Sign};
ghost use Rattle.program_input.specs.Cases.{Added, NoDecimal, ReadByte, LineOf, Starts, Repeats, gathered, before, again, repeated};

use crate::{Gathered, digit, longer};

// What the next character belongs to.
#[derive(Clone, Copy)]
pub enum Mode {
    // bytes as hexadecimal digits
    Bytes,
    // `= title` up to the line's end
    Title,
    // `# comment` up to the line's end
    Comment,
    // `*count`: the last byte, or the last `width` bytes, stand so many times in all
    Count { width: usize, count: usize },
}

// What a character is to the program.
#[derive(Clone, Copy)]
pub enum Turn {
    // the reader took it
    Taken,
    // a case begins; the bytes of the one before are still there
    Begins,
    // one of the title's, whose end is a newline
    Title(u8),
    // no character of the reader's
    Sign(u8),
}

// How far a case is read: `high` is the first digit of a byte, where that was read.
#[derive(Drop)]
pub struct CaseReader<'b> {
    pub bytes: Gathered<'b>,
    pub mode: Mode,
    pub high: Option<u8>,
}

impl<'b> CaseReader<'b> {
    // Nothing is read yet; the bytes are gathered in the lent buffer.
    pub fn new(buffer: &'b mut [u8]) -> CaseReader<'b>
        ensures none { (result.bytes.used ≡ 0) × (result.high ≡ None) × (result.mode ≡ mode.Bytes) }
        ensures lent { result.bytes.buffer.ghost_name ≡ buffer.entry.ghost_name }
    {
        CaseReader {
            bytes: Gathered { buffer, used: 0 },
            mode: Mode::Bytes,
            high: None,
        }
    }
}

impl CaseReader<'_> {
    // No bytes. A first digit that was read stays: whether it goes over into the next case is for the program.
    pub fn clear(&mut self)
        ensures none { (self.new.bytes.used ≡ 0) × (self.new.high ≡ self.old.high) }
        ensures mode { self.new.mode ≡ self.old.mode }
        ensures lent { self.new.bytes.buffer.ghost_name ≡ self.old.bytes.buffer.ghost_name }
    {
        self.bytes.take_up(0);
    }

    // A byte that was read.
    pub fn add(&mut self, v: u8)
        ensures added { Added self.old self.new v }
        ensures lent { self.new.bytes.buffer.ghost_name ≡ self.old.bytes.buffer.ghost_name }
    {
        self.bytes.push(v);
        self.high = None;
    }

    // A number of times begins, for the last `width` bytes.
    pub fn start_count(&mut self, width: usize)
        ensures counts { Starts self.old self.new (mode.Count width 0) }
        ensures lent { self.new.bytes.buffer.ghost_name ≡ self.old.bytes.buffer.ghost_name }
    {
        self.mode = Mode::Count { width, count: 0 };
    }

    // The byte `width` before the end, 0 if there is none.
    fn before(&self, width: usize) -> u8
        ensures { result ≡ before width (gathered self.now.bytes) }
    {
        let bytes = self.bytes.bytes();
        if (width == 0) | (bytes.len() < width) {
            return 0;
        }
        bytes[bytes.len() - width]
    }

    // The last `width` bytes once more.
    fn again(&mut self, width: usize)
        ensures is { gathered self.new.bytes ≡ again (length self.old.bytes.buffer.now) width width (gathered self.old.bytes) }
        ensures long { length self.new.bytes.buffer.now ≡ length self.old.bytes.buffer.now }
        ensures lent { self.new.bytes.buffer.ghost_name ≡ self.old.bytes.buffer.ghost_name }
    {
        for _i in 0..width {
            let byte = self.before(width);
            self.bytes.push(byte);
        }
    }

    // The last byte so many times in all. It is read once: what is pushed is the last byte again.
    fn repeat_byte(&mut self, count: usize)
        ensures is { gathered self.new.bytes ≡ repeated (length self.old.bytes.buffer.now) 1 (count - 1) (gathered self.old.bytes) }
        ensures lent { self.new.bytes.buffer.ghost_name ≡ self.old.bytes.buffer.ghost_name }
    {
        let byte = self.before(1);
        for _time in 1..count {
            self.bytes.push(byte);
        }
    }

    // The last `width` bytes so many times in all.
    fn repeat(&mut self, width: usize, count: usize)
        ensures is { gathered self.new.bytes ≡ repeated (length self.old.bytes.buffer.now) width (count - 1) (gathered self.old.bytes) }
        ensures lent { self.new.bytes.buffer.ghost_name ≡ self.old.bytes.buffer.ghost_name }
    {
        if width == 1 {
            self.repeat_byte(count);
            return;
        }
        for _i in 1..count {
            self.again(width);
        }
    }

    fn in_count(&mut self, width: usize, count: usize, c: u8)
        ensures digit { (k : ℕ) → k < 10 → digit k ≡ c → count < 100000 → Starts self.old self.new (mode.Count width (count * 10 + k)) }
        ensures end { NoDecimal c → Repeats self.old self.new width count }
        ensures lent { self.new.bytes.buffer.ghost_name ≡ self.old.bytes.buffer.ghost_name }
    {
        if let Some(d @ 0..=9) = digit(c) {
            let count = longer(count, d);
            self.mode = Mode::Count { width, count };
            return;
        }
        self.repeat(width, count);
        self.high = None;
        self.mode = Mode::Bytes;
    }

    // A title or a comment ends with its line.
    fn in_line(&mut self, c: u8)
        ensures line { LineOf self.old self.new c }
        ensures lent { self.new.bytes.buffer.ghost_name ≡ self.old.bytes.buffer.ghost_name }
    {
        if c == b'\n' {
            self.mode = Mode::Bytes;
        }
    }

    // Two digits are a byte.
    fn in_bytes(&mut self, c: u8) -> Turn
        ensures byte { ReadByte self.old self.new c result }
        ensures lent { self.new.bytes.buffer.ghost_name ≡ self.old.bytes.buffer.ghost_name }
    {
        let Some(d) = digit(c) else {
            return Turn::Sign(c);
        };
        let Some(high) = self.high else {
            self.high = Some(d);
            return Turn::Taken;
        };
        self.add(high % 16 * 16 + d);
        Turn::Taken
    }

    fn on_sign(&mut self, c: u8) -> Turn
        ensures begins { c ≡ 61 → (result ≡ Begins) × Starts self.old self.new mode.Title }
        ensures comments { c ≡ 35 → (result ≡ Taken) × Starts self.old self.new mode.Comment }
        ensures counts { c ≡ 42 → (result ≡ Taken) × Starts self.old self.new (mode.Count 1 0) }
        ensures byte { (c ≡ 61 → ⊥) → (c ≡ 35 → ⊥) → (c ≡ 42 → ⊥) → ReadByte self.old self.new c result }
        ensures lent { self.new.bytes.buffer.ghost_name ≡ self.old.bytes.buffer.ghost_name }
    {
        match c {
            b'=' => {
                self.mode = Mode::Title;
                Turn::Begins
            }
            b'#' => {
                self.mode = Mode::Comment;
                Turn::Taken
            }
            b'*' => {
                self.start_count(1);
                Turn::Taken
            }
            _ => self.in_bytes(c),
        }
    }

    // A character more. Where bytes are read, a sign of the reader's begins a title, a comment or a count, two digits are a byte, and the rest is for the program.
    pub fn turn(&mut self, c: u8) -> Turn
        ensures title { self.old.mode ≡ mode.Title → (result ≡ Title c) × LineOf self.old self.new c }
        ensures comment { self.old.mode ≡ mode.Comment → (result ≡ Taken) × LineOf self.old self.new c }
        ensures begins { self.old.mode ≡ mode.Bytes → c ≡ 61 → (result ≡ Begins) × Starts self.old self.new mode.Title }
        ensures comments { self.old.mode ≡ mode.Bytes → c ≡ 35 → (result ≡ Taken) × Starts self.old self.new mode.Comment }
        ensures counts { self.old.mode ≡ mode.Bytes → c ≡ 42 → (result ≡ Taken) × Starts self.old self.new (mode.Count 1 0) }
        ensures byte { self.old.mode ≡ mode.Bytes → (c ≡ 61 → ⊥) → (c ≡ 35 → ⊥) → (c ≡ 42 → ⊥) → ReadByte self.old self.new c result }
        ensures count { (w n : ℕ) → self.old.mode ≡ mode.Count w n → result ≡ Taken }
        ensures counted { (w n k : ℕ) → self.old.mode ≡ mode.Count w n → k < 10 → digit k ≡ c → n < 100000 → Starts self.old self.new (mode.Count w (n * 10 + k)) }
        ensures count_ends { (w n : ℕ) → self.old.mode ≡ mode.Count w n → NoDecimal c → Repeats self.old self.new w n }
        ensures lent { self.new.bytes.buffer.ghost_name ≡ self.old.bytes.buffer.ghost_name }
    {
        match self.mode {
            Mode::Bytes => self.on_sign(c),
            Mode::Title => {
                self.in_line(c);
                Turn::Title(c)
            }
            Mode::Comment => {
                self.in_line(c);
                Turn::Taken
            }
            Mode::Count { width, count } => {
                self.in_count(width, count, c);
                Turn::Taken
            }
        }
    }
}
