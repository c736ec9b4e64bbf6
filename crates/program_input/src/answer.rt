// What an entry answers, as the programs print it.
ghost use Rattle.std.specs.Prelude.{◌/◌, ◌%◌, ◌++◌, Some, codes, decimal};

use std::fmt;

// The word that an entry answers: a refusal's number, section and address in 16, 16 and 32 bits from the top, or 0.
#[derive(Clone, Copy)]
pub struct Answer {
    pub word: u64,
}

impl fmt::Display for Answer {
    ghost output = { λ a. Some (decimal (a.word / 281474976710656) ++ (codes " " ++ (decimal (a.word / 4294967296 % 65536) ++ (codes " " ++ decimal (a.word % 4294967296))))) };

    // Its number, its section and its address.
    fn fmt<W: fmt::Write>(&self, f: &mut fmt::Formatter<W>) -> fmt::Result {
        let number = self.word / 0x1_0000_0000_0000;
        let section = self.word / 0x1_0000_0000 % 0x1_0000;
        let address = self.word % 0x1_0000_0000;
        write!(f, "{number} {section} {address}")
    }
}
