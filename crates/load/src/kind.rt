// The kinds of a file's records. The definitions, as document 01 and the C interface, have them by number; the number is read once, where a record is decided on.
ghost use Rattle.load.specs.Kinds.{Decodes};

// What a record's payload is.
#[derive(Clone, Copy)]
pub enum Kind {
    Name,
    Section,
    Symbol,
    Relocation,
    Split,
    Unit,
}

// "1 .. unknown kind": the error is the number of its refusal.
impl TryFrom<u16> for Kind {
    type Error = u16;

    ghost try_from_gives = { Decodes };

    fn try_from(number: u16) -> Result<Kind, u16> {
        match number {
            1 => Ok(Kind::Name),
            2 => Ok(Kind::Section),
            3 => Ok(Kind::Symbol),
            4 => Ok(Kind::Relocation),
            5 => Ok(Kind::Split),
            6 => Ok(Kind::Unit),
            _ => Err(1),
        }
    }
}
