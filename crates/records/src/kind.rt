// The kinds of records (document 01, "Atoms and records"; weights: document 02, R-2).
ghost use Rattle.records.specs.Types.{Kinds};

// Bytes beside the enum: a record keeps the byte that it has, and the clause of `layout::listed::rules_of` names one.
pub const ACCESS: u8 = 1;

pub const DISCLOSURE: u8 = 2;

pub const WEIGHT: u8 = 3;

#[derive(Clone, Copy, Debug, PartialEq, Eq)]
pub enum Kind {
    Access,
    Disclosure,
    Weight,
}

// A byte that is no kind: what refusal 3 is given for.
#[derive(Clone, Copy, Debug, PartialEq, Eq)]
pub struct UnknownKind(pub u8);

impl TryFrom<u8> for Kind {
    type Error = UnknownKind;

    ghost try_from_gives = { Kinds };

    fn try_from(byte: u8) -> Result<Kind, UnknownKind> {
        match byte {
            ACCESS => Ok(Kind::Access),
            DISCLOSURE => Ok(Kind::Disclosure),
            WEIGHT => Ok(Kind::Weight),
            _ => Err(UnknownKind(byte)),
        }
    }
}
