ghost use Rattle.std.specs.Prelude.{◌≡◌};
ghost use Rattle.sheets.specs.Kinds.{byte_of, NamesKind};

/// What the elements of a sheet are.
#[derive(Clone, Copy, Debug, PartialEq, Eq)]
pub enum Kind {
    Delays = 1,
    LinkLevels = 2,
}

/// A byte that names no kind of sheet.
#[derive(Clone, Copy, Debug, PartialEq, Eq)]
pub struct UnknownKind(pub u8);

impl Kind {
    /// The byte that names this kind on a sheet; a `From` into `u8` would not say so.
    pub fn byte(self) -> u8
        ensures { result ≡ byte_of self }
    {
        self as u8
    }
}

impl TryFrom<u8> for Kind {
    type Error = UnknownKind;

    ghost try_from_gives = { NamesKind };

    fn try_from(byte: u8) -> Result<Kind, UnknownKind> {
        match byte {
            1 => Ok(Kind::Delays),
            2 => Ok(Kind::LinkLevels),
            _ => Err(UnknownKind(byte)),
        }
    }
}
