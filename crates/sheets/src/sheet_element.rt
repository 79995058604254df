ghost use Rattle.std.specs.Prelude.{◌≡◌, ℕ};
ghost use Rattle.sheets.specs.Kinds.{byte_of};
ghost use Rattle.sheets.specs.Layouts.{Format, FormatLaw, Decoded};
ghost use Rattle.std.specs.Int.{w32};
ghost use Rattle.std.proofs.Common.{to_z};
ghost use Rattle.sheets.specs.Digits.{first_four};

use crate::kind::Kind;
use elements::delay::Delay;
use elements::link_level::LinkLevel;
use elements::ordered::Ordered;

/// An ordered type whose lists are carried on sheets: each element has its own bytes, as many as every other.
pub trait SheetElement: Ordered {
    ghost format: { Format Self };

    /// The byte that names the kind of the sheets of this type. It may be any, so that a type can have a kind of its own.
    fn kind_byte() -> u8
        ensures { result ≡ format.kind };

    /// How many bytes an element has.
    const BYTES_EACH: usize;

    ghost BYTES_EACH: { ℕ };

    // Not a `TryFrom`, whose contract could not name the type's format.
    /// The element with these bytes, or none where no element has them.
    fn decode(bytes: &[u8]) -> Option<Self>
        ensures { Decoded format bytes.now result };

    ghost law: { FormatLaw format BYTES_EACH };
}

/// A type whose sheets are of one of the kinds that have names.
pub trait OfNamedKind: SheetElement {
    /// The kind of the sheets of this type.
    fn kind() -> Kind
        ensures { byte_of result ≡ Self.SheetElement.format.kind };
}

impl OfNamedKind for Delay {
    fn kind() -> Kind {
        Kind::Delays
    }
}

impl SheetElement for Delay {
    ghost use Rattle.std.specs.Prelude.{refl};
    ghost use Rattle.sheets.specs.Formats.{delay_format};
    ghost use Rattle.elements.specs.Alike.{delay_alike};
    ghost use Rattle.sheets.specs.Digits.{digits_apart, first_four, first_four_fits, digits_of_list};
    ghost use Rattle.std.proofs.Common.{rules};

    ghost format = { delay_format };

    const BYTES_EACH: usize = 4;

    ghost BYTES_EACH = { 4 };

    ghost law = { record {
      each = refl;
      some = Prim.search rules;
      few = Prim.search rules;
      fixed = Prim.search rules;
      distinct = λ x y e. delay_alike x y (digits_apart x.micros y.micros x.fits y.fits e);
      complete = λ bytes e h. (record { micros = first_four bytes; fits = first_four_fits bytes h }, digits_of_list bytes e h);
    } };

    fn kind_byte() -> u8 {
        Self::kind().byte()
    }

    fn decode(bytes: &[u8]) -> Option<Delay> {
        let micros = u32::from_be_bytes(<[u8; 4]>::try_from(bytes).ok()?);
        Some(Delay { micros })
    }
}

/// The link level with these bytes.
fn level_of(level: [u8; 4], link: [u8; 4]) -> LinkLevel
    ensures level { result.level ≡ to_z w32 (first_four level) }
    ensures link { result.link ≡ first_four link }
{
    LinkLevel {
        level: i32::from_be_bytes(level),
        link: u32::from_be_bytes(link),
    }
}

impl OfNamedKind for LinkLevel {
    fn kind() -> Kind {
        Kind::LinkLevels
    }
}

impl SheetElement for LinkLevel {
    ghost use Rattle.std.specs.Prelude.{refl};
    ghost use Rattle.std.proofs.Common.{rules};
    ghost use Rattle.sheets.specs.Formats.{level_format};
    ghost use Rattle.sheets.specs.Levels.{levels_distinct, level_of_bytes};

    ghost format = { level_format };

    const BYTES_EACH: usize = 8;

    ghost BYTES_EACH = { 8 };

    ghost law = { record {
      each = refl;
      some = Prim.search rules;
      few = Prim.search rules;
      fixed = Prim.search rules;
      distinct = levels_distinct;
      complete = level_of_bytes;
    } };

    fn kind_byte() -> u8 {
        Self::kind().byte()
    }

    fn decode(bytes: &[u8]) -> Option<LinkLevel> {
        let (level, link) = bytes.split_first_chunk()?;
        Some(level_of(*level, link.try_into().ok()?))
    }
}
