ghost use Rattle.std.specs.Prelude.{◌≡◌};
ghost use Rattle.item_meta.specs.Field.{field_text};

use std::fmt;
use thiserror::Error;

/// What of a text of metadata is wrong, in the order in which the fields are looked at.
#[derive(Clone, Copy, Debug, PartialEq, Eq)]
pub enum Field {
    /// The text isn't UTF-8, or not JSON, or not an object.
    Shape,
    /// The object has a key that metadata don't have.
    Extra,
    V,
    Path,
    Size,
    Base,
    BaseEnd,
    Ranges,
    Dirty,
    Intent,
    Mtime,
    Atime,
    /// All is right, and the text isn't the one that is written for this.
    Spelling,
}

impl Field {
    /// The field's name in small letters.
    pub fn text(self) -> &'static str
        ensures { result.now ≡ field_text self }
    {
        match self {
            Field::Shape => "shape",
            Field::Extra => "extra",
            Field::V => "v",
            Field::Path => "path",
            Field::Size => "size",
            Field::Base => "base",
            Field::BaseEnd => "base_end",
            Field::Ranges => "ranges",
            Field::Dirty => "dirty",
            Field::Intent => "intent",
            Field::Mtime => "mtime",
            Field::Atime => "atime",
            Field::Spelling => "spelling",
        }
    }
}

impl fmt::Display for Field {
    ghost use Rattle.std.specs.Prelude.{Some};
    ghost use Rattle.item_meta.specs.Field.{field_text};

    ghost output = { λ field. Some (field_text field) };

    fn fmt<W: fmt::Write>(&self, f: &mut fmt::Formatter<W>) -> fmt::Result {
        f.write_str(self.text())
    }
}

/// Why no metadata were read.
#[derive(Clone, Copy, Debug, PartialEq, Eq, Error)]
pub enum MetaError {
    /// The text isn't one of metadata; this is the first of its fields that is wrong.
    #[error("metadata with a wrong {0}")]
    BadMeta(Field),
    #[error("no memory")]
    NoMemory,
}
