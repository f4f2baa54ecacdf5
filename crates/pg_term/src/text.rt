ghost use Rattle.std.specs.Prelude.{◌≡◌, IfOk};
ghost use Rattle.pg_term.specs.Text.{text_bytes};

use crate::short::{MOST_SHORT, Short};
use std::alloc::{AllocError, Global};

/// The text of an atom: in the value itself where it is short, else in blocks.
#[derive(Debug, Drop)]
pub(crate) enum Text {
    Here(Short),
    There(Box<String>),
}

impl Text {
    /// This text. It takes no memory up to 22 bytes.
    #[inline]
    pub(crate) fn new(alloc: Global, text: &str) -> Result<Text, AllocError>
        ensures { IfOk result (λ t. text_bytes t ≡ text.now) }
    {
        if text.len() <= MOST_SHORT {
            return Ok(Text::Here(Short::new(text)));
        }
        Ok(Text::There(Box::new(alloc, String::from_str(alloc, text)?)?))
    }

    /// The text.
    #[inline]
    pub(crate) fn as_str(&self) -> &str
        ensures { result.now ≡ text_bytes self.now }
    {
        match self {
            Text::Here(short) => short.as_str(),
            Text::There(long) => long.as_str(),
        }
    }

    /// An equal text.
    #[inline]
    pub(crate) fn copy(&self) -> Result<Text, AllocError>
        ensures { IfOk result (λ t. text_bytes t ≡ text_bytes self.now) }
    {
        match self {
            Text::Here(short) => Ok(Text::Here(short.copy())),
            Text::There(long) => Ok(Text::There(long.clone()?)),
        }
    }
}
