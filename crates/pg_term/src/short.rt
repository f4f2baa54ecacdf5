ghost use Rattle.std.specs.Prelude.{◌≡◌, ◌≤◌, length};

use std::marker::Model;
use std::str;

/// How many bytes of text an atom holds in itself.
pub(crate) const MOST_SHORT: usize = 22;

/// A text of at most 22 bytes, in the value itself, which contracts see as its bytes.
#[derive(Debug, Drop)]
pub(crate) struct Short {
    len: u8,
    bytes: [u8; 22],
}

impl Model for Short {
    ghost use Rattle.std.specs.Prelude.{List, ℕ, ◌≤◌, take, IsUtf8};

    ghost Value = { List ℕ };

    ghost view = { λ s. take s.len s.bytes };

    ghost invariant = { λ s. (s.len ≤ 22) × ∥ IsUtf8 (take s.len s.bytes) ∥₁ };
}

impl Short {
    /// This text.
    #[inline]
    pub(crate) fn new(text: &str) -> Short
        requires { length text.now ≤ 22 }
        ensures { result ≡ text.now }
    {
        let mut bytes = [0; 22];
        bytes[..text.len()].copy_from_slice(text.as_bytes());
        Short {
            len: text.len() as u8,
            bytes,
        }
    }

    /// The text.
    #[inline]
    pub(crate) fn as_str(&self) -> &str
        ensures { result.now ≡ self.now }
    {
        unsafe { str::from_utf8_unchecked(&self.bytes[..self.len as usize]) }
    }

    /// An equal text.
    #[inline]
    pub(crate) fn copy(&self) -> Short
        ensures { result ≡ self.now }
    {
        Short {
            len: self.len,
            bytes: self.bytes,
        }
    }
}
