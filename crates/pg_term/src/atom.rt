ghost use Rattle.std.specs.Prelude.{◌≡◌, ◌<◌, ◌≤◌, length, IfOk, Err, nat_eq, nat_lt};
ghost use Rattle.std.specs.Str.{chars};
ghost use Rattle.std.specs.Ordering.{nat_cmp, as_partial_cmp};
ghost use Rattle.std.specs.Str.{encode_utf8_all};
ghost use Rattle.std.specs.Hash as fed;
ghost use Rattle.std.specs.Cmp.{partial_equiv_from_equiv};
ghost use Rattle.std.specs.Cmp.Lexicographic.{slice_cmp, pointwise, nat_list_eq_equiv};
ghost use Rattle.std.specs.Cmp.Lexicographic.{nat_list_cmp_total, texts_ties, texts_po};
ghost use Rattle.std.specs.Cmp.Rules.{hashing};
ghost use Rattle.std.proofs.Common.{rules, refl};
ghost use Rattle.pg_term.specs.Fault.{Gives, checked_atom};
ghost use Rattle.pg_term.specs.declared.fault.TermFault.TheVariants.{BadAtom};

use crate::fault::TermFault;
use crate::text::Text;
use std::alloc::{AllocError, Global};
use std::cmp::Ordering;
use std::hash::{Hash, Hasher};
use std::marker::Model;

/// A name of at most 255 characters, which contracts see as the list of its characters. Atoms are compared by their
/// characters from the first ("Term order" in the Erlang Reference Manual).
#[derive(Debug, Drop)]
pub struct Atom {
    text: Box<Text>,
}

impl Model for Atom {
    ghost use Rattle.std.specs.Prelude.{List, ℕ, ◌≤◌, length};
    ghost use Rattle.std.specs.Str.{chars};
    ghost use Rattle.pg_term.specs.Text.{text_bytes};

    ghost Value = { List ℕ };

    ghost view = { λ a. chars (text_bytes a.text.value) };

    ghost invariant = { λ a. length (chars (text_bytes a.text.value)) ≤ 255 };
}

impl Atom {
    /// The atom of this text.
    ///
    /// Errors: `BadAtom` exactly where the text has more than 255 characters; else `OutOfMemory`.
    ///
    /// Cost: one allocation, and two more for a text above 22 bytes.
    pub fn new(alloc: Global, text: &str) -> Result<Atom, TermFault>
        ensures exact { Gives (λ a. a) result (checked_atom (chars text.now)) }
        // Of such a text nothing else is told, also where memory runs out.
        ensures long { 255 < length (chars text.now) → result ≡ Err BadAtom }
    {
        if is_long(text) {
            return Err(TermFault::BadAtom);
        }
        Ok(Atom {
            text: Box::new(alloc, Text::new(alloc, text)?)?,
        })
    }

    /// The text, of at most 1,020 bytes.
    ///
    /// Cost: no memory.
    pub fn as_str(&self) -> &str
        ensures characters { chars result.now ≡ self.now }
        ensures bytes { result.now ≡ encode_utf8_all self.now }
        ensures few { length result.now ≤ 1020 }
        ensures limit { length self.now ≤ 255 }
    {
        self.text.as_str()
    }

    /// An equal atom, on the same allocator.
    ///
    /// Errors: `AllocError`.
    ///
    /// Cost: one allocation, and two more for a text above 22 bytes.
    pub fn copy(&self) -> Result<Atom, AllocError>
        ensures { IfOk result (λ a. a ≡ self.now) }
    {
        let alloc = *Box::allocator(&self.text);
        Ok(Atom {
            text: Box::new(alloc, self.text.copy()?)?,
        })
    }
}

/// Whether a text has more than 255 characters, and so is that of no atom. It has no more characters than bytes, so
/// that a short one is not counted.
///
/// Cost: no memory.
pub fn is_long(text: &str) -> bool
    ensures { result ≡ nat_lt 255 (length (chars text.now)) }
{
    if text.len() <= 255 {
        return false;
    }
    text.chars().count() > 255
}

impl PartialEq for Atom {
    ghost eq = { pointwise nat_eq };

    ghost laws = { partial_equiv_from_equiv nat_list_eq_equiv };

    fn eq(&self, other: &Atom) -> bool {
        self.as_str() == other.as_str()
    }
}

impl Eq for Atom {
    ghost laws = { nat_list_eq_equiv };
}

impl PartialOrd for Atom {
    ghost partial_cmp = { as_partial_cmp (slice_cmp nat_cmp) };

    ghost laws = { texts_po };

    fn partial_cmp(&self, other: &Atom) -> Option<Ordering> {
        Some(self.cmp(other))
    }
}

impl Ord for Atom {
    ghost cmp = { slice_cmp nat_cmp };

    ghost total = { nat_list_cmp_total };

    ghost matches_partial_cmp = { λ a b. refl };

    ghost matches_eq = { texts_ties };

    fn cmp(&self, other: &Atom) -> Ordering {
        self.as_str().cmp(other.as_str())
    }
}

impl Hash for Atom {
    ghost hash_input = { λ a. fed.str (encode_utf8_all a) };

    ghost respects_eq = { Prim.search (hashing, rules) };

    fn hash<H: Hasher>(&self, state: &mut H) {
        self.as_str().hash(state);
    }
}
