//! Laws of the format.

ghost use Rattle.std.specs.Prelude.{◌≡◌, ◌<◌, ◌≤◌, ◌⊎◌, ℕ, List, length, Ok};
ghost use Rattle.std.specs.List.{AllByRecursion};
ghost use Rattle.pg_term.specs.declared.fault.TermFault.{TermFault};
ghost use Rattle.pg_term.specs.declared.term.Term.{Term};
ghost use Rattle.pg_term_io.specs.declared.tag.TheConstants.{NEW_PID_EXT, NEWER_REFERENCE_EXT};
ghost use Rattle.pg_term_io.specs.declared.tag.TheConstants.{SMALL_INTEGER_EXT, INTEGER_EXT, ATOM_EXT};
ghost use Rattle.pg_term_io.specs.declared.tag.TheConstants.{REFERENCE_EXT, PID_EXT, SMALL_TUPLE_EXT};
ghost use Rattle.pg_term_io.specs.declared.tag.TheConstants.{LARGE_TUPLE_EXT, NIL_EXT, STRING_EXT, LIST_EXT};
ghost use Rattle.pg_term_io.specs.declared.tag.TheConstants.{BINARY_EXT, SMALL_BIG_EXT, NEW_REFERENCE_EXT};
ghost use Rattle.pg_term_io.specs.declared.tag.TheConstants.{SMALL_ATOM_EXT, ATOM_UTF8_EXT};
ghost use Rattle.pg_term_io.specs.declared.tag.TheConstants.{SMALL_ATOM_UTF8_EXT};
ghost use Rattle.pg_term_io.specs.Spelling.{Spells};
ghost use Rattle.pg_term_io.specs.Faults.{Breaks};
ghost use Rattle.pg_term_io.specs.Reading.{term_of};
ghost use Rattle.pg_term_io.specs.Writing.{written, IsWritable};
ghost use Rattle.pg_term_io.specs.Weight.{weight};

/// Each list of bytes spells exactly one term or has exactly one fault, and never both.
pub fn one_meaning()
    // It spells a term or has a fault.
    ensures some { (bytes : List ℕ) → AllByRecursion (λ b. b < 256) bytes →
        ((t : Term) × Spells t bytes) ⊎ ((f : TermFault) × Breaks f bytes) }
    ensures one_term { (bytes : List ℕ) (t u : Term) → Spells t bytes → Spells u bytes → t ≡ u }
    ensures one_fault { (bytes : List ℕ) (f g : TermFault) → Breaks f bytes → Breaks g bytes → f ≡ g }
    ensures never_both { (bytes : List ℕ) (t : Term) (f : TermFault) → Spells t bytes → Breaks f bytes → ⊥ }
{}

/// The round trip: reading what is written for a term gives the term back. It holds of each term that
/// bytes can spell at all, in whichever form it came, and that may be written.
pub fn round_trip()
    // What is written for the term is one of the lists of bytes that spell it.
    ensures spelled { (t : Term) (bytes : List ℕ) → Spells t bytes → IsWritable t →
        Spells t (written t) }
    // It is read as the term.
    ensures back { (t : Term) (bytes : List ℕ) → Spells t bytes → IsWritable t →
        term_of (written t) ≡ Ok t }
    // No two terms are written alike.
    ensures apart { (t u : Term) (a b : List ℕ) → Spells t a → Spells u b →
        IsWritable t → IsWritable u → written t ≡ written u → t ≡ u }
{}

/// A term is made of no more terms than it takes bytes: each list and each tuple in it has fewer elements
/// than the bytes that spell the term.
pub fn no_heavier_than_its_bytes()
    ensures { (t : Term) (bytes : List ℕ) → Spells t bytes → weight t ≤ length bytes }
{}

/// The number of each tag, as the External Term Format chapter of the Erlang documentation has it.
pub fn numbers_of_tags()
    ensures new_pid_ext { NEW_PID_EXT ≡ 88 }
    ensures newer_reference_ext { NEWER_REFERENCE_EXT ≡ 90 }
    ensures small_integer_ext { SMALL_INTEGER_EXT ≡ 97 }
    ensures integer_ext { INTEGER_EXT ≡ 98 }
    ensures atom_ext { ATOM_EXT ≡ 100 }
    ensures reference_ext { REFERENCE_EXT ≡ 101 }
    ensures pid_ext { PID_EXT ≡ 103 }
    ensures small_tuple_ext { SMALL_TUPLE_EXT ≡ 104 }
    ensures large_tuple_ext { LARGE_TUPLE_EXT ≡ 105 }
    ensures nil_ext { NIL_EXT ≡ 106 }
    ensures string_ext { STRING_EXT ≡ 107 }
    ensures list_ext { LIST_EXT ≡ 108 }
    ensures binary_ext { BINARY_EXT ≡ 109 }
    ensures small_big_ext { SMALL_BIG_EXT ≡ 110 }
    ensures new_reference_ext { NEW_REFERENCE_EXT ≡ 114 }
    ensures small_atom_ext { SMALL_ATOM_EXT ≡ 115 }
    ensures atom_utf8_ext { ATOM_UTF8_EXT ≡ 118 }
    ensures small_atom_utf8_ext { SMALL_ATOM_UTF8_EXT ≡ 119 }
{}
