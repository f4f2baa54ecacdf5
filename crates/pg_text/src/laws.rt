//! Laws of the texts.

ghost use Rattle.std.specs.Prelude.{◌≡◌, ◌≤◌, ◌∷◌, [], codes, ℕ, List, Some};
ghost use Rattle.pg_group.specs.declared.update.Update.TheVariants.{Create, Delete, Join, Leave};
ghost use Rattle.pg_term.specs.declared.pid.Pid.{Pid};
ghost use Rattle.pg_term.specs.declared.term.Term.{Term, Tuple};
ghost use Rattle.pg_term.specs.declared.term.Term.TheVariants as terms;
ghost use Rattle.pg_term.specs.Depth.{depth};
ghost use Rattle.pg_text.specs.Reading.{term_of, atom_from_text, pid_of};
ghost use Rattle.pg_text.specs.Spelling.{IsText};
ghost use Rattle.pg_text.specs.Values.{IsValue, IsName, IsPid};
ghost use Rattle.pg_text.specs.Writing.{term_text, atom_text, pid_text, update_text};

/// What is written of a term, an atom or a pid is read as that value, whole: of each value whose numbers and names have
/// the sizes of their types (`IsValue`), where a term nests at most 64 levels deep.
pub fn printed_is_read()
    ensures terms { (t : Term) → IsValue t → depth t ≤ 64 → term_of (term_text t) ≡ Some t }
    ensures atoms { (characters : List ℕ) → IsName characters → atom_from_text (atom_text characters) ≡ Some characters }
    ensures pids { (pid : Pid) → IsPid pid → pid_of (pid_text pid) ≡ Some pid }
{}

/// Just the texts of a term are read as it: what is read as a term is what is written of it, but that within quotes
/// characters may be written as `\x{H}` (`IsText`).
pub fn just_those_are_read()
    ensures { (t : Term) (text : List ℕ) → term_of text ≡ Some t → IsText t text }
{}

/// Each text of a term is read as it: of each term whose numbers and names have the sizes of their types, and that nests
/// at most 64 levels deep.
pub fn texts_are_read()
    ensures { (t : Term) (text : List ℕ) → IsText t text → IsValue t → depth t ≤ 64 → term_of text ≡ Some t }
{}

/// The text of an update is that of its tuple.
pub fn updates_are_tuples()
    ensures create { (name : Term)
        → update_text (Create name) ≡ term_text (Tuple (terms.Atom (codes "create") ∷ name ∷ [])) }
    ensures delete { (name : Term)
        → update_text (Delete name) ≡ term_text (Tuple (terms.Atom (codes "delete") ∷ name ∷ [])) }
    ensures join { (name : Term) (pid : Pid)
        → update_text (Join name pid) ≡ term_text (Tuple (terms.Atom (codes "join") ∷ name ∷ terms.Pid pid ∷ [])) }
    ensures leave { (name : Term) (pid : Pid)
        → update_text (Leave name pid) ≡ term_text (Tuple (terms.Atom (codes "leave") ∷ name ∷ terms.Pid pid ∷ [])) }
{}
