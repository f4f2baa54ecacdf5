//! What is written of a term is read as that term: of terms that hold no terms. These calls compute nothing.

ghost use Rattle.std.specs.Prelude.{◌<◌};
ghost use Rattle.std.specs.List.{AllByRecursion};
ghost use Rattle.pg_term.specs.declared.term.Term.{Term};
ghost use Rattle.pg_text.specs.Again.{ReadsBack};

use pg_term::{Atom, Pid, Reference};

// An integer.
pub fn integer_again(_number: i64)
    ensures { ReadsBack (Term.Int _number) }
{}

// An atom.
pub fn atom_again(atom: &Atom)
    ensures { ReadsBack (Term.Atom atom.now) }
{
    let _text = atom.as_str();
}

// A pid.
pub fn pid_again(pid: &Pid)
    ensures { ReadsBack (Term.Pid pid.now) }
{
    let _text = pid.node.as_str();
    let _id = pid.id;
    let _serial = pid.serial;
    let _creation = pid.creation;
}

// A reference.
pub fn reference_again(reference: &Reference)
    ensures { ReadsBack (Term.Ref reference.now) }
{
    let _text = reference.node().as_str();
    let _creation = reference.creation();
    words_fit(reference.words());
}

// Words have 32 bits.
fn words_fit(_words: &[u32])
    ensures { AllByRecursion (λ word. word < 4294967296) _words.now }
{}

// A binary.
pub fn binary_again(_content: &[u8])
    ensures { ReadsBack (Term.Binary _content.now) }
{}
