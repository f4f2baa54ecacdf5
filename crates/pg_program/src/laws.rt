//! What words ask for, and how large a script may be.

ghost use Rattle.std.specs.Prelude.{◌≡◌, [], ◌∷◌, codes};
ghost use Rattle.clap.specs.Words.{fault_of, subcommand_of};
ghost use Rattle.pg_program.specs.CommandLine.{command_line, AsksBytes};
ghost use Rattle.pg_program.specs.Limits.{max_script_len};
ghost use Rattle.pg_program.specs.declared.input.TheConstants.{MAX_SCRIPT_LEN};

/// How many bytes a script has at most.
pub fn limit_of_scripts()
    ensures { MAX_SCRIPT_LEN ≡ max_script_len }
{}

/// The word `bytes` alone is taken, and asks for the node `b` with the peer `a`.
pub(crate) fn bytes_alone()
    ensures taken { fault_of command_line (codes "bytes" ∷ []) ≡ [] }
    ensures names { AsksBytes (subcommand_of command_line (codes "bytes" ∷ [])) (codes "b") (codes "a") }
{}
