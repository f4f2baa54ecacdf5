ghost use Rattle.std.specs.Prelude.{◌≡◌, ◌↔◌, ◌<◌, ◌∷◌, ◌++◌, ℕ, ℤ, List, true};
ghost use Rattle.std.specs.Cmp.{IsTotalOrder};
ghost use Rattle.std.specs.Ordering.{int_cmp};
ghost use Rattle.std.specs.declared.cmp.Ordering.TheVariants.{Less, Equal};
ghost use Rattle.pg_term.specs.declared.faults.TheConstants.{TRUNCATED, BAD_VERSION, UNKNOWN_TAG, TOO_DEEP};
ghost use Rattle.pg_term.specs.declared.faults.TheConstants.{INTEGER_TOO_LARGE, BAD_ATOM, IMPROPER_LIST};
ghost use Rattle.pg_term.specs.declared.faults.TheConstants.{BAD_REFERENCE, TRAILING_BYTES, OUT_OF_MEMORY};
ghost use Rattle.pg_term.specs.declared.faults.TheConstants.{TOO_LONG, NOT_A_MESSAGE, STAMP_TOO_LARGE};
ghost use Rattle.pg_term.specs.declared.faults.TheConstants.{DAMAGED, BAD_CONFIG, NO_SUCH_PLACE, NOT_WAITING};
ghost use Rattle.pg_term.specs.declared.faults.TheConstants.{BAD_CAPACITY, NODE_LOST, NO_SUCH_GROUP};
ghost use Rattle.pg_term.specs.declared.faults.TheConstants.{NO_MEMBER, BUSY, NAME_TOO_LARGE, FOREIGN_PID};
ghost use Rattle.pg_term.specs.declared.faults.TheConstants.{NOT_FORMED, NOT_MADE, ALREADY_ENDED};
ghost use Rattle.pg_term.specs.declared.faults.TheConstants.{PROCESS_LIMIT, NOT_DRAINED, CLOCK_FULL};
ghost use Rattle.pg_term.specs.declared.faults.TheConstants.{READ_FAULT, WRITE_FAULT, NOT_LOST, NO_THREAD};
ghost use Rattle.pg_term.specs.declared.faults.TheConstants.{BAD_LINE, UNKNOWN_NODE, LATE_DECLARATION};
ghost use Rattle.pg_term.specs.declared.pid.Pid.{Pid};
ghost use Rattle.pg_term.specs.declared.term.Term.{Term, Tuple, List as Listed};
ghost use Rattle.pg_term.specs.declared.term.Term.TheVariants.{Int, Atom as Name, Ref, Pid as Process, Binary};
ghost use Rattle.pg_term.specs.Order.{kind_of, numbers_order, references_order};
ghost use Rattle.pg_term.specs.Order.{pids_order, tuples_order, elements_order};
ghost use Rattle.pg_term.specs.RefParts.{RefParts, ref_eq, ref_cmp};
ghost use Rattle.pg_term.specs.Same.{same_term, term_cmp, same_pid, pid_cmp, same_atom, atom_cmp};

/// `==` is true exactly where two values are one, for terms and for what they are made of.
pub fn equality()
    ensures terms { (x y : Term) → (same_term x y ≡ true) ↔ (x ≡ y) }
    ensures pids { (x y : Pid) → (same_pid x y ≡ true) ↔ (x ≡ y) }
    ensures references { (x y : RefParts) → (ref_eq x y ≡ true) ↔ (x ≡ y) }
    ensures atoms { (x y : List ℕ) → (same_atom x y ≡ true) ↔ (x ≡ y) }
{}

/// `cmp` is a total order, which is `Equal` for one value alone.
pub fn order()
    ensures terms { IsTotalOrder term_cmp }
    ensures pids { IsTotalOrder pid_cmp }
    ensures references { IsTotalOrder ref_cmp }
    ensures atoms { IsTotalOrder atom_cmp }
    ensures one_term { (x y : Term) → (term_cmp x y ≡ Equal) ↔ (x ≡ y) }
    ensures one_pid { (x y : Pid) → (pid_cmp x y ≡ Equal) ↔ (x ≡ y) }
    ensures one_reference { (x y : RefParts) → (ref_cmp x y ≡ Equal) ↔ (x ≡ y) }
    ensures one_atom { (x y : List ℕ) → (atom_cmp x y ≡ Equal) ↔ (x ≡ y) }
{}

/// `cmp` is Erlang's order of terms ("Term Comparisons" in the Erlang Reference Manual), as far as there
/// are such terms here: number < atom < reference < pid < tuple < list < bit string (a binary).
pub fn order_by_kind()
    // A term of an earlier kind is less.
    ensures kinds { (x y : Term) → kind_of x < kind_of y → term_cmp x y ≡ Less }
    // Integers by their value.
    ensures integers { (m n : ℤ) → term_cmp (Int m) (Int n) ≡ int_cmp m n }
    // Atoms by their characters.
    ensures atoms { (a b : List ℕ) → term_cmp (Name a) (Name b) ≡ numbers_order a b }
    // References by node, creation and words.
    ensures references { (r s : RefParts) → term_cmp (Ref r) (Ref s) ≡ references_order r s }
    // Pids by node, serial, id and creation.
    ensures pids { (p q : Pid) → term_cmp (Process p) (Process q) ≡ pids_order p q }
    // Tuples by how many elements, then element by element.
    ensures tuples { (xs ys : List Term) → term_cmp (Tuple xs) (Tuple ys) ≡ tuples_order xs ys }
    // Lists element by element,
    ensures lists { (xs ys : List Term) → term_cmp (Listed xs) (Listed ys) ≡ elements_order xs ys }
    // so that a list is greater than each list that it begins with.
    ensures fronts { (xs ys : List Term) (y : Term) →
        term_cmp (Listed xs) (Listed (xs ++ (y ∷ ys))) ≡ Less }
    // Binaries byte by byte,
    ensures binaries { (a b : List ℕ) → term_cmp (Binary a) (Binary b) ≡ numbers_order a b }
    // so that a binary is greater than each binary that it begins with.
    ensures cut { (a b : List ℕ) (next : ℕ) →
        term_cmp (Binary a) (Binary (a ++ (next ∷ b))) ≡ Less }
{}

/// The number of each fault, which never changes.
pub fn numbers_of_faults()
    ensures truncated { TRUNCATED ≡ 1 }
    ensures bad_version { BAD_VERSION ≡ 2 }
    ensures unknown_tag { UNKNOWN_TAG ≡ 3 }
    ensures too_deep { TOO_DEEP ≡ 4 }
    ensures integer_too_large { INTEGER_TOO_LARGE ≡ 5 }
    ensures bad_atom { BAD_ATOM ≡ 6 }
    ensures improper_list { IMPROPER_LIST ≡ 7 }
    ensures bad_reference { BAD_REFERENCE ≡ 8 }
    ensures trailing_bytes { TRAILING_BYTES ≡ 9 }
    ensures out_of_memory { OUT_OF_MEMORY ≡ 10 }
    ensures too_long { TOO_LONG ≡ 11 }
    ensures not_a_message { NOT_A_MESSAGE ≡ 12 }
    ensures stamp_too_large { STAMP_TOO_LARGE ≡ 13 }
    ensures damaged { DAMAGED ≡ 14 }
    ensures bad_config { BAD_CONFIG ≡ 15 }
    ensures no_such_place { NO_SUCH_PLACE ≡ 16 }
    ensures not_waiting { NOT_WAITING ≡ 17 }
    ensures bad_capacity { BAD_CAPACITY ≡ 18 }
    ensures node_lost { NODE_LOST ≡ 19 }
    ensures no_such_group { NO_SUCH_GROUP ≡ 20 }
    ensures no_member { NO_MEMBER ≡ 21 }
    ensures busy { BUSY ≡ 22 }
    ensures name_too_large { NAME_TOO_LARGE ≡ 23 }
    ensures foreign_pid { FOREIGN_PID ≡ 24 }
    ensures not_formed { NOT_FORMED ≡ 25 }
    ensures not_made { NOT_MADE ≡ 26 }
    ensures already_ended { ALREADY_ENDED ≡ 27 }
    ensures process_limit { PROCESS_LIMIT ≡ 28 }
    ensures not_drained { NOT_DRAINED ≡ 29 }
    ensures clock_full { CLOCK_FULL ≡ 30 }
    ensures read_fault { READ_FAULT ≡ 31 }
    ensures write_fault { WRITE_FAULT ≡ 32 }
    ensures not_lost { NOT_LOST ≡ 33 }
    ensures no_thread { NO_THREAD ≡ 34 }
    ensures bad_line { BAD_LINE ≡ 40 }
    ensures unknown_node { UNKNOWN_NODE ≡ 41 }
    ensures late_declaration { LATE_DECLARATION ≡ 42 }
{}
