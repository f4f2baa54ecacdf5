//! What holds of every picture.

ghost use Rattle.std.specs.Prelude.{◌≡◌, ◌≢◌, ◌<◌, ◌+◌, ℕ, List, Some, slice_get};
ghost use Rattle.std.specs.List.{All};
ghost use Rattle.pg_script_diagram.specs.Escaping.{IsHarmless, IsPiece, escaped, escaped_char};
ghost use Rattle.pg_script_diagram.specs.Graphs.{point_of};
ghost use Rattle.pg_script_diagram.specs.Rows.{row_y};
ghost use Rattle.pg_script_diagram.specs.declared.graph.Spot.{Spot};

/// Each row is below the one before it.
pub fn rows_go_down()
    ensures { (row : ℕ) → row_y row < row_y (row + 1) }
{}

#[tactic(auto, using(crate::proofs::Pieces::harmless_text, crate::proofs::Pieces::piece_of))]
/// No `<`, `>` or quote of a text is written as it is, and no character that XML has not; a `&` only where it begins the name of a
/// character.
pub fn texts_are_escaped()
    ensures harmless { (text : List ℕ) → All IsHarmless (escaped text) }
    ensures pieces { (c : ℕ) → IsPiece (escaped_char c) }
{}

#[tactic(auto, using(crate::proofs::Apart::worlds_apart))]
/// Two worlds of a graph are never drawn at one point.
pub fn worlds_are_apart()
    ensures { (most : ℕ) (spots : List Spot) (one other : ℕ) (s t : Spot) → slice_get spots one ≡ Some s
        → slice_get spots other ≡ Some t → one < other → point_of most spots one s.row ≢ point_of most spots other t.row }
{}
