//! Written texts are read back, and the meaning of the definitions of texts in the words of chess.
ghost use Rattle.std.specs.Prelude.{◌≡◌, ◌≤◌, ◌↔◌, ℕ, List, true, false, Ok, Err, Some};
ghost use Rattle.study_board.specs.Position.{Position as APosition, IsValid};
ghost use Rattle.study_moves.specs.declared.moves.Move.{Move as AMove};
ghost use Rattle.study_moves.specs.Rules.{is_legal};
ghost use Rattle.study_notation.specs.declared.start.Start.{Start as AStart};
ghost use Rattle.study_notation.specs.declared.san.San.{San as ASan};
ghost use Rattle.study_notation.specs.Fen.{start_of};
ghost use Rattle.study_notation.specs.FenSpelling.{fen_text};
ghost use Rattle.study_notation.specs.San.{Says};
ghost use Rattle.study_notation.specs.SanParts.{san_of, is_castling};
ghost use Rattle.study_notation.specs.Matching.{move_of};
ghost use Rattle.study_notation.specs.Meaning.{IsSan, MatchesAlone, MatchesNone, MatchesTwo};
ghost use Rattle.study_notation.specs.SanSpelling.{move_text};
ghost use Rattle.study_notation.specs.declared.fault.SanFault.TheVariants.{NotSan, CastlingLeftOut, NoSuchMove, Ambiguous};

/// `read_fen` reads the output of `write_fen` for a start as that start, if the clock and the number have at most four digits and the number is not 0.
pub fn fen_is_read_again()
    ensures { (s : AStart) → IsValid s.position → s.clock ≤ 9999 → 1 ≤ s.number → s.number ≤ 9999
        → start_of (fen_text s) ≡ Ok s }
{}

/// A start that `read_fen` returns has a valid position; written, it is read as the same start.
pub fn fen_is_settled()
    ensures valid { (text : List ℕ) (s : AStart) → start_of text ≡ Ok s → IsValid s.position }
    ensures again { (text : List ℕ) (s : AStart) → start_of text ≡ Ok s
        → start_of (fen_text s) ≡ Ok s }
{}

/// `read_san` reads the output of `write_san` for a legal move as that move.
pub fn san_is_read_again()
    ensures { (p : APosition) (m : AMove) → IsValid p → is_legal p m ≡ true
        → move_of p (move_text p m) ≡ Ok m }
{}

/// The parts that are read from the left are the parts with which the text is spelled; so a text is spelled in at most one way.
pub fn san_parts_are_spelled()
    ensures { (text : List ℕ) (s : ASan) → (san_of text ≡ Some s) ↔ Says text s }
{}

/// The result of `read_san`, in the words of the game: the only move that matches the text, or that no move or several moves match; and, from the text alone,
/// that it is castling, or not the form of a move.
pub fn san_is_read_exactly()
    ensures one { (p : APosition) (text : List ℕ) (m : AMove) → IsValid p
        → (move_of p text ≡ Ok m) ↔ MatchesAlone p text m }
    ensures none { (p : APosition) (text : List ℕ) → IsValid p
        → (move_of p text ≡ Err NoSuchMove) ↔ (IsSan text × MatchesNone p text) }
    ensures several { (p : APosition) (text : List ℕ) → IsValid p
        → (move_of p text ≡ Err Ambiguous) ↔ MatchesTwo p text }
    ensures castling { (p : APosition) (text : List ℕ) → IsValid p
        → (move_of p text ≡ Err CastlingLeftOut) ↔ (¬ (IsSan text) × (is_castling text ≡ true)) }
    ensures no_san { (p : APosition) (text : List ℕ) → IsValid p
        → (move_of p text ≡ Err NotSan) ↔ (¬ (IsSan text) × (is_castling text ≡ false)) }
{}
