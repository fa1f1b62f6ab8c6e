//! Written texts are read back, the meaning of texts in the words of chess, and agreement with the texts of four men.
ghost use Rattle.std.specs.Prelude.{◌≡◌, ◌≤◌, ◌↔◌, ℕ, List, true, Ok, Err};
ghost use Rattle.study_moves.specs.declared.moves.Move.{Move as AMove};
ghost use Rattle.study_notation.specs.declared.fault.SanFault.TheVariants.{NotSan, CastlingLeftOut, NoSuchMove, Ambiguous};
ghost use Rattle.study_wide.specs.Wide.{Wide, IsWide};
ghost use Rattle.study_wide.specs.Rules.{is_wide_legal};
ghost use Rattle.study_wide_text.specs.declared.start.WideStart.{WideStart as AStart};
ghost use Rattle.study_wide_text.specs.Fen.{wide_start_of, wide_fen_text};
ghost use Rattle.study_wide_text.specs.Matching.{wide_move_of};
ghost use Rattle.study_wide_text.specs.SanSpelling.{wide_move_text};
ghost use Rattle.study_wide_text.specs.Meaning.{IsWideSan, WideMatchesAlone, WideMatchesNone, WideMatchesTwo};
ghost use Rattle.study_wide_text.specs.Laws.{FenAgrees, SanAgrees};

/// `read_wide_fen` reads the output of `write_wide_fen` for a start as that start, if the clock and the number have at most four digits and the number is not
/// 0.
pub fn wide_fen_is_read_again()
    ensures { (s : AStart) → IsWide s.position → s.clock ≤ 9999 → 1 ≤ s.number → s.number ≤ 9999
        → wide_start_of (wide_fen_text s) ≡ Ok s }
{}

/// A start that `read_wide_fen` returns has a sound position; written, it is read as the same start.
pub fn wide_fen_is_settled()
    ensures valid { (text : List ℕ) (s : AStart) → wide_start_of text ≡ Ok s → IsWide s.position }
    ensures again { (text : List ℕ) (s : AStart) → wide_start_of text ≡ Ok s
        → wide_start_of (wide_fen_text s) ≡ Ok s }
{}

/// Where four men and no right to castle are left, `read_wide_fen`, `write_wide_fen` and `WideStart::played` do what those of study_notation do.
pub fn fen_agrees()
    ensures { FenAgrees }
{}

/// `read_wide_san` reads the output of `write_wide_san` for a legal move as that move.
pub fn wide_san_is_read_again()
    ensures { (g : Wide) (m : AMove) → IsWide g → is_wide_legal g m ≡ true
        → wide_move_of g (wide_move_text g m) ≡ Ok m }
{}

/// The result of `read_wide_san`, in the words of the game: the only move that matches the text, or that no move or several moves match, or that the text has
/// not the form of a move.
pub fn wide_san_is_read_exactly()
    ensures one { (g : Wide) (text : List ℕ) (m : AMove) → IsWide g
        → (wide_move_of g text ≡ Ok m) ↔ WideMatchesAlone g text m }
    ensures none { (g : Wide) (text : List ℕ) → IsWide g
        → (wide_move_of g text ≡ Err NoSuchMove) ↔ (IsWideSan text × WideMatchesNone g text) }
    ensures several { (g : Wide) (text : List ℕ) → IsWide g
        → (wide_move_of g text ≡ Err Ambiguous) ↔ WideMatchesTwo g text }
    ensures no_san { (g : Wide) (text : List ℕ) → IsWide g
        → (wide_move_of g text ≡ Err NotSan) ↔ ¬ (IsWideSan text) }
    ensures never { (g : Wide) (text : List ℕ) → IsWide g
        → ¬ (wide_move_of g text ≡ Err CastlingLeftOut) }
{}

/// Where four men and no right to castle are left, `read_wide_san` and `write_wide_san` do what those of study_notation do; castling, which those leave out,
/// is no legal move.
pub fn san_agrees()
    ensures { SanAgrees }
{}
