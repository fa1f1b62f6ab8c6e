//! Why a text is not a valid FEN, or is not the SAN of one legal move.

use thiserror::Error;

/// The first fault of a FEN text, in this order.
#[derive(Clone, Copy, Debug, PartialEq, Eq, Error)]
pub enum FenFault {
    #[error("neither four fields nor six")]
    FieldCount,
    #[error("the placement does not fill eight ranks of eight squares")]
    Placement,
    #[error("more than four men")]
    TooManyMen,
    #[error("a side has not exactly one king")]
    KingCount,
    #[error("a pawn on an end rank")]
    PawnOnEndRank,
    #[error("the side to move is neither w nor b")]
    SideField,
    #[error("the side that is not to move is in check")]
    OpponentInCheck,
    #[error("castling rights are given")]
    Castling,
    #[error("the passed square is neither - nor a square")]
    EnPassantField,
    #[error("no pawn can just have jumped over the passed square")]
    EnPassantImpossible,
    #[error("the clock is not one to four digits")]
    Clock,
    #[error("the move number is not one to four digits")]
    MoveNumber,
}

/// Why a text is not the SAN of exactly one legal move of a position.
#[derive(Clone, Copy, Debug, PartialEq, Eq, Error)]
pub enum SanFault {
    #[error("no move is spelled so")]
    NotSan,
    #[error("castling is left out")]
    CastlingLeftOut,
    #[error("no legal move matches")]
    NoSuchMove,
    #[error("two or more legal moves match")]
    Ambiguous,
}
