//! Why a line is refused, in words.
ghost use Rattle.std.specs.Prelude.{◌≡◌, ◌≤◌, length};
ghost use Rattle.study_reply.specs.Reasons.{form_reason, fen_reason, san_reason, refusal_reason, edit_reason};
ghost use Rattle.study_reply.specs.Reasons.{word_length, first_word, explained_refusals, reason_among, reason_of};

use crate::refusal::Refusal;
use crate::reply_text::of_probe;
use std::alloc::Allocator;
use study_command::SyntaxFault;
use study_marks::Refusal as EditRefusal;
use study_material::Class;
use study_notation::{FenFault, SanFault};
use study_values::{FileFault, SourceFault};

/// A refusal of each name that has words of its own.
static EXPLAINED: [Refusal; 34] = [
    Refusal::Form(SyntaxFault::BadByte),
    Refusal::Form(SyntaxFault::UnknownCommand),
    Refusal::Form(SyntaxFault::BadArguments),
    Refusal::Form(SyntaxFault::UnknownStipulation),
    Refusal::Form(SyntaxFault::UnknownTag),
    Refusal::TagText,
    Refusal::NoPosition,
    Refusal::NoStudy,
    Refusal::NoSuchNode,
    Refusal::San(SanFault::NotSan),
    Refusal::San(SanFault::CastlingLeftOut),
    Refusal::San(SanFault::NoSuchMove),
    Refusal::San(SanFault::Ambiguous),
    Refusal::AlreadyThere(0),
    Refusal::RootNotAllowed,
    Refusal::AlreadyFirst,
    Refusal::TooDeep,
    Refusal::TreeFull,
    Refusal::Fen(FenFault::FieldCount),
    Refusal::Fen(FenFault::Placement),
    Refusal::Fen(FenFault::TooManyMen),
    Refusal::Fen(FenFault::KingCount),
    Refusal::Fen(FenFault::PawnOnEndRank),
    Refusal::Fen(FenFault::SideField),
    Refusal::Fen(FenFault::OpponentInCheck),
    Refusal::Fen(FenFault::Castling),
    Refusal::Fen(FenFault::EnPassantField),
    Refusal::Fen(FenFault::EnPassantImpossible),
    Refusal::Fen(FenFault::Clock),
    Refusal::Fen(FenFault::MoveNumber),
    Refusal::NotAClass,
    Refusal::NoTable(Class::KK),
    Refusal::TableRead(SourceFault::Short),
    Refusal::OutOfMemory,
];

/// Why a shift is refused after which a move of the tree would not be legal.
const SHIFT_BROKEN: &[u8] = b"a move of the tree is not legal from the new start";

/// Why a line is refused for which no words are known.
const UNEXPLAINED: &[u8] = b"it cannot be done";

impl Refusal {
    /// Why the line is refused, in words.
    pub fn reason(self) -> &'static [u8]
        ensures { result.now ≡ refusal_reason self }
    {
        match self {
            Refusal::Form(fault) => form_reason(fault),
            Refusal::NoPosition => b"no position yet",
            Refusal::NoStudy => b"no stipulation yet",
            Refusal::OutOfMemory | Refusal::File(FileFault::OutOfMemory) => b"no memory is left",
            Refusal::NotAClass => b"no such material, or its men in another order",
            Refusal::NoSuchNode => b"no move stands at this place of the tree",
            Refusal::Fen(fault) => fen_reason(fault),
            Refusal::San(fault) => san_reason(fault),
            Refusal::RootNotAllowed => b"the start can be neither deleted nor promoted",
            Refusal::AlreadyFirst => b"it is the first already",
            Refusal::AlreadyThere(_) => b"the move stands there already",
            Refusal::TooDeep => b"more than 256 plies below the start",
            Refusal::TreeFull => b"more than 4,096 nodes",
            Refusal::TagText => b"more than 60 characters",
            Refusal::NoTable(_) => b"the table of this material is not in the folder",
            Refusal::TableRead(_) | Refusal::TableReadPage(_) => {
                b"the file of a table could not be read"
            }
            _ => UNEXPLAINED,
        }
    }
}

fn form_reason(fault: SyntaxFault) -> &'static [u8]
    ensures { result.now ≡ form_reason fault }
{
    match fault {
        SyntaxFault::BadByte => b"a letter outside plain ASCII",
        SyntaxFault::UnknownCommand => b"the first word is no command",
        SyntaxFault::BadArguments =>
            b"a word too few or too many, or a path or number not of its form",
        SyntaxFault::UnknownStipulation => b"no stipulation of a known form",
        SyntaxFault::UnknownTag => b"not one of the six tags",
    }
}

fn fen_reason(fault: FenFault) -> &'static [u8]
    ensures { result.now ≡ fen_reason fault }
{
    match fault {
        FenFault::FieldCount => b"not six fields, and not four",
        FenFault::Placement => b"the first field does not fill eight ranks of eight squares",
        FenFault::TooManyMen => b"more than four men",
        FenFault::KingCount => b"not one king each",
        FenFault::PawnOnEndRank => b"a pawn on the first or last rank",
        FenFault::SideField => b"neither w nor b is to move",
        FenFault::OpponentInCheck => b"the side that is not to move is in check",
        FenFault::Castling => b"castling is left out: write -",
        FenFault::EnPassantField => b"neither a square nor -",
        FenFault::EnPassantImpossible => b"no pawn can just have passed over that square",
        FenFault::Clock => b"not one to four digits",
        FenFault::MoveNumber => b"not one to four digits",
    }
}

fn san_reason(fault: SanFault) -> &'static [u8]
    ensures { result.now ≡ san_reason fault }
{
    match fault {
        SanFault::NotSan => b"not the text of a move, which stands without its number",
        SanFault::CastlingLeftOut => b"castling is left out",
        SanFault::NoSuchMove => b"no legal move of this position",
        SanFault::Ambiguous => b"several men can make this move",
    }
}

/// Why an edit is refused, in words.
pub(crate) fn edit_reason<'a, A: Allocator>(refusal: &EditRefusal<'a, A>) -> &'static [u8]
    ensures { result.now ≡ edit_reason refusal.now }
{
    match refusal {
        EditRefusal::NoSuchNode => Refusal::NoSuchNode.reason(),
        EditRefusal::RootNotAllowed => Refusal::RootNotAllowed.reason(),
        EditRefusal::AlreadyFirst => Refusal::AlreadyFirst.reason(),
        EditRefusal::IllegalMove => Refusal::IllegalMove.reason(),
        EditRefusal::AlreadyThere(place) => Refusal::AlreadyThere(*place).reason(),
        EditRefusal::TooDeep => Refusal::TooDeep.reason(),
        EditRefusal::TreeFull => Refusal::TreeFull.reason(),
        EditRefusal::ShiftBroken(_) => SHIFT_BROKEN,
        EditRefusal::TagText => Refusal::TagText.reason(),
        EditRefusal::OutOfMemory => Refusal::OutOfMemory.reason(),
        EditRefusal::NoTable(class) => Refusal::NoTable(*class).reason(),
        EditRefusal::TableRead(fault) => of_probe(*fault).reason(),
    }
}

/// The number of bytes before the first space.
fn word_length(text: &[u8]) -> usize
    ensures length { result ≡ word_length text.now }
    ensures within { result ≤ length text.now }
{
    match text {
        [] => 0,
        [first, rest @ ..] => {
            if *first == b' ' {
                0
            } else {
                1 + word_length(rest)
            }
        }
    }
}

fn first_word(text: &[u8]) -> &[u8]
    ensures { result.now ≡ first_word text.now }
{
    &text[..word_length(text)]
}

/// Why a line is refused, in words, by the text of the refusal, such as `NoTable KRK`. The first word decides.
#[tactic(auto, unfolding(crate::specs::Reasons::reason_of))]
pub fn reason_of(refusal: &[u8]) -> &'static [u8]
    ensures { result.now ≡ reason_of refusal.now }
{
    let name = first_word(refusal);
    if name == b"ShiftBroken".as_slice() {
        SHIFT_BROKEN
    } else {
        reason_among(explained_refusals(), name)
    }
}

#[tactic(auto, unfolding(crate::specs::Reasons::explained_refusals))]
fn explained_refusals() -> &'static [Refusal]
    ensures { result.now ≡ explained_refusals }
{
    &EXPLAINED
}

/// The reason of the first of these refusals whose name has this word first.
fn reason_among(refusals: &[Refusal], name: &[u8]) -> &'static [u8]
    ensures { result.now ≡ reason_among refusals.now name.now }
{
    match refusals {
        [] => UNEXPLAINED,
        [refusal, rest @ ..] => {
            if first_word(refusal.name()) == name {
                refusal.reason()
            } else {
                reason_among(rest, name)
            }
        }
    }
}
