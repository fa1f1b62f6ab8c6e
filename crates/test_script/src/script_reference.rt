//! A script with each refusal once, and its replies; docs/SCRIPT.md says what each means.
use crate::rows::{Rows, check};

const REFUSALS: Rows<'static> = "tag White Réti -> error BadByte
dance root -> error UnknownCommand
moves -> error BadArguments
stipulate green win -> error UnknownStipulation
tag Composer Reti -> error UnknownTag
moves root -> error NoPosition
mark root -> error NoStudy
build KKR -> error NotAClass
build KNK -> error MissingTable KK
build KK -> built KK cells 1280 win -
build KK -> error AlreadyHeld KK
load KNK -> error NoFile
save KK -> error Device
verify KNK -> error NoTable KNK
position 8/8/8/8/8/k7/8/K7 w - -> error FieldCount
position 8/8/8/8/8/k8/8/K7 w - - 0 1 -> error Placement
position 8/8/8/8/8/k7/8/K3RRR1 w - - 0 1 -> error TooManyMen
position 8/8/8/8/8/8/8/K7 w - - 0 1 -> error KingCount
position 8/8/8/8/8/k7/8/K6P w - - 0 1 -> error PawnOnEndRank
position 8/8/8/8/8/k7/8/K7 white - - 0 1 -> error SideField
position k7/8/8/8/8/8/8/R6K w - - 0 1 -> error OpponentInCheck
position 8/8/8/8/8/k7/8/K7 w KQ - 0 1 -> error Castling
position 8/8/8/8/8/k7/8/K7 w - e9 0 1 -> error EnPassantField
position 8/8/8/8/8/k7/8/K7 w - e6 0 1 -> error EnPassantImpossible
position 8/8/8/8/8/k7/8/K7 w - - x 1 -> error Clock
position 8/8/8/8/8/k7/8/K7 w - - 0 x -> error MoveNumber
build KNK -> built KNK cells 81920 win -
build KNNK -> built KNNK cells 5242880 win 1
position 7k/8/8/8/8/2N5/8/4K1N1 w - - 0 1 -> position 7k/8/8/8/8/2N5/8/4K1N1 w - - 0 1
stipulate white draw -> stipulate White to draw
insert 0 Ne2 -> error NoSuchNode
insert root Kz9 -> error NotSan
insert root O-O -> error CastlingLeftOut
insert root Ke4 -> error NoSuchMove
insert root Ne2 -> error Ambiguous
insert root Nge2 -> insert 0 Nge2
insert root Nge2 -> error AlreadyThere 0
delete root -> error RootNotAllowed
promote 0 -> error AlreadyFirst
shift 7k/8/8/8/8/2N5/4K3/6N1 w - - 0 1 -> error ShiftBroken 0
tag Event Names of more than sixty characters are refused in every tag, as this -> error TagText
position 7k/8/8/8/8/2R5/8/4K3 w - - 0 1 -> error NoTable KRK";

/// Each refusal that can occur in a script without files, as in the reference.
#[test]
fn each_refusal_of_the_reference_is_met(rt: HostRuntime) {
    check(&rt, &rt.alloc(), REFUSALS);
}
