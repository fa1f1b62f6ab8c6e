//! Lines that are refused, each with its name and in order.
use crate::rows::{Rows, check};

/// Words that are not a command, or not of its form; these refusals come before all that depend on the state.
const FORMS: Rows<'static> = "moves\troot -> error BadByte
dance root -> error UnknownCommand
moves -> error BadArguments
moves root root -> error BadArguments
moves 0000 -> error BadArguments
moves .0 -> error BadArguments
solve 01 root -> error BadArguments
position -> error BadArguments
tag -> error BadArguments
tag Event -> error BadArguments
tag Foo -> error UnknownTag
tag Result 1-0 -> error UnknownTag
stipulate -> error UnknownStipulation
stipulate green win -> error UnknownStipulation
stipulate white mate 0 -> error UnknownStipulation
stipulate white mate 128 -> error UnknownStipulation
stipulate white mate x -> error UnknownStipulation
moves root -> error NoPosition
fen root -> error NoPosition
solve 1 root -> error NoPosition
stipulate white win -> error NoPosition
shift 8/8/8/8/8/8/8/8 w - - 0 1 -> error NoStudy
insert root Ka1 -> error NoStudy
delete root -> error NoStudy
promote root -> error NoStudy
tag Event text -> error NoStudy
mark root -> error NoStudy
pgn -> error NoStudy
build KKK -> error NotAClass";

/// The faults of a position's FEN.
const POSITIONS: Rows<'static> = "position k7/8/8/8/8/8/8/K7 w - -> error FieldCount
position k7/8/8/8/8/8/8 w - - 0 1 -> error Placement
position k7/8/8/8/8/8/8/K6P w - - 0 1 -> error PawnOnEndRank
position k7/8/8/8/8/8/8/K7 x - - 0 1 -> error SideField
position k7/8/8/8/8/8/8/K7 w - e9 0 1 -> error EnPassantField
position k7/8/8/8/8/8/8/K7 w - e6 0 1 -> error EnPassantImpossible
position k7/8/8/8/8/8/8/K7 w - - x 1 -> error Clock
position k7/8/8/8/8/8/8/K7 w - - 0 x -> error MoveNumber
moves root -> error NoPosition";

/// The refusals of edits, over only the table of two kings.
const EDITS: Rows<'static> =
    "position k7/8/8/8/8/8/8/K7 w - - 0 1 -> position k7/8/8/8/8/8/8/K7 w - - 0 1
moves 0 -> error NoSuchNode
stipulate white draw -> error NoTable KK
build KK -> built KK cells 1280 win -
stipulate white draw -> stipulate White to draw
insert root Kb1 -> insert 0 Kb1
insert root Kb1 -> error AlreadyThere 0
insert root Kb4 -> error NoSuchMove
insert root Rb4 -> error NoSuchMove
insert root Nz9 -> error NotSan
insert root O-O -> error CastlingLeftOut
insert 5 Nz9 -> error NoSuchNode
delete root -> error RootNotAllowed
delete 0.0 -> error NoSuchNode
promote root -> error RootNotAllowed
promote 0 -> error AlreadyFirst
tag Event 0123456789012345678901234567890123456789012345678901234567890 -> error TagText
position k7/8/8/8/8/8/8/K6R w - - 0 1 -> error NoTable KRK
fen 0 -> fen k7/8/8/8/8/8/8/1K6 b - - 1 1
fen 00 -> fen k7/8/8/8/8/8/8/1K6 b - - 1 1
mark 0 -> mark 0 draw dual 2 faults 1
delete 0 -> delete 0
mark root -> mark root draw - faults 0";

/// With ample memory, the first refusal for each class is that a table is missing.
const NEEDS: Rows<'static> = "build KQK -> error MissingTable KK
build KRK -> error MissingTable KK
build KBK -> error MissingTable KK
build KNK -> error MissingTable KK
build KPK -> error MissingTable KK
build KQQK -> error MissingTable KQK
build KQRK -> error MissingTable KQK
build KQBK -> error MissingTable KQK
build KQNK -> error MissingTable KQK
build KQPK -> error MissingTable KQK
build KRRK -> error MissingTable KRK
build KRBK -> error MissingTable KRK
build KRNK -> error MissingTable KRK
build KRPK -> error MissingTable KRK
build KBBK -> error MissingTable KBK
build KBNK -> error MissingTable KBK
build KBPK -> error MissingTable KBK
build KNNK -> error MissingTable KNK
build KNPK -> error MissingTable KNK
build KPPK -> error MissingTable KPK
build KQKQ -> error MissingTable KQK
build KQKR -> error MissingTable KQK
build KQKB -> error MissingTable KQK
build KQKN -> error MissingTable KQK
build KQKP -> error MissingTable KQK
build KRKR -> error MissingTable KRK
build KRKB -> error MissingTable KRK
build KRKN -> error MissingTable KRK
build KRKP -> error MissingTable KQK
build KBKB -> error MissingTable KBK
build KBKN -> error MissingTable KBK
build KBKP -> error MissingTable KQK
build KNKN -> error MissingTable KNK
build KNKP -> error MissingTable KQK
build KPKP -> error MissingTable KPK
build KK -> built KK cells 1280 win -";

#[test]
fn each_refusal_has_its_name_and_its_place(rt: HostRuntime) {
    let alloc = rt.alloc();
    for rows in [FORMS, POSITIONS, EDITS, NEEDS] {
        check(&rt, &alloc, rows);
    }
}
