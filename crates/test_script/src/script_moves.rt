//! Moves and the shortest mate of a position, without tables.
use crate::rows::{Rows, check};

const PIECES: Rows<'static> =
    "position k7/8/1K6/8/8/8/8/7R w - - 0 1 -> position k7/8/1K6/8/8/8/8/7R w - - 0 1
moves root -> moves 20 Ra1+ Rb1 Rc1 Rd1 Re1 Rf1 Rg1 Rh2 Rh3 Rh4 Rh5 Rh6 Rh7 Rh8# Ka5 Kb5 Kc5 Ka6 Kc6 Kc7
solve 1 root -> solve plies 1
# a comment has no reply ->
 ->
    ->
position k7/8/2K5/8/8/8/8/7R w - - -> position k7/8/2K5/8/8/8/8/7R w - - 0 1
solve 1 root -> solve none
solve 2 root -> solve plies 3
solve 4 root -> error BadArguments
position k7/8/1Q6/8/8/8/8/K7 b - - 0 1 -> position k7/8/1Q6/8/8/8/8/K7 b - - 0 1
moves root -> moves 0 stalemate
position k6R/8/1K6/8/8/8/8/8 b - - 0 1 -> position k6R/8/1K6/8/8/8/8/8 b - - 0 1
moves root -> moves 0 mate";

/// Promotions, and a passed square that a pawn can capture on and one that none can.
const PAWNS: Rows<'static> = "build KPKP -> error MissingTable KPK
position k7/2P5/1K6/8/8/8/8/8 w - - 0 1 -> position k7/2P5/1K6/8/8/8/8/8 w - - 0 1
moves root -> moves 9 Ka5 Kb5 Kc5 Ka6 Kc6 c8=Q# c8=R# c8=B c8=N
position 8/8/8/8/k2Pp3/8/8/4K3 b - d3 0 1 -> position 8/8/8/8/k2Pp3/8/8/4K3 b - d3 0 1
moves root -> moves 7 Ka3 Kb3 Kb4 Ka5 Kb5 exd3 e3
stipulate white draw -> error NoTable KPKP
position 8/8/8/8/4P3/k7/8/4K3 b - e3 0 1 -> position 8/8/8/8/4P3/k7/8/4K3 b - e3 0 1
moves root -> moves 5 Ka2 Kb2 Kb3 Ka4 Kb4
fen root -> fen 8/8/8/8/4P3/k7/8/4K3 b - e3 0 1
position 8/8/8/8/4P3/k7/8/4K3 b - - 0 1 -> position 8/8/8/8/4P3/k7/8/4K3 b - - 0 1
moves root -> moves 5 Ka2 Kb2 Kb3 Ka4 Kb4";

/// The reply names the first fault of a position's FEN, and the position is unchanged.
const TEXTS: Rows<'static> =
    "position rnbqkbnr/pppppppp/8/8/8/8/PPPPPPPP/RNBQKBNR w KQkq - 0 1 -> error TooManyMen
position 4k3/8/8/8/8/8/8/4K2R w K - 0 1 -> error Castling
position k7/44/1K6/8/8/8/8/7R w - - 3 0 -> position k7/8/1K6/8/8/8/8/7R w - - 3 1
position k7/K7/8/8/8/8/8/8 w - - 0 1 -> error OpponentInCheck
position k7/8/8/8/8/8/8/8 x K - 0 1 -> error KingCount
fen root -> fen k7/8/1K6/8/8/8/8/7R w - - 3 1";

#[test]
fn moves_are_listed_and_faults_of_fens_reported(rt: HostRuntime) {
    let alloc = rt.alloc();
    for rows in [PIECES, PAWNS, TEXTS] {
        check(&rt, &alloc, rows);
    }
}
