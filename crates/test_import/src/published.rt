//! Published studies with more than four men, and the scripts that they come to, each as an independent program writes it; its FEN and SAN were held
//! against pgn-extract.

/// M. Liburkin 1931: promotions to rook and to bishop.
pub(crate) const LIBURKIN: &[u8] = b"[Event \"Shakhmaty v SSSR\"]
[White \"Liburkin, M.\"]
[Date \"1931.??.??\"]
[Result \"1-0\"]
[FEN \"8/8/2P5/1Pr5/8/8/N7/k2K4 w - - 0 1\"]

{White to win}
1. Nc1 Rxb5 (1... Rd5+ 2. Kc2 (2. Nd3 Rxd3+ 3. Kc2 Rd5) 2... Rc5+ 3. Kd3 Rxb5 (3... Rxc1 4. Kd4 Kb2 5.
Kd5 Kb3 6. b6 Rc5+ 7. Kd6 Rb5 8. b7) 4. c7 Rb8 5. cxb8=B (5. cxb8=Q)) 2. c7 Rd5+ 3. Nd3 Rxd3+ 4. Kc2 Rd4
5. c8=R (5. c8=Q Rc4+ 6. Qxc4) 5... Ra4 6. Kb3 1-0

";

pub(crate) const LIBURKIN_SCRIPT: &[u8] = b"#! game 1, line 1: stipulated by its comment
#! not taken over: comments 1
#> position 8/8/2P5/1Pr5/8/8/N7/k2K4 w - - 0 1
#> stipulate white win
#> tag Event Shakhmaty v SSSR
#> tag Site ?
#> tag Date 1931.??.??
#> tag Round ?
#> tag White Liburkin, M.
#> tag Black ?
#> insert root Nc1
#> insert 0 Rxb5
#> insert 0.0 c7
#> insert 0.0.0 Rd5+
#> insert 0.0.0.0 Nd3
#> insert 0.0.0.0.0 Rxd3+
#> insert 0.0.0.0.0.0 Kc2
#> insert 0.0.0.0.0.0.0 Rd4
#> insert 0.0.0.0.0.0.0.0 c8=R
#> insert 0.0.0.0.0.0.0.0.0 Ra4
#> insert 0.0.0.0.0.0.0.0.0.0 Kb3
#> insert 0.0.0.0.0.0.0.0 c8=Q
#> insert 0.0.0.0.0.0.0.0.1 Rc4+
#> insert 0.0.0.0.0.0.0.0.1.0 Qxc4
#> insert 0 Rd5+
#> insert 0.1 Kc2
#> insert 0.1.0 Rc5+
#> insert 0.1.0.0 Kd3
#> insert 0.1.0.0.0 Rxb5
#> insert 0.1.0.0.0.0 c7
#> insert 0.1.0.0.0.0.0 Rb8
#> insert 0.1.0.0.0.0.0.0 cxb8=B
#> insert 0.1.0.0.0.0.0.0 cxb8=Q
#> insert 0.1.0.0.0 Rxc1
#> insert 0.1.0.0.0.1 Kd4
#> insert 0.1.0.0.0.1.0 Kb2
#> insert 0.1.0.0.0.1.0.0 Kd5
#> insert 0.1.0.0.0.1.0.0.0 Kb3
#> insert 0.1.0.0.0.1.0.0.0.0 b6
#> insert 0.1.0.0.0.1.0.0.0.0.0 Rc5+
#> insert 0.1.0.0.0.1.0.0.0.0.0.0 Kd6
#> insert 0.1.0.0.0.1.0.0.0.0.0.0.0 Rb5
#> insert 0.1.0.0.0.1.0.0.0.0.0.0.0.0 b7
#> insert 0.1 Nd3
#> insert 0.1.1 Rxd3+
#> insert 0.1.1.0 Kc2
#> insert 0.1.1.0.0 Rd5

#! tail 1 of 3 of game 1, node 0.0.0.0.0.0, after 3... Rxd3+
position 8/2P5/8/8/8/3r4/8/k2K4 w - - 0 4
stipulate white win
tag Event Shakhmaty v SSSR
tag Site ?
tag Date 1931.??.??
tag Round ?
tag White Liburkin, M.
tag Black ?
insert root Kc2
insert 0 Rd4
insert 0.0 c8=R
insert 0.0.0 Ra4
insert 0.0.0.0 Kb3
insert 0.0 c8=Q
insert 0.0.1 Rc4+
insert 0.0.1.0 Qxc4
pgn

#! tail 2 of 3 of game 1, node 0.1.0.0.0.0.0.0.0, after 5. cxb8=B
position 1B6/8/8/8/8/3K4/8/k1N5 b - - 0 5
stipulate white win
tag Event Shakhmaty v SSSR
tag Site ?
tag Date 1931.??.??
tag Round ?
tag White Liburkin, M.
tag Black ?
pgn

#! tail 3 of 3 of game 1, node 0.1.0.0.0.0.0.0.1, after 5. cxb8=Q, beside the solution
position 1Q6/8/8/8/8/3K4/8/k1N5 b - - 0 5
stipulate white win
tag Event Shakhmaty v SSSR
tag Site ?
tag Date 1931.??.??
tag Round ?
tag White Liburkin, M.
tag Black ?
pgn

#! games 1, studies 3
";

/// A. and K. Sarychev 1928.
pub(crate) const SARYCHEV: &[u8] = b"[Event \"Shakhmatny Listok\"]
[White \"Sarychev, A. and K.\"]
[Date \"1928.??.??\"]
[Result \"1/2-1/2\"]
[FEN \"8/1pPK3b/8/8/8/5k2/8/8 w - - 0 1\"]

{White to draw}
1. Kc8 b5 (1... Bf5+ 2. Kxb7 Bc8+ 3. Kxc8) (1... Be4 2. Kb8 b5 3. c8=Q) 2. Kd7 b4 (2... Bf5+ 3. Kd6 Bc8
4. Kc5 Bd7 5. Kb4) 3. Kd6 Bf5 4. Ke5 Bc8 (4... Bd7 5. Kd4 b3 6. Kc3 Be6 7. c8=Q Bxc8 8. Kxb3)
5. Kd4 b3 6. Kc3 Be6 7. c8=Q Bxc8 8. Kxb3 1/2-1/2

";

pub(crate) const SARYCHEV_SCRIPT: &[u8] = b"#! game 1, line 1: stipulated by its comment
#! not taken over: comments 1
#> position 8/1pPK3b/8/8/8/5k2/8/8 w - - 0 1
#> stipulate white draw
#> tag Event Shakhmatny Listok
#> tag Site ?
#> tag Date 1928.??.??
#> tag Round ?
#> tag White Sarychev, A. and K.
#> tag Black ?
#> insert root Kc8
#> insert 0 b5
#> insert 0.0 Kd7
#> insert 0.0.0 b4
#> insert 0.0.0.0 Kd6
#> insert 0.0.0.0.0 Bf5
#> insert 0.0.0.0.0.0 Ke5
#> insert 0.0.0.0.0.0.0 Bc8
#> insert 0.0.0.0.0.0.0.0 Kd4
#> insert 0.0.0.0.0.0.0.0.0 b3
#> insert 0.0.0.0.0.0.0.0.0.0 Kc3
#> insert 0.0.0.0.0.0.0.0.0.0.0 Be6
#> insert 0.0.0.0.0.0.0.0.0.0.0.0 c8=Q
#> insert 0.0.0.0.0.0.0.0.0.0.0.0.0 Bxc8
#> insert 0.0.0.0.0.0.0.0.0.0.0.0.0.0 Kxb3
#> insert 0.0.0.0.0.0.0 Bd7
#> insert 0.0.0.0.0.0.0.1 Kd4
#> insert 0.0.0.0.0.0.0.1.0 b3
#> insert 0.0.0.0.0.0.0.1.0.0 Kc3
#> insert 0.0.0.0.0.0.0.1.0.0.0 Be6
#> insert 0.0.0.0.0.0.0.1.0.0.0.0 c8=Q
#> insert 0.0.0.0.0.0.0.1.0.0.0.0.0 Bxc8
#> insert 0.0.0.0.0.0.0.1.0.0.0.0.0.0 Kxb3
#> insert 0.0.0 Bf5+
#> insert 0.0.0.1 Kd6
#> insert 0.0.0.1.0 Bc8
#> insert 0.0.0.1.0.0 Kc5
#> insert 0.0.0.1.0.0.0 Bd7
#> insert 0.0.0.1.0.0.0.0 Kb4
#> insert 0 Bf5+
#> insert 0.1 Kxb7
#> insert 0.1.0 Bc8+
#> insert 0.1.0.0 Kxc8
#> insert 0 Be4
#> insert 0.2 Kb8
#> insert 0.2.0 b5
#> insert 0.2.0.0 c8=Q

#! tail 1 of 3 of game 1, node 0.0.0.0.0.0.0.0.0.0.0.0.0.0, after 7... Bxc8
position 2b5/8/8/8/8/1pK2k2/8/8 w - - 0 8
stipulate white draw
tag Event Shakhmatny Listok
tag Site ?
tag Date 1928.??.??
tag Round ?
tag White Sarychev, A. and K.
tag Black ?
insert root Kxb3
pgn

#! tail 2 of 3 of game 1, node 0.0.0.0.0.0.0.1.0.0.0.0.0.0, after 7... Bxc8, the position of tail 1
position 2b5/8/8/8/8/1pK2k2/8/8 w - - 0 8
stipulate white draw
tag Event Shakhmatny Listok
tag Site ?
tag Date 1928.??.??
tag Round ?
tag White Sarychev, A. and K.
tag Black ?
insert root Kxb3
pgn

#! tail 3 of 3 of game 1, node 0.1.0, after 2. Kxb7
position 8/1KP5/8/5b2/8/5k2/8/8 b - - 0 2
stipulate white draw
tag Event Shakhmatny Listok
tag Site ?
tag Date 1928.??.??
tag Round ?
tag White Sarychev, A. and K.
tag Black ?
insert root Bc8+
insert 0 Kxc8
pgn

#! games 1, studies 3
";

/// Lucena's bridge, printed by Salvio 1634.
pub(crate) const LUCENA: &[u8] = b"[Event \"Lucena\"]
[White \"Salvio, A.\"]
[Date \"1634.??.??\"]
[Result \"1-0\"]
[FEN \"1K1k4/1P6/8/8/8/8/r7/2R5 w - - 0 1\"]

{White to win}
1. Rd1+ Ke7 2. Rd4 Ra1 (2... Ke6 3. Kc7 Rc2+ 4. Kb6 Rb2+ 5. Kc6 Rc2+ 6. Kb5
Rb2+ 7. Rb4 Rxb4+ 8. Kxb4) 3. Kc7 Rc1+ 4. Kb6 Rb1+ 5. Kc6 Rc1+ 6. Kb5 Rb1+ 7.
Rb4 Rxb4+ 8. Kxb4 Kd7 9. b8=Q 1-0

";

pub(crate) const LUCENA_SCRIPT: &[u8] = b"#! game 1, line 1: stipulated by its comment
#! not taken over: comments 1
#> position 1K1k4/1P6/8/8/8/8/r7/2R5 w - - 0 1
#> stipulate white win
#> tag Event Lucena
#> tag Site ?
#> tag Date 1634.??.??
#> tag Round ?
#> tag White Salvio, A.
#> tag Black ?
#> insert root Rd1+
#> insert 0 Ke7
#> insert 0.0 Rd4
#> insert 0.0.0 Ra1
#> insert 0.0.0.0 Kc7
#> insert 0.0.0.0.0 Rc1+
#> insert 0.0.0.0.0.0 Kb6
#> insert 0.0.0.0.0.0.0 Rb1+
#> insert 0.0.0.0.0.0.0.0 Kc6
#> insert 0.0.0.0.0.0.0.0.0 Rc1+
#> insert 0.0.0.0.0.0.0.0.0.0 Kb5
#> insert 0.0.0.0.0.0.0.0.0.0.0 Rb1+
#> insert 0.0.0.0.0.0.0.0.0.0.0.0 Rb4
#> insert 0.0.0.0.0.0.0.0.0.0.0.0.0 Rxb4+
#> insert 0.0.0.0.0.0.0.0.0.0.0.0.0.0 Kxb4
#> insert 0.0.0.0.0.0.0.0.0.0.0.0.0.0.0 Kd7
#> insert 0.0.0.0.0.0.0.0.0.0.0.0.0.0.0.0 b8=Q
#> insert 0.0.0 Ke6
#> insert 0.0.0.1 Kc7
#> insert 0.0.0.1.0 Rc2+
#> insert 0.0.0.1.0.0 Kb6
#> insert 0.0.0.1.0.0.0 Rb2+
#> insert 0.0.0.1.0.0.0.0 Kc6
#> insert 0.0.0.1.0.0.0.0.0 Rc2+
#> insert 0.0.0.1.0.0.0.0.0.0 Kb5
#> insert 0.0.0.1.0.0.0.0.0.0.0 Rb2+
#> insert 0.0.0.1.0.0.0.0.0.0.0.0 Rb4
#> insert 0.0.0.1.0.0.0.0.0.0.0.0.0 Rxb4+
#> insert 0.0.0.1.0.0.0.0.0.0.0.0.0.0 Kxb4

#! tail 1 of 2 of game 1, node 0.0.0.0.0.0.0.0.0.0.0.0.0.0, after 7... Rxb4+
position 8/1P2k3/8/1K6/1r6/8/8/8 w - - 0 8
stipulate white win
tag Event Lucena
tag Site ?
tag Date 1634.??.??
tag Round ?
tag White Salvio, A.
tag Black ?
insert root Kxb4
insert 0 Kd7
insert 0.0 b8=Q
pgn

#! tail 2 of 2 of game 1, node 0.0.0.1.0.0.0.0.0.0.0.0.0.0, after 7... Rxb4+
position 8/1P6/4k3/1K6/1r6/8/8/8 w - - 0 8
stipulate white win
tag Event Lucena
tag Site ?
tag Date 1634.??.??
tag Round ?
tag White Salvio, A.
tag Black ?
insert root Kxb4
pgn

#! games 1, studies 2
";

/// Em. Lasker's ladder.
pub(crate) const LASKER_LADDER: &[u8] = b"[Event \"Rook against rook and pawn\"]
[White \"Lasker, Em.\"]
[Date \"????.??.??\"]
[Result \"1-0\"]
[FEN \"2K5/2P4R/8/k7/8/8/2r4p/8 w - - 0 1\"]

{White to win}
1. Kb7 Rb2+ 2. Ka7 Rc2 3. Rh5+ Ka4 4. Kb6 Rb2+ 5. Ka6 Rc2 6. Rh4+ Ka3 7. Kb6
Rb2+ 8. Ka5 Rc2 9. Rh3+ Ka2 (9... Kb2 10. Rxh2 Rxh2 11. c8=Q) 10. Rxh2 Rxh2
11. c8=Q 1-0

";

pub(crate) const LASKER_LADDER_SCRIPT: &[u8] = b"#! game 1, line 1: stipulated by its comment
#! not taken over: comments 1
#> position 2K5/2P4R/8/k7/8/8/2r4p/8 w - - 0 1
#> stipulate white win
#> tag Event Rook against rook and pawn
#> tag Site ?
#> tag Date ????.??.??
#> tag Round ?
#> tag White Lasker, Em.
#> tag Black ?
#> insert root Kb7
#> insert 0 Rb2+
#> insert 0.0 Ka7
#> insert 0.0.0 Rc2
#> insert 0.0.0.0 Rh5+
#> insert 0.0.0.0.0 Ka4
#> insert 0.0.0.0.0.0 Kb6
#> insert 0.0.0.0.0.0.0 Rb2+
#> insert 0.0.0.0.0.0.0.0 Ka6
#> insert 0.0.0.0.0.0.0.0.0 Rc2
#> insert 0.0.0.0.0.0.0.0.0.0 Rh4+
#> insert 0.0.0.0.0.0.0.0.0.0.0 Ka3
#> insert 0.0.0.0.0.0.0.0.0.0.0.0 Kb6
#> insert 0.0.0.0.0.0.0.0.0.0.0.0.0 Rb2+
#> insert 0.0.0.0.0.0.0.0.0.0.0.0.0.0 Ka5
#> insert 0.0.0.0.0.0.0.0.0.0.0.0.0.0.0 Rc2
#> insert 0.0.0.0.0.0.0.0.0.0.0.0.0.0.0.0 Rh3+
#> insert 0.0.0.0.0.0.0.0.0.0.0.0.0.0.0.0.0 Ka2
#> insert 0.0.0.0.0.0.0.0.0.0.0.0.0.0.0.0.0.0 Rxh2
#> insert 0.0.0.0.0.0.0.0.0.0.0.0.0.0.0.0.0.0.0 Rxh2
#> insert 0.0.0.0.0.0.0.0.0.0.0.0.0.0.0.0.0.0.0.0 c8=Q
#> insert 0.0.0.0.0.0.0.0.0.0.0.0.0.0.0.0.0 Kb2
#> insert 0.0.0.0.0.0.0.0.0.0.0.0.0.0.0.0.0.1 Rxh2
#> insert 0.0.0.0.0.0.0.0.0.0.0.0.0.0.0.0.0.1.0 Rxh2
#> insert 0.0.0.0.0.0.0.0.0.0.0.0.0.0.0.0.0.1.0.0 c8=Q

#! tail 1 of 2 of game 1, node 0.0.0.0.0.0.0.0.0.0.0.0.0.0.0.0.0.0.0.0, after 10... Rxh2
position 8/2P5/8/K7/8/8/k6r/8 w - - 0 11
stipulate white win
tag Event Rook against rook and pawn
tag Site ?
tag Date ????.??.??
tag Round ?
tag White Lasker, Em.
tag Black ?
insert root c8=Q
pgn

#! tail 2 of 2 of game 1, node 0.0.0.0.0.0.0.0.0.0.0.0.0.0.0.0.0.1.0.0, after 10... Rxh2
position 8/2P5/8/K7/8/8/1k5r/8 w - - 0 11
stipulate white win
tag Event Rook against rook and pawn
tag Site ?
tag Date ????.??.??
tag Round ?
tag White Lasker, Em.
tag Black ?
insert root c8=Q
pgn

#! games 1, studies 2
";

/// L. Centurini 1856.
pub(crate) const CENTURINI: &[u8] = b"[Event \"Centurini\"]
[White \"Centurini, L.\"]
[Date \"1856.??.??\"]
[Result \"1-0\"]
[FEN \"2KB4/1P6/2k5/8/8/8/7b/8 w - - 0 1\"]

{White to win}
1. Bh4 Kb5 (1... Kb6 2. Bf2+ Ka6 3. Bc5 Bg3 4. Be7 Kb6 5. Bd8+ Kc6 6. Bh4 Bxh4 7.
b8=Q) 2. Bf2 Ka6 3. Bc5 Bg3 4. Be7 Kb6 5. Bd8+ Kc6 6. Bh4 Bh2 7. Bf2 Bf4 8. Ba7
Bh2 9. Bb8 Bg1 10. Bg3 Ba7 11. Bf2 Bxf2 12. b8=Q 1-0

";

pub(crate) const CENTURINI_SCRIPT: &[u8] = b"#! game 1, line 1: stipulated by its comment
#! not taken over: comments 1
#> position 2KB4/1P6/2k5/8/8/8/7b/8 w - - 0 1
#> stipulate white win
#> tag Event Centurini
#> tag Site ?
#> tag Date 1856.??.??
#> tag Round ?
#> tag White Centurini, L.
#> tag Black ?
#> insert root Bh4
#> insert 0 Kb5
#> insert 0.0 Bf2
#> insert 0.0.0 Ka6
#> insert 0.0.0.0 Bc5
#> insert 0.0.0.0.0 Bg3
#> insert 0.0.0.0.0.0 Be7
#> insert 0.0.0.0.0.0.0 Kb6
#> insert 0.0.0.0.0.0.0.0 Bd8+
#> insert 0.0.0.0.0.0.0.0.0 Kc6
#> insert 0.0.0.0.0.0.0.0.0.0 Bh4
#> insert 0.0.0.0.0.0.0.0.0.0.0 Bh2
#> insert 0.0.0.0.0.0.0.0.0.0.0.0 Bf2
#> insert 0.0.0.0.0.0.0.0.0.0.0.0.0 Bf4
#> insert 0.0.0.0.0.0.0.0.0.0.0.0.0.0 Ba7
#> insert 0.0.0.0.0.0.0.0.0.0.0.0.0.0.0 Bh2
#> insert 0.0.0.0.0.0.0.0.0.0.0.0.0.0.0.0 Bb8
#> insert 0.0.0.0.0.0.0.0.0.0.0.0.0.0.0.0.0 Bg1
#> insert 0.0.0.0.0.0.0.0.0.0.0.0.0.0.0.0.0.0 Bg3
#> insert 0.0.0.0.0.0.0.0.0.0.0.0.0.0.0.0.0.0.0 Ba7
#> insert 0.0.0.0.0.0.0.0.0.0.0.0.0.0.0.0.0.0.0.0 Bf2
#> insert 0.0.0.0.0.0.0.0.0.0.0.0.0.0.0.0.0.0.0.0.0 Bxf2
#> insert 0.0.0.0.0.0.0.0.0.0.0.0.0.0.0.0.0.0.0.0.0.0 b8=Q
#> insert 0 Kb6
#> insert 0.1 Bf2+
#> insert 0.1.0 Ka6
#> insert 0.1.0.0 Bc5
#> insert 0.1.0.0.0 Bg3
#> insert 0.1.0.0.0.0 Be7
#> insert 0.1.0.0.0.0.0 Kb6
#> insert 0.1.0.0.0.0.0.0 Bd8+
#> insert 0.1.0.0.0.0.0.0.0 Kc6
#> insert 0.1.0.0.0.0.0.0.0.0 Bh4
#> insert 0.1.0.0.0.0.0.0.0.0.0 Bxh4
#> insert 0.1.0.0.0.0.0.0.0.0.0.0 b8=Q

#! tail 1 of 2 of game 1, node 0.0.0.0.0.0.0.0.0.0.0.0.0.0.0.0.0.0.0.0.0.0, after 11... Bxf2
position 2K5/1P6/2k5/8/8/8/5b2/8 w - - 0 12
stipulate white win
tag Event Centurini
tag Site ?
tag Date 1856.??.??
tag Round ?
tag White Centurini, L.
tag Black ?
insert root b8=Q
pgn

#! tail 2 of 2 of game 1, node 0.1.0.0.0.0.0.0.0.0.0.0, after 6... Bxh4
position 2K5/1P6/2k5/8/7b/8/8/8 w - - 0 7
stipulate white win
tag Event Centurini
tag Site ?
tag Date 1856.??.??
tag Round ?
tag White Centurini, L.
tag Black ?
insert root b8=Q
pgn

#! games 1, studies 2
";

/// A. D. Philidor 1749: rook and bishop against rook.
pub(crate) const PHILIDOR_RB: &[u8] = b"[Event \"Rook and bishop against rook\"]
[White \"Philidor, A. D.\"]
[Date \"1749.??.??\"]
[Result \"1-0\"]
[FEN \"3k4/4r3/3K4/3B4/8/8/8/5R2 w - - 0 1\"]

{White to win}
1. Rf8+ Re8 2. Rf7 Re2 3. Rh7 Re1 (3... Re3 4. Rd7+ Kc8 (4... Ke8 5. Ra7 Kf8 6.
Rf7+ Ke8 7. Rf4 Kd8 8. Be4 Ke8 9. Bc6+) 5. Ra7 Rb3 6. Rh7 Kb8 7. Rh8+ Ka7 8. Ra8+
Kb6 9. Rb8+ Ka5 10. Rxb3) 4. Rb7 Rc1 5. Bb3 Rc3 6. Be6 Rd3+ 7. Bd5 Rc3 8. Rd7+ Kc8 9. Rh7 Kb8 10. Rb7+
Kc8 11. Rb4 Kd8 12. Bc4 Kc8 13. Be6+ Kd8 14. Rb8+ Rc8 15. Rxc8# 1-0

";

pub(crate) const PHILIDOR_RB_SCRIPT: &[u8] = b"#! game 1, line 1: stipulated by its comment
#! not taken over: comments 1
#> position 3k4/4r3/3K4/3B4/8/8/8/5R2 w - - 0 1
#> stipulate white win
#> tag Event Rook and bishop against rook
#> tag Site ?
#> tag Date 1749.??.??
#> tag Round ?
#> tag White Philidor, A. D.
#> tag Black ?
#> insert root Rf8+
#> insert 0 Re8
#> insert 0.0 Rf7
#> insert 0.0.0 Re2
#> insert 0.0.0.0 Rh7
#> insert 0.0.0.0.0 Re1
#> insert 0.0.0.0.0.0 Rb7
#> insert 0.0.0.0.0.0.0 Rc1
#> insert 0.0.0.0.0.0.0.0 Bb3
#> insert 0.0.0.0.0.0.0.0.0 Rc3
#> insert 0.0.0.0.0.0.0.0.0.0 Be6
#> insert 0.0.0.0.0.0.0.0.0.0.0 Rd3+
#> insert 0.0.0.0.0.0.0.0.0.0.0.0 Bd5
#> insert 0.0.0.0.0.0.0.0.0.0.0.0.0 Rc3
#> insert 0.0.0.0.0.0.0.0.0.0.0.0.0.0 Rd7+
#> insert 0.0.0.0.0.0.0.0.0.0.0.0.0.0.0 Kc8
#> insert 0.0.0.0.0.0.0.0.0.0.0.0.0.0.0.0 Rh7
#> insert 0.0.0.0.0.0.0.0.0.0.0.0.0.0.0.0.0 Kb8
#> insert 0.0.0.0.0.0.0.0.0.0.0.0.0.0.0.0.0.0 Rb7+
#> insert 0.0.0.0.0.0.0.0.0.0.0.0.0.0.0.0.0.0.0 Kc8
#> insert 0.0.0.0.0.0.0.0.0.0.0.0.0.0.0.0.0.0.0.0 Rb4
#> insert 0.0.0.0.0.0.0.0.0.0.0.0.0.0.0.0.0.0.0.0.0 Kd8
#> insert 0.0.0.0.0.0.0.0.0.0.0.0.0.0.0.0.0.0.0.0.0.0 Bc4
#> insert 0.0.0.0.0.0.0.0.0.0.0.0.0.0.0.0.0.0.0.0.0.0.0 Kc8
#> insert 0.0.0.0.0.0.0.0.0.0.0.0.0.0.0.0.0.0.0.0.0.0.0.0 Be6+
#> insert 0.0.0.0.0.0.0.0.0.0.0.0.0.0.0.0.0.0.0.0.0.0.0.0.0 Kd8
#> insert 0.0.0.0.0.0.0.0.0.0.0.0.0.0.0.0.0.0.0.0.0.0.0.0.0.0 Rb8+
#> insert 0.0.0.0.0.0.0.0.0.0.0.0.0.0.0.0.0.0.0.0.0.0.0.0.0.0.0 Rc8
#> insert 0.0.0.0.0.0.0.0.0.0.0.0.0.0.0.0.0.0.0.0.0.0.0.0.0.0.0.0 Rxc8#
#> insert 0.0.0.0.0 Re3
#> insert 0.0.0.0.0.1 Rd7+
#> insert 0.0.0.0.0.1.0 Kc8
#> insert 0.0.0.0.0.1.0.0 Ra7
#> insert 0.0.0.0.0.1.0.0.0 Rb3
#> insert 0.0.0.0.0.1.0.0.0.0 Rh7
#> insert 0.0.0.0.0.1.0.0.0.0.0 Kb8
#> insert 0.0.0.0.0.1.0.0.0.0.0.0 Rh8+
#> insert 0.0.0.0.0.1.0.0.0.0.0.0.0 Ka7
#> insert 0.0.0.0.0.1.0.0.0.0.0.0.0.0 Ra8+
#> insert 0.0.0.0.0.1.0.0.0.0.0.0.0.0.0 Kb6
#> insert 0.0.0.0.0.1.0.0.0.0.0.0.0.0.0.0 Rb8+
#> insert 0.0.0.0.0.1.0.0.0.0.0.0.0.0.0.0.0 Ka5
#> insert 0.0.0.0.0.1.0.0.0.0.0.0.0.0.0.0.0.0 Rxb3
#> insert 0.0.0.0.0.1.0 Ke8
#> insert 0.0.0.0.0.1.0.1 Ra7
#> insert 0.0.0.0.0.1.0.1.0 Kf8
#> insert 0.0.0.0.0.1.0.1.0.0 Rf7+
#> insert 0.0.0.0.0.1.0.1.0.0.0 Ke8
#> insert 0.0.0.0.0.1.0.1.0.0.0.0 Rf4
#> insert 0.0.0.0.0.1.0.1.0.0.0.0.0 Kd8
#> insert 0.0.0.0.0.1.0.1.0.0.0.0.0.0 Be4
#> insert 0.0.0.0.0.1.0.1.0.0.0.0.0.0.0 Ke8
#> insert 0.0.0.0.0.1.0.1.0.0.0.0.0.0.0.0 Bc6+

#! tail 1 of 2 of game 1, node 0.0.0.0.0.0.0.0.0.0.0.0.0.0.0.0.0.0.0.0.0.0.0.0.0.0.0.0.0, after 15. Rxc8#
position 2Rk4/8/3KB3/8/8/8/8/8 b - - 0 15
stipulate white win
tag Event Rook and bishop against rook
tag Site ?
tag Date 1749.??.??
tag Round ?
tag White Philidor, A. D.
tag Black ?
pgn

#! tail 2 of 2 of game 1, node 0.0.0.0.0.1.0.0.0.0.0.0.0.0.0.0.0.0.0, after 10. Rxb3
position 8/8/3K4/k2B4/8/1R6/8/8 b - - 0 10
stipulate white win
tag Event Rook and bishop against rook
tag Site ?
tag Date 1749.??.??
tag Round ?
tag White Philidor, A. D.
tag Black ?
pgn

#! games 1, studies 2
";
