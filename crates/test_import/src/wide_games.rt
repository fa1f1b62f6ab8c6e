//! Games with more than four men. Moves and scripts are those of an independent program; its FEN and SAN were held against pgn-extract.

/// Five men; a position is reached twice.
pub(crate) const FEW: &[u8] = b"[Event \"random few 37\"]
[Site \"?\"]
[Date \"2026.11.29\"]
[Round \"37\"]
[White \"wide_gen\"]
[Black \"?\"]
[FEN \"8/8/8/5K2/2k2P2/2B5/p7/8 w - - 30 1\"]
[Result \"*\"]

{Black to draw}
1. Kf6 a1=Q (1... Kxc3 2. Kf5 Kd2 3. Kg5 a1=Q (3... Kc1 4. Kh4 a1=N 5. Kg3) 4.
Kh5 Qa3 5. Kg4) (1... a1=B 2. Bxa1 Kc5 3. Ke6 Kb6 4. Kf5) 2. Bxa1 *
";

pub(crate) const FEW_SCRIPT: &[u8] = b"#! game 1, line 1: stipulated by its comment
#! not taken over: comments 1
#> position 8/8/8/5K2/2k2P2/2B5/p7/8 w - - 30 1
#> stipulate black draw
#> tag Event random few 37
#> tag Site ?
#> tag Date 2026.11.29
#> tag Round 37
#> tag White wide_gen
#> tag Black ?
#> insert root Kf6
#> insert 0 a1=Q
#> insert 0.0 Bxa1
#> insert 0 Kxc3
#> insert 0.1 Kf5
#> insert 0.1.0 Kd2
#> insert 0.1.0.0 Kg5
#> insert 0.1.0.0.0 a1=Q
#> insert 0.1.0.0.0.0 Kh5
#> insert 0.1.0.0.0.0.0 Qa3
#> insert 0.1.0.0.0.0.0.0 Kg4
#> insert 0.1.0.0.0 Kc1
#> insert 0.1.0.0.0.1 Kh4
#> insert 0.1.0.0.0.1.0 a1=N
#> insert 0.1.0.0.0.1.0.0 Kg3
#> insert 0 a1=B
#> insert 0.2 Bxa1
#> insert 0.2.0 Kc5
#> insert 0.2.0.0 Ke6
#> insert 0.2.0.0.0 Kb6
#> insert 0.2.0.0.0.0 Kf5

#! tail 1 of 3 of game 1, node 0.0.0, after 2. Bxa1
position 8/8/5K2/8/2k2P2/8/8/B7 b - - 0 2
stipulate black draw
tag Event random few 37
tag Site ?
tag Date 2026.11.29
tag Round 37
tag White wide_gen
tag Black ?
pgn

#! tail 2 of 3 of game 1, node 0.1, after 1... Kxc3, beside the solution
position 8/8/5K2/8/5P2/2k5/p7/8 w - - 0 2
stipulate black draw
tag Event random few 37
tag Site ?
tag Date 2026.11.29
tag Round 37
tag White wide_gen
tag Black ?
insert root Kf5
insert 0 Kd2
insert 0.0 Kg5
insert 0.0.0 a1=Q
insert 0.0.0.0 Kh5
insert 0.0.0.0.0 Qa3
insert 0.0.0.0.0.0 Kg4
insert 0.0.0 Kc1
insert 0.0.0.1 Kh4
insert 0.0.0.1.0 a1=N
insert 0.0.0.1.0.0 Kg3
pgn

#! tail 3 of 3 of game 1, node 0.2.0, after 2. Bxa1, beside the solution, the position of tail 1
position 8/8/5K2/8/2k2P2/8/8/B7 b - - 0 2
stipulate black draw
tag Event random few 37
tag Site ?
tag Date 2026.11.29
tag Round 37
tag White wide_gen
tag Black ?
insert root Kc5
insert 0 Ke6
insert 0.0 Kb6
insert 0.0.0 Kf5
pgn

#! games 1, studies 3
";

/// A middle game with castling.
pub(crate) const MIDDLE: &[u8] = b"[Event \"random middle 31\"]
[Site \"?\"]
[Date \"2026.11.29\"]
[Round \"31\"]
[White \"wide_gen\"]
[Black \"?\"]
[FEN \"r3k2r/3N4/3b4/2Q2B2/8/8/1p6/R3K2R w KQkq - 24 17\"]
[Result \"1-0\"]

17. O-O bxa1=R (17... Rc8 18. Ra2 Rc7 19. Qxd6 Rxd7 20. Rxb2 Rxd6 $1 21. Rfb1
Rd1+ 22. Rxd1 Rh4 23. Rd4 Rxd4 24. Rb7 Rd2 25. Rb2 Rxb2) 18. Qb5 O-O-O 19. Qb6
Bh2+ 20. Kh1 Rxd7 21. Bxd7+ Kxd7 22. Qb8 Rxb8 23. Kxh2 Raa8 (23... Rxf1 24. Kg3
{a comment} Rff8 25. Kh3 Rb1 26. Kg3 (26. Kh4 Ra1) 26... Rbb8) 24. Ra1 Rxa1 25.
Kg3 Rb7 26. Kh3 Kc6 27. Kg2 Rba7 1-0
";

pub(crate) const MIDDLE_SCRIPT: &[u8] = b"#! game 1, line 1: stipulated by its tag Result
#! not taken over: comments 1, NAGs 1
#> position r3k2r/3N4/3b4/2Q2B2/8/8/1p6/R3K2R w KQkq - 24 17
#> stipulate white win
#> tag Event random middle 31
#> tag Site ?
#> tag Date 2026.11.29
#> tag Round 31
#> tag White wide_gen
#> tag Black ?
#> insert root O-O
#> insert 0 bxa1=R
#> insert 0.0 Qb5
#> insert 0.0.0 O-O-O
#> insert 0.0.0.0 Qb6
#> insert 0.0.0.0.0 Bh2+
#> insert 0.0.0.0.0.0 Kh1
#> insert 0.0.0.0.0.0.0 Rxd7
#> insert 0.0.0.0.0.0.0.0 Bxd7+
#> insert 0.0.0.0.0.0.0.0.0 Kxd7
#> insert 0.0.0.0.0.0.0.0.0.0 Qb8
#> insert 0.0.0.0.0.0.0.0.0.0.0 Rxb8
#> insert 0.0.0.0.0.0.0.0.0.0.0.0 Kxh2
#> insert 0.0.0.0.0.0.0.0.0.0.0.0.0 Raa8
#> insert 0.0.0.0.0.0.0.0.0.0.0.0.0.0 Ra1
#> insert 0.0.0.0.0.0.0.0.0.0.0.0.0.0.0 Rxa1
#> insert 0.0.0.0.0.0.0.0.0.0.0.0.0.0.0.0 Kg3
#> insert 0.0.0.0.0.0.0.0.0.0.0.0.0.0.0.0.0 Rb7
#> insert 0.0.0.0.0.0.0.0.0.0.0.0.0.0.0.0.0.0 Kh3
#> insert 0.0.0.0.0.0.0.0.0.0.0.0.0.0.0.0.0.0.0 Kc6
#> insert 0.0.0.0.0.0.0.0.0.0.0.0.0.0.0.0.0.0.0.0 Kg2
#> insert 0.0.0.0.0.0.0.0.0.0.0.0.0.0.0.0.0.0.0.0.0 Rba7
#> insert 0.0.0.0.0.0.0.0.0.0.0.0.0 Rxf1
#> insert 0.0.0.0.0.0.0.0.0.0.0.0.0.1 Kg3
#> insert 0.0.0.0.0.0.0.0.0.0.0.0.0.1.0 Rff8
#> insert 0.0.0.0.0.0.0.0.0.0.0.0.0.1.0.0 Kh3
#> insert 0.0.0.0.0.0.0.0.0.0.0.0.0.1.0.0.0 Rb1
#> insert 0.0.0.0.0.0.0.0.0.0.0.0.0.1.0.0.0.0 Kg3
#> insert 0.0.0.0.0.0.0.0.0.0.0.0.0.1.0.0.0.0.0 Rbb8
#> insert 0.0.0.0.0.0.0.0.0.0.0.0.0.1.0.0.0.0 Kh4
#> insert 0.0.0.0.0.0.0.0.0.0.0.0.0.1.0.0.0.0.1 Ra1
#> insert 0 Rc8
#> insert 0.1 Ra2
#> insert 0.1.0 Rc7
#> insert 0.1.0.0 Qxd6
#> insert 0.1.0.0.0 Rxd7
#> insert 0.1.0.0.0.0 Rxb2
#> insert 0.1.0.0.0.0.0 Rxd6
#> insert 0.1.0.0.0.0.0.0 Rfb1
#> insert 0.1.0.0.0.0.0.0.0 Rd1+
#> insert 0.1.0.0.0.0.0.0.0.0 Rxd1
#> insert 0.1.0.0.0.0.0.0.0.0.0 Rh4
#> insert 0.1.0.0.0.0.0.0.0.0.0.0 Rd4
#> insert 0.1.0.0.0.0.0.0.0.0.0.0.0 Rxd4
#> insert 0.1.0.0.0.0.0.0.0.0.0.0.0.0 Rb7
#> insert 0.1.0.0.0.0.0.0.0.0.0.0.0.0.0 Rd2
#> insert 0.1.0.0.0.0.0.0.0.0.0.0.0.0.0.0 Rb2
#> insert 0.1.0.0.0.0.0.0.0.0.0.0.0.0.0.0.0 Rxb2

#! tail 1 of 3 of game 1, node 0.0.0.0.0.0.0.0.0.0.0.0.0.0.0.0, after 24... Rxa1
position 1r6/3k4/8/8/8/8/7K/r7 w - - 0 25
stipulate white win
tag Event random middle 31
tag Site ?
tag Date 2026.11.29
tag Round 31
tag White wide_gen
tag Black ?
insert root Kg3
insert 0 Rb7
insert 0.0 Kh3
insert 0.0.0 Kc6
insert 0.0.0.0 Kg2
insert 0.0.0.0.0 Rba7
pgn

#! tail 2 of 3 of game 1, node 0.0.0.0.0.0.0.0.0.0.0.0.0.1, after 23... Rxf1
position 1r6/3k4/8/8/8/8/7K/5r2 w - - 0 24
stipulate white win
tag Event random middle 31
tag Site ?
tag Date 2026.11.29
tag Round 31
tag White wide_gen
tag Black ?
insert root Kg3
insert 0 Rff8
insert 0.0 Kh3
insert 0.0.0 Rb1
insert 0.0.0.0 Kg3
insert 0.0.0.0.0 Rbb8
insert 0.0.0.0 Kh4
insert 0.0.0.0.1 Ra1
pgn

#! tail 3 of 3 of game 1, node 0.1.0.0.0.0.0.0.0.0.0.0.0.0.0.0.0.0, after 25... Rxb2
position 4k3/8/8/5B2/8/8/1r6/6K1 w - - 0 26
stipulate white win
tag Event random middle 31
tag Site ?
tag Date 2026.11.29
tag Round 31
tag White wide_gen
tag Black ?
pgn

#! games 1, studies 3
";

/// Six tails; promotions.
pub(crate) const PAWNS: &[u8] = b"[Event \"random pawns 24\"]
[Site \"?\"]
[Date \"2026.11.29\"]
[Round \"24\"]
[White \"wide_gen\"]
[Black \"?\"]
[FEN \"8/1kPp1pK1/8/8/8/8/4P3/8 b - - 11 57\"]
[Result \"*\"]

{Black to draw}
57... Kc8 (57... f5 58. c8=N Kxc8 59. Kh8 d6 60. e3 Kb8) 58. Kxf7 (58. Kf8 f6
59. Kg7 Kxc7 60. Kxf6 d5 61. e4 dxe4 62. Kf7) (58. e4 Kxc7 59. Kxf7 (59. e5 d5
60. exd6+ Kxd6 61. Kxf7) 59... d6 60. Kg8 (60. e5 d5 61. Kf6) 60... Kd7 61.
Kh7) (58. Kf6 Kxc7 59. Kxf7 Kb7 60. Kf8 d6 61. e4 Kb6 62. e5 dxe5 63. Ke7 e4
64. Ke8) 58... Kxc7 (58... d5 59. Ke7 Kxc7 60. e4 dxe4 61. Kf7 e3 62. Kf8 Kb6
63. Ke8) 59. Kg6 (59. Kf6) *
";

pub(crate) const PAWNS_SCRIPT: &[u8] = b"#! game 1, line 1: stipulated by its comment
#! not taken over: comments 1
#> position 8/1kPp1pK1/8/8/8/8/4P3/8 b - - 11 57
#> stipulate black draw
#> tag Event random pawns 24
#> tag Site ?
#> tag Date 2026.11.29
#> tag Round 24
#> tag White wide_gen
#> tag Black ?
#> insert root Kc8
#> insert 0 Kxf7
#> insert 0.0 Kxc7
#> insert 0.0.0 Kg6
#> insert 0.0.0 Kf6
#> insert 0.0 d5
#> insert 0.0.1 Ke7
#> insert 0.0.1.0 Kxc7
#> insert 0.0.1.0.0 e4
#> insert 0.0.1.0.0.0 dxe4
#> insert 0.0.1.0.0.0.0 Kf7
#> insert 0.0.1.0.0.0.0.0 e3
#> insert 0.0.1.0.0.0.0.0.0 Kf8
#> insert 0.0.1.0.0.0.0.0.0.0 Kb6
#> insert 0.0.1.0.0.0.0.0.0.0.0 Ke8
#> insert 0 Kf8
#> insert 0.1 f6
#> insert 0.1.0 Kg7
#> insert 0.1.0.0 Kxc7
#> insert 0.1.0.0.0 Kxf6
#> insert 0.1.0.0.0.0 d5
#> insert 0.1.0.0.0.0.0 e4
#> insert 0.1.0.0.0.0.0.0 dxe4
#> insert 0.1.0.0.0.0.0.0.0 Kf7
#> insert 0 e4
#> insert 0.2 Kxc7
#> insert 0.2.0 Kxf7
#> insert 0.2.0.0 d6
#> insert 0.2.0.0.0 Kg8
#> insert 0.2.0.0.0.0 Kd7
#> insert 0.2.0.0.0.0.0 Kh7
#> insert 0.2.0.0.0 e5
#> insert 0.2.0.0.0.1 d5
#> insert 0.2.0.0.0.1.0 Kf6
#> insert 0.2.0 e5
#> insert 0.2.0.1 d5
#> insert 0.2.0.1.0 exd6+
#> insert 0.2.0.1.0.0 Kxd6
#> insert 0.2.0.1.0.0.0 Kxf7
#> insert 0 Kf6
#> insert 0.3 Kxc7
#> insert 0.3.0 Kxf7
#> insert 0.3.0.0 Kb7
#> insert 0.3.0.0.0 Kf8
#> insert 0.3.0.0.0.0 d6
#> insert 0.3.0.0.0.0.0 e4
#> insert 0.3.0.0.0.0.0.0 Kb6
#> insert 0.3.0.0.0.0.0.0.0 e5
#> insert 0.3.0.0.0.0.0.0.0.0 dxe5
#> insert 0.3.0.0.0.0.0.0.0.0.0 Ke7
#> insert 0.3.0.0.0.0.0.0.0.0.0.0 e4
#> insert 0.3.0.0.0.0.0.0.0.0.0.0.0 Ke8
#> insert root f5
#> insert 1 c8=N
#> insert 1.0 Kxc8
#> insert 1.0.0 Kh8
#> insert 1.0.0.0 d6
#> insert 1.0.0.0.0 e3
#> insert 1.0.0.0.0.0 Kb8

#! tail 1 of 6 of game 1, node 0.0.0, after 58... Kxc7
position 8/2kp1K2/8/8/8/8/4P3/8 w - - 0 59
stipulate black draw
tag Event random pawns 24
tag Site ?
tag Date 2026.11.29
tag Round 24
tag White wide_gen
tag Black ?
insert root Kg6
insert root Kf6
pgn

#! tail 2 of 6 of game 1, node 0.0.1.0.0, after 59... Kxc7, beside the solution
position 8/2k1K3/8/3p4/8/8/4P3/8 w - - 0 60
stipulate black draw
tag Event random pawns 24
tag Site ?
tag Date 2026.11.29
tag Round 24
tag White wide_gen
tag Black ?
insert root e4
insert 0 dxe4
insert 0.0 Kf7
insert 0.0.0 e3
insert 0.0.0.0 Kf8
insert 0.0.0.0.0 Kb6
insert 0.0.0.0.0.0 Ke8
pgn

#! tail 3 of 6 of game 1, node 0.1.0.0.0.0, after 60. Kxf6
position 8/2kp4/5K2/8/8/8/4P3/8 b - - 0 60
stipulate black draw
tag Event random pawns 24
tag Site ?
tag Date 2026.11.29
tag Round 24
tag White wide_gen
tag Black ?
insert root d5
insert 0 e4
insert 0.0 dxe4
insert 0.0.0 Kf7
pgn

#! tail 4 of 6 of game 1, node 0.2.0.0, after 59. Kxf7
position 8/2kp1K2/8/8/4P3/8/8/8 b - - 0 59
stipulate black draw
tag Event random pawns 24
tag Site ?
tag Date 2026.11.29
tag Round 24
tag White wide_gen
tag Black ?
insert root d6
insert 0 Kg8
insert 0.0 Kd7
insert 0.0.0 Kh7
insert 0 e5
insert 0.1 d5
insert 0.1.0 Kf6
pgn

#! tail 5 of 6 of game 1, node 0.2.0.1.0.0, after 60. exd6+
position 8/2k2pK1/3P4/8/8/8/8/8 b - - 0 60
stipulate black draw
tag Event random pawns 24
tag Site ?
tag Date 2026.11.29
tag Round 24
tag White wide_gen
tag Black ?
insert root Kxd6
insert 0 Kxf7
pgn

#! tail 6 of 6 of game 1, node 0.3.0.0, after 59. Kxf7
position 8/2kp1K2/8/8/8/8/4P3/8 b - - 0 59
stipulate black draw
tag Event random pawns 24
tag Site ?
tag Date 2026.11.29
tag Round 24
tag White wide_gen
tag Black ?
insert root Kb7
insert 0 Kf8
insert 0.0 d6
insert 0.0.0 e4
insert 0.0.0.0 Kb6
insert 0.0.0.0.0 e5
insert 0.0.0.0.0.0 dxe5
insert 0.0.0.0.0.0.0 Ke7
insert 0.0.0.0.0.0.0.0 e4
insert 0.0.0.0.0.0.0.0.0 Ke8
pgn

#! games 1, studies 6
";

/// Moves with file or rank.
pub(crate) const PIECES: &[u8] = b"[Event \"random pieces 9\"]
[Site \"?\"]
[Date \"2026.11.29\"]
[Round \"9\"]
[White \"wide_gen\"]
[Black \"?\"]
[FEN \"8/B5K1/5r2/8/6B1/Br6/2r5/k6N b - - 13 12\"]
[Result \"*\"]

{Black to draw}
12... Rg2 13. Kxf6 Rgg3 14. Bb4 Rxb4 15. Bb6 Rbxg4 16. Ba7 (16. Bd4+ Rxd4 17.
Nxg3 Re4 18. Nxe4 Kb1 19. Kg5) (16. Nxg3 Rxg3 17. Ba7 Rg2 18. Ke5 Rg5+ 19. Kd4
Ra5 20. Ke3 Rxa7 21. Ke2 (21. Kf2 Kb1 22. Ke3) 21... Rb7 22. Kf3) 16... Re3
17. Bb8 Kb2 18. Nf2 Rb3 19. Nh3 Rxh3 20. Bh2 Rh5 21. Ke7 Rxh2 22. Ke6 Rgh4 23.
Kf5 *
";

pub(crate) const PIECES_SCRIPT: &[u8] = b"#! game 1, line 1: stipulated by its comment
#! not taken over: comments 1
#> position 8/B5K1/5r2/8/6B1/Br6/2r5/k6N b - - 13 12
#> stipulate black draw
#> tag Event random pieces 9
#> tag Site ?
#> tag Date 2026.11.29
#> tag Round 9
#> tag White wide_gen
#> tag Black ?
#> insert root Rg2
#> insert 0 Kxf6
#> insert 0.0 Rgg3
#> insert 0.0.0 Bb4
#> insert 0.0.0.0 Rxb4
#> insert 0.0.0.0.0 Bb6
#> insert 0.0.0.0.0.0 Rbxg4
#> insert 0.0.0.0.0.0.0 Ba7
#> insert 0.0.0.0.0.0.0.0 Re3
#> insert 0.0.0.0.0.0.0.0.0 Bb8
#> insert 0.0.0.0.0.0.0.0.0.0 Kb2
#> insert 0.0.0.0.0.0.0.0.0.0.0 Nf2
#> insert 0.0.0.0.0.0.0.0.0.0.0.0 Rb3
#> insert 0.0.0.0.0.0.0.0.0.0.0.0.0 Nh3
#> insert 0.0.0.0.0.0.0.0.0.0.0.0.0.0 Rxh3
#> insert 0.0.0.0.0.0.0.0.0.0.0.0.0.0.0 Bh2
#> insert 0.0.0.0.0.0.0.0.0.0.0.0.0.0.0.0 Rh5
#> insert 0.0.0.0.0.0.0.0.0.0.0.0.0.0.0.0.0 Ke7
#> insert 0.0.0.0.0.0.0.0.0.0.0.0.0.0.0.0.0.0 Rxh2
#> insert 0.0.0.0.0.0.0.0.0.0.0.0.0.0.0.0.0.0.0 Ke6
#> insert 0.0.0.0.0.0.0.0.0.0.0.0.0.0.0.0.0.0.0.0 Rgh4
#> insert 0.0.0.0.0.0.0.0.0.0.0.0.0.0.0.0.0.0.0.0.0 Kf5
#> insert 0.0.0.0.0.0.0 Bd4+
#> insert 0.0.0.0.0.0.0.1 Rxd4
#> insert 0.0.0.0.0.0.0.1.0 Nxg3
#> insert 0.0.0.0.0.0.0.1.0.0 Re4
#> insert 0.0.0.0.0.0.0.1.0.0.0 Nxe4
#> insert 0.0.0.0.0.0.0.1.0.0.0.0 Kb1
#> insert 0.0.0.0.0.0.0.1.0.0.0.0.0 Kg5
#> insert 0.0.0.0.0.0.0 Nxg3
#> insert 0.0.0.0.0.0.0.2 Rxg3
#> insert 0.0.0.0.0.0.0.2.0 Ba7
#> insert 0.0.0.0.0.0.0.2.0.0 Rg2
#> insert 0.0.0.0.0.0.0.2.0.0.0 Ke5
#> insert 0.0.0.0.0.0.0.2.0.0.0.0 Rg5+
#> insert 0.0.0.0.0.0.0.2.0.0.0.0.0 Kd4
#> insert 0.0.0.0.0.0.0.2.0.0.0.0.0.0 Ra5
#> insert 0.0.0.0.0.0.0.2.0.0.0.0.0.0.0 Ke3
#> insert 0.0.0.0.0.0.0.2.0.0.0.0.0.0.0.0 Rxa7
#> insert 0.0.0.0.0.0.0.2.0.0.0.0.0.0.0.0.0 Ke2
#> insert 0.0.0.0.0.0.0.2.0.0.0.0.0.0.0.0.0.0 Rb7
#> insert 0.0.0.0.0.0.0.2.0.0.0.0.0.0.0.0.0.0.0 Kf3
#> insert 0.0.0.0.0.0.0.2.0.0.0.0.0.0.0.0.0 Kf2
#> insert 0.0.0.0.0.0.0.2.0.0.0.0.0.0.0.0.0.1 Kb1
#> insert 0.0.0.0.0.0.0.2.0.0.0.0.0.0.0.0.0.1.0 Ke3

#! tail 1 of 3 of game 1, node 0.0.0.0.0.0.0.0.0.0.0.0.0.0.0.0.0.0.0, after 21... Rxh2
position 8/4K3/8/8/6r1/8/1k5r/8 w - - 0 22
stipulate black draw
tag Event random pieces 9
tag Site ?
tag Date 2026.11.29
tag Round 9
tag White wide_gen
tag Black ?
insert root Ke6
insert 0 Rgh4
insert 0.0 Kf5
pgn

#! tail 2 of 3 of game 1, node 0.0.0.0.0.0.0.1.0.0, after 17. Nxg3
position 8/8/5K2/8/3r4/6N1/8/k7 b - - 0 17
stipulate black draw
tag Event random pieces 9
tag Site ?
tag Date 2026.11.29
tag Round 9
tag White wide_gen
tag Black ?
insert root Re4
insert 0 Nxe4
insert 0.0 Kb1
insert 0.0.0 Kg5
pgn

#! tail 3 of 3 of game 1, node 0.0.0.0.0.0.0.2.0, after 16... Rxg3
position 8/8/1B3K2/8/8/6r1/8/k7 w - - 0 17
stipulate black draw
tag Event random pieces 9
tag Site ?
tag Date 2026.11.29
tag Round 9
tag White wide_gen
tag Black ?
insert root Ba7
insert 0 Rg2
insert 0.0 Ke5
insert 0.0.0 Rg5+
insert 0.0.0.0 Kd4
insert 0.0.0.0.0 Ra5
insert 0.0.0.0.0.0 Ke3
insert 0.0.0.0.0.0.0 Rxa7
insert 0.0.0.0.0.0.0.0 Ke2
insert 0.0.0.0.0.0.0.0.0 Rb7
insert 0.0.0.0.0.0.0.0.0.0 Kf3
insert 0.0.0.0.0.0.0.0 Kf2
insert 0.0.0.0.0.0.0.0.1 Kb1
insert 0.0.0.0.0.0.0.0.1.0 Ke3
pgn

#! games 1, studies 3
";
