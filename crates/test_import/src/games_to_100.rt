//! Games 51 to 100 of the collection that collection.rt tests.

pub const GAMES: &[u8] = b"[Event \"No. 51\"]
[Site \"?\"]
[Date \"1950.??.??\"]
[Round \"51\"]
[White \"Author 13\"]
[Black \"?\"]
[Result \"1-0\"]
[SetUp \"1\"]
[FEN \"8/8/8/4P3/8/8/K7/4kn2 w - - 0 1\"]

1. e6 Nd2 2. e7 1-0

[Event \"No. 52\"]
[Site \"?\"]
[Date \"1951.??.??\"]
[Round \"52\"]
[White \"Author 14\"]
[Black \"?\"]
[Result \"1-0\"]
[SetUp \"1\"]
[FEN \"8/6b1/1KP5/8/2k5/8/8/8 w - - 0 1\"]

1. c7 Bd4+ 2. Ka5 1-0

[Event \"No. 53\"]
[Site \"?\"]
[Date \"1952.??.??\"]
[Round \"53\"]
[White \"Author 15\"]
[Black \"?\"]
[Result \"1/2-1/2\"]
[SetUp \"1\"]
[FEN \"4R3/8/8/7K/1p6/1k6/8/8 w - - 0 1\"]

1. Kg4 Ka2 2. Ra8+ Kb2 3. Kf3 b3 4. Ke2 Kc2 5. Rc8+ 1/2-1/2

[Event \"No. 54\"]
[Site \"?\"]
[Date \"1953.??.??\"]
[Round \"54\"]
[White \"Author 16\"]
[Black \"?\"]
[Result \"1-0\"]
[SetUp \"1\"]
[FEN \"8/8/7P/1k6/5K2/p7/8/8 w - - 0 1\"]

{#5} 1. h7 a2 2. h8=Q a1=Q 3. Qxa1 1-0

[Event \"No. 55\"]
[Site \"?\"]
[Date \"1954.??.??\"]
[Round \"55\"]
[White \"Author 17\"]
[Black \"?\"]
[Result \"1-0\"]
[SetUp \"1\"]
[FEN \"8/8/8/8/4K3/3P3p/8/1k6 w - - 0 1\"]

1. Kf3 Ka2 2. d4 Ka3 3. d5 Ka4 4. d6 h2 5. Kg2 h1=Q+ 6. Kxh1 Ka5 7. d7 1-0

[Event \"No. 56\"]
[Site \"?\"]
[Date \"1955.??.??\"]
[Round \"56\"]
[White \"Author 18\"]
[Black \"?\"]
[Result \"1-0\"]
[SetUp \"1\"]
[FEN \"8/2p5/8/8/7P/6K1/4k3/8 w - - 0 1\"]

1. h5 c5 2. h6 c4 3. h7 c3 4. h8=Q 1-0

[Event \"No. 57\"]
[Site \"?\"]
[Date \"1956.??.??\"]
[Round \"57\"]
[White \"Author 19\"]
[Black \"?\"]
[Result \"1/2-1/2\"]
[SetUp \"1\"]
[FEN \"8/6K1/8/2p1k3/8/8/7P/8 w - - 0 1\"]

1. h4 c4 2. h5 c3 3. h6 c2 4. h7 c1=Q 5. h8=Q 1/2-1/2

[Event \"No. 58\"]
[Site \"?\"]
[Date \"1957.??.??\"]
[Round \"58\"]
[White \"Author 20\"]
[Black \"?\"]
[Result \"1-0\"]
[SetUp \"1\"]
[FEN \"8/1k6/8/6P1/8/4K3/6p1/8 w - - 0 1\"]

1. Kf2 g1=Q+ 2. Kxg1 Kc6 3. g6 Kd5 4. g7 1-0

[Event \"No. 59\"]
[Site \"?\"]
[Date \"1958.??.??\"]
[Round \"59\"]
[White \"Author 21\"]
[Black \"?\"]
[Result \"1-0\"]
[SetUp \"1\"]
[FEN \"3K4/4p3/8/8/8/4P3/1k6/8 w - - 0 1\"]

1. e4 Kc3 2. e5 3. e6 Ke5 4. Kxe7 1-0

[Event \"No. 60\"]
[Site \"?\"]
[Date \"1959.??.??\"]
[Round \"60\"]
[White \"Author 22\"]
[Black \"?\"]
[Result \"1-0\"]
[SetUp \"1\"]
[FEN \"8/8/1p6/8/6P1/4k3/8/K7 w - - 0 1\"]

1. g5 Kd4 2. g6 1-0

[Event \"No. 61\"]
[Site \"?\"]
[Date \"1960.??.??\"]
[Round \"61\"]
[White \"Author 23\"]
[Black \"?\"]
[Result \"1-0\"]
[SetUp \"1\"]
[FEN \"8/1n6/8/8/1k6/8/3R4/1K6 w - - 0 1\"]

1. Rb2+ Kc3 2. Rxb7 1-0

[Event \"No. 62\"]
[Site \"?\"]
[Date \"1961.??.??\"]
[Round \"62\"]
[White \"Author 24\"]
[Black \"?\"]
[Result \"1/2-1/2\"]
[SetUp \"1\"]
[FEN \"8/4r3/8/8/8/3K4/2P5/6k1 w - - 0 1\"]

1. c4 Re2 2. Kxe2 1/2-1/2

[Event \"No. 63\"]
[Site \"?\"]
[Date \"1962.??.??\"]
[Round \"63\"]
[White \"Author 25\"]
[Black \"?\"]
[Result \"1/2-1/2\"]
[SetUp \"1\"]
[FEN \"8/8/k6P/8/8/8/1K3p2/8 w - - 0 1\"]

1. h7 f1=R 2. h8=Q 1/2-1/2

[Event \"No. 64\"]
[Site \"?\"]
[Date \"1963.??.??\"]
[Round \"64\"]
[White \"Author 26\"]
[Black \"?\"]
[Result \"1/2-1/2\"]
[SetUp \"1\"]
[FEN \"2K5/8/8/8/p4P2/7k/8/8 w - - 0 1\"]

1. f5 Kg4 2. f6 Kf5 3. Ne5 1/2-1/2

[Event \"No. 65\"]
[Site \"?\"]
[Date \"1964.??.??\"]
[Round \"65\"]
[White \"Author 27\"]
[Black \"?\"]
[Result \"1/2-1/2\"]
[SetUp \"1\"]
[FEN \"8/8/Nk6/8/K7/8/8/1r6 w - - 0 1\"]

1. Nb4 Ra1+ 2. Kb3 1/2-1/2

[Event \"No. 66\"]
[Site \"?\"]
[Date \"1965.??.??\"]
[Round \"66\"]
[White \"Author 28\"]
[Black \"?\"]
[Result \"1/2-1/2\"]
[SetUp \"1\"]
[FEN \"8/2n4k/8/8/1R6/3K4/8/8 w - - 0 1\"]

{White to play and win} 1. Rb7 Kg6 2. Rxc7 1/2-1/2

[Event \"No. 67\"]
[Site \"?\"]
[Date \"1966.??.??\"]
[Round \"67\"]
[White \"Author 29\"]
[Black \"?\"]
[Result \"1-0\"]
[SetUp \"1\"]
[FEN \"3k4/4R3/8/8/8/1K6/2n5/8 w - - 0 1\"]

1. Re4 Nd4+ 2. Rxd4+ 1-0

[Event \"No. 68\"]
[Site \"?\"]
[Date \"1967.??.??\"]
[Round \"68\"]
[White \"Author 30\"]
[Black \"?\"]
[Result \"1/2-1/2\"]
[SetUp \"1\"]
[FEN \"3k4/8/8/3P4/K7/3p4/8/8 w - - 0 1\"]

1. Kb3 d2 2. Kc2 d1=Q+ 3. Kxd1 1/2-1/2

[Event \"No. 69\"]
[Site \"?\"]
[Date \"1968.??.??\"]
[Round \"69\"]
[White \"Author 31\"]
[Black \"?\"]
[Result \"1/2-1/2\"]
[SetUp \"1\"]
[FEN \"8/8/4rN2/4k3/8/2K5/8/8 w - - 0 1\"]

1. Ng4+ Ke4 2. Nf2+ Ke3 3. Nd1+ 1/2-1/2

[Event \"No. 70\"]
[Site \"?\"]
[Date \"1969.??.??\"]
[Round \"70\"]
[White \"Author 32\"]
[Black \"?\"]
[Result \"1/2-1/2\"]
[SetUp \"1\"]
[FEN \"8/8/8/3P3K/8/4p3/8/5k2 w - - 0 1\"]

1. d6 e2 2. d7 1/2-1/2

[Event \"No. 71\"]
[Site \"?\"]
[Date \"1970.??.??\"]
[Round \"71\"]
[White \"Author 33\"]
[Black \"?\"]
[Result \"1-0\"]
[SetUp \"1\"]
[FEN \"8/1K6/8/8/8/7P/4k3/8 w - - 0 1\"]

1. h4 Kf3 1-0

[Event \"No. 72\"]
[Site \"?\"]
[Date \"1971.??.??\"]
[Round \"72\"]
[White \"Author 34\"]
[Black \"?\"]
[Result \"1/2-1/2\"]
[SetUp \"1\"]
[FEN \"8/8/8/7K/1p5N/2k5/8/8 w - - 0 1\"]

1. Nf5 Kd3 2. Nd6 1/2-1/2

[Event \"No. 73\"]
[Site \"?\"]
[Date \"1972.??.??\"]
[Round \"73\"]
[White \"Author 35\"]
[Black \"?\"]
[Result \"1-0\"]
[SetUp \"1\"]
[FEN \"8/8/2P1K3/8/4p3/6k1/8/8 w - - 0 1\"]

1. c7 e3 2. c8=Q 1-0

[Event \"No. 74\"]
[Site \"?\"]
[Date \"1973.??.??\"]
[Round \"74\"]
[White \"Author 36\"]
[Black \"?\"]
[Result \"1-0\"]
[SetUp \"1\"]
[FEN \"8/8/8/8/7K/3P4/5k2/8 w - - 0 1\"]

 1-0

[Event \"No. 75\"]
[Site \"?\"]
[Date \"1974.??.??\"]
[Round \"75\"]
[White \"Author 00\"]
[Black \"?\"]
[Result \"1-0\"]
[SetUp \"1\"]
[FEN \"8/4K3/1P6/8/8/p7/7k/8 w - - 0 1\"]

1. b7 a2 2. b8=Q+ 1-0

[Event \"No. 76\"]
[Site \"?\"]
[Date \"1975.??.??\"]
[Round \"76\"]
[White \"Author 01\"]
[Black \"?\"]
[Result \"1/2-1/2\"]
[SetUp \"1\"]
[FEN \"6k1/8/8/8/8/4KP2/6p1/8 w - - 0 1\"]

1. Kf2 g1=Q+ 2. Kxg1 1/2-1/2

[Event \"No. 77\"]
[Site \"?\"]
[Date \"1976.??.??\"]
[Round \"77\"]
[White \"Author 02\"]
[Black \"?\"]
[Result \"1-0\"]
[SetUp \"1\"]
[FEN \"8/8/8/8/6k1/8/P7/6K1 w - - 0 1\"]

1. a4 Kf3 2. a5 Ke4 3. a6 Kd5 4. a7 1-0

[Event \"No. 78\"]
[Site \"?\"]
[Date \"1977.??.??\"]
[Round \"78\"]
[White \"Author 03\"]
[Black \"?\"]
[Result \"1-0\"]
[SetUp \"1\"]
[FEN \"8/1k2p3/5K2/8/3P4/8/8/8 w - - 0 1\"]

1. Kxe7 Kc6 2. Ke6 1-0

[Event \"No. 79\"]
[Site \"?\"]
[Date \"1978.??.??\"]
[Round \"79\"]
[White \"Author 04\"]
[Black \"?\"]
[Result \"1/2-1/2\"]
[SetUp \"1\"]
[FEN \"5B2/8/4K3/1k6/8/3p4/8/8 w - - 0 1\"]

1. Bh6 Kc6 1/2-1/2

[Event \"No. 80\"]
[Site \"?\"]
[Date \"1979.??.??\"]
[Round \"80\"]
[White \"Author 05\"]
[Black \"?\"]
[Result \"1-0\"]
[SetUp \"1\"]
[FEN \"8/7k/8/6p1/8/1P3K2/8/8 w - - 0 1\"]

1. b4 Kg6 2. b5 Kf5 3. b6 Ke5 4. b7 1-0

[Event \"No. 81\"]
[Site \"?\"]
[Date \"1980.??.??\"]
[Round \"81\"]
[White \"Author 06\"]
[Black \"?\"]
[Result \"1-0\"]
[SetUp \"1\"]
[FEN \"7K/8/8/8/3P4/3k4/8/8 w - - 0 1\"]

1. d5 Kc4 2. d6 Kb5 3. d7 1-0

[Event \"No. 82\"]
[Site \"?\"]
[Date \"1981.??.??\"]
[Round \"82\"]
[White \"Author 07\"]
[Black \"?\"]
[Result \"1-0\"]
[SetUp \"1\"]
[FEN \"8/8/k7/8/3P4/8/7K/8 w - - 0 1\"]

1. Kg3 Kb5 2. Kf4 Kc6 3. Ke5 Kd7 4. Kd5 1-0

[Event \"No. 83\"]
[Site \"?\"]
[Date \"1982.??.??\"]
[Round \"83\"]
[White \"Author 08\"]
[Black \"?\"]
[Result \"1-0\"]
[SetUp \"1\"]
[FEN \"88/4b2P/8/6k1/8/3K4/8 w - - 0 1\"]

1. h7 Bf5 2. h8=Q 1-0

[Event \"No. 84\"]
[Site \"?\"]
[Date \"1983.??.??\"]
[Round \"84\"]
[White \"Author 09\"]
[Black \"?\"]
[Result \"1-0\"]
[SetUp \"1\"]
[FEN \"K7/8/6P1/b7/8/8/8/5k2 w - - 0 1\"]

1. g7 Bc3 2. g8=Q 1-0

[Event \"No. 85\"]
[Site \"?\"]
[Date \"1984.??.??\"]
[Round \"85\"]
[White \"Author 10\"]
[Black \"?\"]
[Result \"1/2-1/2\"]
[SetUp \"1\"]
[FEN \"8/8/8/6P1/8/K1k4p/8/8 w - - 0 1\"]

1. g6 h2 2. g7 h1=Q 3. g8=Q Qa8+ 4. Qxa8 1/2-1/2

[Event \"No. 86\"]
[Site \"?\"]
[Date \"1985.??.??\"]
[Round \"86\"]
[White \"Author 11\"]
[Black \"?\"]
[Result \"1-0\"]
[SetUp \"1\"]
[FEN \"2K5/8/8/8/8/8/1P1k4/8 w - - 0 1\"]

1. b4 Kc3 2. b5 Kb4 3. b6 1-0

[Event \"No. 87\"]
[Site \"?\"]
[Date \"1986.??.??\"]
[Round \"87\"]
[White \"Author 12\"]
[Black \"?\"]
[Result \"1-0\"]
[SetUp \"1\"]
[FEN \"8/1k6/8/8/4P1p1/4K3/8/8 w - - 0 1\"]

1. Kf4 g3 2. Kxg3 1-0

[Event \"No. 88\"]
[Site \"?\"]
[Date \"1987.??.??\"]
[Round \"88\"]
[White \"Author 13\"]
[Black \"?\"]
[Result \"1-0\"]
[SetUp \"1\"]
[FEN \"8/8/6k1/8/8/1P6/p1K5/8 w - - 0 1\"]

1. Kb2 a1=Q+ 2. Kxa1 1-0

[Event \"No. 89\"]
[Site \"?\"]
[Date \"1988.??.??\"]
[Round \"89\"]
[White \"Author 14\"]
[Black \"?\"]
[Result \"1-0\"]
[SetUp \"1\"]
[FEN \"1K6/8/8/4P3/5k2/8/8/8 w - - 0 1\"]

1. e6 Ke5 2. e7 1-0

[Event \"No. 90\"]
[Site \"?\"]
[Date \"1989.??.??\"]
[Round \"90\"]
[White \"Author 15\"]
[Black \"?\"]
[Result \"1-0\"]
[SetUp \"1\"]
[FEN \"8/8/8/8/8/6P1/3K2k1/8 w - - 0 1\"]

1. g4 Kf3 2. g5 Ke4 3. g6 Kd5 4. g7 1-0

[Event \"No. 91\"]
[Site \"?\"]
[Date \"1990.??.??\"]
[Round \"91\"]
[White \"Author 16\"]
[Black \"?\"]
[Result \"1-0\"]
[SetUp \"1\"]
[FEN \"6K1/8/8/3R4/8/8/8/k3n3 w - - 0 1\"]

1. Rd1+ Ka2 2. Rxe1 1-0

[Event \"No. 92\"]
[Site \"?\"]
[Date \"1991.??.??\"]
[Round \"92\"]
[White \"Author 17\"]
[Black \"?\"]
[Result \"1-0\"]
[SetUp \"1\"]
[FEN \"8/8/k7/8/3P4/5Kp1/8/8 w - - 0 1\"]

1. Kxg3 Ka5 2. Kf3 1-0

[Event \"No. 93\"]
[Site \"?\"]
[Date \"1992.??.??\"]
[Round \"93\"]
[White \"Author 18\"]
[Black \"?\"]
[Result \"1/2-1/2\"]
[SetUp \"1\"]
[FEN \"7K/kp6/8/8/8/3P4/8/8 w - - 0 1\"]

1. Kg7 Kb6 2. Kf6 Kc5 3. Ke5 1/2-1/2

[Event \"No. 94\"]
[Site \"?\"]
[Date \"1993.??.??\"]
[Round \"94\"]
[White \"Author 19\"]
[Black \"?\"]
[Result \"1-0\"]
[SetUp \"1\"]
[FEN \"R7/8/1K6/8/5p2/8/8/6k1 w - - 0 1\"]

1. Rf8 f3 1-0

[Event \"No. 95\"]
[Site \"?\"]
[Date \"1994.??.??\"]
[Round \"95\"]
[White \"Author 20\"]
[Black \"?\"]
[Result \"1/2-1/2\"]
[SetUp \"1\"]
[FEN \"1K2k3/8/8/2P5/8/4p3/8/8 w - - 0 1\"]

1. c6 e2 2. c7 e1=Q 3. c8=Q+ 1/2-1/2

[Event \"No. 96\"]
[Site \"?\"]
[Date \"1995.??.??\"]
[Round \"96\"]
[White \"Author 21\"]
[Black \"?\"]
[Result \"1-0\"]
[SetUp \"1\"]
[FEN \"7b/7K/8/8/8/8/7P/4k3 w - - 0 1\"]

1. Kxh8 Ke2 2. h4 wins. 1-0

[Event \"No. 97\"]
[Site \"?\"]
[Date \"1996.??.??\"]
[Round \"97\"]
[White \"Author 22\"]
[Black \"?\"]
[Result \"1/2-1/2\"]
[SetUp \"1\"]
[FEN \"7K/8/8/4p3/8/1P4k1/8/8 w - - 0 1\"]

1. b4 Kf4 2. b5 e4 3. b6 Ke5 4. b7 1/2-1/2

[Event \"No. 98\"]
[Site \"?\"]
[Date \"1997.??.??\"]
[Round \"98\"]
[White \"Author 23\"]
[Black \"?\"]
[Result \"1-0\"]
[SetUp \"1\"]
[FEN \"8/8/8/8/8/4P3/4k3/7K w - - 0 1\"]

1. e4 Kd3 2. e5 Kc4 3. e6 Kb5 4. e7 1-0

[Event \"No. 99\"]
[Site \"?\"]
[Date \"1998.??.??\"]
[Round \"99\"]
[White \"Author 24\"]
[Black \"?\"]
[Result \"1-0\"]
[SetUp \"1\"]
[FEN \"8/8/8/2P5/8/5k2/6p1/7K w - - 0 1\"]

1. Kg1 Kg3 2. c6 Kf3 3. c7 1-0

[Event \"No. 100\"]
[Site \"?\"]
[Date \"1999.??.??\"]
[Round \"100\"]
[White \"Author 25\"]
[Black \"?\"]
[Result \"1-0\"]
[SetUp \"1\"]
[FEN \"8/8/8/7K/4k3/8/4p3/R7 w - - 0 1\"]

1. Kg4 Ke3 2. Kg3 e1=Q+ 3. Rxe1+ 1-0

";
