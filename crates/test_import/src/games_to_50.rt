//! Games 1 to 50 of the collection that collection.rt tests.

pub const GAMES: &[u8] = b"[Event \"No. 1\"]
[Site \"?\"]
[Date \"2026.??.??\"]
[Round \"1\"]
[White \"Copyist\"]
[Black \"?\"]
[Result \"1-0\"]
[SetUp \"1\"]
[FEN \"8/8/3p4/8/3K1k2/8/2P5/8 w - - 0 1\"]

1. c4 Kg5 2. Kd5 Kf6 3. Kxd6 1-0

[Event \"No. 2\"]
[Site \"?\"]
[Date \"1901.??.??\"]
[Round \"2\"]
[White \"Author 01\"]
[Black \"?\"]
[Result \"1-0\"]
[SetUp \"1\"]
[FEN \"2R4K/8/8/8/8/8/k2n4/8 w - - 0 1\"]

1. Rc2+ Ka3 2. Rxd2 1-0

[Event \"No. 3\"]
[Site \"?\"]
[Date \"1902.??.??\"]
[Round \"3\"]
[White \"Author 02\"]
[Black \"?\"]
[Result \"1/2-1/2\"]
[SetUp \"1\"]
[FEN \"3K4/8/5B2/8/8/5k2/6p1/8 w - - 0 1\"]

1. Bd4 g1=Q 2. Bxg1 1/2-1/2

[Event \"No. 4\"]
[Site \"?\"]
[Date \"1903.??.??\"]
[Round \"4\"]
[White \"Author 03\"]
[Black \"?\"]
[Result \"1-0\"]
[SetUp \"1\"]
[FEN \"5K2/8/8/8/2n5/4R3/8/2k5 w - - 0 1\"]

1. Rc3+ Kd1 2. Rxc4 1-0

[Event \"No. 5\"]
[Site \"?\"]
[Date \"1904.??.??\"]
[Round \"5\"]
[White \"Author 04\"]
[Black \"?\"]
[Result \"1-0\"]
[SetUp \"1\"]
[FEN \"8/8/1k6/1p3K2/6P1/8/8/8 w - - 0 1\"]

1. g5 b4 2. Ke4 b3 3. Kd3 b2 4. Kc2 b1=Q+ 5. Kxb1 Kc5 6. g6 Kd5 7. g7 1-0

[Event \"No. 6\"]
[Site \"?\"]
[Date \"1905.??.??\"]
[Round \"6\"]
[White \"Author 05\"]
[Black \"?\"]
[Result \"1/2-1/2\"]
[SetUp \"1\"]
[FEN \"8/8/8/5P2/5k2/8/7p/5K2 w - - 0 1\"]

1. Kg2 h1=Q+ 2. Kxh1 1/2-1/2

[Event \"No. 7\"]
[Site \"?\"]
[Date \"1906.??.??\"]
[Round \"7\"]
[White \"Author 06\"]
[Black \"?\"]
[Result \"1/2-1/2\"]
[SetUp \"1\"]
[FEN \"8/3K4/8/8/8/p7/k4P2/8 w - - 0 1\"]

1. f4 Kb1 2. f5 a2 3. f6 a1=Q 4. f7 Qa3 5. Ke8 Qf8+ 6. Kxf8 1/2-1/2

[Event \"No. 8\"]
[Site \"?\"]
[Date \"1907.??.??\"]
[Round \"8\"]
[White \"Author 07\"]
[Black \"?\"]
[Result \"1-0\"]
[SetUp \"1\"]
[FEN \"8/8/1P3k2/8/8/8/4qK2/8 w - - 0 1\"]

1. Kxe2 Ke5 2. b7 1-0

[Event \"No. 9\"]
[Site \"?\"]
[Date \"1908.??.??\"]
[Round \"9\"]
[White \"Author 08\"]
[Black \"?\"]
[Result \"1-0\"]
[SetUp \"1\"]
[FEN \"8/3K3R/8/5p2/4k3/8/8/8 w - - 0 1\"]

1. Re7+ Kd5 2. Rf7 1-0

[Event \"No. 10\"]
[Site \"?\"]
[Date \"1909.??.??\"]
[Round \"10\"]
[White \"Author 09\"]
[Black \"?\"]
[Result \"1-0\"]
[SetUp \"1\"]
[FEN \"8/K7/8/8/3p4/2P5/2k5/8 w - - 0 1\"]

1. cxd4 Kb3 2. d5 Kc4 3. d6 Kc5 4. d7 1-0

[Event \"No. 11\"]
[Site \"?\"]
[Date \"1910.??.??\"]
[Round \"11\"]
[White \"Author 10\"]
[Black \"?\"]
[Result \"1/2-1/2\"]
[SetUp \"1\"]
[FEN \"3k4/8/7P/8/8/8/2p2K2/8 w - - 0 1\"]

1. h7 c1=Q 2. h8=Q+ 1/2-1/2

[Event \"No. 12\"]
[Site \"?\"]
[Date \"1911.??.??\"]
[Round \"12\"]
[White \"Author 11\"]
[Black \"?\"]
[Result \"1-0\"]
[SetUp \"1\"]
[FEN \"8/K7/8/5k2/8/8/5n2/7R w - - 0 1\"]

1. Rf1 Ke4 2. Rxf2 1-0

[Event \"No. 13\"]
[Site \"?\"]
[Date \"1912.??.??\"]
[Round \"13\"]
[White \"Author 12\"]
[Black \"?\"]
[Result \"1-0\"]
[SetUp \"1\"]
[FEN \"8/8/5k2/P7/p6K/8/8/8 w - - 0 1\"]

1. a6 a3 2. a7 1-0

[Event \"No. 14\"]
[Site \"?\"]
[Date \"1913.??.??\"]
[Round \"14\"]
[White \"Author 13\"]
[Black \"?\"]
[Result \"1/2-1/2\"]
[SetUp \"1\"]
[FEN \"8/8/6K1/4P3/6k1/2p5/8/8 w - - 0 1\"]

1. e6 c2 2. e7 c1=Q 3. e8=Q 1/2-1/2

[Event \"No. 15\"]
[Site \"?\"]
[Date \"1914.??.??\"]
[Round \"15\"]
[White \"Author 14\"]
[Black \"?\"]
[Result \"1/2-1/2\"]
[SetUp \"1\"]
[FEN \"k7/3K4/rP6/8/8/8/8/8 w - - 0 1\"]

1. Kc7 Ta1 2. b7+ 1/2-1/2

[Event \"No. 16\"]
[Site \"?\"]
[Date \"1915.??.??\"]
[Round \"16\"]
[White \"Author 15\"]
[Black \"?\"]
[Result \"1-0\"]
[SetUp \"1\"]
[FEN \"3k2n1/8/7P/8/2K5/8/8/8 w - - 0 1\"]

1. h7 Nf6 2. h8=Q+ 1-0

[Event \"No. 17\"]
[Site \"?\"]
[Date \"1916.??.??\"]
[Round \"17\"]
[White \"Author 16\"]
[Black \"?\"]
[Result \"1/2-1/2\"]
[SetUp \"1\"]
[FEN \"8/8/8/6P1/5K2/8/4p3/4k3 w - - 0 1\"]

1. g6 Kd1 2. g7 1/2-1/2

[Event \"No. 18\"]
[Site \"?\"]
[Date \"1917.??.??\"]
[Round \"18\"]
[White \"Author 17\"]
[Black \"?\"]
[Result \"1/2-1/2\"]
[SetUp \"1\"]
[FEN \"8/8/8/6P1/8/3K2p1/8/6k1 w - - 0 1\"]

1. g6 Kf1 2. g7 1/2-1/2

[Event \"No. 19\"]
[Site \"?\"]
[Date \"1918.??.??\"]
[Round \"19\"]
[White \"Author 18\"]
[Black \"?\"]
[Result \"1-0\"]
[SetUp \"1\"]
[FEN \"8/8/8/8/7p/6R1/5k2/K7 w - - 0 1\"]

1. Rh3 Kg2 2. Rxh4 1-0

[Event \"No. 20\"]
[Site \"?\"]
[Date \"1919.??.??\"]
[Round \"20\"]
[White \"Author 19\"]
[Black \"?\"]
[Result \"1/2-1/2\"]
[SetUp \"1\"]
[FEN \"6K1/8/8/8/2P4p/8/8/k7 w - - 0 1\"]

1. c5 h3 2. c6 h2 3. c7 1/2-1/2

[Event \"No. 21\"]
[Site \"?\"]
[Date \"1920.??.??\"]
[Round \"21\"]
[White \"Author 20\"]
[Black \"?\"]
[Result \"1-0\"]
[SetUp \"1\"]
[FEN \"8/4K3/8/1P6/8/3p4/8/5k2 w - - 0 1\"]

1. b6 d2 2. b7 1-0

[Event \"No. 22\"]
[Site \"?\"]
[Date \"1921.??.??\"]
[Round \"22\"]
[White \"Author 21\"]
[Black \"?\"]
[Result \"1-0\"]
[SetUp \"1\"]
[FEN \"8/8/4p3/8/2k1K3/8/5P2/8 w - - 0 1\"]

1. f4 Kb5 2. Ke5 Kc6 3. Kxe6 1-0

[Event \"No. 23\"]
[Site \"?\"]
[Date \"1922.??.??\"]
[Round \"23\"]
[White \"Author 22\"]
[Black \"?\"]
[Result \"1-0\"]
[SetUp \"1\"]
[FEN \"8/8/P7/8/3k4/5K2/4r3/8 w - - 0 1\"]

1. Kxe2 Kc5 2. a7 1-0

[Event \"No. 24\"]
[Site \"?\"]
[Date \"1923.??.??\"]
[Round \"24\"]
[White \"Author 23\"]
[Black \"?\"]
[Result \"1-0\"]
[SetUp \"1\"]
[FEN \"8/8/p7/6k1/P7/1K6/8/8 w - - 0 1\"]

1. Kb4 Kf4 2. Ka5 Ke3 3. Kxa6 1-0

[Event \"No. 25\"]
[Site \"?\"]
[Date \"1924.??.??\"]
[Round \"25\"]
[White \"Author 24\"]
[Black \"?\"]
[Result \"1/2-1/2\"]
[SetUp \"1\"]
[FEN \"8/5N2/8/3K4/8/1p1k4/8/8 w - - 0 1\"]

1. Ne5+ Ke2 2. Nc4 1/2-1/2

[Event \"No. 26\"]
[Site \"?\"]
[Date \"1925.??.??\"]
[Round \"26\"]
[White \"Author 25\"]
[Black \"?\"]
[Result \"1-0\"]
[SetUp \"1\"]
[FEN \"1n3k2/8/8/8/8/8/R4K2/8 w - - 0 1\"]

1. Ra8 Kg8 1-0

[Event \"No. 27\"]
[Site \"?\"]
[Date \"1926.??.??\"]
[Round \"27\"]
[White \"Author 26\"]
[Black \"?\"]
[Result \"1/2-1/2\"]
[SetUp \"1\"]
[FEN \"8/8/8/8/2P3p1/8/1K5k/8 w - - 0 1\"]

1. c5 g3 2. c6 g2 3. c7 g1=Q 4. c8=Q 1/2-1/2

[Event \"No. 28\"]
[Site \"?\"]
[Date \"1927.??.??\"]
[Round \"28\"]
[White \"Author 27\"]
[Black \"?\"]
[Result \"1/2-1/2\"]
[SetUp \"1\"]
[FEN \"8/8/8/8/1k6/7R/p7/4K3 w - - 0 1\"]

1. Rh4+ Ka3 2. Rh3+ Kb2 3. Rh2+ 1/2-1/2

[Event \"No. 29\"]
[Site \"?\"]
[Date \"1928.??.??\"]
[Round \"29\"]
[White \"Author 28\"]
[Black \"?\"]
[Result \"1/2-1/2\"]
[SetUp \"1\"]
[FEN \"2k5/7K/8/1N6/8/8/3p4/8 w - - 0 1\"]

1. Nc3 d1=Q 2. Nxd1 1/2-1/2

[Event \"No. 30\"]
[Site \"?\"]
[Date \"1929.??.??\"]
[Round \"30\"]
[White \"Author 29\"]
[Black \"?\"]
[Result \"1/2-1/2\"]
[SetUp \"1\"]
[FEN \"8/8/8/8/K1P2p2/8/8/2k5 w - - 0 1\"]

1. c5 f3 2. c6 f2 3. Ne5 1/2-1/2

[Event \"No. 31\"]
[Site \"?\"]
[Date \"1930.??.??\"]
[Round \"31\"]
[White \"Author 30\"]
[Black \"?\"]
[Result \"1/2-1/2\"]
[SetUp \"1\"]
[FEN \"8/6K1/8/8/N7/8/k1p5/8 w - - 0 1\"]

1. Nc3+ Ka1 2. Ne2 c1=Q 3. Nxc1 1/2-1/2

[Event \"No. 32\"]
[Site \"?\"]
[Date \"1931.??.??\"]
[Round \"32\"]
[White \"Author 31\"]
[Black \"?\"]
[Result \"1-0\"]
[SetUp \"1\"]
[FEN \"8/8/8/5pk1/8/P6K/8/8 w - - 0 1\"]

1. a4 Kf4 2. a5 Ke3 3. a6 1-0

[Event \"No. 33\"]
[Site \"?\"]
[Date \"1932.??.??\"]
[Round \"33\"]
[White \"Author 32\"]
[Black \"?\"]
[Result \"1-0\"]
[SetUp \"1\"]
[FEN \"6K1/8/8/2p5/5k2/6R1/8/8 w - - 0 1\"]

1. Rc3 Ke4 2. Rxc5 1-0

[Event \"No. 34\"]
[Site \"?\"]
[Date \"1933.??.??\"]
[Round \"34\"]
[White \"Author 33\"]
[Black \"?\"]
[Result \"1-0\"]
[SetUp \"1\"]
[FEN \"8/8/8/8/4K3/P3r3/8/2k5 w - - 0 1\"]

1. Kxe3 Kb2 2. a4 Ka3 3. a5 Ka4 4. a6 Ka5 5. a7 1-0

[Event \"No. 35\"]
[Site \"?\"]
[Date \"1934.??.??\"]
[Round \"35\"]
[White \"Author 34\"]
[Black \"?\"]
[Result \"1-0\"]
[SetUp \"1\"]
[FEN \"8/p7/8/k3P3/8/8/5K2/8 w - - 0 1\"]

1. e6 Kb5 2. e7 1-0

[Event \"No. 36\"]
[Site \"?\"]
[Date \"1935.??.??\"]
[Round \"36\"]
[White \"Author 35\"]
[Black \"?\"]
[Result \"1-0\"]
[SetUp \"1\"]
[FEN \"8/8/2K5/5P2/4k3/8/8/8 w - - 0 1\"]

1. f6 Ke5 2. f7 1-0

[Event \"No. 37\"]
[Site \"?\"]
[Date \"1936.??.??\"]
[Round \"37\"]
[White \"?\"]
[Black \"?\"]
[Result \"1/2-1/2\"]
[SetUp \"1\"]
[FEN \"8/8/k4P2/8/3K4/8/2p5/8 w - - 0 1\"]

1. f7 c1=Q 2. f8=Q 1/2-1/2

[Event \"No. 38\"]
[Site \"?\"]
[Date \"1937.??.??\"]
[Round \"38\"]
[White \"Author 00\"]
[Black \"?\"]
[Result \"1/2-1/2\"]
[SetUp \"1\"]
[FEN \"6K1/7P/8/8/2P2p2/4k3/8/8 w - - 0 1\"]

1. c5 Kd4 2. c6 Kc5 3. c7 1/2-1/2

[Event \"No. 39\"]
[Site \"?\"]
[Date \"1938.??.??\"]
[Round \"39\"]
[White \"Author 01\"]
[Black \"?\"]
[Result \"1/2-1/2\"]
[SetUp \"1\"]
[FEN \"8/3B4/8/8/8/8/1p4K1/2k5 w - - 0 1\"]

1. Bf5 b1=Q 2. Bxb1 1/2-1/2

[Event \"No. 40\"]
[Site \"?\"]
[Date \"1939.??.??\"]
[Round \"40\"]
[White \"Author 02\"]
[Black \"?\"]
[Result \"1-0\"]
[SetUp \"1\"]
[FEN \"8/8/4K3/8/8/8/3n2k1/1R6 w - - 0 1\"]

1. Rb2 Kf2 2. Rxd2+ 1-0

[Event \"No. 41\"]
[Site \"?\"]
[Date \"1940.??.??\"]
[Round \"41\"]
[White \"Author 03\"]
[Black \"?\"]
[Result \"1/2-1/2\"]
[SetUp \"1\"]
[FEN \"8/3K4/8/6P1/8/1pk5/8/8 w - - 0 1\"]

1. g6 b2 2. g7 1/2-1/2

[Event \"No. 42\"]
[Site \"?\"]
[Date \"1941.??.??\"]
[Round \"42\"]
[White \"Author 04\"]
[Black \"?\"]
[Result \"1-0\"]
[SetUp \"1\"]
[FEN \"8/K7/8/5k2/8/3P4/8/8 w - - 0 1\"]

1. Kb6 Ke5 2. Kc5 1-0

[Event \"No. 43\"]
[Site \"?\"]
[Date \"1942.??.??\"]
[Round \"43\"]
[White \"Author 05\"]
[Black \"?\"]
[Result \"1-0\"]
[SetUp \"1\"]
[FEN \"8/8/8/K3R3/7p/8/8/6k1 w - - 0 1\"]

1. Rh5 Kf2 2. Rxh4 1-0

[Event \"No. 44\"]
[Site \"?\"]
[Date \"1943.??.??\"]
[Round \"44\"]
[White \"Author 06\"]
[Black \"?\"]
[Result \"1/2-1/2\"]
[SetUp \"1\"]
[FEN \"8/7k/8/8/5K2/8/2N2p2/8 w - - 0 1\"]

1. Ne3 f1=Q+ 2. Nxf1 1/2-1/2

\xef\xbb\xbf[Event \"No. 45\"]
[Site \"?\"]
[Date \"1944.??.??\"]
[Round \"45\"]
[White \"Author 07\"]
[Black \"?\"]
[Result \"1-0\"]
[SetUp \"1\"]
[FEN \"8/8/2RK4/8/8/7p/4k3/8 w - - 0 1\"]

1. Rc3 Kf1 2. Rxh3 1-0

[Event \"No. 46\"]
[Site \"?\"]
[Date \"1945.??.??\"]
[Round \"46\"]
[White \"Author 08\"]
[Black \"?\"]
[Result \"1/2-1/2\"]
[SetUp \"1\"]
[FEN \"8/4k3/8/8/8/6BK/p7/8 w - - 0 1\"]

1. Be5 a1=Q 2. Bxa1 1/2-1/2

[Event \"No. 47\"]
[Site \"?\"]
[Date \"1946.??.??\"]
[Round \"47\"]
[White \"Author 09\"]
[Black \"?\"]
[Result \"1-0\"]
[SetUp \"1\"]
[FEN \"8/8/6P1/8/8/8/3p3k/1K6 w - - 0 1\"]

1. Kc2 d1=Q+ 2. Kxd1 1-0

[Event \"No. 48\"]
[Site \"?\"]
[Date \"1947.??.??\"]
[Round \"48\"]
[White \"Author 10\"]
[Black \"?\"]
[Result \"1/2-1/2\"]
[SetUp \"1\"]
[FEN \"8/8/8/1B1K4/8/6k1/1p6/8 w - - 0 1\"]

1. Bd3 b1=Q 2. Bxb1 1/2-1/2

[Event \"No. 49\"]
[Site \"?\"]
[Date \"1948.??.??\"]
[Round \"49\"]
[White \"Author 11\"]
[Black \"?\"]
[Result \"1/2-1/2\"]
[SetUp \"1\"]
[FEN \"8/5N2/8/8/p7/7K/8/3k4 w - - 0 1\"]

1. Nd6 a3 2. Nb5 Kc1 3. Nxa3 1/2-1/2

[Event \"No. 50\"]
[Site \"?\"]
[Date \"1949.??.??\"]
[Round \"50\"]
[White \"Author 12\"]
[Black \"?\"]
[Result \"1-0\"]
[SetUp \"1\"]
[FEN \"8/1k4K1/8/8/R7/8/1n6/8 w - - 0 1\"]

1. Rb4+ Kc6 2. Rxb2 1-0

";
