//! Games 101 to 150 of the collection that collection.rt tests.

pub const GAMES: &[u8] = b"[Event \"No. 101\"]
[Site \"?\"]
[Date \"1900.??.??\"]
[Round \"101\"]
[White \"Author 26\"]
[Black \"?\"]
[Result \"1-0\"]
[SetUp \"1\"]
[FEN \"3K4/8/8/8/1R6/n5k1/8/8 w - - 0 1\"]

1. Rb3+ Kf4 2. Rxa3 1-0

[Event \"No. 102\"]
[Site \"?\"]
[Date \"2026.??.??\"]
[Round \"102\"]
[White \"Copyist\"]
[Black \"?\"]
[Result \"1-0\"]
[SetUp \"1\"]
[FEN \"8/8/P7/8/3k4/5K2/4r3/8 w - - 0 1\"]

1. Kxe2 Kc5 2. a7 1-0

[Event \"No. 103\"]
[Site \"?\"]
[Date \"1902.??.??\"]
[Round \"103\"]
[White \"Author 28\"]
[Black \"?\"]
[Result \"1/2-1/2\"]
[SetUp \"1\"]
[FEN \"8/1k6/7K/8/8/8/3Np3/8 w - - 0 1\"]

1. Nf3 e1=Q 2. Nxe1 1/2-1/2

[Event \"No. 104\"]
[Site \"?\"]
[Date \"1903.??.??\"]
[Round \"104\"]
[White \"Author 29\"]
[Black \"?\"]
[Result \"1/2-1/2\"]
[SetUp \"1\"]
[FEN \"4K3/6k1/P7/8/8/8/3p4/8 w - - 0 1\"]

1. a7 d1=Q 2. a8=Q Qa4+ 3. Qxa4 1/2-1/2

[Event \"No. 105\"]
[Site \"?\"]
[Date \"1904.??.??\"]
[Round \"105\"]
[White \"Author 30\"]
[Black \"?\"]
[Result \"1-0\"]
[SetUp \"1\"]
[FEN \"8/8/8/8/2P5/3k4/8/6K1 w - - 0 1\"]

1. c5 Kc4 2. c6 Kb5 3. c7 1-0

[Event \"No. 106\"]
[Site \"?\"]
[Date \"1905.??.??\"]
[Round \"106\"]
[White \"Author 31\"]
[Black \"?\"]
[Result \"1/2-1/2\"]
[SetUp \"1\"]
[FEN \"8/6K1/8/3p3k/8/P7/8/8 w - - 0 1\"]

1. a4 d4 2. a5 d3 3. a6 d2 4. a7 d1=Q 5. a8=Q Qa1+ 6. Qxa1 1/2-1/2

[Event \"No. 107\"]
[Site \"?\"]
[Date \"1906.??.??\"]
[Round \"107\"]
[White \"Author 32\"]
[Black \"?\"]
[Result \"1-0\"]
[SetUp \"1\"]
[FEN \"8/8/8/3K2k1/3R4/8/2p5/8 w - - 0 1\"]

1. Rc4 c1=Q 2. Rxc1 1-0

[Event \"No. 108\"]
[Site \"?\"]
[Date \"2026.??.??\"]
[Round \"108\"]
[White \"Copyist\"]
[Black \"?\"]
[Result \"1/2-1/2\"]
[SetUp \"1\"]
[FEN \"2k5/7K/8/1N6/8/8/3p4/8 w - - 0 1\"]

1. Nc3 d1=Q 2. Nxd1 1/2-1/2

[Event \"No. 109\"]
[Site \"?\"]
[Date \"1908.??.??\"]
[Round \"109\"]
[White \"Author 34\"]
[Black \"?\"]
[Result \"1-0\"]
[SetUp \"1\"]
[FEN \"8/3k4/8/3pK3/8/2P5/8/8 w - - 0 1\"]

1. Kxd5 Kc7 2. Kc5 1-0

[Event \"No. 110\"]
[Site \"?\"]
[Date \"1909.??.??\"]
[Round \"110\"]
[White \"Author 35\"]
[Black \"?\"]
[Result \"1/2-1/2\"]
[SetUp \"1\"]
[FEN \"8/5K2/8/7p/6k1/8/4P3/8 w - - 0 1\"]

1. e4 Kf4 2. Kf6 Kxe4 3. Kg5 1/2-1/2

[Event \"No. 111\"]
[Site \"?\"]
[Date \"1910.??.??\"]
[Round \"111\"]
[White \"Author 36\"]
[Black \"?\"]
[Result \"1-0\"]
[SetUp \"1\"]
[FEN \"1R6/8/8/8/8/6nK/5k2/8 w - - 0 1\"]

1. Rf8+ Ke3 2. Kxg3 1-0

[Event \"No. 112\"]
[Site \"?\"]
[Date \"1911.??.??\"]
[Round \"112\"]
[White \"Author 00\"]
[Black \"?\"]
[Result \"1/2-1/2\"]
[SetUp \"1\"]
[FEN \"8/8/3N2K1/8/8/8/3p2k1/8 w - - 0 1\"]

1. Nc4 d1=Q 2. Ne3+ Kg1 3. Nxd1 1/2-1/2

[Event \"No. 113\"]
[Site \"?\"]
[Date \"1912.??.??\"]
[Round \"113\"]
[White \"Author 01\"]
[Black \"?\"]
[Result \"1/2-1/2\"]
[SetUp \"1\"]
[FEN \"8/6k1/8/8/8/8/5p2/KB6 w - - 0 1\"]

1. Ka2 1/2-1/2

[Event \"No. 114\"]
[Site \"?\"]
[Date \"1913.??.??\"]
[Round \"114\"]
[White \"Author 02\"]
[Black \"?\"]
[Result \"1-0\"]
[SetUp \"1\"]
[FEN \"8/8/8/1P3k2/6p1/4K3/8/8 w - - 0 1\"]

1. b6 Ke6 2. b7 1-0

[Event \"No. 115\"]
[Site \"?\"]
[Date \"1914.??.??\"]
[Round \"115\"]
[White \"Author 03\"]
[Black \"?\"]
[Result \"1-0\"]
[SetUp \"1\"]
[FEN \"8/8/8/1P6/8/8/4p3/k1K5 w - - 0 1\"]

1. Kd2 e1=Q+ 2. Kxe1 1-0

[Event \"No. 116\"]
[Site \"?\"]
[Date \"1915.??.??\"]
[Round \"116\"]
[White \"Author 04\"]
[Black \"?\"]
[Result \"1/2-1/2\"]
[SetUp \"1\"]
[FEN \"k6K/8/p7/8/8/3P4/8/8 w - - 0 1\"]

1. Kg8 a5 2. d4 a4 3. d5 a3 4. d6 a2 5. d7 a1=Q 6. d8=Q+ 1/2-1/2

[Event \"No. 117\"]
[Site \"?\"]
[Date \"1916.??.??\"]
[Round \"117\"]
[White \"Author 05\"]
[Black \"?\"]
[Result \"1-0\"]
[SetUp \"1\"]
[FEN \"8/8/7P/8/4p3/7K/5k2/8 w - - 0 1\"]

1. h7 e3 2. h8=Q 1-0

[Event \"No. 118\"]
[Site \"?\"]
[Date \"1917.??.??\"]
[Round \"118\"]
[White \"Author 06\"]
[Black \"?\"]
[Result \"1-0\"]
[SetUp \"1\"]
[FEN \"k7/8/2R5/n7/8/8/8/K7 w - - 0 1\"]

1. Ra6+ Kb7 2. Rxa5 1-0

[Event \"No. 119\"]
[Site \"?\"]
[Date \"1918.??.??\"]
[Round \"119\"]
[White \"Author 07\"]
[Black \"?\"]
[Result \"1-0\"]
[SetUp \"1\"]
[FEN \"8/1p6/7k/3P4/8/8/8/6K1 w - - 0 1\"]

1. d6 Kg5 2. d7 1-0

[Event \"No. 120\"]
[Site \"?\"]
[Date \"1919.??.??\"]
[Round \"120\"]
[White \"Author 08\"]
[Black \"?\"]
[Result \"1-0\"]
[SetUp \"1\"]
[FEN \"8/8/8/8/4R3/K5k1/3p4/8 w - - 0 1\"]

1. Rd4 d1=Q 2. Rxd1 1-0

[Event \"No. 121\"]
[Site \"?\"]
[Date \"1920.??.??\"]
[Round \"121\"]
[White \"Author 09\"]
[Black \"?\"]
[Result \"1-0\"]
[SetUp \"1\"]
[FEN \"8/5k2/7K/8/8/8/3R4/5n2 w - - 0 1\"]

1. Rf2+ Ke6 2. Rxf1 1-0

[Event \"No. 122\"]
[Site \"?\"]
[Date \"1921.??.??\"]
[Round \"122\"]
[White \"Author 10\"]
[Black \"?\"]
[Result \"1-0\"]
[SetUp \"1\"]
[FEN \"8/4K3/2P5/8/8/4p3/8/4k3 w - - 0 1\"]

1. c7 Kd2 2. c8=Q 1-0

[Event \"No. 123\"]
[Site \"?\"]
[Date \"1922.??.??\"]
[Round \"123\"]
[White \"Author 11\"]
[Black \"?\"]
[Result \"1-0\"]
[SetUp \"1\"]
[FEN \"8/1p6/8/3P4/3k4/8/5K2/8 w - - 0 1\"]

1. Ke1 1-0

[Event \"No. 124\"]
[Site \"?\"]
[Date \"1923.??.??\"]
[Round \"124\"]
[White \"Author 12\"]
[Black \"?\"]
[Result \"1/2-1/2\"]
[SetUp \"1\"]
[FEN \"8/8/4k3/8/8/8/6p1/2NK4 w - - 0 1\"]

1. Ne2 g1=Q+ 2. Nxg1 1/2-1/2

[Event \"No. 125\"]
[Site \"?\"]
[Date \"1924.??.??\"]
[Round \"125\"]
[White \"Author 13\"]
[Black \"?\"]
[Result \"1/2-1/2\"]
[SetUp \"1\"]
[FEN \"K7/8/8/5P2/8/1p4k1/8/8 w - - 0 1\"]

1. f6 b2 2. f7 1/2-1/2

[Event \"No. 126\"]
[Site \"?\"]
[Date \"1925.??.??\"]
[Round \"126\"]
[White \"Author 14\"]
[Black \"?\"]
[Result \"1-0\"]
[SetUp \"1\"]
[FEN \"8/8/5K2/8/4p3/5k2/8/1R6 w - - 0 1\"]

1. Ke5 e3 2. Kd4 1-0

[Event \"No. 127\"]
[Site \"?\"]
[Date \"1926.??.??\"]
[Round \"127\"]
[White \"Author 15\"]
[Black \"?\"]
[Result \"1/2-1/2\"]
[SetUp \"1\"]
[FEN \"7K/8/8/5P2/5k2/8/3p4/8 w - - 0 1\"]

1. f6 d1=N 2. f7 1/2-1/2

[Event \"No. 128\"]
[Site \"?\"]
[Date \"1927.??.??\"]
[Round \"128\"]
[White \"Author 16\"]
[Black \"?\"]
[Result \"1/2-1/2\"]
[SetUp \"1\"]
[FEN \"8/K3P2k/8/8/5q2/8/8/8 b - - 0 1\"]

1. e8=Q Qe3+ 2. Qxe3 1/2-1/2

[Event \"No. 129\"]
[Site \"?\"]
[Date \"1928.??.??\"]
[Round \"129\"]
[White \"Author 17\"]
[Black \"?\"]
[Result \"1-0\"]
[SetUp \"1\"]
[FEN \"3K4/8/8/8/8/8/p5k1/4B3 w - - 0 1\"]

{White to play and draw} 1. Bc3 a1=Q 2. Bxa1 1-0

[Event \"No. 130\"]
[Site \"?\"]
[Date \"1929.??.??\"]
[Round \"130\"]
[White \"Author 18\"]
[Black \"?\"]
[Result \"1-0\"]
[SetUp \"1\"]
[FEN \"8/8/8/3pP3/3k4/8/1K6/8 w - - 0 1\"]

1. e6 Kc5 2. e7 1-0

[Event \"No. 131\"]
[Site \"?\"]
[Date \"1930.??.??\"]
[Round \"131\"]
[White \"Author 19\"]
[Black \"?\"]
[Result \"1/2-1/2\"]
[SetUp \"1\"]
[FEN \"5k2/8/8/8/3P4/4K3/2p5/8 w - - 0 1\"]

1. Kd2 Kg8 1/2-1/2

[Event \"No. 132\"]
[Site \"?\"]
[Date \"1931.??.??\"]
[Round \"132\"]
[White \"Author 20\"]
[Black \"?\"]
[Result \"1/2-1/2\"]
[SetUp \"1\"]
[FEN \"8/2k5/8/8/8/8/2pN3K/8 w - - 0 1\"]

1. Nb3 c1=Q 2. Nxc1 1/2-1/2

[Event \"No. 133\"]
[Site \"?\"]
[Date \"1932.??.??\"]
[Round \"133\"]
[White \"Author 21\"]
[Black \"?\"]
[Result \"1-0\"]
[SetUp \"1\"]
[FEN \"6k1/8/8/2P5/3p4/8/8/1K6 w - - 0 1\"]

1. c6 Kf7 2. c7 1-0

[Event \"No. 134\"]
[Site \"?\"]
[Date \"1933.??.??\"]
[Round \"134\"]
[White \"Author 22\"]
[Black \"?\"]
[Result \"1-0\"]
[SetUp \"1\"]
[FEN \"8/1K4p1/8/4k3/2P5/8/8/8 w - - 0 1\"]

1. c5 g5 2. c6 g4 3. c7 g3 4. c8=Q 1-0

[Event \"No. 135\"]
[Site \"?\"]
[Date \"1934.??.??\"]
[Round \"135\"]
[White \"Author 23\"]
[Black \"?\"]
[Result \"1/2-1/2\"]
[SetUp \"1\"]
[FEN \"7K/8/4N3/8/8/7p/8/4k3 w - - 0 1\"]

1. Ng5 Kf1 2. Nxh3 1/2-1/2

[Event \"No. 136\"]
[Site \"?\"]
[Date \"1935.??.??\"]
[Round \"136\"]
[White \"Author 24\"]
[Black \"?\"]
[Result \"1-0\"]
[SetUp \"1\"]
[FEN \"8/k7/5P2/8/8/8/r7/6K1 w - - 0 1\"]

1. f7 Rc2 2. f8=Q 1-0

[Event \"No. 137\"]
[Site \"?\"]
[Date \"1936.??.??\"]
[Round \"137\"]
[White \"Author 25\"]
[Black \"?\"]
[Result \"1/2-1/2\"]
[SetUp \"1\"]
[FEN \"8/1K6/8/3P1k2/8/p7/8/8 w - - 0 1\"]

1. d6 a2 2. d7 1/2-1/2

[Event \"No. 138\"]
[Site \"?\"]
[Date \"1937.??.??\"]
[Round \"138\"]
[White \"Author 26\"]
[Black \"?\"]
[Result \"1-0\"]
[SetUp \"1\"]
[FEN \"8/8/8/3p4/1P6/5k2/8/4K3 w - - 0 1\"]

1. b5 Ke4 2. b6 Ke5 3. b7 1-0

[Event \"No. 139\"]
[Site \"?\"]
[Date \"1938.??.??\"]
[Round \"139\"]
[White \"Author 27\"]
[Black \"?\"]
[Result \"1-0\"]
[SetUp \"1\"]
[FEN \"8/8/8/6P1/3K3k/8/8/8 w - - 0 1\"]

1. g6 Kg5 2. g7 1-0

[Event \"No. 140\"]
[Site \"?\"]
[Date \"1939.??.??\"]
[Round \"140\"]
[White \"Author 28\"]
[Black \"?\"]
[Result \"1-0\"]
[SetUp \"1\"]
[FEN \"8/8/8/2K5/5Pp1/8/k7/8 w - - 0 1\"]

1. Kd4 Kb3 2. f5 g3 3. Ke3 1-0

[Event \"No. 141\"]
[Site \"?\"]
[Date \"1940.??.??\"]
[Round \"141\"]
[White \"Author 29\"]
[Black \"?\"]
[Result \"1-0\"]
[SetUp \"1\"]
[FEN \"8/8/8/3P4/8/8/2k2p2/7K w - - 0 1\"]

1. Kg2 f1=Q+ 2. Kxf1 1-0

[Event \"No. 142\"]
[Site \"?\"]
[Date \"1941.??.??\"]
[Round \"142\"]
[White \"Author 30\"]
[Black \"?\"]
[Result \"1/2-1/2\"]
[SetUp \"1\"]
[FEN \"8/K7/8/8/2P5/3pk3/8/8 w - - 0 1\"]

1. c5 d2 2. c6 d1=Q 3. c7 1/2-1/2

[Event \"No. 143\"]
[Site \"?\"]
[Date \"1942.??.??\"]
[Round \"143\"]
[White \"Author 31\"]
[Black \"?\"]
[Result \"1/2-1/2\"]
[SetUp \"1\"]
[FEN \"3N4/8/2K5/k7/8/7p/8/8 w - - 0 1\"]

1. Nb7+ Ka4 2. Nc5+ 1/2-1/2

[Event \"No. 144\"]
[Site \"?\"]
[Date \"1943.??.??\"]
[Round \"144\"]
[White \"Author 32\"]
[Black \"?\"]
[Result \"1/2-1/2\"]
[SetUp \"1\"]
[FEN \"8/7K/8/3N4/k7/8/4p3/8 w - - 0 1\"]

1. Nc3+ Ka3 2. Nxe2 1/2-1/2

[Event \"No. 145\"]
[Site \"?\"]
[Date \"1944.??.??\"]
[Round \"145\"]
[White \"Author 33\"]
[Black \"?\"]
[Result \"1-0\"]
[SetUp \"1\"]
[FEN \"1K6/8/p7/8/7P/8/k7/8 w - - 0 1\"]

1. h5 Kb1 2. h6 a5 3. h7 a4 4. h8=Q 1-0

[Event \"No. 146\"]
[Site \"?\"]
[Date \"1945.??.??\"]
[Round \"146\"]
[White \"Author 34\"]
[Black \"?\"]
[Result \"1/2-1/2\"]
[SetUp \"1\"]
[FEN \"K7/8/5k2/4p3/8/1P6/8/8 w - - 0 1\"]

1. b4 e4 2. b5 e3 3. b6 e2 4. b7 e1=Q 5. b8=Q 1/2-1/2

[Event \"No. 147\"]
[Site \"?\"]
[Date \"1946.??.??\"]
[Round \"147\"]
[White \"Author 35\"]
[Black \"?\"]
[Result \"1/2-1/2\"]
[SetUp \"1\"]
[FEN \"B7/8/8/k7/8/p7/4K3/8 w - - 0 1\"]

1. Bd5 a2 2. Bxa2 1/2-1/2

[Event \"No. 148\"]
[Site \"?\"]
[Date \"1947.??.??\"]
[Round \"148\"]
[White \"Author 36\"]
[Black \"?\"]
[Result \"1-0\"]
[SetUp \"1\"]
[FEN \"8/8/1K5P/8/8/4p2k/8/8 w - - 0 1\"]

1. h7 e2 2. Ne5 1-0

[Event \"No. 149\"]
[Site \"?\"]
[Date \"1948.??.??\"]
[Round \"149\"]
[White \"Author 00\"]
[Black \"?\"]
[Result \"1-0\"]
[SetUp \"1\"]
[FEN \"k7/8/8/3P4/8/2K5/8/8 w - - 0 1\"]

1. Kd4 Kb7 2. Ke5 3. Ke6 Kd8 4. Kd6 1-0

[Event \"No. 150\"]
[Site \"?\"]
[Date \"1949.??.??\"]
[Round \"150\"]
[White \"Author 01\"]
[Black \"?\"]
[Result \"1/2-1/2\"]
[SetUp \"1\"]
[FEN \"8/8/8/6P1/8/1p3K2/8/3k4 w - - 0 1\"]

1. g6 b2 2. g7 1/2-1/2
";
