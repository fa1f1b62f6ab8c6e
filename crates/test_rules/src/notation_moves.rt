//! Positions, each with a tab and the SAN of its legal moves in the order of origin, target and promotion, made by another
//! program.

pub(crate) const MOVES: &str = "\
k7/8/1K6/8/8/8/8/7R w - - 0 1\tRa1+ Rb1 Rc1 Rd1 Re1 Rf1 Rg1 Rh2 Rh3 Rh4 Rh5 Rh6 Rh7 Rh8# Ka5 Kb5 Kc5 Ka6 Kc6 Kc7\n\
k7/8/K7/P7/8/8/8/8 w - - 0 1\tKb5 Kb6\n\
8/8/8/8/4Q3/2Q5/k4K2/8 w - - 0 1\tKe1 Kf1 Kg1 Ke2 Kg2 Ke3 Kf3 Kg3 Qa1+ Qc1 Qce1 \
Qb2+ Qcc2+ Qd2+ Qa3+ Qb3+ Qcd3 Qce3 Qcf3 Qg3 Qh3 Qcb4 Qcc4+ Qcd4 Qa5+ Qc5 Qce5 Qcc6 Qf6 Qc7 Qg7 Qc8 Qh8 \
Qb1+ Qee1 Qh1 Qec2# Qe2+ Qg2 Qed3 Qee3 Qef3 Qa4+ Qeb4 Qec4+ Qed4 Qf4 Qg4 Qh4 Qd5+ Qee5 Qf5 Qec6 Qe6+ Qg6 Qb7 Qe7 Qh7 Qa8+ Qe8\n\
k7/2P5/1K6/8/8/8/8/8 w - - 0 1\tKa5 Kb5 Kc5 Ka6 Kc6 c8=Q# c8=R# c8=B c8=N\n\
8/8/8/8/4P3/k7/8/4K3 b - e3 0 1\tKa2 Kb2 Kb3 Ka4 Kb4\n\
8/8/8/8/4P3/k7/8/4K3 b - - 0 1\tKa2 Kb2 Kb3 Ka4 Kb4\n\
8/8/2K5/8/8/k7/8/8 w - - 0 1\tKb5 Kc5 Kd5 Kb6 Kd6 Kb7 Kc7 Kd7\n\
8/3K4/8/8/8/5k2/8/8 b - - 0 1\tKe2 Kf2 Kg2 Ke3 Kg3 Ke4 Kf4 Kg4\n\
2k5/8/8/8/8/K7/8/8 w - - 0 1\tKa2 Kb2 Kb3 Ka4 Kb4\n\
8/8/8/8/8/7K/8/5k2 b - - 0 1\tKe1 Kg1 Ke2 Kf2\n\
8/8/8/8/8/K7/8/3k4 w - - 0 1\tKa2 Kb2 Kb3 Ka4 Kb4\n\
8/4k3/8/8/8/4K3/8/8 b - - 0 1\tKd6 Ke6 Kf6 Kd7 Kf7 Kd8 Ke8 Kf8\n\
1q6/8/2k5/8/8/8/2K5/8 b - - 0 1\tKb5 Kc5 Kd5 Kb6 Kd6 Kb7 Kc7 Kd7 Qb1+ Qb2+ Qh2+ Qb3+ Qg3 Qb4 Qf4 Qb5 Qe5 Qb6 Qd6 Qa7 Qb7 Qc7 Qa8 Qc8 Qd8 Qe8 Qf8 Qg8 Qh8\n\
8/1Q2k3/8/8/8/8/8/6K1 b - - 0 1\tKd6 Ke6 Kf6 Kd8 Ke8 Kf8\n\
8/8/8/5k2/8/8/7Q/6K1 w - - 0 1\tKf1 Kh1 Kf2 Kg2 Qh1 Qa2 Qb2 Qc2+ Qd2 Qe2 Qf2+ Qg2 Qg3 Qh3+ Qf4+ Qh4 Qe5+ Qh5+ Qd6 Qh6 Qc7 Qh7+ Qb8 Qh8\n\
3Q4/8/2K5/8/8/8/8/k7 b - - 0 1\tKb1 Ka2 Kb2\n\
8/8/8/6Q1/4K3/8/8/1k6 b - - 0 1\tKa1 Ka2 Kb2 Kc2\n\
1K4Q1/8/8/8/8/8/8/2k5 w - - 0 1\tKa7 Kb7 Kc7 Ka8 Kc8 Qg1+ Qa2 Qg2 Qb3 Qg3 Qc4+ Qg4 Qd5 Qg5+ Qe6 Qg6 Qf7 Qg7 Qh7 Qc8+ Qd8 Qe8 Qf8 Qh8\n\
8/5k2/8/7r/8/8/4K3/8 b - - 0 1\tRh1 Rh2+ Rh3 Rh4 Ra5 Rb5 Rc5 Rd5 Re5+ Rf5 Rg5 Rh6 Rh7 Rh8 Ke6 Kf6 Kg6 Ke7 Kg7 Ke8 Kf8 Kg8\n\
8/K7/8/8/2k2R2/8/8/8 b - - 0 1\tKb3 Kc3 Kd3 Kb5 Kc5 Kd5\n\
8/7K/8/8/4k3/1r6/8/8 b - - 0 1\tRb1 Rb2 Ra3 Rc3 Rd3 Re3 Rf3 Rg3 Rh3+ Rb4 Rb5 Rb6 Rb7+ Rb8 Kd3 Ke3 Kf3 Kd4 Kf4 Kd5 Ke5 Kf5\n\
8/4k3/8/8/7R/8/K7/8 w - - 0 1\tKa1 Kb1 Kb2 Ka3 Kb3 Rh1 Rh2 Rh3 Ra4 Rb4 Rc4 Rd4 Re4+ Rf4 Rg4 Rh5 Rh6 Rh7+ Rh8\n\
2K5/8/6k1/8/8/8/7R/8 w - - 0 1\tRh1 Ra2 Rb2 Rc2 Rd2 Re2 Rf2 Rg2+ Rh3 Rh4 Rh5 Rh6+ Rh7 Rh8 Kb7 Kc7 Kd7 Kb8 Kd8\n\
4Kr2/8/4k3/8/8/8/8/8 w - - 0 1\tKxf8\n\
2b5/8/8/8/7K/5k2/8/8 w - - 0 1\tKg5 Kh5\n\
8/3K4/8/5k2/8/8/b7/8 w - - 0 1\tKc6 Kd6 Kc7 Ke7 Kc8 Kd8 Ke8\n\
8/1b6/3K1k2/8/8/8/8/8 b - - 0 1\tKf5 Kg5 Kg6 Kf7 Kg7 Bh1 Bg2 Bf3 Be4 Bd5 Ba6 Bc6 Ba8 Bc8\n\
8/8/8/4K3/8/7b/8/2k5 w - - 0 1\tKd4 Ke4 Kf4 Kd5 Kd6 Kf6\n\
8/8/3K4/k7/8/8/8/4B3 b - - 0 1\tKa4 Kb5 Ka6 Kb6\n\
3k4/8/8/4K3/8/4b3/8/8 b - - 0 1\tBc1 Bg1 Bd2 Bf2 Bd4+ Bf4+ Bc5 Bg5 Bb6 Bh6 Ba7 Kc7 Kd7 Ke7 Kc8 Ke8\n\
8/8/8/3K4/8/8/8/2n2k2 w - - 0 1\tKc4 Kd4 Ke4 Kc5 Ke5 Kc6 Kd6 Ke6\n\
1k6/8/8/8/N7/8/4K3/8 w - - 0 1\tKd1 Ke1 Kf1 Kd2 Kf2 Kd3 Ke3 Kf3 Nb2 Nc3 Nc5 Nb6\n\
8/4K3/8/2k5/8/8/8/6N1 b - - 0 1\tKb4 Kc4 Kd4 Kb5 Kd5 Kb6 Kc6\n\
8/1K6/3k4/8/8/8/8/1n6 b - - 0 1\tNd2 Na3 Nc3 Kc5 Kd5 Ke5 Ke6 Kd7 Ke7\n\
8/5k2/8/K7/8/1N6/8/8 w - - 0 1\tNa1 Nc1 Nd2 Nd4 Nc5 Ka4 Kb4 Kb5 Ka6 Kb6\n\
8/1k6/8/8/8/8/7n/2K5 w - - 0 1\tKb1 Kd1 Kb2 Kc2 Kd2\n\
8/2p5/3K4/8/8/8/8/5k2 w - - 0 1\tKc5 Kd5 Ke5 Kc6 Ke6 Kxc7 Kd7 Ke7\n\
8/5k2/8/6P1/8/8/8/5K2 w - - 0 1\tKe1 Kg1 Ke2 Kf2 Kg2 g6+\n\
5k2/5P2/8/8/8/8/2K5/8 b - - 0 1\tKe7 Kxf7 Kg7\n\
8/8/8/2K5/8/4k1P1/8/8 w - - 0 1\tg4 Kb4 Kc4 Kb5 Kd5 Kb6 Kc6 Kd6\n\
8/5K2/8/1p6/8/8/6k1/8 w - b6 0 1\tKe6 Kf6 Kg6 Ke7 Kg7 Ke8 Kf8 Kg8\n\
8/6p1/8/8/6K1/8/8/6k1 b - - 0 1\tKf1 Kh1 Kf2 Kg2 Kh2 g5 g6\n\
8/8/8/7k/8/6K1/1p6/8 b - - 0 1\tb1=Q b1=R b1=B b1=N Kg5 Kg6 Kh6\n\
8/8/8/p7/5K2/8/6k1/8 w - a6 0 1\tKe3 Ke4 Kg4 Ke5 Kf5 Kg5\n\
8/8/8/8/8/3P3k/8/6K1 w - - 0 1\tKf1 Kh1 Kf2 d4\n\
8/8/6K1/8/8/8/P5k1/8 w - - 0 1\ta3 a4 Kf5 Kg5 Kh5 Kf6 Kh6 Kf7 Kg7 Kh7\n\
4qk2/8/8/4K3/8/5q2/8/8 w - - 0 1\tKd4 Kd6\n\
8/8/2Q2Q2/8/8/6k1/8/2K5 w - - 0 1\tKb1 Kd1 Kb2 Kc2 Kd2 Qh1 Qc2 Qg2+ Qcc3+ Qcf3+ Qa4 Qc4 Qe4 Qb5 Qc5 Qd5 Qa6 Qb6 Qcd6+ Qce6 Qb7 Qc7+ Qd7 \
    Qa8 Qc8 Qe8 Qa1 Qf1 Qb2 Qf2+ Qfc3+ Qff3+ Qd4 Qf4+ Qh4+ Qe5+ Qf5 Qg5+ Qfd6+ Qfe6 Qg6+ Qh6 Qe7 Qf7 Qg7+ Qd8 Qf8 Qh8\n\
8/3q4/8/8/8/8/Kq6/3k4 w - - 0 1\tKxb2\n\
5q2/7k/8/8/2q5/8/8/3K4 w - - 0 1\tKe1 Kd2\n\
8/7Q/2k5/7Q/8/6K1/8/8 b - - 0 1\tKb6 Kd6\n\
8/8/4q3/8/8/1q6/k4K2/8 b - - 0 1\tKa1 Kb1 Kb2 Ka3 Qb1 Qd1 Qb2+ Qc2+ Qa3 Qc3 Qd3 Qbe3+ Qf3+ Qg3+ Qbh3 Qa4 Qb4 Qbc4 Qb5 Qbd5 Qbb6+ Qb7 Qb8 \
    Qe1+ Qe2+ Qee3+ Qeh3 Qec4 Qe4 Qg4 Qed5 Qe5 Qf5+ Qa6 Qeb6+ Qc6 Qd6 Qf6+ Qg6 Qh6 Qd7 Qe7 Qf7+ Qc8 Qe8 Qg8\n\
8/7k/5Q2/8/8/3K4/R7/8 w - - 0 1\tRa1 Rb2 Rc2 Rd2 Re2 Rf2 Rg2 Rh2+ Ra3 Ra4 Ra5 Ra6 Ra7+ Ra8 Kc2 Kd2 Ke2 Kc3 Ke3 Kc4 Kd4 Ke4 Qa1 Qf1 Qb2 \
    Qf2 Qc3 Qf3 Qd4 Qf4 Qh4+ Qe5 Qf5+ Qg5 Qa6 Qb6 Qc6 Qd6 Qe6 Qg6+ Qh6+ Qe7+ Qf7+ Qg7+ Qd8 Qf8 Qh8+\n\
3k4/8/2r5/5K2/8/8/1q6/8 b - - 0 1\tQa1 Qb1+ Qc1 Qa2 Qc2+ Qd2 Qe2 Qf2+ Qg2 Qh2 Qa3 Qb3 Qc3 Qb4 Qd4 Qb5+ Qe5+ Qb6 Qf6+ Qb7 Qg7 Qb8 Qh8 Rc1 \
    Rc2 Rc3 Rc4 Rc5+ Ra6 Rb6 Rd6 Re6 Rf6+ Rg6 Rh6 Rc7 Rc8 Kc7 Kd7 Ke7 Kc8 Ke8\n\
8/8/8/5q2/1k6/8/4K3/1r6 w - - 0 1\tKd2 Ke3\n\
8/4Q3/2R2K2/8/8/8/8/1k6 w - - 0 1\tRc1+ Rc2 Rc3 Rc4 Rc5 Ra6 Rb6+ Rd6 Re6 Rc7 Rc8 Ke5 Kf5 Kg5 Ke6 Kg6 Kf7 Kg7 Qe1+ Qe2 Qa3 Qe3 Qb4+ Qe4+ \
    Qc5 Qe5 Qd6 Qe6 Qa7 Qb7+ Qc7 Qd7 Qf7 Qg7 Qh7+ Qd8 Qe8 Qf8\n\
8/3r4/8/K7/5k2/8/8/5q2 w - - 0 1\tKa4 Kb4 Kb6\n\
Q7/8/8/8/5K2/8/7R/1k6 w - - 0 1\tRh1+ Ra2 Rb2+ Rc2 Rd2 Re2 Rf2 Rg2 Rh3 Rh4 Rh5 Rh6 Rh7 Rh8 Ke3 Kf3 Kg3 Ke4 Kg4 Ke5 Kf5 Kg5 Qa1+ Qh1# Qa2+ \
    Qg2 Qa3 Qf3 Qa4 Qe4+ Qa5 Qd5 Qa6 Qc6 Qa7 Qb7+ Qb8+ Qc8 Qd8 Qe8 Qf8 Qg8 Qh8\n\
8/8/8/8/8/k4K2/8/5qb1 w - - 0 1\tKg3 Ke4 Kg4\n\
5Q1K/8/8/8/8/2k5/4B3/8 b - - 0 1\tKb2 Kc2 Kd2 Kb3 Kd4\n\
5k2/8/8/1b1K4/3q4/8/8/8 w - - 0 1\tKxd4 Ke6\n\
4K3/2k5/8/8/8/8/8/3b3q w - - 0 1\tKe7 Kf7 Kf8\n\
8/8/4B3/5K2/8/3kQ3/8/8 b - - 0 1\tKc2 Kxe3\n\
8/8/8/1B1k4/8/1K6/6Q1/8 b - - 0 1\tKd4 Kc5 Ke5 Kd6 Ke6\n\
1n6/8/2k5/8/8/8/8/2q1K3 w - - 0 1\tKe2 Kf2\n\
8/8/8/8/1N6/5Q2/6K1/1k6 w - - 0 1\tKf1 Kg1 Kh1 Kf2 Kh2 Kg3 Kh3 Qd1+ Qf1+ Qe2 Qf2 Qa3 Qb3+ Qc3 Qd3+ Qe3 Qg3 Qh3 Qe4+ Qf4 Qg4 Qd5 Qf5+ Qh5 \
    Qc6 Qf6 Qb7 Qf7 Qa8 Qf8 Na2 Nc2 Nd3 Nd5 Na6 Nc6\n\
8/3k4/7K/8/5Q2/8/8/4N3 b - - 0 1\tKc6 Ke6 Ke7 Kc8 Kd8 Ke8\n\
2q3K1/n7/8/6k1/8/8/8/8 w - - 0 1\tKf7 Kg7 Kh7\n\
4K3/8/8/8/2k3n1/2q5/8/8 b - - 0 1\tQa1 Qc1 Qe1+ Qb2 Qc2 Qd2 Qa3 Qb3 Qd3 Qe3+ Qf3 Qg3 Qh3 Qb4 Qd4 Qa5 Qe5+ Qf6 Qg7 Qh8+ Kb3 Kd3 Kb4 Kd4 \
    Kb5 Kc5 Kd5 Nf2 Nh2 Ne3 Ne5 Nf6+ Nh6\n\
6Q1/K7/8/8/8/3N1k2/8/8 b - - 0 1\tKe2 Ke3 Ke4\n\
1K3k2/7P/8/8/8/1Q6/8/8 w - - 0 1\tQb1 Qd1 Qa2 Qb2 Qc2 Qa3+ Qc3 Qd3 Qe3 Qf3+ Qg3 Qh3 Qa4 Qb4+ Qc4 Qb5 Qd5 Qb6 Qe6 Qb7 Qf7+ Qg8+ h8=Q+ \
    h8=R+ h8=B h8=N Ka7 Kb7 Kc7 Ka8 Kc8\n\
6q1/8/2p5/8/8/7k/4K3/8 w - - 0 1\tKd1 Ke1 Kf1 Kd2 Kf2 Kd3 Ke3 Kf3\n\
8/7p/8/8/4k3/4q3/7K/8 b - - 0 1\tQc1 Qe1 Qg1+ Qd2+ Qe2+ Qf2+ Qa3 Qb3 Qc3 Qd3 Qf3 Qg3+ Qh3+ Qd4 Qf4+ Qc5 Qg5 Qb6 Qh6+ Qa7 Kd3 Kf3 Kd4 Kf4 Kd5 Ke5 Kf5 h5 h6\n\
8/1K6/2Q5/3P4/8/8/6k1/8 b - - 0 1\tKf1 Kg1 Kh1 Kf2 Kh2 Kf3 Kg3 Kh3\n\
1K6/2Q5/8/8/8/7P/1k6/8 b - - 0 1\tKa1 Kb1 Ka2 Ka3 Kb3\n\
3k4/8/K7/3P4/8/8/8/6Q1 w - - 0 1\tQa1 Qb1 Qc1 Qd1 Qe1 Qf1 Qh1 Qf2 Qg2 Qh2 Qe3 Qg3 Qd4 Qg4 Qc5 Qg5+ Qb6+ Qg6 Qa7 Qg7 Qg8+ d6 Ka5 Kb5 Kb6 Ka7 Kb7\n\
8/8/8/2P5/8/8/1QK5/5k2 w - - 0 1\tQa1+ Qb1+ Qc1+ Qa2 Qa3 Qb3 Qc3 Qb4 Qd4 Qb5+ Qe5 Qb6 Qf6+ Qb7 Qg7 Qb8 Qh8 Kb1 Kc1 Kd1 Kd2 Kb3 Kc3 Kd3 c6\n\
8/8/1k6/8/p1q5/8/K7/8 w - - 0 1\tKa1 Kb1 Kb2 Ka3\n\
8/4k3/8/7q/8/4p3/8/2K5 b - - 0 1\te2 Qd1+ Qh1+ Qe2 Qh2 Qf3 Qh3 Qg4 Qh4 Qa5 Qb5 Qc5+ Qd5 Qe5 Qf5 Qg5 Qg6 Qh6 Qf7 Qh7 Qe8 Qh8 Kd6 Ke6 Kf6 Kd7 Kf7 Kd8 Ke8 Kf8\n\
2K5/8/8/q1k5/5p2/8/8/8 b - - 0 1\tf3 Qa1 Qe1 Qa2 Qd2 Qa3 Qc3 Qa4 Qb4 Qb5 Qa6+ Qb6 Qa7 Qc7+ Qa8+ Qd8+ Kb4 Kc4 Kd4 Kb5 Kd5 Kb6 Kc6 Kd6\n\
8/5R2/5K2/8/8/4R3/k7/8 b - - 0 1\tKa1 Kb1 Kb2\n\
8/r7/8/8/8/5r2/2K5/5k2 w - - 0 1\tKb1 Kc1 Kd1 Kb2 Kd2\n\
8/8/5R2/K7/3k4/8/8/R7 w - - 0 1\tRb1 Rc1 Rd1+ Re1 Raf1 Rg1 Rh1 Ra2 Ra3 Ra4+ Ka4 Kb4 Kb5 Ka6 Kb6 Rff1 Rf2 Rf3 Rf4+ Rf5 Ra6 Rb6 Rc6 Rd6+ Re6 Rg6 Rh6 Rf7 Rf8\n\
1rk5/8/5r2/8/8/8/8/K7 b - - 0 1\tRf1+ Rf2 Rf3 Rf4 Rf5 Ra6# Rfb6 Rc6 Rd6 Re6 Rg6 Rh6 Rf7 Rf8 Rb1+ Rb2 Rb3 Rb4 Rb5 Rbb6 Rb7 Ra8+ Kb7 Kc7 Kd7 Kd8\n\
8/8/k7/3R4/8/3K4/8/1R6 w - - 0 1\tRa1+ Rc1 Rd1 Re1 Rf1 Rg1 Rh1 Rb2 Rb3 Rb4 Rbb5 Rb6+ Rb7 Rb8 Kc2 Kd2 Ke2 Kc3 Ke3 Kc4 Kd4 Ke4 Rd4 Ra5+ \
    Rdb5 Rc5 Re5 Rf5 Rg5 Rh5 Rd6+ Rd7 Rd8\n\
8/3R2K1/8/8/8/3R4/1k6/8 b - - 0 1\tKa1 Kb1 Kc1 Ka2 Kc2\n\
8/5b2/K7/6rk/8/8/8/8 w - - 0 1\tKb6 Ka7 Kb7\n\
7B/5R2/8/8/3K4/k7/8/8 w - - 0 1\tKc3 Kd3 Ke3 Kc4 Ke4 Kc5 Kd5 Ke5 Rf1 Rf2 Rf3+ Rf4 Rf5 Rf6 Ra7+ Rb7 Rc7 Rd7 Re7 Rg7 Rh7 Rf8 Be5 Bf6 Bg7\n\
3k4/8/8/1K4B1/7R/8/8/8 b - - 0 1\tKc7 Kd7 Kc8 Ke8\n\
8/1K6/5r2/8/8/3k4/8/3b4 b - - 0 1\tBc2 Be2 Bb3 Bf3+ Ba4 Bg4 Bh5 Kc2 Kd2 Ke2 Kc3 Ke3 Kc4 Kd4 Ke4 Rf1 Rf2 Rf3 Rf4 Rf5 Ra6 Rb6+ Rc6 Rd6 Re6 Rg6 Rh6 Rf7+ Rf8\n\
7K/R7/8/8/3B2k1/8/8/8 b - - 0 1\tKf3 Kg3 Kh3 Kf4 Kh4 Kf5 Kg5 Kh5\n\
8/8/6K1/8/8/2R5/8/4k2B b - - 0 1\tKd1 Kf1 Kd2 Ke2 Kf2\n\
8/8/8/1N3K2/8/8/6k1/4R3 w - - 0 1\tRa1 Rb1 Rc1 Rd1 Rf1 Rg1+ Rh1 Re2+ Re3 Re4 Re5 Re6 Re7 Re8 Na3 Nc3 Nd4 Nd6 Na7 Nc7 Ke4 Kf4 Kg4 Ke5 Kg5 Ke6 Kf6 Kg6\n\
8/8/8/8/2k5/R7/8/3N3K b - - 0 1\tKb4 Kd4 Kb5 Kc5 Kd5\n\
8/8/8/3kr3/5n2/8/8/6K1 b - - 0 1\tNe2+ Ng2 Nd3 Nh3+ Nh5 Ne6 Ng6 Kc4 Kd4 Ke4 Kc5 Kc6 Kd6 Ke6 Re1+ Re2 Re3 Re4 Rf5 Rg5+ Rh5 Re6 Re7 Re8\n\
8/N7/5R2/8/4K3/7k/8/8 b - - 0 1\tKg2 Kh2 Kg3 Kg4 Kh4\n\
8/3r4/1k6/8/3n4/8/8/7K w - - 0 1\tKg1 Kg2 Kh2\n\
6k1/8/8/8/7R/8/1K6/6N1 b - - 0 1\tKf7 Kg7 Kf8\n\
r2k4/7K/8/8/8/8/2p5/8 w - - 0 1\tKg6 Kh6 Kg7 Kg8 Kh8\n\
7k/8/4Kp2/8/5r2/8/8/8 b - - 0 1\tRf1 Rf2 Rf3 Ra4 Rb4 Rc4 Rd4 Re4+ Rg4 Rh4 Rf5 f5 Kg7 Kh7 Kg8\n\
8/8/6p1/8/6k1/8/1K6/r7 b - - 0 1\tRb1+ Rc1 Rd1 Re1 Rf1 Rg1 Rh1 Ra2+ Ra3 Ra4 Ra5 Ra6 Ra7 Ra8 Kf3 Kg3 Kh3 Kf4 Kh4 Kf5 Kg5 Kh5 g5\n\
8/2k5/8/1K6/3R4/P7/8/8 w - - 0 1\ta4 Rd1 Rd2 Rd3 Ra4 Rb4 Rc4+ Re4 Rf4 Rg4 Rh4 Rd5 Rd6 Rd7+ Rd8 Ka4 Kb4 Kc4 Ka5 Kc5 Ka6\n\
3k4/8/8/6P1/K7/8/8/4R3 w - - 0 1\tRa1 Rb1 Rc1 Rd1+ Rf1 Rg1 Rh1 Re2 Re3 Re4 Re5 Re6 Re7 Re8+ Ka3 Kb3 Kb4 Ka5 Kb5 g6\n\
8/5k1p/8/1K6/8/8/8/5r2 b - - 0 1\tRa1 Rb1+ Rc1 Rd1 Re1 Rg1 Rh1 Rf2 Rf3 Rf4 Rf5+ Rf6 Ke6 Kf6 Kg6 Ke7 Kg7 Ke8 Kf8 Kg8 h5 h6\n\
4K3/3R4/8/8/3P4/8/8/k7 w - - 0 1\td5 Rd5 Rd6 Ra7+ Rb7 Rc7 Re7 Rf7 Rg7 Rh7 Rd8 Ke7 Kf7 Kd8 Kf8\n\
8/7r/8/3k4/1K6/8/3p4/8 b - - 0 1\td1=Q d1=R d1=B d1=N Kd4 Ke4 Ke5 Kc6 Kd6 Ke6 Rh1 Rh2 Rh3 Rh4+ Rh5 Rh6 Ra7 Rb7+ Rc7 Rd7 Re7 Rf7 Rg7 Rh8\n\
K6r/8/8/4p3/8/8/8/k7 w - - 0 1\tKa7 Kb7\n\
8/8/5P2/2K5/8/8/1k6/5R2 b - - 0 1\tKa2 Kc2 Ka3 Kb3 Kc3\n\
8/B7/8/7k/8/6B1/6K1/8 b - - 0 1\tKg4 Kg5 Kg6 Kh6\n\
2Bk4/4B3/8/8/8/8/8/1K6 b - - 0 1\tKc7 Kxe7 Kxc8 Ke8\n\
K7/8/5b2/8/b7/5k2/8/8 w - - 0 1\tKa7 Kb7 Kb8\n\
8/3k4/2B5/8/8/1B6/8/3K4 b - - 0 1\tKxc6 Kd6 Kc7 Ke7 Kc8 Kd8\n\
8/6K1/8/6B1/8/k7/7B/8 w - - 0 1\tBg1 Bg3 Bhf4 Be5 Bd6+ Bc7 Bb8 Bc1+ Bd2 Be3 Bgf4 Bh4 Bf6 Bh6 Be7+ Bd8 Kf6 Kg6 Kh6 Kf7 Kh7 Kf8 Kg8 Kh8\n\
8/7k/8/3b4/8/3K4/4b3/8 w - - 0 1\tKc2 Kd2 Kxe2 Kc3 Ke3 Kd4\n\
k7/3b4/8/8/8/4K3/8/4n3 w - - 0 1\tKd2 Ke2 Kf2 Kd4 Ke4 Kf4\n\
8/8/5k2/4BN2/8/8/5K2/8 b - - 0 1\tKxe5 Kxf5 Kg5 Ke6 Kg6 Kf7\n\
8/8/4k3/8/8/7K/8/5NB1 b - - 0 1\tKd5 Ke5 Kf5 Kd6 Kf6 Kd7 Ke7 Kf7\n\
8/B7/3N4/3k4/8/5K2/8/8 b - - 0 1\tKe5 Kc6 Kxd6 Ke6\n\
8/8/8/N7/3Bk3/8/5K2/8 b - - 0 1\tKd3 Kxd4 Kf4 Kd5 Kf5\n\
8/8/1n5K/8/8/8/8/2kb4 w - - 0 1\tKg5 Kg6 Kg7 Kh7\n\
3b4/8/8/8/4p3/k7/8/6K1 b - - 0 1\tKa2 Kb2 Kb3 Ka4 Kb4 e3 Bh4 Ba5 Bg5 Bb6+ Bf6 Bc7 Be7\n\
2k5/8/K1B5/8/8/8/3P4/8 w - - 0 1\td3 d4 Ka5 Kb5 Kb6 Ka7 Bh1 Bg2 Bf3 Ba4 Be4 Bb5 Bd5 Bb7+ Bd7+ Ba8 Be8\n\
8/8/4K3/8/1P6/8/5kB1/8 w - - 0 1\tBf1 Bh1 Bf3 Bh3 Be4 Bd5 Bc6 Bb7 Ba8 b5 Kd5 Ke5 Kf5 Kd6 Kf6 Kd7 Ke7 Kf7\n\
7K/8/1p6/8/4b3/5k2/8/8 b - - 0 1\tKe2 Kf2 Kg2 Ke3 Kg3 Kf4 Kg4 Bb1 Bc2 Bd3 Bd5 Bf5 Bc6 Bg6 Bb7 Bh7 Ba8 b5\n\
k7/2b5/8/2K4p/8/8/8/8 b - - 0 1\th4 Bh2 Bg3 Bf4 Ba5 Be5 Bb6+ Bd6+ Bb8 Bd8 Ka7 Kb7 Kb8\n\
8/3p4/8/K4b2/4k3/8/8/8 w - - 0 1\tKa4 Kb4 Kb5 Ka6 Kb6\n\
8/8/4k3/8/3K4/1P6/8/4B3 w - - 0 1\tBd2 Bf2 Bc3 Bg3 Bb4 Bh4 Ba5 b4 Kc3 Kd3 Ke3 Kc4 Ke4 Kc5\n\
8/3p4/8/2k5/8/2b5/8/3K4 b - - 0 1\tBa1 Be1 Bb2 Bd2 Bb4 Bd4 Ba5 Be5 Bf6 Bg7 Bh8 Kb4 Kc4 Kd4 Kb5 Kd5 Kb6 Kc6 Kd6 d5 d6\n\
3k4/7P/B7/8/5K2/8/8/8 w - - 0 1\tKe3 Kf3 Kg3 Ke4 Kg4 Ke5 Kf5 Kg5 Bf1 Be2 Bd3 Bc4 Bb5 Bb7 Bc8 h8=Q+ h8=R+ h8=B h8=N\n\
2K5/8/4k3/P7/8/5B2/8/8 w - - 0 1\tBd1 Bh1 Be2 Bg2 Be4 Bg4+ Bd5+ Bh5 Bc6 Bb7 Ba8 a6 Kb7 Kc7 Kb8 Kd8\n\
5n2/7n/8/8/8/1k6/8/3K4 w - - 0 1\tKc1 Ke1 Kd2 Ke2\n\
4n2K/8/7n/8/7k/8/8/8 w - - 0 1\tKh7\n\
8/8/kn6/8/8/8/8/1n1K4 b - - 0 1\tNd2 Na3 Nc3+ Ka5 Kb5 Ka7 Kb7 Na4 Nc4 Nd5 Nd7 Na8 Nc8\n\
8/8/8/8/7K/8/8/1k4nn w - - 0 1\tKg4 Kg5 Kh5\n\
8/4K3/8/8/1n6/3k4/1n6/8 w - - 0 1\tKd6 Ke6 Kf6 Kd7 Kf7 Kd8 Ke8 Kf8\n\
8/8/8/7n/2n5/k7/8/3K4 w - - 0 1\tKc1 Ke1 Kc2 Ke2\n\
7k/2p5/4n3/8/8/5K2/8/8 w - - 0 1\tKe2 Kf2 Kg2 Ke3 Kg3 Ke4 Kg4\n\
6K1/6n1/6p1/2k5/8/8/8/8 b - - 0 1\tKb4 Kc4 Kd4 Kb5 Kd5 Kb6 Kc6 Kd6 g5 Nf5 Nh5 Ne6 Ne8\n\
8/8/2N5/4K3/8/P7/1k6/8 b - - 0 1\tKa1 Kb1 Kc1 Ka2 Kc2 Kxa3 Kb3 Kc3\n\
8/3n4/8/7K/8/8/p4k2/8 w - - 0 1\tKg4 Kh4 Kg5 Kg6 Kh6\n\
4k1K1/8/1p4n1/8/8/8/8/8 b - - 0 1\tb5 Nf4 Nh4 Ne5 Ne7+ Nf8 Nh8 Kd7 Ke7 Kd8\n\
8/8/3p4/8/8/8/5K1n/2k5 w - - 0 1\tKe1 Kg1 Ke2 Kg2 Ke3 Kg3\n\
8/8/8/p3n3/8/8/7k/2K5 w - a6 0 1\tKb1 Kd1 Kb2 Kc2 Kd2\n\
2K5/8/3p4/8/8/8/8/k4n2 b - - 0 1\tKb1 Ka2 Kb2 Nd2 Nh2 Ne3 Ng3 d5\n\
8/8/K7/3n4/3p3k/8/8/8 b - - 0 1\td3 Kg3 Kh3 Kg4 Kg5 Kh5 Nc3 Ne3 Nb4+ Nf4 Nb6 Nf6 Nc7+ Ne7\n\
2K5/p7/8/8/8/8/4k3/4n3 b - - 0 1\tNc2 Ng2 Nd3 Nf3 Kd1 Kf1 Kd2 Kf2 Kd3 Ke3 Kf3 a5 a6\n\
2k5/8/8/7P/8/8/1P6/1K6 w - - 0 1\tKa1 Kc1 Ka2 Kc2 b3 b4 h6\n\
6K1/1p6/8/7p/8/8/k7/8 b - - 0 1\tKa1 Kb1 Kb2 Ka3 Kb3 h4 b5 b6\n\
8/3k4/5P2/8/P7/8/6K1/8 w - - 0 1\tKf1 Kg1 Kh1 Kf2 Kh2 Kf3 Kg3 Kh3 a5 f7\n\
8/8/1p6/4p2K/8/1k6/8/8 w - - 0 1\tKg4 Kh4 Kg5 Kg6 Kh6\n\
2k5/2p5/K3p3/8/8/8/8/8 b - - 0 1\te5 c5 c6 Kd7 Kb8 Kd8\n\
8/8/8/8/8/3K4/4PP2/3k4 w - - 0 1\te3 e4 f3 f4 Kc3 Ke3 Kc4 Kd4 Ke4\n\
8/8/3P2K1/7P/8/8/3k4/8 w - - 0 1\th6 d7 Kf5 Kg5 Kf6 Kh6 Kf7 Kg7 Kh7\n\
8/6K1/5P2/8/8/1P6/7k/8 b - - 0 1\tKg1 Kh1 Kg2 Kg3 Kh3\n\
8/8/P6P/8/8/8/6k1/3K4 b - - 0 1\tKf1 Kg1 Kh1 Kf2 Kh2 Kf3 Kg3 Kh3\n\
8/5P1k/8/8/P7/8/2K5/8 w - - 0 1\tKb1 Kc1 Kd1 Kb2 Kd2 Kb3 Kc3 Kd3 a5 f8=Q f8=R f8=B f8=N+\n\
k7/8/1K6/8/8/7q/8/1Q6 w - - 0 1\tQa1+ Qc1 Qd1 Qe1 Qf1 Qg1 Qh1+ Qa2+ Qb2 Qc2 Qb3 Qd3 Qb4 Qe4+ Qb5 Qf5 Qg6 Qh7 Ka5 Kb5 Kc5 Ka6 Kc6 Kc7\n\
8/8/8/K1k5/8/7Q/1q6/8 b - - 0 1\tQa1+ Qb1 Qc1 Qa2+ Qc2 Qd2+ Qe2 Qf2 Qg2 Qh2 Qa3+ Qb3 Qc3+ Qb4+ Qd4 Qb5# Qe5 Qb6+ Qf6 Qb7 Qg7 Qb8 Qh8 Kc4 Kd4 Kd5 Kc6 Kd6\n\
K7/1Q6/7q/8/8/8/3k4/8 w - - 0 1\tQb1 Qh1 Qb2+ Qg2+ Qb3 Qf3 Qb4+ Qe4 Qb5 Qd5+ Qa6 Qb6 Qc6 Qa7 Qc7 Qd7+ Qe7 Qf7 Qg7 Qh7 Qb8 Qc8 Ka7 Kb8\n\
5Q2/8/5K2/8/1q6/8/8/5k2 b - - 0 1\tKe1 Kg1 Ke2 Kf2 Kg2 Qb1 Qe1 Qb2+ Qd2 Qa3 Qb3 Qc3+ Qa4 Qc4 Qd4+ Qe4 Qf4+ Qg4 Qh4+ Qa5 Qb5 Qc5 Qb6+ Qd6+ Qb7 Qe7+ Qb8 Qxf8+\n\
8/4q3/8/8/8/1Q6/3K4/k7 w - - 0 1\tKc1 Kd1 Kc2 Kc3 Kd3 Qb1+ Qd1+ Qa2+ Qb2+ Qc2 Qa3+ Qc3+ Qd3 Qe3 Qf3 Qg3 Qh3 Qa4+ Qb4 Qc4 Qb5 Qd5 Qb6 Qe6 Qb7 Qf7 Qb8 Qg8\n\
4Q3/8/8/q7/1k6/8/3K4/8 w - - 0 1\tKc1 Kd1 Ke1 Kc2 Ke2 Kd3 Ke3 Qe1 Qe2 Qe3 Qa4+ Qe4+ Qb5+ Qe5 Qh5 Qc6 Qe6 Qg6 Qd7 Qe7+ Qf7 Qa8 Qb8+ Qc8 Qd8 Qf8+ Qg8 Qh8\n\
8/8/5Q2/8/8/4K2k/8/3r4 b - - 0 1\tRa1 Rb1 Rc1 Re1+ Rf1 Rg1 Rh1 Rd2 Rd3+ Rd4 Rd5 Rd6 Rd7 Rd8 Kg2 Kh2 Kg3 Kg4\n\
2r5/8/8/6K1/8/8/8/k2Q4 b - - 0 1\tKa2 Kb2 Rc1\n\
8/8/4K3/3R4/8/1k6/7q/8 b - - 0 1\tQg1 Qh1 Qa2 Qb2 Qc2 Qd2 Qe2+ Qf2 Qg2 Qg3 Qh3+ Qf4 Qh4 Qe5+ Qh5 Qd6+ Qh6+ Qc7 Qh7 Qb8 Qh8 Ka2 Kb2 Kc2 Ka3 Kc3 Ka4 Kb4 Kc4\n\
8/4K3/8/8/8/7q/5R1k/8 b - - 0 1\tKg1 Kh1 Kg3 Qg2\n\
3k4/1R6/8/8/q7/8/8/5K2 w - - 0 1\tKe1 Kg1 Ke2 Kf2 Kg2 Rb1 Rb2 Rb3 Rb4 Rb5 Rb6 Ra7 Rc7 Rd7+ Re7 Rf7 Rg7 Rh7 Rb8+\n\
8/6k1/3K4/8/8/7Q/4r3/8 w - - 0 1\tQf1 Qh1 Qg2+ Qh2 Qa3 Qb3 Qc3+ Qd3 Qe3 Qf3 Qg3+ Qg4+ Qh4 Qf5 Qh5 Qe6 Qh6+ Qd7+ Qh7+ Qc8 Qh8+ Kc5 Kd5 Kc6 Kc7 Kd7\n\
3K4/8/2q5/8/8/8/5B2/5k2 b - - 0 1\tKe2 Kxf2 Kg2 Qc1 Qh1 Qc2 Qg2 Qc3 Qf3 Qa4 Qc4 Qe4 Qb5 Qc5 Qd5+ Qa6 Qb6+ Qd6+ Qe6 Qf6+ Qg6 Qh6 Qb7 Qc7+ Qd7+ Qa8+ Qc8+ Qe8+\n\
3Kq1k1/8/6B1/8/8/8/8/8 w - - 0 1\tBxe8 Kc7 Kxe8\n\
4q3/3B1k2/3K4/8/8/8/8/8 b - - 0 1\tKf6 Kg6 Kg7 Kf8 Kg8 Qe1 Qe2 Qe3 Qe4 Qe5+ Qe6+ Qxd7+ Qe7+ Qa8 Qb8+ Qc8 Qd8 Qf8+ Qg8 Qh8\n\
4k3/8/8/3b4/8/7K/8/5Q2 w - - 0 1\tQa1 Qb1 Qc1 Qd1 Qe1+ Qg1 Qh1 Qe2+ Qf2 Qg2 Qd3 Qf3 Qc4 Qf4 Qb5+ Qf5 Qa6 Qf6 Qf7+ Qf8+ Kh2 Kg3 Kg4 Kh4\n\
6B1/8/2k5/8/6K1/7q/8/8 w - - 0 1\tKxh3 Kf4 Kg5\n\
2K5/4k3/B7/8/4q3/8/8/8 w - - 0 1\tBf1 Be2 Bd3 Bc4 Bb5 Bb7 Kc7 Kb8\n\
4N3/8/8/1k6/4q3/7K/8/8 w - - 0 1\tKh2 Kg3 Nd6+ Nf6 Nc7+ Ng7\n\
3q4/8/8/8/N7/K7/7k/8 w - - 0 1\tKa2 Kb2 Kb3 Kb4 Nb2 Nc3 Nc5 Nb6\n\
2k5/3q4/8/8/8/4K2N/8/8 b - - 0 1\tQd1 Qd2+ Qd3+ Qxh3+ Qa4 Qd4+ Qg4 Qb5 Qd5 Qf5 Qc6 Qd6 Qe6+ Qa7+ Qb7 Qc7 Qe7+ Qf7 Qg7 Qh7 Qd8 Qe8+ Kb7 Kc7 Kb8 Kd8\n\
8/8/8/3k4/7K/8/1N6/5q2 w - - 0 1\tNd1 Nd3 Na4 Nc4 Kg3 Kg4 Kg5 Kh5\n\
7q/8/2K5/N7/8/5k2/8/8 b - - 0 1\tKe2 Kf2 Kg2 Ke3 Kg3 Ke4 Kf4 Kg4 Qa1 Qh1 Qb2 Qh2 Qc3+ Qh3 Qd4 Qh4 Qe5 Qh5 Qf6+ Qh6+ Qg7 Qh7 Qa8+ Qb8 Qc8+ Qd8 Qe8+ Qf8 Qg8\n\
N7/8/8/k7/8/8/1K6/5q2 b - - 0 1\tQa1+ Qb1+ Qc1+ Qd1 Qe1 Qg1 Qh1 Qe2+ Qf2+ Qg2+ Qd3 Qf3 Qh3 Qc4 Qf4 Qb5+ Qf5 Qa6 Qf6+ Qf7 Qf8 Ka4 Kb4 Kb5 Ka6\n\
8/6p1/k7/5K2/8/8/4Q3/8 b - - 0 1\tKa5 Kb6 Ka7 Kb7\n\
8/k1K5/8/8/4p3/8/Q7/8 b - - 0 1\t\n\
8/3K4/8/p2Q4/6k1/8/8/8 b - - 0 1\tKg3 Kh3 Kf4 Kh4 a4\n\
8/k7/1q2P3/8/8/7K/8/8 b - - 0 1\tQb1 Qg1 Qb2 Qf2 Qb3+ Qe3+ Qb4 Qd4 Qa5 Qb5 Qc5 Qa6 Qc6 Qd6 Qxe6+ Qb7 Qc7 Qb8 Qd8 Ka6 Kb7 Ka8 Kb8\n\
8/k1Q5/7K/8/8/8/p7/8 b - - 0 1\tKa6 Ka8\n\
8/7K/5p2/8/2Q5/6k1/8/8 b - - 0 1\tKf2 Kg2 Kh2 Kf3 Kh3 f5\n\
8/8/8/4K2P/8/8/2k5/2q5 b - - 0 1\tQa1+ Qb1 Qd1 Qe1+ Qf1 Qg1 Qh1 Qb2+ Qd2 Qa3 Qe3+ Qf4+ Qg5+ Qh6 Kb1 Kd1 Kb2 Kd2 Kb3 Kc3 Kd3\n\
8/6qK/8/8/8/1P6/7k/8 w - - 0 1\tKxg7\n\
8/6K1/8/5Q2/p7/5k2/8/8 b - - 0 1\tKe2 Kg2 Ke3 Kg3\n\
1K6/8/3P4/8/8/q7/8/2k5 w - - 0 1\td7 Kb7 Kc7 Kc8\n\
8/8/8/8/5K1R/8/k5r1/8 w - - 0 1\tKe3 Kf3 Ke4 Ke5 Kf5 Rh1 Rh2 Rh3 Rg4 Rh5 Rh6 Rh7 Rh8\n\
6r1/8/8/3R4/8/2K5/8/k7 w - - 0 1\tKc2 Kd2 Kb3 Kd3 Kb4 Kc4 Kd4 Rd1+ Rd2 Rd3 Rd4 Ra5+ Rb5 Rc5 Re5 Rf5 Rg5 Rh5 Rd6 Rd7 Rd8\n\
8/8/2rK4/7R/8/8/8/2k5 w - - 0 1\tKd5 Ke5 Kxc6 Kd7 Ke7\n\
8/8/8/2R5/8/3k4/7K/6r1 w - - 0 1\tKxg1 Kh3 Rc1 Rc2 Rc3+ Rc4 Ra5 Rb5 Rd5+ Re5 Rf5 Rg5 Rh5 Rc6 Rc7 Rc8\n\
8/8/3K4/1k6/4R1r1/8/8/8 b - - 0 1\tRg1 Rg2 Rg3 Rxe4 Rf4 Rh4 Rg5 Rg6+ Rg7 Rg8 Ka5 Ka6 Kb6\n\
8/8/8/8/7k/3K4/2R5/7r w - - 0 1\tRc1 Ra2 Rb2 Rd2 Re2 Rf2 Rg2 Rh2+ Rc3 Rc4+ Rc5 Rc6 Rc7 Rc8 Kd2 Ke2 Kc3 Ke3 Kc4 Kd4 Ke4\n\
8/4k1b1/8/8/1K6/8/8/3R4 w - - 0 1\tRa1 Rb1 Rc1 Re1+ Rf1 Rg1 Rh1 Rd2 Rd3 Rd4 Rd5 Rd6 Rd7+ Rd8 Ka3 Kb3 Ka4 Kc4 Ka5 Kb5 Kc5\n\
8/1r3k2/8/8/8/5B2/1K6/8 w - - 0 1\tKa1 Kc1 Ka2 Kc2 Ka3 Kc3 Bxb7\n\
8/K2R4/8/4b3/8/1k6/8/8 b - - 0 1\tKa2 Kb2 Kc2 Ka3 Kc3 Ka4 Kb4 Kc4 Ba1 Bb2 Bh2 Bc3 Bg3 Bd4+ Bf4 Bd6 Bf6 Bc7 Bg7 Bb8+ Bh8\n\
8/8/8/8/5k2/r2K4/8/3B4 w - - 0 1\tBb3 Kc2 Kd2 Ke2 Kc4 Kd4\n\
8/8/8/1R2K3/8/7k/8/5b2 b - - 0 1\tBe2 Bg2 Bd3 Bc4 Bxb5 Kg2 Kh2 Kg3 Kg4 Kh4\n\
8/6k1/8/8/B7/5K2/8/3r4 w - - 0 1\tKe2 Kf2 Kg2 Ke3 Kg3 Ke4 Kf4 Kg4 Bxd1 Bc2 Bb3 Bb5 Bc6 Bd7 Be8\n\
8/5nk1/8/8/6K1/8/5R2/8 b - - 0 1\tNe5+ Ng5 Nd6 Nh6+ Nd8 Nh8 Kg6 Kh6 Kh7 Kf8 Kg8 Kh8\n\
1n6/4k3/8/5R2/5K2/8/8/8 b - - 0 1\tKd6 Ke6 Kd7 Kd8 Ke8 Na6 Nc6 Nd7\n\
8/6K1/8/2R5/8/6n1/7k/8 b - - 0 1\tKg1 Kh1 Kg2 Kh3 Nf1 Nh1 Ne2 Ne4 Nf5+ Nh5+\n\
3n4/8/8/5k1R/8/K7/8/8 b - - 0 1\tKe4 Kf4 Kg4 Ke6 Kf6 Kg6\n\
8/2N5/8/2r2k2/7K/8/8/8 w - - 0 1\tKg3 Kh3 Kh5 Nb5 Nd5 Na6 Ne6 Na8 Ne8\n\
1k6/8/4n3/8/8/5R2/8/K7 b - - 0 1\tNd4 Nf4 Nc5 Ng5 Nc7 Ng7 Nd8 Nf8 Ka7 Kb7 Kc7 Ka8 Kc8\n\
8/1pk5/8/8/2K5/8/1R6/8 w - - 0 1\tRb1 Ra2 Rc2 Rd2 Re2 Rf2 Rg2 Rh2 Rb3 Rb4 Rb5 Rb6 Rxb7+ Kb3 Kc3 Kd3 Kb4 Kd4 Kb5 Kc5 Kd5\n\
8/7K/8/4k3/8/8/4P1r1/8 w - - 0 1\te3 e4 Kh6 Kh8\n\
5k2/6r1/8/8/8/5P2/8/K7 b - - 0 1\tRg1+ Rg2 Rg3 Rg4 Rg5 Rg6 Ra7+ Rb7 Rc7 Rd7 Re7 Rf7 Rh7 Rg8 Ke7 Kf7 Ke8 Kg8\n\
8/8/8/6p1/5KR1/8/8/1k6 w - g6 0 1\tKe3 Kf3 Kg3 Ke4 Ke5 Kf5 Kxg5 Rxg5\n\
8/7r/2P5/8/6K1/8/k7/8 b - - 0 1\tKa1 Kb1 Kb2 Ka3 Kb3 Rh1 Rh2 Rh3 Rh4+ Rh5 Rh6 Ra7 Rb7 Rc7 Rd7 Re7 Rf7 Rg7+ Rh8\n\
7K/3p4/5R2/7k/8/8/8/8 b - - 0 1\tKg4 Kh4 Kg5 d5 d6\n\
8/3k4/8/7K/8/5R2/4p3/8 b - - 0 1\te1=Q e1=R e1=B e1=N Kc6 Kd6 Ke6 Kc7 Ke7 Kc8 Kd8 Ke8\n\
5R2/4k3/8/8/8/8/p7/3K4 b - - 0 1\ta1=Q+ a1=R+ a1=B a1=N Kd6 Ke6 Kd7 Kxf8\n\
8/2p1R3/8/8/2k5/8/8/4K3 b - - 0 1\tKb3 Kc3 Kd3 Kb4 Kd4 Kb5 Kc5 Kd5 c5 c6\n\
2k5/8/8/3p2K1/6R1/8/8/8 b - - 0 1\td4 Kb7 Kc7 Kd7 Kb8 Kd8\n\
8/8/b5B1/2K5/8/2k5/8/8 w - - 0 1\tKd5 Kb6 Kc6 Kd6 Bb1 Bc2 Bd3 Be4 Bf5 Bh5 Bf7 Bh7 Be8\n\
8/8/8/K4B2/8/5b2/8/4k3 w - - 0 1\tKa4 Kb4 Kb5 Ka6 Kb6 Bb1 Bc2 Bd3 Bh3 Be4 Bg4 Be6 Bg6 Bd7 Bh7 Bc8\n\
2B5/8/8/8/8/8/8/1k1bK3 w - - 0 1\tKxd1 Kf1 Kd2 Kf2 Bh3 Bg4 Bf5+ Ba6 Be6 Bb7 Bd7\n\
8/1K6/4B3/8/7k/3b4/8/8 b - - 0 1\tBb1 Bf1 Bc2 Be2 Bc4 Be4+ Bb5 Bf5 Ba6+ Bg6 Bh7 Kg3 Kg5 Kh5\n\
8/8/7B/8/8/b4K1k/8/8 w - - 0 1\tKe2 Kf2 Ke3 Ke4 Kf4 Bc1 Bd2 Be3 Bf4 Bg5 Bg7 Bf8\n\
8/8/8/5k2/8/8/3b1K2/5B2 w - - 0 1\tBe2 Bg2 Bd3+ Bh3+ Bc4 Bb5 Ba6 Kg1 Ke2 Kg2 Kf3 Kg3\n\
8/8/6K1/8/8/7n/B2k4/8 w - - 0 1\tBb1 Bb3 Bc4 Bd5 Be6 Bf7 Bg8 Kf5 Kh5 Kf6 Kh6 Kf7 Kg7 Kh7\n\
8/8/8/8/7K/5b2/5N1k/8 b - - 0 1\tKg1 Kg2 Bd1 Bh1 Be2 Bg2 Be4 Bg4 Bd5 Bh5 Bc6 Bb7 Ba8\n\
8/7B/8/8/8/7k/2K5/1n6 w - - 0 1\tKxb1 Kc1 Kd1 Kb2 Kb3 Kd3 Bd3 Be4 Bf5+ Bg6 Bg8\n\
2K4k/8/8/5B2/8/n7/8/8 b - - 0 1\tNb1 Nc2 Nc4 Nb5 Kg7 Kg8\n\
8/6B1/8/8/4n2K/k7/8/8 w - - 0 1\tKh3 Kg4 Kh5 Ba1 Bb2+ Bc3 Bd4 Be5 Bf6 Bh6 Bf8+ Bh8\n\
8/8/8/6N1/1b6/5K2/8/6k1 b - - 0 1\tKf1 Kh1 Kh2 Be1 Bd2 Ba3 Bc3 Ba5 Bc5 Bd6 Be7 Bf8\n\
8/6b1/K1k5/8/4P3/8/8/8 w - - 0 1\te5 Ka5 Ka7\n\
8/b7/4P3/3K1k2/8/8/8/8 w - - 0 1\tKc4 Kc6 Kd6 e7\n\
4K3/8/8/8/8/B3p3/8/1k6 w - - 0 1\tBc1 Bb2 Bb4 Bc5 Bd6 Be7 Bf8 Kd7 Ke7 Kf7 Kd8 Kf8\n\
8/1k6/1P6/8/2b5/8/5K2/8 w - - 0 1\tKe1 Kg1 Kg2 Ke3 Kf3 Kg3\n\
8/8/1k2K3/8/8/b7/6P1/8 b - - 0 1\tBc1 Bb2 Bb4 Bc5 Bd6 Be7 Bf8 Ka5 Kb5 Kc5 Ka6 Kc6 Ka7 Kb7 Kc7\n\
5Bk1/8/8/8/8/K7/3p4/8 b - - 0 1\td1=Q d1=R d1=B d1=N Kf7 Kh7 Kxf8 Kh8\n\
8/8/8/k7/8/1K5P/8/b7 w - - 0 1\tKa2 Kc2 Ka3 Kc4 h4\n\
8/8/6K1/8/5pB1/5k2/8/8 b - - 0 1\tKf2 Kg2 Ke3 Kg3 Ke4 Kxg4\n\
1b6/8/3K4/8/8/8/5P2/4k3 w - - 0 1\tKc5 Kd5 Kc6 Ke6 Kd7 Ke7\n\
8/8/8/6K1/k7/8/1P4b1/8 w - - 0 1\tb3+ b4 Kf4 Kg4 Kh4 Kf5 Kh5 Kf6 Kg6 Kh6\n\
6K1/8/7N/4k3/8/8/8/3n4 w - - 0 1\tNg4+ Nf5 Nf7+ Kf7 Kg7 Kh7 Kf8 Kh8\n\
8/8/8/1N1n4/8/8/k7/2K5 w - - 0 1\tKd1 Kc2 Kd2 Na3 Nc3+ Nd4 Nd6 Na7 Nc7\n\
8/1K1n4/8/3N4/5k2/8/8/8 b - - 0 1\tKf3 Kg3 Ke4 Kg4 Ke5 Kf5 Kg5\n\
4k3/8/8/5K2/8/2N5/4n3/8 w - - 0 1\tNb1 Nd1 Na2 Nxe2 Na4 Ne4 Nb5 Nd5 Ke4 Kg4 Ke5 Kg5 Ke6 Kf6 Kg6\n\
8/1K6/8/8/8/8/1n1N4/2k5 b - - 0 1\tKd1 Kc2 Kxd2 Nd1 Nd3 Na4 Nc4\n\
8/8/4n3/8/1k6/4K3/5N2/8 b - - 0 1\tKa3 Kb3 Kc3 Ka4 Kc4 Ka5 Kb5 Kc5 Nd4 Nf4 Nc5 Ng5 Nc7 Ng7 Nd8 Nf8\n\
8/6Kn/k7/8/2P5/8/8/8 w - - 0 1\tc5 Kg6 Kh6 Kf7 Kxh7 Kg8 Kh8\n\
4N3/8/4k3/8/1K6/8/2p5/8 w - - 0 1\tKa3 Kb3 Kc3 Ka4 Kc4 Ka5 Kb5 Kc5 Nd6 Nf6 Nc7+ Ng7+\n\
8/8/8/8/8/2K1k3/4p3/6N1 b - - 0 1\te1=Q+ e1=R e1=B+ e1=N Kf2 Ke4 Kf4\n\
8/p7/8/4K3/4N3/8/8/2k5 b - - 0 1\tKb1 Kd1 Kb2 Kc2 a5 a6\n\
3k3K/8/8/8/8/8/p3N3/8 w - - 0 1\tNc1 Ng1 Nc3 Ng3 Nd4 Nf4 Kg7 Kh7 Kg8\n\
8/2n2K2/8/1P6/8/8/8/3k4 w - - 0 1\tb6 Kf6 Kg6 Ke7 Kg7 Kf8 Kg8\n\
1K6/8/3P4/1k6/8/6n1/8/8 b - - 0 1\tNf1 Nh1 Ne2 Ne4 Nf5 Nh5 Ka4 Kb4 Kc4 Ka5 Kc5 Ka6 Kb6 Kc6\n\
2k5/8/8/5n2/K7/2P5/8/8 w - - 0 1\tc4 Ka3 Kb3 Kb4 Ka5 Kb5\n\
5K2/2N5/8/1k6/2p5/8/8/8 b - - 0 1\tKa4 Kb4 Ka5 Kc5 Kb6 Kc6\n\
2n5/2K5/8/8/8/P7/3k4/8 w - - 0 1\ta4 Kc6 Kb7 Kd7 Kb8 Kxc8 Kd8\n\
8/8/8/5K2/5p2/4P3/8/4k3 b - - 0 1\tKd1 Kf1 Kd2 Ke2 Kf2 fxe3 f3\n\
7K/1p3k2/7P/8/8/8/8/8 b - - 0 1\tb5 b6 Ke6 Kf6 Kg6 Ke7 Ke8 Kf8\n\
8/8/4K3/8/3p4/5P2/8/3k4 b - - 0 1\tKc1 Ke1 Kc2 Kd2 Ke2 d3\n\
8/8/8/2k1P3/5p2/8/8/K7 b - - 0 1\tf3 Kb4 Kc4 Kd4 Kb5 Kd5 Kb6 Kc6\n\
8/5k2/8/8/4p2P/4K3/8/8 w - - 0 1\tKd2 Ke2 Kf2 Kd4 Kxe4 Kf4 h5\n\
8/3K4/8/6P1/3k4/5p2/8/8 b - - 0 1\tf2 Kc3 Kd3 Ke3 Kc4 Ke4 Kc5 Kd5 Ke5\n\
1K6/8/8/4P3/1p6/5k2/8/8 w - - 0 1\te6 Ka7 Kb7 Kc7 Ka8 Kc8\n\
1k6/8/K7/8/2p5/8/1P6/8 w - - 0 1\tb3 b4 Ka5 Kb5 Kb6\n\
8/8/3k4/1P6/8/5p2/K7/8 b - - 0 1\tf2 Kc5 Kd5 Ke5 Ke6 Kc7 Kd7 Ke7\n\
5k2/8/8/2p5/8/8/4KP2/8 w - c6 0 1\tKd1 Ke1 Kf1 Kd2 Kd3 Ke3 Kf3 f3 f4\n\
8/8/8/8/k2Pp3/8/8/4K3 b - d3 0 1\tKa3 Kb3 Kb4 Ka5 Kb5 exd3 e3\n\
8/8/8/8/k2P3p/8/8/4K3 b - d3 0 1\tKa3 Kb3 Kb4 Ka5 Kb5 h3";
