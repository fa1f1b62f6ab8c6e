//! Verdicts as a judge reads them, in lists over the table of rook against king.
use crate::kings::built;
use std::alloc::Global;
use std::process::Abort;
use std::test::Fail;
use study_list::write_list;
use study_text::{MemoryReader, MemoryWriter};

/// Studies, each with its verdict and its worst dual. White mates in three moves from the first position, by Rc7 alone; 1. Kb6 stalemates, and after
/// 1. Rc7 Kb8 2. Rc6 the
/// mate comes too late. The last two have the colours exchanged. Two kings always draw; the last of
/// these studies begins with White's only legal move.
const VERDICTS: &str = "position k7/1R6/8/K7/8/8/8/8 w - - 0 1
stipulate white draw -> wrong: White wins,
stipulate black draw -> does not draw,
stipulate black win -> does not win,
stipulate white win -> \"correct, no solution yet\",
stipulate white mate 2 -> does not mate in 2,
stipulate white mate 4 -> wrong: White mates in 3,
stipulate white mate 3 -> \"correct, no solution yet\",
insert root Kb6 -> fails at 1. Kb6,
insert root Rc7 -> fails at 1. Kb6,
promote 1 -> sound,
insert 0 Kb8 -> sound,
insert 0.0 Rc6 -> fails at 2. Rc6: 2... Ka7,
insert 0.0 Kb6 -> fails at 2. Rc6: 2... Ka7,
promote 0.0.1 -> sound,
stipulate white draw -> wrong: White wins,
position 8/8/8/8/k7/8/1r6/K7 b - - 0 7
stipulate black draw -> wrong: Black wins,
stipulate black mate 3 -> \"correct, no solution yet\",
insert root Kb3 -> fails at 7... Kb3,
position k7/8/8/8/8/8/8/K7 w - - 0 1
stipulate white win -> does not win,
insert root Ka2 -> does not win,
stipulate white draw -> cook: 1. Kb1,1. Ka2: also Kb1 and 1 more
insert 0 Ka7 -> cook: 1. Kb1,1. Ka2: also Kb1 and 1 more
insert 0.0 Ka3 -> cook: 1. Kb1,1. Ka2: also Kb1 and 1 more
stipulate white mate 1 -> does not mate in 1,
position 8/8/8/8/8/8/2k5/K7 w - - 0 1
stipulate white draw -> \"correct, no solution yet\",
insert root Ka2 -> sound,
insert 0 Kc3 -> sound,
insert 0 Kd3 -> sound,
insert 0.1 Kb2 -> 1 dual in the last move,2. Kb2: also Ka1 and 3 more (after 1... Kd3)
insert 0.1.0 Ke3 -> 1 dual in the last move,2. Kb2: also Ka1 and 3 more (after 1... Kd3)
insert 0.1.0.0 Kb1 -> \"2 duals, 1 in a variation, 1 in a last move\",2. Kb2: also Ka1 and 3 more (after 1... Kd3)
insert 0.0 Ka3 -> \"3 duals, 1 in a variation, 2 in last moves\",2. Kb2: also Ka1 and 3 more (after 1... Kd3)
";

/// Three parts of a study with more men: in the solution, beside it and drawn, and beside it, where White wins though the move given stalemates. A refused
/// line is said of a try, too.
const TRIES: &str = "#! tail 1 of 4 of game 1, node 0, after 1. Kb1
position k7/8/8/8/8/8/8/K7 w - - 0 1
stipulate white win
pgn

#! tail 2 of 4 of game 1, node 1, after 1. Kb2, beside the solution
position k7/8/8/8/8/8/8/K7 w - - 0 1
pgn

#! tail 3 of 4 of game 1, node 2, after 1. Kb3, beside the solution, the position of tail 9
position k7/1R6/8/K7/8/8/8/8 w - - 0 1
insert root Kb6
pgn

#! tail 4 of 4 of game 1, node 3, after 1. Kb4, beside the solution
position k7/1R6/8/K7/8/8/8/8 w - - 0 1
insert root Kb8
pgn
";

/// How their records end.
const TRY_VERDICTS: &str = "does not win,
refuted,
works from here,
refused: NoSuchMove,
not read: line 17,
";

#[test]
fn a_try_is_refuted_or_works_from_there(rt: HostRuntime) -> Result<(), Fail> {
    let alloc = rt.alloc();
    let mut list = MemoryWriter::new(&alloc);
    let answer = write_list(
        &alloc,
        &mut MemoryReader::new(TRIES.as_bytes()),
        &mut list,
        built(&rt, &alloc, &["KK", "KRK"]),
    );
    assert!(rt; answer.is_ok());
    let list = std::str::from_utf8(list.taken.as_slice()).unwrap_or("no text");
    assert!(rt; list.lines().count() == 1 + 5);
    for (record, verdict) in list.lines().skip(1).zip(TRY_VERDICTS.lines()) {
        assert!(rt; record.trim_end().ends_with(verdict), "{record}");
    }
    Ok(())
}

/// Each verdict, with the worst dual behind it, is that of its line, in the list of a script that has the study after each of these lines.
fn expect_verdicts(rt: &impl Abort, alloc: &Global, rows: &str, names: &[&str]) {
    let mut script = String::new(alloc);
    for row in rows.lines() {
        let line = row.split(" -> ").next().unwrap_or(row);
        script.push_str(line).ok().expect(rt, "room");
        let end = if line == row { "\n" } else { "\npgn\n" };
        script.push_str(end).ok().expect(rt, "room");
    }
    let mut list = MemoryWriter::new(alloc);
    let answer = write_list(
        alloc,
        &mut MemoryReader::new(script.as_bytes()),
        &mut list,
        built(rt, alloc, names),
    );
    assert!(rt; answer.is_ok());
    let list = std::str::from_utf8(list.taken.as_slice()).unwrap_or("no text");
    let wanted = rows.matches(" -> ").count();
    assert!(rt; list.lines().count() == wanted.saturating_add(1));
    let verdicts = rows.lines().filter_map(|row| row.split(" -> ").nth(1));
    for (record, verdict) in list.lines().skip(1).zip(verdicts) {
        assert!(rt; record.trim_end().ends_with(verdict), "{record}");
    }
}

#[test]
fn each_study_has_its_verdict(rt: HostRuntime) {
    let alloc = rt.alloc();
    expect_verdicts(&rt, &alloc, VERDICTS, &["KK", "KRK"]);
}

/// After 1... Kf5 White wins by Kd4, too; 2. Kd3 only comes back to the start, by 2... Ke5 3. Ke3. In the second study Kf5 lasts longer than the move
/// given, and has one answer, 2. Kf3: that is said beside a dual in the last move. In the third Black keeps the opposition, after 1. Kf3 by Kf5 alone.
const PAWN_VERDICTS: &str = "position 8/8/8/4k3/8/4K3/4P3/8 b - - 0 1
stipulate white win
insert root Kf5
insert 0 Kf3
insert 0.0 Ke5
insert 0.0.0 Ke3 -> cook: 2. Kd4,2. Kf3: also Kd4 and 1 more
position 8/8/8/6k1/8/8/1P5K/8 w - - 0 1
stipulate white win
insert root Kg3
insert 0 Kh5
insert 0.0 Kf4 -> 1 dual in the last move; main defence 1... Kf5 not given,2. Kf4: also b4 and 3 more
position 8/8/8/4k3/8/4K3/4P3/8 w - - 0 1
stipulate black draw
insert root Kd3
insert 0 Kd5 -> sound; main defence 1. Kf3 not given,
insert root Kf3
insert 1 Kf5 -> sound,
";

#[test]
fn a_cook_and_a_defence_left_out_are_named(rt: HostRuntime) {
    let alloc = rt.alloc();
    let names = ["KK", "KQK", "KRK", "KBK", "KNK", "KPK"];
    expect_verdicts(&rt, &alloc, PAWN_VERDICTS, &names);
}
