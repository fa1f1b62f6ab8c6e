//! Moves, tags and tails that a study with more than four men refuses.
use std::alloc::Global;
use std::process::Abort;
use study_board::Side;
use study_marks::{Goal, Stipulation, TagName};
use study_notation::SanFault;
use study_tails::{FollowedStudy, LeftOut, MoveFault, WideStudy};
use study_wide_text::read_wide_fen;

/// A study with this start; White is to win.
fn new_study<'a>(rt: &impl Abort, alloc: &'a Global, fen: &str) -> WideStudy<'a, Global> {
    let stipulation = Stipulation {
        hero: Side::White,
        goal: Goal::Win,
    };
    let start = read_wide_fen(fen).ok().expect(rt, "a FEN");
    WideStudy::new(alloc, start, stipulation)
}

/// The effect of a move in a word: a new first child, the first child that was there, or the fault.
fn effect(study: &mut FollowedStudy<'_, Global>, steps: &[u16], san: &str) -> &'static str {
    match study.play(steps, san) {
        Ok(step) => {
            if step.place != 0 {
                "later"
            } else if step.added.is_some() {
                "new"
            } else {
                "there"
            }
        }
        Err(MoveFault::San(SanFault::Ambiguous)) => "Ambiguous",
        Err(MoveFault::San(SanFault::NoSuchMove)) => "NoSuchMove",
        Err(MoveFault::NoSuchNode) => "NoSuchNode",
        Err(_) => "another",
    }
}

fn are_played(study: &mut FollowedStudy<'_, Global>) -> bool {
    effect(study, &[], "Qcd2") == "Ambiguous"
        && effect(study, &[], "Qb8") == "NoSuchMove"
        && effect(study, &[0], "Kh6") == "NoSuchNode"
        && study.study().size() == 1
        && effect(study, &[], "Qed2") == "new"
        && effect(study, &[], "Qe3d2") == "there"
        && study.study().size() == 2
}

fn has_no_tail(study: &WideStudy<'_, Global>, steps: &[u16]) -> bool {
    matches!(study.tail(steps), Err(LeftOut::NoTail))
}

#[test]
fn moves_are_refused_by_name(rt: HostRuntime) {
    let alloc = rt.alloc();
    let study = new_study(&rt, &alloc, "8/7k/8/8/8/2Q1Q3/8/K1Q5 w - - 0 1");
    let mut study = FollowedStudy::new(study);
    assert!(rt; are_played(&mut study));
    let study = study.study();
    assert!(rt; has_no_tail(study, &[]) && has_no_tail(study, &[7]));
}

fn has_tags(study: &mut WideStudy<'_, Global>) -> bool {
    study.tag(TagName::White).is_none()
        && study.set_tag(TagName::White, "").is_err()
        && study.set_tag(TagName::White, "Liburkin, M.").is_ok()
        && study.tag(TagName::White).unwrap_or("") == "Liburkin, M."
        && study.stipulation().hero == Side::White
}

#[test]
fn tags_are_texts(rt: HostRuntime) {
    let alloc = rt.alloc();
    let mut study = new_study(&rt, &alloc, "k7/8/1K6/8/8/8/1p6/1RR5 w - - 0 1");
    assert!(rt; has_tags(&mut study));
}
