//! The survey of a man of a position.
ghost use Rattle.std.specs.Prelude.{◌≤◌, true, IfSome, IfOk, IfErr};
ghost use Rattle.study_material.specs.declared.class.Class.{Class as AClass};
ghost use Rattle.study_view.specs.Survey.{IsSurvey};
ghost use Rattle.study_web.specs.Answers.{IsSurveyDenial, MayEnd, IsNoMemory};
ghost use Rattle.study_web.specs.Opened.{IsOfValues};

use crate::reply::AnswerFault;
use crate::request::SurveyRequest;
use crate::request_fault::RequestFault;
use crate::tables::open_tables;
use std::alloc::Allocator;
use study_reply::{Refusal, of_probe};
use study_script::TableStore;
use study_view::{SurveyFault, SurveyQuestion, write_survey};

/// The requested survey, over all files of a store.
#[tactic(auto, using(crate::proofs::Denials::survey_over))]
pub fn survey_of<'a, S: TableStore, A: Allocator>(
    alloc: &'a A,
    asked: &SurveyRequest,
    store: &mut S,
    pages: Option<u16>,
) -> Result<Vec<u8, &'a A>, AnswerFault>
    requires { IfSome pages (λ n. (1 ≤ n) × (n ≤ 4096)) }
    ensures text { ((c : AClass) → S.honest store.old true c)
        → IfOk result (λ text.
        IsSurvey asked.now.start.position asked.now.square asked.now.stipulation text.items) }
    ensures none { IfErr result (MayEnd (IsSurveyDenial
        (IsOfValues (S.headers store.old) (S.faults store.old) ((c : AClass)
        → S.honest store.old true c) asked.now.start.position)
        asked.now.start asked.now.square)
        IsNoMemory) }
{
    let mut tables = match open_tables(alloc, store, pages) {
        Err(denial) => return Err(AnswerFault::Denied(denial)),
        Ok(tables) => tables,
    };
    let question = SurveyQuestion {
        position: &asked.start.position,
        square: asked.square,
        stipulation: &asked.stipulation,
    };
    let mut text = Vec::new(alloc);
    let _men = asked.start.position.men();
    match write_survey(alloc, &question, &mut tables, &mut text) {
        Ok(()) => Ok(text),
        Err(SurveyFault::NoMan) => Err(AnswerFault::Denied(RequestFault::NoMan)),
        Err(SurveyFault::OutOfMemory) => Err(AnswerFault::Denied(RequestFault::Refused(
            Refusal::OutOfMemory,
        ))),
        Err(SurveyFault::Device) => Err(AnswerFault::Denied(RequestFault::Refused(
            Refusal::OutOfMemory,
        ))),
        Err(SurveyFault::Values(fault)) => Err(AnswerFault::Denied(RequestFault::Refused(of_probe(
            fault,
        )))),
    }
}
