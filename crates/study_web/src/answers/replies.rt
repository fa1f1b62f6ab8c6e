//! The replies to a script over the files of the request.
ghost use Rattle.std.specs.Prelude.{◌≤◌, ℕ, Bool, true, List, [], Option, Some, IfSome, is_some};
ghost use Rattle.study_material.specs.declared.class.Class.{Class as AClass};
ghost use Rattle.study_script.specs.Outcome.{Outcome, Shape, initial_state};
ghost use Rattle.study_script.specs.State.{StoreKnowledge};
ghost use Rattle.study_script.specs.Written.{Fits};
ghost use Rattle.study_script.specs.Stores.{AreTrusted};
ghost use Rattle.study_web.specs.Answers.{IsOwnEnd};
ghost use Rattle.study_web.specs.Store.{IsShelf, AreRightFiles};

use crate::file_spans::FileSpan;
use crate::run_output::{RunOutput, own_end};
use crate::saved::Saved;
use crate::store::SpanStore;
use std::alloc::Allocator;
use study_script::{Settings, run};

/// Answers a script over the files of the request. What it saves is put into the cells, one for each class.
///
/// Tables are read whole or by so many pages, and studies are kept apart. The replies are those of the script; the only premise is that the files
/// of the classes which it loads are right.
pub fn replies_over<'f, 'a, A: Allocator>(
    alloc: &'a A,
    script: &[u8],
    spans: &'f [FileSpan],
    bytes: &'f [u8],
    saved: &[Saved<'a, A>],
    pages: Option<u16>,
) -> RunOutput<'a, A>
    requires { IfSome pages (λ n. (1 ≤ n) × (n ≤ 4096)) }
    ensures own { IsOwnEnd result.summary }
    ensures shape { (left : Option (List ℕ)) × Shape script.now left result.summary }
    ensures fits { (left : Option (List ℕ))
        × Fits script.now left (Some []) (Some result.text.items) result.summary }
    ensures outcome { (trusted : AClass → Bool)
        → AreRightFiles trusted (is_some pages) spans.now bytes.now → AreTrusted trusted script.now
        → (shelf : StoreKnowledge) × IsShelf spans.now bytes.now shelf × (left : Option (List ℕ))
        × Outcome true (initial_state shelf (is_some pages)) script.now left (Some [])
        (Some result.text.items) result.summary }
{
    let mut store = SpanStore::new(alloc, spans, bytes, saved);
    let mut reader = script;
    let mut replies = Vec::new(alloc);
    let summary = run(
        alloc,
        &mut reader,
        &mut replies,
        &mut store,
        Settings {
            pages,
            separate: true,
        },
    );
    own_end(alloc, replies, summary)
}
