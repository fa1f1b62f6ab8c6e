//! A law over the definitions, stated by a function that does nothing.
ghost use Rattle.study_reply.specs.Reasons.{TextsHaveReasons};

/// The text of each refusal has its reason by `reason_of`.
pub fn texts_have_reasons()
    ensures { TextsHaveReasons }
{}
