//! The law of remarks.
ghost use Rattle.study_remark.specs.Laws.{AreReadAgain, AreNoRemarks};

/// A remark that was written is read again as it was, and no other comment is read as one.
pub fn remarks_are_read_again()
    ensures again { AreReadAgain }
    ensures others { AreNoRemarks }
{}
