//! The law of answers: the function is empty, and its contract is the law.
ghost use Rattle.record_check.specs.AnswerLaws.{OneAnswer};

/// Of the bytes that a source gives one thing is found: so `yes` is put exactly where they are a record that fits.
pub fn a_record_has_one_answer()
    ensures one { OneAnswer }
{}
