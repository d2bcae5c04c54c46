ghost use Rattle.tr_model.specs.Compare.{AnswersDetermine, OneTestDecides, RepliesTellTheChoice, VerdictsAreDetermined};
ghost use Rattle.tr_model.specs.Foreseen.{RepliesAreForeseen};

// The model as a judge of another system's answers.

/// A reply tells the choice of its step.
pub fn replies_tell_the_choice()
    ensures { RepliesTellTheChoice }
{}

/// Table, call and answer together determine the next table, whatever was chosen.
pub fn answers_determine()
    ensures { AnswersDetermine }
{}

/// Whether some step has a reply is decided by the one choice that the reply tells.
pub fn one_test_decides()
    ensures { OneTestDecides }
{}

/// A record of answers has one verdict.
pub fn verdicts_are_determined()
    ensures { VerdictsAreDetermined }
{}

/// The reply to an event that is due is known before its step.
pub fn replies_are_foreseen()
    ensures { RepliesAreForeseen }
{}
