ghost use Rattle.tr_model.specs.Laws.{CausesAreCauses, NothingIsExact, PreferredIsAdmitted, StepsAreDetermined};

/// Table and entry together determine reply and table.
pub fn steps_are_determined()
    ensures { StepsAreDetermined }
{}

/// A step is never refused for want of memory, for a full journal, or as an exec in a group of several threads.
pub fn causes_are_causes()
    ensures { CausesAreCauses }
{}

/// Where the answer is Nothing, the model admits no choice: nobody can take, and nothing is ready. The end of a tracer
/// without tracees, which has no choice to make, is left out.
pub fn nothing_is_exact()
    ensures { NothingIsExact }
{}

/// This product's choice is one that the model admits, in a table as journals lead to: with a free id, distinct ids
/// and what waits in order of acceptance.
pub fn preferred_is_admitted()
    ensures { PreferredIsAdmitted }
{}
