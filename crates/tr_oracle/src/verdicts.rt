ghost use Rattle.tr_oracle.specs.Verdicts.{Finds, record_of};

use tr_kernel::Kernel;
use tr_model::{Event, Refusal, Reply};

/// A call, and what another system answered to it.
#[derive(Clone, Copy, Debug, PartialEq, Eq)]
pub struct Told {
    /// Who called.
    pub actor: u32,
    pub event: Event,
    pub answer: Result<Reply, Refusal>,
}

/// What a comparison finds.
#[derive(Clone, Copy, Debug, PartialEq, Eq)]
pub enum Verdict {
    /// The model has a run with all the answers.
    Agrees,
    /// The place, from 0, of the first answer that no run of the model has after those before it.
    Differs(usize),
}

/// Where a comparison ends without a verdict: the model lets the answer at this place be, and its entry isn't made.
#[derive(Clone, Copy, Debug, PartialEq, Eq)]
pub struct Unheard {
    /// The place of the answer, from 0.
    pub place: usize,
    /// `JournalFull` where the journal has as many entries as the entry limit, else `NoMemory`.
    pub why: Refusal,
}

/// Compares what another system answered, call by call, with what the model lets it answer, from the kernel's table on.
///
/// Where the model leaves a choice open (the instance of a take, the report of a wait, the id of a clone), each answer
/// that it admits passes, and the run goes on with the choice that the answer tells. The kernel makes the entries of all
/// answers before the place that is found, or of all.
pub fn compare(kernel: &mut Kernel, answers: &[Told]) -> Result<Verdict, Unheard>
    ensures { Finds kernel.old (record_of answers.now) result kernel.new }
{
    for (place, told) in answers.iter().enumerate() {
        match kernel.hear(told.actor, told.event, &told.answer) {
            Ok(true) => {}
            Ok(false) => return Ok(Verdict::Differs(place)),
            Err(why) => return Err(Unheard { place, why }),
        }
    }
    Ok(Verdict::Agrees)
}
