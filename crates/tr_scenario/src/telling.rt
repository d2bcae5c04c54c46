ghost use Rattle.std.specs.Prelude.{◌≡◌, ◌∷◌, ◌++◌, [], IfErr, IfOk, List, OnOk, ℕ};
ghost use Rattle.tr_model.specs.Runs.{Call};
ghost use Rattle.tr_model.specs.Runs as runs;
ghost use Rattle.tr_reading.specs.declared.faults.ScenarioFault.TheVariants.{NoMemory};
ghost use Rattle.tr_scenario.specs.Kernels.{Answers, Makes, so_far};
ghost use Rattle.tr_scenario.specs.RunTexts.{call_of};

use crate::pages::Page;
use crate::runs::make_call;
use tr_kernel::{Answer, Kernel};
use tr_model::Event;
use tr_reading::ScenarioFault;

/// What a run tells of its calls.
pub trait Telling {
    /// What is told of a call at a run so far.
    ghost text: { runs.State → Call → List ℕ };

    /// Makes a call, and keeps back what is told of it. `NoMemory` also where the call is refused for want of memory.
    fn tell(
        kernel: &mut Kernel,
        actor: u32,
        event: &Event,
        page: &mut Page,
    ) -> Result<Answer, ScenarioFault>
        ensures told { OnOk result (page.new
            ≡ page.old ++ text (so_far kernel.old) (call_of actor event.now)) }
        ensures makes { OnOk result (Makes kernel.old kernel.new (call_of actor event.now ∷ [])) }
        ensures answer { IfOk result (λ x. Answers kernel.old (call_of actor event.now) x) }
        ensures err { IfErr result (λ e. e ≡ NoMemory) };
}

/// Of each call its line.
pub struct Lines;

impl Telling for Lines {
    ghost use Rattle.tr_scenario.specs.RunTexts.{call_text};

    ghost text = { call_text };

    fn tell(
        kernel: &mut Kernel,
        actor: u32,
        event: &Event,
        page: &mut Page,
    ) -> Result<Answer, ScenarioFault> {
        make_call(kernel, actor, event, page)
    }
}
