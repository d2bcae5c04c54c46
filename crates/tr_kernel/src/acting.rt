ghost use Rattle.std.specs.Prelude.{◌≡◌, IfOk, Ok, OnErr, OnOk, false, nat_le};
ghost use Rattle.tr_model.specs.declared.checked.Checked.TheVariants.{Due};
ghost use Rattle.tr_model.specs.Compare.{Permits, entry_for};
ghost use Rattle.tr_model.specs.Preferred.{check};
ghost use Rattle.tr_model.specs.Steps.{after};
ghost use Rattle.tr_table.specs.Snapshots.{IsRestorable};
ghost use Rattle.tr_kernel.specs.Acting.{acted, unless_full};
ghost use Rattle.tr_kernel.specs.Answers.{IfEntered, is_entered};
ghost use Rattle.tr_kernel.specs.Heard.{call_of};

use crate::answers::{Answer, Receipt};
use crate::events::{change, check};
use std::alloc::{AllocError, Global};
use tr_model::{Checked, Choice, Event, Refusal};
use tr_steps::Step;

/// Makes one call of an actor at the table of a step, as `Kernel::call` does where the journal has so many entries. A
/// want of memory is the error here, and no refusal: then the table is as it was. Without an entry the step is too.
pub fn act(
    step: &mut Step,
    alloc: Global,
    entries: u32,
    actor: u32,
    event: &Event,
) -> Result<Answer, AllocError>
    requires { IsRestorable step.old.work.table }
    ensures answer { IfOk result
        (λ x. x ≡ (acted step.old.work.table entries (call_of actor event.now)).answer) }
    ensures table { OnOk result (step.new.work.table
        ≡ (acted step.old.work.table entries (call_of actor event.now)).work.table) }
    ensures entered { IfOk result (λ x. IfEntered x
        (λ _. step.new.work
        ≡ (acted step.old.work.table entries (call_of actor event.now)).work)) }
    ensures unchanged { IfOk result (λ x. is_entered x ≡ false → step.new ≡ step.old) }
    ensures err { OnErr result (step.new.work.table ≡ step.old.work.table) }
{
    let checked = match check(step.table(), actor, event) {
        Ok(checked) => checked,
        Err(why) => return Ok(Answer::Refused(why)),
    };
    match checked {
        Checked::Quiet(reply) => Ok(Answer::Read(reply)),
        Checked::Due(choice) => act_with(step, alloc, entries, actor, event, choice),
    }
}

/// Makes one call of an actor that is due, with a choice that the model admits, as `act` does with this product's own.
/// `JournalFull` comes where the journal takes no more than so many entries.
pub fn act_with(
    step: &mut Step,
    alloc: Global,
    entries: u32,
    actor: u32,
    event: &Event,
    choice: Choice,
) -> Result<Answer, AllocError>
    requires due { Permits step.old.work.table actor event.now choice }
    ensures answer { IfOk result
        (λ x. x ≡ (unless_full step.old.work.table entries
        (entry_for (call_of actor event.now) choice)
        (nat_le step.old.work.table.entries entries)).answer) }
    ensures table { OnOk result (step.new.work.table
        ≡ (unless_full step.old.work.table entries
        (entry_for (call_of actor event.now) choice)
        (nat_le step.old.work.table.entries entries)).work.table) }
    ensures entered { IfOk result (λ x. IfEntered x
        (λ _. step.new.work
        ≡ (after step.old.work.table (entry_for (call_of actor event.now) choice)).work)) }
    ensures unchanged { IfOk result (λ x. is_entered x ≡ false → step.new ≡ step.old) }
    ensures err { OnErr result (step.new.work.table ≡ step.old.work.table) }
{
    if entries >= step.table().entries() {
        return Ok(Answer::Refused(Refusal::JournalFull));
    }
    let accepted = step.table().accepted();
    let reply = change(step, alloc, actor, event, choice)?;
    Ok(Answer::Entered(Receipt {
        position: u64::from(entries) + 1,
        event: *event,
        reply,
        accepted: step.table().accepted().saturating_sub(accepted),
    }))
}
