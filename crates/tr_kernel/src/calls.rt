//! One call of an actor: checked, made if it is due, and answered.

ghost use Rattle.std.specs.Prelude.{◌≡◌, ◌≤◌, ◌<◌, ◌⊎◌, length, IfOk, IfErr, OnErr, OnOk, Ok, Err, Some};
ghost use Rattle.tr_model.specs.declared.checked.Checked.TheVariants.{Due};
ghost use Rattle.tr_model.specs.declared.replies.Refusal.{Refusal};
ghost use Rattle.tr_model.specs.Causes.{cause_of};
ghost use Rattle.tr_model.specs.Compare.{Permits};
ghost use Rattle.tr_model.specs.Preferred.{check};
ghost use Rattle.tr_kernel.specs.declared.answers.Answer.TheVariants.{Refused};
ghost use Rattle.tr_kernel.specs.Answers.{IfEntered, IfRead, IfRefused, IsCalled, IsReceipt, IsStepped};
ghost use Rattle.tr_kernel.specs.States.{AcceptsFew, IsDue, IsEntered, IsHistory, IsQuiet, IsRefusal, IsWithheld};

use crate::answers::{Answer, Receipt};
use crate::events::check;
use crate::kernels::Kernel;
use tr_model::{Checked, Choice, Event, Refusal, Reply};

impl Kernel {
    /// Makes one call of an actor, and tells what came of it: an entry with its receipt, an answer without an entry, or a
    /// refusal.
    ///
    /// A cause of the model's comes exactly where the model has it; `JournalFull` exactly where an entry is due and the
    /// journal has as many as the entry limit; `NoMemory` only where an entry is due and the journal isn't full. After a
    /// refusal nothing has changed.
    #[inline(always)]
    pub fn call(&mut self, actor: u32, event: Event) -> Answer
        ensures entered { IfEntered result (λ r. IsEntered self.old actor event r.reply self.new) }
        ensures receipt { IfEntered result (λ r. IsReceipt r event self.old self.new) }
        ensures room { IfEntered result (λ _. length self.old.journal < self.old.table.entries) }
        ensures read { IfRead result (λ reply. IsQuiet self.old actor event reply self.new) }
        ensures refused { IfRefused result (λ why. IsRefusal self.old actor event why) }
        ensures unchanged { IfRefused result (λ _. self.new ≡ self.old) }
        ensures cause { (why : Refusal)
            → cause_of self.old.table actor event ≡ Some why
            → result ≡ Refused why }
        ensures full { IsDue self.old actor event
            → self.old.table.entries ≤ length self.old.journal
            → result ≡ Refused Refusal.JournalFull }
        ensures history { IsHistory self.new }
    {
        let checked = check(self.step.table(), actor, &event);
        self.call_checked(actor, event, checked)
    }

    /// Makes one call of an actor, as `call`, of which `check` said this.
    #[inline(always)]
    fn call_checked(
        &mut self,
        actor: u32,
        event: Event,
        checked: Result<Checked, Refusal>,
    ) -> Answer
        requires checked { checked ≡ check self.old.table actor event }
        requires history { IsHistory self.old }
        ensures { IsCalled self.old actor event result self.new }
    {
        let checked = match checked {
            Ok(checked) => checked,
            Err(why) => return Answer::Refused(why),
        };
        match checked {
            Checked::Quiet(reply) => Answer::Read(reply),
            Checked::Due(choice) => match self.enter_with_receipt(actor, &event, choice) {
                Ok(receipt) => Answer::Entered(receipt),
                Err(why) => Answer::Refused(why),
            },
        }
    }

    /// Makes one call of an actor, as `call`, and gives its reply or its refusal alone.
    ///
    /// A frequent event has a whole step of its own, in which the compiler knows what is asked for: each rule on the way, from
    /// the change to what is kept of the entry, would ask for it again.
    pub fn step(&mut self, actor: u32, event: Event) -> Result<Reply, Refusal>
        ensures ok { IfOk result (λ reply. IsQuiet self.old actor event reply self.new
            ⊎ IsEntered self.old actor event reply self.new) }
        ensures err { IfErr result (λ why. IsRefusal self.old actor event why) }
        ensures unchanged { OnErr result (self.new ≡ self.old) }
        ensures cause { (why : Refusal)
            → cause_of self.old.table actor event ≡ Some why
            → result ≡ Err why }
        ensures full { IsDue self.old actor event
            → self.old.table.entries ≤ length self.old.journal
            → result ≡ Err Refusal.JournalFull }
        ensures bounded { AcceptsFew self.old.table self.new.table }
        ensures history { IsHistory self.new }
    {
        let checked = check(self.step.table(), actor, &event);
        match event {
            Event::Kill { tgid, sig } => self.step_checked(
                actor,
                Event::Kill { tgid, sig },
                checked,
            ),
            Event::Sigqueue { tgid, sig, value } => self.step_checked(
                actor,
                Event::Sigqueue { tgid, sig, value },
                checked,
            ),
            Event::Mask { tid, set } => self.step_checked(actor, Event::Mask { tid, set }, checked),
            Event::Take { tid } => self.step_checked(actor, Event::Take { tid }, checked),
            Event::TakeAny { tgid } => self.step_checked(actor, Event::TakeAny { tgid }, checked),
            Event::Halt { tid } => self.step_checked(actor, Event::Halt { tid }, checked),
            Event::Trap { tid } => self.step_checked(actor, Event::Trap { tid }, checked),
            Event::Cont { tid, sig } => self.step_checked(actor, Event::Cont { tid, sig }, checked),
            Event::Wait { which } => self.step_checked(actor, Event::Wait { which }, checked),
            _ => self.step_checked(actor, event, checked),
        }
    }

    /// Makes one call of an actor, as `step`, of which `check` said this.
    #[inline(always)]
    fn step_checked(
        &mut self,
        actor: u32,
        event: Event,
        checked: Result<Checked, Refusal>,
    ) -> Result<Reply, Refusal>
        requires checked { checked ≡ check self.old.table actor event }
        requires history { IsHistory self.old }
        ensures { IsStepped self.old actor event result self.new }
    {
        match self.call_checked(actor, event, checked) {
            Answer::Entered(receipt) => Ok(receipt.reply),
            Answer::Read(reply) => Ok(reply),
            Answer::Refused(why) => Err(why),
        }
    }

    /// Makes the entry of an event that is due, with this product's choice, and gives its receipt.
    #[inline(always)]
    fn enter_with_receipt(
        &mut self,
        actor: u32,
        event: &Event,
        choice: Choice,
    ) -> Result<Receipt, Refusal>
        requires due { check self.old.table actor event.now ≡ Ok (Due choice) }
        requires admitted { Permits self.old.table actor event.now choice }
        ensures entered { IfOk result (λ r. IsEntered self.old actor event.now r.reply self.new) }
        ensures receipt { IfOk result (λ r. IsReceipt r event.now self.old self.new) }
        ensures room { OnOk result (length self.old.journal < self.old.table.entries) }
        ensures err { IfErr result (λ why. IsWithheld self.old why) }
        ensures unchanged { OnErr result (self.new ≡ self.old) }
        ensures full { self.old.table.entries ≤ length self.old.journal
            → result ≡ Err Refusal.JournalFull }
        ensures history { IsHistory self.new }
    {
        let accepted = self.table().accepted();
        let reply = self.step_as(actor, event, choice)?;
        Ok(Receipt {
            position: self.position(),
            event: *event,
            reply,
            accepted: self.table().accepted() - accepted,
        })
    }
}
