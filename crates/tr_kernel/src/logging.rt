ghost use Rattle.std.specs.Prelude.{◌≡◌, ◌≤◌, ◌<◌, ◌^◌, length, IfOk, IfErr, OnOk, OnErr, Ok, Err, Some};
ghost use Rattle.tr_model.specs.declared.checked.Checked.TheVariants.{Due};
ghost use Rattle.tr_model.specs.declared.replies.Refusal.{Refusal};
ghost use Rattle.tr_model.specs.Causes.{cause_of};
ghost use Rattle.tr_model.specs.Compare.{Permits, entry_for};
ghost use Rattle.tr_model.specs.Preferred.{check};
ghost use Rattle.tr_model.specs.Steps.{work_of};
ghost use Rattle.tr_kernel.specs.declared.answers.Answer.TheVariants.{Refused};
ghost use Rattle.tr_kernel.specs.Answers.{IfEntered, IfRead, IfRefused, IsReceipt, is_entered};
ghost use Rattle.tr_kernel.specs.Heard.{call_of};
ghost use Rattle.tr_kernel.specs.Logs.{log_of, logged, no_log};
ghost use Rattle.tr_kernel.specs.States.{AcceptsFew, IsDue, IsEntered, IsHistory, IsMade, IsQuiet, IsRefusal, IsWithheld};

use crate::answers::{Answer, Receipt};
use crate::entries::write_entry;
use crate::events::check;
use crate::kernels::Kernel;
use std::alloc::{AllocError, Global};
use std::marker::Model;
use tr_model::{Checked, Choice, Ending, Event, Raise, Refusal, Reply};
use tr_steps::Step;

/// What a step did beside its reply, each list in order.
#[derive(Drop)]
pub struct StepLog {
    ended: Vec<Ending>,
    raises: Vec<Raise>,
    renamed: Vec<u32>,
}

impl Model for StepLog {
    ghost use Rattle.tr_kernel.specs.Logs.{Log};

    ghost Value = { Log };

    ghost view = { λ l. record {
      ended = l.ended.items;
      raises = l.raises.items;
      renamed = l.renamed.items;
    } };
}

impl StepLog {
    /// Begins with nothing. It takes no memory.
    pub fn new(alloc: Global) -> StepLog
        ensures { result ≡ no_log }
    {
        StepLog {
            ended: Vec::new(alloc),
            raises: Vec::new(alloc),
            renamed: Vec::new(alloc),
        }
    }

    /// Gives the signals that the step ended, and how.
    pub fn ended(&self) -> &[Ending]
        ensures { result.now ≡ self.now.ended }
    {
        self.ended.as_slice()
    }

    /// Gives the reports that the step raised.
    pub fn raises(&self) -> &[Raise]
        ensures { result.now ≡ self.now.raises }
    {
        self.raises.as_slice()
    }

    /// Gives the ids that the step gave to another thread.
    pub fn renamed(&self) -> &[u32]
        ensures { result.now ≡ self.now.renamed }
    {
        self.renamed.as_slice()
    }

    fn clear(&mut self)
        ensures { self.new ≡ no_log }
    {
        self.ended.clear();
        self.raises.clear();
        self.renamed.clear();
    }

    /// Writes down what a step did, where nothing is written yet.
    fn copy(&mut self, step: &Step) -> Result<(), AllocError>
        requires { self.old ≡ no_log }
        ensures { OnOk result (self.new ≡ log_of step.now.work) }
    {
        self.ended.extend_from_slice(step.ended())?;
        self.raises.extend_from_slice(step.news().raises())?;
        self.renamed.extend_from_slice(step.news().renamed())
    }
}

impl Kernel {
    /// Makes one call of an actor, as `call`, and writes down in `log` what its step did; nothing where there is no entry.
    /// `AllocError` where memory for the log was refused: the call may have been made then.
    pub fn call_logged(
        &mut self,
        actor: u32,
        event: Event,
        log: &mut StepLog,
    ) -> Result<Answer, AllocError>
        ensures entered { IfOk result
            (λ x. IfEntered x (λ r. IsEntered self.old actor event r.reply self.new)) }
        ensures receipt { IfOk result
            (λ x. IfEntered x (λ r. IsReceipt r event self.old self.new)) }
        ensures room { IfOk result
            (λ x. IfEntered x (λ _. length self.old.journal < self.old.table.entries)) }
        ensures read { IfOk result
            (λ x. IfRead x (λ reply. IsQuiet self.old actor event reply self.new)) }
        ensures refused { IfOk result
            (λ x. IfRefused x (λ why. IsRefusal self.old actor event why)) }
        ensures unchanged { IfOk result (λ x. IfRefused x (λ _. self.new ≡ self.old)) }
        ensures cause { (why : Refusal)
            → cause_of self.old.table actor event ≡ Some why
            → result ≡ Ok (Refused why) }
        ensures full { IsDue self.old actor event
            → self.old.table.entries ≤ length self.old.journal
            → result ≡ Ok (Refused Refusal.JournalFull) }
        ensures logged { IfOk result
            (λ x. log.new ≡ logged (is_entered x) self.old.table (call_of actor event)) }
        ensures history { IsHistory self.new }
    {
        log.clear();
        let checked = match check(self.step.table(), actor, &event) {
            Ok(checked) => checked,
            Err(why) => return Ok(Answer::Refused(why)),
        };
        match checked {
            Checked::Quiet(reply) => Ok(Answer::Read(reply)),
            Checked::Due(choice) => match self.enter_logged(actor, &event, choice, log)? {
                Ok(receipt) => Ok(Answer::Entered(receipt)),
                Err(why) => Ok(Answer::Refused(why)),
            },
        }
    }

    /// Makes the entry of an event that is due, with this product's choice, writes down what the step did in an empty log,
    /// and gives the receipt.
    fn enter_logged(
        &mut self,
        actor: u32,
        event: &Event,
        choice: Choice,
        log: &mut StepLog,
    ) -> Result<Result<Receipt, Refusal>, AllocError>
        requires due { check self.old.table actor event.now ≡ Ok (Due choice) }
        requires admitted { Permits self.old.table actor event.now choice }
        requires empty { log.old ≡ no_log }
        ensures entered { IfOk result
            (λ x. IfOk x (λ r. IsEntered self.old actor event.now r.reply self.new)) }
        ensures receipt { IfOk result
            (λ x. IfOk x (λ r. IsReceipt r event.now self.old self.new)) }
        ensures room { IfOk result
            (λ x. OnOk x (length self.old.journal < self.old.table.entries)) }
        ensures err { IfOk result (λ x. IfErr x (λ why. IsWithheld self.old why)) }
        ensures unchanged { IfOk result (λ x. OnErr x (self.new ≡ self.old)) }
        ensures full { self.old.table.entries ≤ length self.old.journal
            → result ≡ Ok (Err Refusal.JournalFull) }
        ensures logged { IfOk result
            (λ x. OnOk x
            (log.new ≡ log_of (work_of self.old.table (entry_for (call_of actor event.now) choice)))) }
        ensures empty { IfOk result (λ x. OnErr x (log.new ≡ no_log)) }
        ensures history { IsHistory self.new }
    {
        if self.journal.is_full(self.step.table().entries()) {
            return Ok(Err(Refusal::JournalFull));
        }
        let accepted = self.step.table().accepted();
        match self.step_logged(actor, event, choice, log)? {
            Ok(reply) => Ok(Ok(Receipt {
                position: self.position(),
                event: *event,
                reply,
                accepted: self.step.table().accepted() - accepted,
            })),
            Err(why) => Ok(Err(why)),
        }
    }

    /// Makes the entry of an event that is due, and writes down what the step did in an empty log. Where memory is refused to
    /// the entry nothing has changed.
    fn step_logged(
        &mut self,
        actor: u32,
        event: &Event,
        choice: Choice,
        log: &mut StepLog,
    ) -> Result<Result<Reply, Refusal>, AllocError>
        requires few { length self.old.journal < 2 ^ 32 }
        requires due { Permits self.old.table actor event.now choice }
        requires empty { log.old ≡ no_log }
        ensures ok { IfOk result
            (λ x. IfOk x
            (λ reply. IsMade self.old
            (record { actor = actor; event = event.now; choice = choice }) reply self.new)) }
        ensures err { IfOk result (λ x. IfErr x (λ why. why ≡ Refusal.NoMemory)) }
        ensures unchanged { IfOk result (λ x. OnErr x (self.new ≡ self.old)) }
        ensures bounded { AcceptsFew self.old.table self.new.table }
        ensures logged { IfOk result
            (λ x. OnOk x
            (log.new ≡ log_of (work_of self.old.table (entry_for (call_of actor event.now) choice)))) }
        ensures empty { IfOk result (λ x. OnErr x (log.new ≡ no_log)) }
        ensures history { IsHistory self.new }
    {
        let made = write_entry(
            &mut self.step,
            &mut self.journal,
            &mut self.fates,
            &mut self.notes,
            self.alloc,
            actor,
            event,
            choice,
        );
        match made {
            Ok(reply) => {
                log.copy(&self.step)?;
                Ok(Ok(reply))
            }
            Err(AllocError) => Ok(Err(Refusal::NoMemory)),
        }
    }
}
