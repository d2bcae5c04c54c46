ghost use Rattle.std.specs.Prelude.{◌≡◌, ◌↔◌, Err, false, true, IfOk, IsTrue, OnErr, OnOk};
ghost use Rattle.std.specs.Result.{IsOk};
ghost use Rattle.tr_model.specs.declared.replies.Refusal.TheVariants.{NoMemory};
ghost use Rattle.tr_kernel.specs.Foreseen.{choice_ahead, foreseen};
ghost use Rattle.tr_kernel.specs.Heard.{call_of};
ghost use Rattle.tr_kernel.specs.States.{IsHistory};
ghost use Rattle.tr_oracle.specs.Expected.{Answers, HasGiven, IsAnswered, IsTried, MayAnswer};

use crate::offers::offered;
use std::alloc::{AllocError, Global};
use tr_kernel::{Kernel, Prospect};
use tr_model::{Event, Refusal, Reply};

/// What is known of an answer.
pub trait Expectation {
    ghost use Rattle.std.specs.Prelude.{◌≡◌, Bool, IfOk, Result};
    ghost use Rattle.tr_model.specs.declared.replies.Refusal.{Refusal};
    ghost use Rattle.tr_model.specs.declared.replies.Reply.{Reply};
    ghost use Rattle.tr_oracle.specs.Expected.{IsNamed};

    /// The answers that are as expected.
    ghost fits: { Self → Result Reply Refusal → Bool };

    /// Whether an answer is as expected.
    fn fits(&self, answer: &Result<Reply, Refusal>) -> Result<bool, AllocError>
        ensures { IfOk result (λ b. b ≡ fits self.now answer.now) };

    /// The one id that a clone may be given, unless every id is as expected, or none.
    fn named_id(&self) -> Option<u32>
        ensures { IsNamed (fits self.now) result };
}

/// Answers a call of an actor as expected, where the model lets it, with this product's own answer wherever that is as
/// expected, else with the first of the others that is; `None` where no answer that may be given is.
pub fn answer_as<X: Expectation>(
    alloc: Global,
    kernel: &mut Kernel,
    actor: u32,
    event: &Event,
    expected: &X,
) -> Result<Option<Result<Reply, Refusal>>, AllocError>
    ensures { Answers kernel.old kernel.new (call_of actor event.now) (X.fits expected.now) result }
{
    let own = kernel.prospect(actor, event);
    if expected.fits(&own.answer)? {
        make(kernel, actor, event, &own)?;
        return Ok(Some(own.answer));
    }
    match own.answer {
        Ok(_) => answer_otherwise(alloc, kernel, actor, event, expected),
        Err(_) => Ok(None),
    }
}

/// Answers a call of an actor with this product's own answer.
pub fn answer(
    kernel: &mut Kernel,
    actor: u32,
    event: &Event,
) -> Result<Result<Reply, Refusal>, AllocError>
    ensures ok { IfOk result
        (λ x. IsAnswered kernel.old kernel.new (call_of actor event.now) (λ _. true) x) }
    ensures err { OnErr result (kernel.new ≡ kernel.old) }
{
    let answer = kernel.step(actor, *event);
    if lacks_memory(&answer) {
        return Err(AllocError);
    }
    Ok(answer)
}

fn lacks_memory(answer: &Result<Reply, Refusal>) -> bool
    ensures { IsTrue result ↔ (answer.now ≡ Err NoMemory) }
{
    match answer {
        Ok(_) => false,
        Err(why) => *why == Refusal::NoMemory,
    }
}

/// Makes this product's own answer.
fn make(kernel: &mut Kernel, actor: u32, event: &Event, own: &Prospect) -> Result<(), AllocError>
    requires foreseen { own.now.answer ≡ foreseen kernel.old (call_of actor event.now) }
    requires choice { own.now.choice ≡ choice_ahead kernel.old (call_of actor event.now) }
    requires history { IsHistory kernel.old }
    ensures may { OnOk result (MayAnswer kernel.old (call_of actor event.now) own.now.answer) }
    ensures given { OnOk result
        (HasGiven kernel.old (call_of actor event.now) own.now.answer kernel.new) }
    ensures unchanged { OnErr result (kernel.new ≡ kernel.old) }
{
    let Some(choice) = own.choice else {
        return Ok(());
    };
    match kernel.step_as(actor, event, choice) {
        Ok(_) => Ok(()),
        Err(_) => Err(AllocError),
    }
}

/// Answers a call, where this product's own answer isn't as expected, by another choice than its own.
fn answer_otherwise<X: Expectation>(
    alloc: Global,
    kernel: &mut Kernel,
    actor: u32,
    event: &Event,
    expected: &X,
) -> Result<Option<Result<Reply, Refusal>>, AllocError>
    requires own { IsOk (foreseen kernel.old (call_of actor event.now)) }
    requires misfit { X.fits expected.now (foreseen kernel.old (call_of actor event.now)) ≡ false }
    requires history { IsHistory kernel.old }
    ensures { Answers kernel.old kernel.new (call_of actor event.now) (X.fits expected.now) result }
{
    let replies = offered(alloc, kernel.table(), actor, event)?;
    for reply in replies.as_slice() {
        let answer = Ok(*reply);
        if is_given(kernel, actor, event, expected, &answer)? {
            return Ok(Some(answer));
        }
    }
    let Some(tid) = expected.named_id() else {
        return Ok(None);
    };
    let answer = Ok(Reply::Cloned { tid });
    if is_given(kernel, actor, event, expected, &answer)? {
        Ok(Some(answer))
    } else {
        Ok(None)
    }
}

/// Gives an answer, where it is as expected and the model lets the call have it.
fn is_given<X: Expectation>(
    kernel: &mut Kernel,
    actor: u32,
    event: &Event,
    expected: &X,
    answer: &Result<Reply, Refusal>,
) -> Result<bool, AllocError>
    ensures { IsTried kernel.old kernel.new (call_of actor event.now) (X.fits expected.now)
        answer.now result }
{
    if !expected.fits(answer)? {
        return Ok(false);
    }
    match kernel.hear(actor, *event, answer) {
        Ok(heard) => Ok(heard),
        Err(_) => Err(AllocError),
    }
}
