ghost use Rattle.std.specs.Prelude.{◌≡◌, ◌≤◌, ◌<◌, ◌^◌, ◌⊎◌, [], true, length, IfErr, IfOk, OnErr, OnOk};
ghost use Rattle.tr_hub.specs.Answers.{accepted_in};
ghost use Rattle.tr_kernel.specs.declared.answers.Answer.TheVariants.{Refused};
ghost use Rattle.tr_model.specs.declared.replies.Refusal.TheVariants.{NoMemory};
ghost use Rattle.tr_workers.specs.Follows.{Follows, IsCutShort};
ghost use Rattle.tr_workers.specs.Scripts.{is_machine};
ghost use Rattle.tr_workers.specs.Tallies.{accepted_of, counted, refused_of};
ghost use Rattle.tr_workers.specs.declared.working.Ended.TheVariants.{OutOfTurns};
ghost use Rattle.tr_workers.specs.Turns.{HasTurns};

use crate::calls::Calls;
use crate::ports::{Gate, Port};
use crate::scripts::Script;
use std::alloc::{AllocError, Global};
use tr_hub::Answer;
use tr_model::Refusal;

/// How a worker's calls ended.
#[derive(Clone, Copy, Debug, PartialEq, Eq)]
pub enum Ended {
    /// Its script has no call left.
    AtEnd,
    /// Its turns were used up before.
    OutOfTurns,
}

/// What a worker counts of its answers.
#[derive(Clone, Copy, Debug, PartialEq, Eq)]
pub struct Tally {
    pub entries: u64,
    /// How many signals its entries accepted.
    pub accepted: u64,
    pub refused: u64,
    pub outcome: Ended,
}

impl Tally {
    /// Begins with nothing counted, before the end of a script.
    pub fn new() -> Tally
        ensures { result ≡ record { entries = 0; accepted = 0; refused = 0; outcome = OutOfTurns } }
    {
        Tally {
            entries: 0,
            accepted: 0,
            refused: 0,
            outcome: Ended::OutOfTurns,
        }
    }

    /// Counts an answer. Want of memory is an error, and changes nothing.
    pub fn count(&mut self, answer: &Answer) -> Result<(), AllocError>
        requires small { (self.old.entries < 2 ^ 32)
            × (self.old.accepted < 2 ^ 42)
            × (self.old.refused < 2 ^ 32) }
        requires few { accepted_in answer.now ≤ 1024 }
        ensures counted { OnOk result (self.new ≡ counted self.old answer.now) }
        ensures answered { OnOk result (answer.now ≡ Refused NoMemory → ⊥) }
        ensures refused { IfErr result (λ _. answer.now ≡ Refused NoMemory) }
        ensures unchanged { OnErr result (self.new ≡ self.old) }
    {
        match answer {
            Answer::Entered(receipt) => {
                self.entries += 1;
                self.accepted += receipt.accepted;
            }
            Answer::Read(_) => {}
            Answer::Refused(Refusal::NoMemory) => return Err(AllocError),
            Answer::Refused(_) => self.refused += 1,
        }
        Ok(())
    }

    /// Gives the counts with this end.
    pub fn ended(self, outcome: Ended) -> Tally
        ensures { result
            ≡ record {
              entries = self.entries;
              accepted = self.accepted;
              refused = self.refused;
              outcome = outcome;
            } }
    {
        Tally { outcome, ..self }
    }
}

/// Makes a script's calls, each after the answers before it, one a turn, on the turns on which the gate lets the worker. On
/// a port on which no call was made yet, and with at most 4,294,967,295 turns.
///
/// It makes room for a machine's threads first: where that is refused, no call was made. A call that is refused for want
/// of memory ends the work. Each is its error, and the calls before it follow the script.
pub fn work<P: Port, G: Gate>(
    alloc: Global,
    worker: usize,
    port: &mut P,
    gate: &G,
    script: &Script,
    turns: u64,
) -> Result<Tally, AllocError>
    requires fresh { (P.calls port.old ≡ 0) × (P.receipts port.old ≡ []) × (P.told port.old ≡ []) }
    requires turns { turns < 2 ^ 32 }
    ensures follows { IfOk result
        (λ t. Follows script.now.plan (P.calls port.new) (P.receipts port.new)
        (P.told port.new) t.outcome) }
    ensures entries { IfOk result (λ t. t.entries ≡ length (P.receipts port.new)) }
    ensures accepted { IfOk result (λ t. t.accepted ≡ accepted_of (P.receipts port.new)) }
    ensures refused { IfOk result (λ t. t.refused ≡ refused_of (P.told port.new)) }
    ensures turns { IfOk result
        (λ t. HasTurns (G.may_say gate.now worker) (P.calls port.new) turns t.outcome) }
    ensures lasts { P.lasts port.old → P.lasts port.new }
    ensures err { IfErr result (λ _. ((is_machine script.now.plan ≡ true) × (port.new ≡ port.old))
        ⊎ IsCutShort script.now.plan turns (P.calls port.new) (P.receipts port.new)
        (P.told port.new)) }
{
    let mut calls = Calls::new(alloc, script)?;
    let mut tally = Tally::new();
    for turn in 1..turns + 1 {
        let Some(event) = calls.next() else {
            return Ok(tally.ended(Ended::AtEnd));
        };
        if !gate.may(worker, turn) {
            continue;
        }
        let answer = port.call(event);
        gate.done(worker, turn);
        tally.count(&answer)?;
        calls.tell(&answer);
    }
    match calls.next() {
        None => Ok(tally.ended(Ended::AtEnd)),
        Some(_) => Ok(tally.ended(Ended::OutOfTurns)),
    }
}
