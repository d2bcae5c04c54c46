ghost use Rattle.std.specs.Prelude.{◌≡◌};
ghost use Rattle.tr_model.specs.Entries.{Fits};

use crate::choices::Choice;
use crate::events::Event;
use crate::packed::PackedEvent;
use crate::sameness::Same;
use std::marker::Model;

/// An entry of the journal, one step: who asked for it, what was asked for, and what was chosen where the model leaves it
/// free. It is 24 bytes.
#[derive(Clone, Copy, Debug)]
pub struct Entry {
    what: PackedEvent,
    actor: u32,
}

impl Model for Entry {
    ghost use Rattle.std.specs.Prelude.{◌≡◌};
    ghost use Rattle.tr_model.specs.Entries;
    ghost use Rattle.tr_model.specs.Packed.{choice_of, event_of, pack};

    ghost Value = { Entries.Entry };

    ghost view = { λ e. record {
      actor = e.actor;
      event = event_of e.what;
      choice = choice_of e.what;
    } };

    ghost invariant = { λ e. pack (event_of e.what) (choice_of e.what) ≡ e.what };

    ghost inverse = { λ e. record {
      what = pack e.event e.choice;
      actor = e.actor;
    } };
}

impl Entry {
    /// The entry of an actor's event, with a choice of what the event leaves open.
    #[tactic(auto, using(crate::proofs::Packing::event_packed, crate::proofs::Packing::choice_packed))]
    #[inline(always)]
    pub fn new(actor: u32, event: Event, choice: Choice) -> Entry
        requires { Fits event choice }
        ensures { result ≡ record { actor = actor; event = event; choice = choice } }
    {
        Entry {
            what: PackedEvent::new(event, choice),
            actor,
        }
    }

    /// Who asked for it: a tracer, a thread, the starter or any other.
    pub fn actor(&self) -> u32
        ensures { result ≡ self.now.actor }
    {
        self.actor
    }

    /// What was asked for.
    pub fn event(&self) -> Event
        ensures { result ≡ self.now.event }
    {
        self.what.event()
    }

    /// What was chosen where the model leaves it free.
    pub fn choice(&self) -> Choice
        ensures { result ≡ self.now.choice }
    {
        self.what.choice()
    }
}

impl Same for Entry {
    fn same(&self, other: &Entry) -> bool {
        self.event().same(&other.event())
            && self.choice() == other.choice()
            && self.actor == other.actor
    }
}
