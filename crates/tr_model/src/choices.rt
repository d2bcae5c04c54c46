ghost use Rattle.std.specs.Prelude.{◌≡◌, None, Some};
ghost use Rattle.tr_model.specs.Choices.{gives_id, gives_report, packed_id, packed_number, takes_by, takes_instance};

use std::marker::Model;

/// Of which of its cases a choice is.
#[derive(Clone, Copy, Debug, PartialEq, Eq)]
enum Kind {
    Nothing,
    Instance,
    ThreadAndInstance,
    Report,
    NewId,
}

/// What an entry chose where the model leaves it free: the instance of a take, thread and instance of a take by any
/// thread, the report of a wait, the id of a clone. Contracts see four options, of which the others are None; here it is
/// 16 bytes.
#[derive(Clone, Copy, Debug, PartialEq, Eq)]
pub struct Choice {
    kind: Kind,
    id: u32,
    number: u64,
}

impl Model for Choice {
    ghost use Rattle.tr_model.specs.Choices.{IsPacked, chosen_by, packed_id, packed_kind, packed_number};

    ghost Value = { Rattle.tr_model.specs.Choices.Choice };

    ghost view = { λ c. chosen_by c.kind c.number c.id };

    ghost invariant = { λ c. IsPacked c.kind c.number c.id };

    ghost inverse = { λ c. record {
      number = packed_number c;
      id = packed_id c;
      kind = packed_kind c;
    } };
}

impl Choice {
    /// The choice of an event that leaves nothing open.
    pub const NONE: Choice = Choice {
        number: 0,
        id: 0,
        kind: Kind::Nothing,
    };

    /// The instance of a take, by its number.
    pub fn of_instance(number: u64) -> Choice
        ensures { result ≡ takes_instance number }
    {
        Choice {
            number,
            id: 0,
            kind: Kind::Instance,
        }
    }

    /// The thread that a take by any thread of a group fell to, and the number of the instance.
    pub fn of_thread(id: u32, number: u64) -> Choice
        ensures { result ≡ takes_by id number }
    {
        Choice {
            number,
            id,
            kind: Kind::ThreadAndInstance,
        }
    }

    /// The report that a wait consumes, by its number.
    pub fn of_report(number: u64) -> Choice
        ensures { result ≡ gives_report number }
    {
        Choice {
            number,
            id: 0,
            kind: Kind::Report,
        }
    }

    /// The id that a clone gives.
    pub fn of_new_id(id: u32) -> Choice
        ensures { result ≡ gives_id id }
    {
        Choice {
            number: 0,
            id,
            kind: Kind::NewId,
        }
    }

    /// The number of the instance or the report, else 0.
    pub(crate) fn number(&self) -> u64
        ensures { result ≡ packed_number self.now }
    {
        self.number
    }

    /// The thread or the new id, else 0.
    pub(crate) fn id(&self) -> u32
        ensures { result ≡ packed_id self.now }
    {
        self.id
    }

    /// The thread that a take by any thread of a group fell to.
    pub fn thread(&self) -> Option<u32>
        ensures { result ≡ self.now.thread }
    {
        match self.kind {
            Kind::ThreadAndInstance => Some(self.id),
            _ => None,
        }
    }

    /// The number of the instance that was taken.
    pub fn instance(&self) -> Option<u64>
        ensures { result ≡ self.now.instance }
    {
        match self.kind {
            Kind::Instance | Kind::ThreadAndInstance => Some(self.number),
            _ => None,
        }
    }

    /// The number of the report that a wait consumed.
    pub fn report(&self) -> Option<u64>
        ensures { result ≡ self.now.report }
    {
        match self.kind {
            Kind::Report => Some(self.number),
            _ => None,
        }
    }

    /// The id that a clone gave.
    pub fn new_id(&self) -> Option<u32>
        ensures { result ≡ self.now.new_id }
    {
        match self.kind {
            Kind::NewId => Some(self.id),
            _ => None,
        }
    }
}
