ghost use Rattle.std.specs.Prelude.{◌≡◌, ◌++◌, IfOk, OnOk};
ghost use Rattle.serde_json.specs.View.{view};
ghost use Rattle.tr_mistakes.specs.Events.{field_mistake, is_refused, wanted_of};

use crate::lists::{push_list_mistake, refused};
use crate::parts::{push_number_at, push_wanted_at};
use serde_json::Value;
use std::alloc::{AllocError, Global};
use tr_reading::events::options;
use tr_reading::fields::{byte, flag, id, set, signed};
use tr_reading::groups::how;
use tr_scenario::Page;
use tr_sigset::Signal;
use tr_tracee::Options;

/// What is wanted at a field of an event.
#[derive(Clone, Copy, Debug, PartialEq, Eq)]
pub enum Wanted {
    /// A number of 32 bits.
    Id,
    /// A number of 8 bits.
    Byte,
    /// A number of 32 bits with a sign.
    Value,
    /// True or false.
    Flag,
    /// What is done of a signal.
    How,
    /// A list of signals.
    Signals,
    /// A list of options.
    Options,
}

impl Wanted {
    /// What is wanted at the field of this name.
    pub(crate) fn of(key: &str) -> Wanted
        ensures { result ≡ wanted_of key.now }
    {
        if key == "sig" {
            Wanted::Byte
        } else if key == "value" {
            Wanted::Value
        } else if key == "untraced" || key == "continued" {
            Wanted::Flag
        } else if key == "how" {
            Wanted::How
        } else if key == "set" {
            Wanted::Signals
        } else if key == "options" {
            Wanted::Options
        } else {
            Wanted::Id
        }
    }

    /// Whether it doesn't stand at a key.
    pub(crate) fn is_refused(
        self,
        alloc: Global,
        object: &Value,
        key: &str,
    ) -> Result<bool, AllocError>
        ensures { IfOk result (λ b. b ≡ is_refused self key.now (view object.now)) }
    {
        match self {
            Wanted::Id => refused(id(object, key)),
            Wanted::Byte => refused(byte(object, key)),
            Wanted::Value => refused(signed(object, key)),
            Wanted::Flag => refused(flag(object, key)),
            Wanted::How => refused(how(object, key)),
            Wanted::Signals => refused(set(alloc, object, key)),
            Wanted::Options => refused(options(alloc, object, key)),
        }
    }

    /// Appends what is wanted at a key.
    pub fn push_mistake(
        self,
        alloc: Global,
        page: &mut Page,
        object: &Value,
        key: &str,
    ) -> Result<(), AllocError>
        ensures { OnOk result
            (page.new ≡ page.old ++ field_mistake self key.now (view object.now)) }
    {
        match self {
            Wanted::Id => push_number_at(page, object, key, 0, u32::MAX),
            Wanted::Byte => push_number_at(page, object, key, 0, 255),
            Wanted::Value => push_wanted_at(
                page,
                object,
                key,
                b": a whole number from -2147483648 to 2147483647 is wanted",
            ),
            Wanted::Flag => push_wanted_at(page, object, key, b": true or false is wanted"),
            Wanted::How => push_wanted_at(
                page,
                object,
                key,
                b": `default`, `ignore` or `catch` is wanted",
            ),
            Wanted::Signals => push_list_mistake::<Signal>(alloc, page, object, key),
            Wanted::Options => push_list_mistake::<Options>(alloc, page, object, key),
        }
    }
}
