ghost use Rattle.std.specs.Prelude.{◌≡◌, ◌-◌, filter, is_some, length, map, slice_index_or};
ghost use Rattle.tr_group.specs.Actions.{reset};
ghost use Rattle.tr_group.specs.GroupStops.{is_stopping};
ghost use Rattle.tr_group.specs.declared.stops.Action.TheVariants.{Default};
ghost use Rattle.tr_model.specs.Tables.{actions_of, end_of, group_in, stop_of};
ghost use Rattle.tr_table.specs.Changes.{group_changed_by};

use crate::group_list::Groups;
use tr_group::{Action, GroupStop};
use tr_model::Group;
use tr_sigset::Signal;
use tr_tracee::{End, Report, Thread};
use tr_wait::Status;

/// What happens to the record of a group.
#[derive(Clone, Copy, Debug)]
pub enum GroupChange {
    /// A group-stop begins.
    Begin(Signal),
    /// The group-stop in effect ends.
    EndStop,
    /// The group-stop under way is complete.
    Complete,
    /// It begins to die, with this end unless it is dying already.
    Die(End),
    /// It has a new action of a signal.
    Act(Signal, Action),
    /// Its note for the starter goes.
    DropNote,
    /// Its caught actions become default ones, as by execve(2).
    ResetActions,
}

impl GroupChange {
    ghost use Rattle.tr_table.specs.Changes.{group_changed_by};

    /// What it makes of a group.
    pub(crate) fn make(&self, group: &mut Group)
        ensures { group.new ≡ group_changed_by self.now group.old }
    {
        match self {
            GroupChange::Begin(signal) => group.group_stop.begin(*signal),
            GroupChange::EndStop => {
                group.group_stop = GroupStop::No;
                group.note = None;
            }
            GroupChange::Complete => group.group_stop.complete(),
            GroupChange::Die(end) => die(group, end),
            GroupChange::Act(signal, action) => act(group, *signal, *action),
            GroupChange::DropNote => group.note = None,
            GroupChange::ResetActions => reset(&mut group.actions),
        }
    }
}

fn die(group: &mut Group, end: &End)
    ensures { group.new ≡ group_changed_by (GroupChange.Die end.now) group.old }
{
    if group.end.is_none() {
        group.end = Some(*end);
    }
    group.group_stop = GroupStop::No;
    group.note = None;
}

#[tactic(auto, using(crate::proofs::SetActions::set_at_place))]
fn act(group: &mut Group, signal: Signal, action: Action)
    ensures { group.new ≡ group_changed_by (GroupChange.Act signal action) group.old }
{
    group.actions[usize::from(signal.number() - 1)] = action;
}

fn reset(actions: &mut [Action; 64])
    ensures { actions.new ≡ map reset actions.old }
{
    for action in actions.iter_mut() {
        *action = action.reset();
    }
}

pub(crate) fn stop_in(groups: &Groups, tgid: u32) -> GroupStop
    ensures { result ≡ stop_of (group_in groups.now tgid) }
{
    match groups.find(tgid) {
        Some(group) => group.group_stop,
        None => GroupStop::No,
    }
}

pub(crate) fn end_in(groups: &Groups, tgid: u32) -> Option<End>
    ensures { result ≡ end_of (group_in groups.now tgid) }
{
    match groups.find(tgid) {
        Some(group) => group.end,
        None => None,
    }
}

pub(crate) fn action_in(groups: &Groups, tgid: u32, signal: Signal) -> Action
    ensures { result ≡ slice_index_or (actions_of (group_in groups.now tgid)) (signal - 1) Default }
{
    match groups.find(tgid) {
        Some(group) => group.actions[usize::from(signal.number() - 1)],
        None => Action::Default,
    }
}

/// How many group-stops are under way.
pub(crate) fn count_stopping(groups: &[Group]) -> usize
    ensures { result ≡ length (filter (λ x. is_stopping x.group_stop) groups.now) }
{
    groups.iter().filter(|g| g.group_stop.is_stopping()).count()
}

/// How many groups have a note for the starter.
pub(crate) fn count_noted(groups: &[Group]) -> usize
    ensures { result ≡ length (filter (λ x. is_some x.note) groups.now) }
{
    groups.iter().filter(|g| g.note.is_some()).count()
}
