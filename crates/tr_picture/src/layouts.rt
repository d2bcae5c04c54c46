ghost use Rattle.std.specs.Prelude.{◌≡◌, ◌≤◌, ◌<◌, ◌+◌, ◌*◌, ◌^◌, IfOk, IfSome, OnErr, OnOk, length};
ghost use Rattle.tr_model.specs.Tables.{same_target};
ghost use Rattle.tr_picture.specs.Layouts.{IsSmall, actor_place, aimed_place, has_lane, lane_place, lanes_left, lanes_right, layout_of, with_group_lane, with_thread_lane};

use std::alloc::{AllocError, Global};
use tr_model::Target;
use tr_starts::Items;

/// Who has a lane, in the order of the lanes, and how many have none.
#[derive(Drop)]
pub struct Layout {
    /// At most 8.
    pub actors: Items<u32>,
    pub lanes: Items<Target>,
    /// The lanes of threads, at most 16.
    pub threads: u64,
    /// The lanes of groups, at most 16.
    pub groups: u64,
    pub hidden_actors: u64,
    pub hidden_threads: u64,
    pub hidden_groups: u64,
}

impl Layout {
    /// Gives lanes to the first of these actors.
    pub(crate) fn new(alloc: Global, actors: &[u32]) -> Result<Layout, AllocError>
        ensures { IfOk result (λ l. l ≡ layout_of actors.now) }
    {
        let count = actors.len().min(8);
        let mut first = Vec::new(alloc);
        first.extend_from_slice(&actors[..count])?;
        Ok(Layout {
            actors: Items::from_vec(first),
            lanes: Items::new(alloc),
            threads: 0,
            groups: 0,
            hidden_actors: (actors.len() - count) as u64,
            hidden_threads: 0,
            hidden_groups: 0,
        })
    }

    /// Whether a thread or a group has a lane.
    pub(crate) fn has_lane(&self, target: Target) -> bool
        ensures { result ≡ has_lane self.now.lanes target }
    {
        self.lanes
            .as_slice()
            .iter()
            .any(|lane| same_target(target, *lane))
    }

    /// Gives where the lanes of threads and groups end.
    pub(crate) fn lanes_right(&self) -> u64
        requires { IsSmall self.now }
        ensures right { result ≡ lanes_right self.now }
        ensures small { result < 2 ^ 16 }
    {
        self.lanes_left() + 292 * self.lanes.as_slice().len() as u64
    }

    /// Adds a lane of a thread. Where memory is refused, nothing changes.
    pub(crate) fn add_thread(&mut self, id: u32) -> Result<(), AllocError>
        requires { self.old.threads < 16 }
        ensures ok { OnOk result (self.new ≡ with_thread_lane self.old id) }
        ensures err { OnErr result (self.new ≡ self.old) }
    {
        self.lanes.push(Target::Thread(id))?;
        self.threads += 1;
        Ok(())
    }

    /// Adds a lane of a group. Where memory is refused, nothing changes.
    pub(crate) fn add_group(&mut self, tgid: u32) -> Result<(), AllocError>
        requires { self.old.groups < 16 }
        ensures ok { OnOk result (self.new ≡ with_group_lane self.old tgid) }
        ensures err { OnErr result (self.new ≡ self.old) }
    {
        self.lanes.push(Target::Group(tgid))?;
        self.groups += 1;
        Ok(())
    }

    /// Gives where the lane of an actor begins, if it has one.
    pub(crate) fn actor_place(&self, actor: u32) -> Option<u64>
        requires { IsSmall self.now }
        ensures place { result ≡ actor_place 640 self.now.actors actor }
        ensures small { IfSome result (λ x. x < 2 ^ 32) }
    {
        actor_place(self.actors.as_slice(), actor)
    }

    /// Gives where the lanes of threads and groups begin.
    pub(crate) fn lanes_left(&self) -> u64
        requires { IsSmall self.now }
        ensures left { result ≡ lanes_left self.now }
        ensures small { result < 2 ^ 16 }
    {
        654 + 118 * self.actors.as_slice().len() as u64
    }

    /// Gives where the lane of a thread or a group that is aimed at begins, if there is one.
    pub(crate) fn aimed_place(&self, target: Option<Target>) -> Option<u64>
        requires { IsSmall self.now }
        ensures place { result ≡ aimed_place (lanes_left self.now) self.now.lanes target }
        ensures small { IfSome result (λ x. x < 2 ^ 32) }
    {
        match target {
            Some(target) => lane_place(self.lanes_left(), self.lanes.as_slice(), target),
            None => None,
        }
    }
}

/// Gives where the lane of an actor begins, if it has one.
fn actor_place(actors: &[u32], actor: u32) -> Option<u64>
    requires { length actors.now ≤ 8 }
    ensures place { result ≡ actor_place 640 actors.now actor }
    ensures small { IfSome result (λ x. x < 2 ^ 32) }
{
    let mut x = 640;
    for known in actors {
        if *known == actor {
            return Some(x);
        }
        x += 118;
    }
    None
}

fn same_target(one: Target, other: Target) -> bool
    ensures { result ≡ same_target one other }
{
    match (one, other) {
        (Target::Thread(a), Target::Thread(b)) => a == b,
        (Target::Group(a), Target::Group(b)) => a == b,
        _ => false,
    }
}

/// Gives where the lane of a thread or a group begins, if it has one. The first of these lanes begins at `left`.
fn lane_place(left: u64, lanes: &[Target], target: Target) -> Option<u64>
    requires left { left < 2 ^ 16 }
    requires few { length lanes.now ≤ 64 }
    ensures place { result ≡ lane_place left lanes.now target }
    ensures small { IfSome result (λ x. x < 2 ^ 32) }
{
    let mut x = left;
    for lane in lanes {
        if same_target(target, *lane) {
            return Some(x);
        }
        x += 292;
    }
    None
}
