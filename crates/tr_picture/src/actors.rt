ghost use Rattle.std.specs.Prelude.{◌≡◌, ◌++◌, ◌==◌, IfOk, OnOk, map};
ghost use Rattle.std.specs.List.{list_any};
ghost use Rattle.tr_picture.specs.Actors.{job_actors, with_actor, with_step, with_steps};

use std::alloc::{AllocError, Global};
use tr_figures::is_own;
use tr_reading::{Job, Step};
use tr_starts::Items;
use tr_workers::Script;

/// Lists the actors of a job that have lanes: of steps those that ask for something, in the order in which they come, of
/// workers all.
pub(crate) fn job_actors(alloc: Global, job: &Job) -> Result<Items<u32>, AllocError>
    ensures { IfOk result (λ actors. actors ≡ job_actors job.now) }
{
    let mut actors = Items::new(alloc);
    match job {
        Job::Steps(steps) => add_steps(&mut actors, steps.as_slice())?,
        Job::Workers(scripts) => add_scripts(&mut actors, scripts.as_slice())?,
    }
    Ok(actors)
}

fn add_scripts(actors: &mut Items<u32>, scripts: &[Script]) -> Result<(), AllocError>
    ensures { OnOk result (actors.new ≡ actors.old ++ map (λ s. s.actor) scripts.now) }
{
    for script in scripts {
        actors.push(script.actor)?;
    }
    Ok(())
}

fn add_steps(actors: &mut Items<u32>, steps: &[Step]) -> Result<(), AllocError>
    ensures { OnOk result (actors.new ≡ with_steps actors.old steps.now) }
{
    for step in steps {
        add_step(actors, step)?;
    }
    Ok(())
}

fn add_step(actors: &mut Items<u32>, step: &Step) -> Result<(), AllocError>
    ensures { OnOk result (actors.new ≡ with_step actors.old step.now) }
{
    if is_own(&step.event) {
        return Ok(());
    }
    add_actor(actors, step.actor)
}

fn is_known(actors: &[u32], actor: u32) -> bool
    ensures { result ≡ list_any (λ a. a == actor) actors.now }
{
    actors.iter().any(|known| *known == actor)
}

/// Adds an actor that isn't among them.
fn add_actor(actors: &mut Items<u32>, actor: u32) -> Result<(), AllocError>
    ensures { OnOk result (actors.new ≡ with_actor actors.old actor) }
{
    if is_known(actors.as_slice(), actor) {
        return Ok(());
    }
    actors.push(actor)?;
    Ok(())
}
