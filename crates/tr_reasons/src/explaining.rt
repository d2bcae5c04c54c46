ghost use Rattle.std.specs.Prelude.{◌≡◌, ◌↔◌, ◌<◌, ◌+◌, ◌-◌, ◌^◌, IfOk, IsTrue};
ghost use Rattle.tr_reading.specs.declared.faults.ScenarioFault.TheVariants.{NoMemory};
ghost use Rattle.tr_reasons.specs.Explains.{Explains, IsFaultLine};
ghost use Rattle.tr_reasons.specs.Private.{Refuses};

use crate::telling::Explained;
use std::alloc::{AllocError, Global};
use tr_mistakes::push_told;
use tr_reading::{Scenario, ScenarioFault, read};
use tr_scenario::{Page, Source, print_kept, read_all, run};
use tr_status::Sink;

/// Reads a scenario and runs it as `tr_scenario::serial` does, and prints below the line of each call why it was refused, what
/// it found where it made no entry, or the stop that it led to. Of an input that is refused the name of
/// its first fault is printed, where it stands, and what is wanted there, on a line of its own.
///
/// The faults are those of `tr_scenario::serial`. After a `ReadFault`, or where memory is refused before the scenario is
/// read, nothing is written; `NoMemory` and `WriteFault` else leave a front of what is to be written.
pub fn explain<R: Source, W: Sink>(
    alloc: Global,
    reader: &mut R,
    writer: &mut W,
) -> Result<(), ScenarioFault>
    requires failures { (R.shown reader.old).failures < 2 ^ 64 - 1 }
    requires interruptions { (R.shown reader.old).interruptions + 1048576 < 2 ^ 64 }
    requires room { W.failures writer.old < 2 ^ 64 - 1 }
    ensures { Explains (record {
      reader = R.shown reader.old;
      taken = W.taken writer.old;
      failures = W.failures writer.old;
    }) (record {
      reader = R.shown reader.new;
      taken = W.taken writer.new;
      failures = W.failures writer.new;
    }) result }
{
    let bytes = read_all(alloc, reader)?;
    match read(alloc, bytes.as_slice()) {
        Ok(scenario) => run::<Explained, W>(alloc, scenario, writer),
        Err(fault) => refuse(alloc, bytes.as_slice(), fault, writer),
    }
}

/// Refuses an input, and tells its fault and its first mistake, unless the fault is want of memory.
fn refuse<W: Sink>(
    alloc: Global,
    bytes: &[u8],
    fault: ScenarioFault,
    writer: &mut W,
) -> Result<(), ScenarioFault>
    requires { W.failures writer.old < 2 ^ 64 - 1 }
    ensures { Refuses W.taken W.failures writer.old writer.new bytes.now fault result }
{
    if is_want_of_memory(fault) {
        return Err(fault);
    }
    let mut line = fault_line(alloc, bytes, fault)?;
    print_kept(&mut line, writer)?;
    Err(fault)
}

fn fault_line(alloc: Global, bytes: &[u8], fault: ScenarioFault) -> Result<Page, AllocError>
    ensures { IfOk result (λ line. IsFaultLine bytes.now fault line) }
{
    let mut line = Page::new(alloc);
    line.push(fault.name().as_bytes())?;
    push_told::<Scenario>(alloc, &mut line, 1048576, bytes, fault)?;
    line.push(b"\n")?;
    Ok(line)
}

fn is_want_of_memory(fault: ScenarioFault) -> bool
    ensures { IsTrue result ↔ (fault ≡ NoMemory) }
{
    matches!(fault, ScenarioFault::NoMemory)
}
