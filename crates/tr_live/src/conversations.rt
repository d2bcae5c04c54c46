ghost use Rattle.std.specs.Prelude.{◌<◌, ◌+◌, ◌-◌, ◌^◌};
ghost use Rattle.tr_live.specs.Conversations.{Converses};

use crate::dialogues::Dialogue;
use std::alloc::Global;
use tr_reading::ScenarioFault;
use tr_scenario::{Got, Source};
use tr_status::Sink;

/// How often the reader may be interrupted.
const INTERRUPTIONS: usize = 1048576;

/// Holds a dialogue: reads a line, answers it, and reads the next, to the end of what is read.
///
/// A line is a JSON object of at most 65,536 bytes: the first a scenario without steps, which opens a kernel, each after it a
/// step, or one with `show`, which asks for a status, the table or the totals. The calls of a step are answered as `serial`
/// prints them. A line that is refused is answered by its fault, its first mistake and where that stands, and changes nothing.
/// An empty line stands behind each answer.
/// `NoMemory`, `WriteFault`, `ReadFault`, also after 1,048,576 interruptions, and `TooLarge`, once 2^63 bytes or more came,
/// end the dialogue.
pub fn converse<R: Source, W: Sink>(
    alloc: Global,
    reader: &mut R,
    writer: &mut W,
) -> Result<(), ScenarioFault>
    requires failures { (R.shown reader.old).failures < 2 ^ 64 - 1 }
    requires interruptions { (R.shown reader.old).interruptions + 1048576 < 2 ^ 64 }
    requires room { W.failures writer.old < 2 ^ 64 - 1 }
    ensures { Converses (record {
      reader = R.shown reader.old;
      taken = W.taken writer.old;
      failures = W.failures writer.old;
    }) (record {
      reader = R.shown reader.new;
      taken = W.taken writer.new;
      failures = W.failures writer.new;
    }) result }
{
    let mut dialogue = Dialogue::new(alloc);
    let mut interruptions: usize = 0;
    let mut room = [0u8; 65536];
    for _ in 0..u64::MAX {
        match reader.get(&mut room) {
            Got::Bytes(0) => return dialogue.end(writer),
            Got::Bytes(count) => dialogue.hear(&room[..count], writer)?,
            Got::Interrupted => {
                interruptions += 1;
                if interruptions == INTERRUPTIONS {
                    return Err(ScenarioFault::ReadFault);
                }
            }
            Got::Failed => return Err(ScenarioFault::ReadFault),
        }
    }
    Err(ScenarioFault::TooLarge)
}
