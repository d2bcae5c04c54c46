ghost use Rattle.std.specs.Prelude.{◌≡◌, option_and_then};
ghost use Rattle.tr_model.specs.Tables.{thread_of};
ghost use Rattle.tr_workers.specs.Follows.{heard};
ghost use Rattle.tr_scenario.specs.RunTexts.{call_of};
ghost use Rattle.tr_reasons.specs.Explained.{before, leader_of, stopper, subject, why};
ghost use Rattle.tr_reasons.specs.Sentences.{lines_of, thread_line};

use crate::finding::reason_of;
use crate::reasons::Reason;
use crate::refusals::reason_sentence;
use crate::sentences::{Sentence, full_sentence, push_lines, quiet_sentence};
use crate::stops::thread_sentence;
use tr_kernel::{Answer, Kernel};
use tr_model::{Event, Reply};
use tr_reading::ScenarioFault;
use tr_scenario::{Page, Telling, make_call};
use tr_table::Table;

/// What is known of a call before it is made.
#[derive(Clone, Copy, Debug)]
pub struct Before {
    /// Why it is refused, if it is.
    pub reason: Option<Reason>,
    /// The thread that it may put into a stop.
    pub subject: Option<u32>,
    /// The entry limit.
    pub entries: u32,
}

/// Of each call its line, and why it is answered so.
pub struct Explained;

fn leader_of(table: &Table, tid: u32) -> Option<u32>
    ensures { result ≡ leader_of (thread_of table.now.table tid) }
{
    match table.find(tid) {
        Some(thread) => Some(thread.group),
        None => None,
    }
}

/// Gives the thread that an event may put into a stop, by the id that it has then.
fn subject(table: &Table, event: &Event) -> Option<u32>
    ensures { result ≡ subject table.now.table event.now }
{
    match event {
        Event::Halt { tid } => Some(*tid),
        Event::Trap { tid } => Some(*tid),
        Event::Die { tid } => Some(*tid),
        Event::CloneThread { tid } => Some(*tid),
        Event::Exec { tid } => Some(*tid),
        Event::Finish { tid } => leader_of(table, *tid),
        Event::Exit { tid, .. } => Some(*tid),
        Event::Attach { tid } => Some(*tid),
        Event::Seize { tid, .. } => Some(*tid),
        Event::Detach { tid, .. } => Some(*tid),
        _ => None,
    }
}

/// Looks at a table before a call.
fn seen_before(table: &Table, actor: u32, event: &Event) -> Before
    ensures { result ≡ before table.now.table (call_of actor event.now) }
{
    Before {
        reason: reason_of(table, actor, event),
        subject: subject(table, event),
        entries: table.entries(),
    }
}

fn stopper(subject: Option<u32>, reply: &Reply) -> Option<u32>
    ensures { result ≡ stopper subject reply.now }
{
    match reply {
        Reply::Took { tid, .. } => Some(*tid),
        _ => subject,
    }
}

/// Tells of the stop that an entry leads to, if it does.
fn entry_sentence(before: &Before, table: &Table, reply: &Reply) -> Option<Sentence>
    ensures { lines_of result
        ≡ thread_line (option_and_then (thread_of table.now.table)
        (stopper before.now.subject reply.now)) }
{
    match stopper(before.subject, reply) {
        Some(tid) => thread_sentence(table.find(tid)),
        None => None,
    }
}

/// Tells why a call that led to this table was answered so, if there is something to tell.
fn why(
    before: &Before,
    table: &Table,
    actor: u32,
    event: &Event,
    answer: &Answer,
) -> Option<Sentence>
    ensures { lines_of result
        ≡ why before.now table.now.table (call_of actor event.now) (heard answer.now) }
{
    match answer {
        Answer::Entered(receipt) => entry_sentence(before, table, &receipt.reply),
        Answer::Read(_) => quiet_sentence(actor, event),
        Answer::Refused(_) => match before.reason {
            Some(reason) => Some(reason_sentence(event, reason)),
            None => Some(full_sentence(before.entries)),
        },
    }
}

impl Telling for Explained {
    ghost use Rattle.tr_reasons.specs.Explained.{explained};

    ghost text = { explained };

    fn tell(
        kernel: &mut Kernel,
        actor: u32,
        event: &Event,
        page: &mut Page,
    ) -> Result<Answer, ScenarioFault> {
        let before = seen_before(kernel.table(), actor, event);
        let answer = make_call(kernel, actor, event, page)?;
        let sentence = why(&before, kernel.table(), actor, event, &answer);
        push_lines(page, &sentence)?;
        Ok(answer)
    }
}
