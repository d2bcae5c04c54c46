ghost use Rattle.std.specs.Prelude.{◌≡◌, ◌<◌, ◌-◌, ◌^◌, ℕ, List, [], OnOk, option_map};
ghost use Rattle.tr_scenario.specs.Printing.{Prints};
ghost use Rattle.tr_live.specs.Dialogues.{IsAnswer, IsSaid, IsSaidLast, IsSaidTo, heard, heard_byte, longer, session_after, session_of, silence};

use crate::commands::LONGEST;
use crate::replies::fill_answer;
use std::alloc::{AllocError, Global};
use std::marker::Model;
use tr_kernel::Kernel;
use tr_reading::ScenarioFault;
use tr_scenario::{Page, print_kept};
use tr_status::Sink;

/// A dialogue so far: the kernel that it is about, once a line opened one, and the bytes of a line that hasn't ended.
pub struct Dialogue {
    kernel: Option<Kernel>,
    line: Vec<u8>,
    page: Page,
    alloc: Global,
}

impl Drop for Dialogue {
    fn drop(self) {
        let Dialogue {
            kernel: _,
            line: _,
            page: _,
            alloc: _,
        } = self;
    }
}

impl Model for Dialogue {
    ghost use Rattle.std.specs.Prelude.{option_map};
    ghost use Rattle.tr_live.specs.Dialogues as dialogues;
    ghost use Rattle.tr_live.specs.Dialogues.{session_of};

    ghost Value = { dialogues.Dialogue };

    ghost view = { λ d. record {
      session = option_map session_of d.kernel;
      line = d.line.items;
    } };
}

impl Dialogue {
    /// Begins a dialogue. It takes no memory.
    pub fn new(alloc: Global) -> Dialogue
        ensures { result ≡ silence }
    {
        Dialogue {
            kernel: None,
            line: Vec::new(alloc),
            page: Page::new(alloc),
            alloc,
        }
    }

    /// Hears some bytes, and prints the answer to each line that ends in them before it hears what follows. After an `Err`
    /// the dialogue is over: `NoMemory` or `WriteFault`, and a front of the answers was printed.
    pub fn hear<W: Sink>(&mut self, bytes: &[u8], writer: &mut W) -> Result<(), ScenarioFault>
        requires { W.failures writer.old < 2 ^ 64 - 1 }
        ensures said { (said : List ℕ)
            × IsSaid self.old bytes.now said
            × Prints W.taken W.failures writer.old writer.new said result }
        ensures heard { OnOk result (self.new ≡ heard self.old bytes.now) }
    {
        for byte in bytes {
            self.hear_byte(*byte, writer)?;
        }
        Ok(())
    }

    fn hear_byte<W: Sink>(&mut self, byte: u8, writer: &mut W) -> Result<(), ScenarioFault>
        requires { W.failures writer.old < 2 ^ 64 - 1 }
        ensures said { (said : List ℕ)
            × IsSaidTo self.old byte said
            × Prints W.taken W.failures writer.old writer.new said result }
        ensures heard { OnOk result (self.new ≡ heard_byte self.old byte) }
    {
        if byte == b'\n' {
            self.answer(writer)
        } else {
            match self.keep(byte) {
                Ok(()) => Ok(()),
                Err(AllocError) => Err(ScenarioFault::NoMemory),
            }
        }
    }

    /// Keeps a byte of the line. Of a line that is too long no more are kept than show it.
    fn keep(&mut self, byte: u8) -> Result<(), AllocError>
        ensures { OnOk result (self.new
            ≡ record self.old { line = longer self.old.line byte }) }
    {
        if self.line.len() <= LONGEST {
            self.line.reserve(1)?;
            self.line.push_reserved(byte);
        }
        Ok(())
    }

    /// Prints the answer to the line, which begins anew.
    fn answer<W: Sink>(&mut self, writer: &mut W) -> Result<(), ScenarioFault>
        requires { W.failures writer.old < 2 ^ 64 - 1 }
        ensures said { (said : List ℕ)
            × IsAnswer self.old.session self.old.line said
            × Prints W.taken W.failures writer.old writer.new said result }
        ensures heard { OnOk result (self.new
            ≡ record { session = session_after self.old.session self.old.line; line = [] }) }
    {
        print_answer(
            self.alloc,
            &mut self.kernel,
            &self.line,
            &mut self.page,
            writer,
        )?;
        self.line.clear();
        Ok(())
    }

    /// Prints the answer to a line that no newline ended, where there is one.
    pub fn end<W: Sink>(mut self, writer: &mut W) -> Result<(), ScenarioFault>
        requires { W.failures writer.old < 2 ^ 64 - 1 }
        ensures { (said : List ℕ)
            × IsSaidLast self said
            × Prints W.taken W.failures writer.old writer.new said result }
    {
        if self.line.is_empty() {
            return Ok(());
        }
        self.answer(writer)
    }
}

/// Prints the answer to a line, and an empty line behind it.
fn print_answer<W: Sink>(
    alloc: Global,
    kernel: &mut Option<Kernel>,
    line: &[u8],
    page: &mut Page,
    writer: &mut W,
) -> Result<(), ScenarioFault>
    requires { W.failures writer.old < 2 ^ 64 - 1 }
    ensures said { (said : List ℕ)
        × IsAnswer (option_map session_of kernel.old) line.now said
        × Prints W.taken W.failures writer.old writer.new said result }
    ensures session { OnOk result (option_map session_of kernel.new
        ≡ session_after (option_map session_of kernel.old) line.now) }
{
    page.clear();
    fill_answer(alloc, kernel, line, page, writer)?;
    page.push(b"\n")?;
    print_kept(page, writer)
}
