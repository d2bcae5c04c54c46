use std::io::{self, Error, ErrorKind, Read, Write};
use tr_answers::compare;
use tr_reading::ScenarioFault;
use tr_scenario::{FromReader, ToWriter};

/// Gives a text, seven bytes a read. Each second read is interrupted, and after some reads it breaks.
#[derive(Drop)]
struct Stream<'a> {
    text: &'a [u8],
    reads: usize,
}

impl Read for Stream<'_> {
    fn read(&mut self, room: &mut [u8]) -> io::Result<usize> {
        if self.reads == 0 {
            return Err(Error::from(ErrorKind::BrokenPipe));
        }
        self.reads -= 1;
        if self.reads % 2 == 1 {
            return Err(Error::from(ErrorKind::Interrupted));
        }
        let count = room.len().min(7).min(self.text.len());
        room[..count].copy_from_slice(&self.text[..count]);
        self.text = &self.text[count..];
        Ok(count)
    }
}

/// Gives one line after the other, as much as there is room for, and is interrupted before each; then it ends or breaks.
#[derive(Drop)]
pub struct Lines<'a> {
    lines: &'a [&'a str],
    /// Which line is next, and how many of its bytes were given.
    line: usize,
    place: usize,
    is_interrupted: bool,
    breaks: bool,
}

impl<'a> Lines<'a> {
    pub fn new(lines: &'a [&'a str]) -> Lines<'a> {
        Lines {
            lines,
            line: 0,
            place: 0,
            is_interrupted: false,
            breaks: false,
        }
    }

    pub fn broken(lines: &'a [&'a str]) -> Lines<'a> {
        Lines {
            lines,
            line: 0,
            place: 0,
            is_interrupted: false,
            breaks: true,
        }
    }
}

impl Read for Lines<'_> {
    fn read(&mut self, room: &mut [u8]) -> io::Result<usize> {
        self.is_interrupted = !self.is_interrupted;
        if self.is_interrupted {
            return Err(Error::from(ErrorKind::Interrupted));
        }
        let Some(line) = self.lines.get(self.line) else {
            return if self.breaks {
                Err(Error::from(ErrorKind::BrokenPipe))
            } else {
                Ok(0)
            };
        };
        let bytes = line.as_bytes();
        let from = self.place.min(bytes.len());
        let count = room.len().min(bytes.len() - from);
        room[..count].copy_from_slice(&bytes[from..from + count]);
        self.place = from + count;
        if self.place == bytes.len() {
            self.line += 1;
            self.place = 0;
        }
        Ok(count)
    }
}

/// Takes at most `most` bytes a write, and breaks after some writes.
#[derive(Drop)]
pub struct Tape {
    pub bytes: Vec<u8>,
    most: usize,
    writes: usize,
}

impl Write for Tape {
    fn write(&mut self, bytes: &[u8]) -> io::Result<usize> {
        if self.writes == 0 {
            return Err(Error::from(ErrorKind::BrokenPipe));
        }
        self.writes -= 1;
        let count = bytes.len().min(self.most);
        self.bytes.extend_from_slice(&bytes[..count])?;
        Ok(count)
    }

    fn flush(&mut self) -> io::Result<()> {
        Ok(())
    }
}

pub fn blank_tape(rt: &impl AllocGlobal, most: usize, writes: usize) -> Tape {
    Tape {
        bytes: Vec::new(rt.alloc()),
        most,
        writes,
    }
}

/// Compares a record that comes by so many reads.
pub fn compare_to(
    rt: &impl AllocGlobal,
    text: &str,
    reads: usize,
    tape: &mut Tape,
) -> Result<bool, ScenarioFault> {
    let stream = Stream {
        text: text.as_bytes(),
        reads,
    };
    compare(
        rt.alloc(),
        &mut FromReader::new(stream),
        &mut ToWriter::new(tape),
    )
}
