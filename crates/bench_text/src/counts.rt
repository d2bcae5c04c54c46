use std::io::{Result, Write};

/// Counts the bytes that are written to it, and keeps none.
#[derive(Drop)]
pub struct Count {
    pub bytes: usize,
}

impl Write for Count {
    fn write(&mut self, bytes: &[u8]) -> Result<usize> {
        self.bytes = self.bytes.wrapping_add(bytes.len());
        Ok(bytes.len())
    }

    fn flush(&mut self) -> Result<()> {
        Ok(())
    }
}
