//! Standard output that may be a pipe.

use crate::progress::Progress;
use std::io::{self, Eprint, ErrorKind, Write};
use std::time::Clock;

/// A writer that wipes the line of progress before it writes, and tells whether a write failed because nobody reads the
/// pipe any more.
#[derive(Drop)]
pub(crate) struct PipeWriter<'a, W: Write, R> {
    writer: W,
    progress: &'a Progress<R>,
    is_left: &'a mut bool,
}

impl<'a, W: Write, R> PipeWriter<'a, W, R> {
    // The same writer. It sets the flag where its reader has left.
    pub(crate) fn new(
        writer: W,
        progress: &'a Progress<R>,
        is_left: &'a mut bool,
    ) -> PipeWriter<'a, W, R> {
        PipeWriter {
            writer,
            progress,
            is_left,
        }
    }
}

impl<W: Write, R: Clock + Eprint> Write for PipeWriter<'_, W, R> {
    fn write(&mut self, buf: &[u8]) -> io::Result<usize> {
        self.progress.clear();
        let written = self.writer.write(buf);
        if let Err(error) = &written {
            if error.kind() == ErrorKind::BrokenPipe {
                *self.is_left = true;
            }
        }
        written
    }

    fn flush(&mut self) -> io::Result<()> {
        self.writer.flush()
    }
}
