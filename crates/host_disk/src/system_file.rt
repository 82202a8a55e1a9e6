//! A file of the system as a file with a place. It tells nothing.
ghost use Rattle.std.specs.Prelude.{None};
ghost use Rattle.std.specs.Io.KnownBytes.{Keeps};
ghost use Rattle.std.specs.Io.Seek.{MovesTo};

use crate::placed_file::PlacedFile;
use std::fs::OpenFile;
use std::io;
use std::io::{Read, Seek, SeekFrom, Write};

/// A file of the system that was opened.
#[derive(Drop)]
pub struct SystemFile<F> {
    opened: F,
}

impl<F> SystemFile<F> {
    /// Of a file that was opened.
    pub fn new(opened: F) -> Self {
        SystemFile { opened }
    }
}

impl<F: Read + Write + Seek + OpenFile> PlacedFile for SystemFile<F> {
    ghost told = { λ _. None };

    fn seek_to(&mut self, at: u32) -> io::Result<()> {
        go_to(&mut self.opened, at)
    }

    fn read_some(&mut self, into: &mut [u8]) -> io::Result<usize> {
        self.opened.read(into)
    }

    fn write_some(&mut self, bytes: &[u8]) -> io::Result<usize> {
        self.opened.write(bytes)
    }

    fn sync(&mut self) -> io::Result<()> {
        self.opened.sync_all()
    }
}

// Goes to a place.
fn go_to<F: Seek>(file: &mut F, at: u32) -> io::Result<()>
    ensures moves { MovesTo (F.stream_position file.old) (F.stream_position file.new) at result }
    ensures bytes { Keeps (F.stream_bytes file.old) (F.stream_bytes file.new) }
{
    file.seek(SeekFrom::Start(u64::from(at)))?;
    Ok(())
}
