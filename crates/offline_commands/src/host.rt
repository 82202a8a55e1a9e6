//! The files of the system, and writers such as the standard output. They count their faults. Files tell nothing of
//! content, and a sink over a writer tells what is known of the writer.
ghost use Rattle.std.specs.Prelude.{◌≡◌, ◌≤◌, ◌+◌, ◌-◌, ◌^◌, min, None, IfOk, OnOk, IfSome, length, option_map, vec_items};
ghost use Rattle.offline_commands.specs.Outside.{Gains, GainsFirstOf};
ghost use Rattle.offline_commands.specs.Host.{within_limit};

use crate::interfaces::{FileRead, FileWrite, Files, Sink, SinkAnswer};
use std::alloc::Global;
use std::fs::File;
use std::io::{ErrorKind, Read, Write};
use std::{fs, io, rt};
use wire_core::List;

/// The files of the system.
#[derive(Drop)]
pub struct HostFiles<'a, R> {
    rt: &'a R,
    alloc: Global,
    faults: u64,
}

impl<'a, R> HostFiles<'a, R> {
    ghost use Rattle.offline_commands.specs.Host.{file_faults};

    /// Over the system of `rt`.
    pub fn new(rt: &'a R, alloc: Global) -> Self
        ensures { file_faults result ≡ 0 }
    {
        HostFiles {
            rt,
            alloc,
            faults: 0,
        }
    }
}

impl<'a, R: rt::Files> Files for HostFiles<'a, R> {
    ghost use Rattle.offline_commands.specs.Host.{file_faults};

    ghost faults = { λ files. file_faults files };

    ghost told = { λ _. None };

    fn read(&mut self, name: &String, limit: u32) -> FileRead {
        let answer = match File::open(self.rt, name.as_str()) {
            Ok(file) => read_up_to(self.alloc, file, limit),
            Err(error) => Err(error),
        };
        match answer {
            Ok(Some(bytes)) => FileRead::Bytes(List::of(bytes)),
            Ok(None) => FileRead::TooLong,
            Err(error) if error.kind() == ErrorKind::OutOfMemory => FileRead::OutOfMemory,
            Err(_) => {
                self.faults = self.faults.saturating_add(1);
                FileRead::Failed
            }
        }
    }

    fn write(&mut self, name: &String, bytes: &Vec<u8>) -> FileWrite {
        match fs::write(self.rt, name.as_str(), bytes.as_slice()) {
            Ok(()) => FileWrite::Written,
            Err(error) if error.kind() == ErrorKind::OutOfMemory => FileWrite::OutOfMemory,
            Err(_) => {
                self.faults = self.faults.saturating_add(1);
                FileWrite::Failed
            }
        }
    }
}

// All bytes of a reader, or `None` where it has more than `limit`.
fn read_up_to<R: Read + Drop>(alloc: Global, reader: R, limit: u32) -> io::Result<Option<Vec<u8>>>
    ensures bounded { IfOk result (λ file. IfSome file (λ bytes. length bytes.items ≤ limit)) }
    ensures all { IfOk result (λ file. IfSome (R.remaining reader) (λ all.
        option_map (λ bytes. vec_items bytes) file ≡ within_limit limit all)) }
{
    let mut bytes = Vec::new(alloc);
    reader.take(u64::from(limit) + 1).read_to_end(&mut bytes)?;
    if bytes.len() > limit as usize {
        return Ok(None);
    }
    Ok(Some(bytes))
}

/// A writer as a sink.
#[derive(Drop)]
pub struct WriterSink<W> {
    writer: W,
    faults: u64,
}

impl<W> WriterSink<W> {
    ghost use Rattle.offline_commands.specs.Host.{sink_faults, sink_writer};

    /// Over a writer.
    pub fn new(writer: W) -> Self
        ensures faults { sink_faults result ≡ 0 }
        ensures writer { sink_writer result ≡ writer }
    {
        WriterSink { writer, faults: 0 }
    }
}

impl<W: Write> Sink for WriterSink<W> {
    ghost use Rattle.offline_commands.specs.Host.{sink_faults, sink_writer};

    ghost faults = { λ sink. sink_faults sink };

    ghost told = { λ sink. W.contents (sink_writer sink) };

    fn write(&mut self, piece: &Vec<u8>) -> SinkAnswer {
        match put_all(&mut self.writer, piece.as_slice()) {
            Ok(()) => SinkAnswer::Written,
            Err(error) if error.kind() == ErrorKind::OutOfMemory => SinkAnswer::OutOfMemory,
            Err(_) => {
                self.faults = self.faults.saturating_add(1);
                SinkAnswer::Failed
            }
        }
    }
}

// Writes a whole piece, or its first bytes and then fails. (`write_all` does not say the second.)
fn put_all<W: Write>(writer: &mut W, piece: &[u8]) -> io::Result<()>
    ensures whole { OnOk result (Gains (W.contents writer.old) (W.contents writer.new) piece.now) }
    ensures part { GainsFirstOf (W.contents writer.old) (W.contents writer.new) piece.now }
{
    let mut put = 0;
    for _ in 0..u64::MAX {
        if put == piece.len() {
            return Ok(());
        }
        let (_, rest) = piece.split_at(put);
        match writer.write(rest) {
            Ok(0) => return Err(io::Error::from(ErrorKind::WriteZero)),
            Ok(count) => put += count,
            Err(error) if error.kind() == ErrorKind::Interrupted => {}
            Err(error) => return Err(error),
        }
    }
    Err(io::Error::from(ErrorKind::Interrupted))
}
