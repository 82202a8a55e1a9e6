//! Frames: a length of four bytes, big endian, and as many bytes.
ghost use Rattle.std.specs.Prelude.{◌≡◌, ◌≤◌, ◌+◌, ◌++◌, IfOk, OnOk, length, take, vec_len};
ghost use Rattle.std.specs.Int.{to_be_bytes, w32};
ghost use Rattle.std.specs.Io.KnownBytes.{Appends, Consumes};
ghost use Rattle.wire_core.specs.Bytes.{prefixed};
ghost use Rattle.tcp_link.specs.Frames.{Allows, after_frame};

use crate::allowance::Allowance;
use std::alloc::{AllocError, AllocFailed, Global};
use std::io;
use std::io::{ErrorKind, Read, Write};
use std::time::{Clock, Duration, Instant};

/// The most bytes of a frame, as of a post.
pub const FRAME_LIMIT: u32 = 16_777_216;

// How many bytes are asked of a connection at a time.
const PIECE: usize = 16_384;

/// The bytes of a frame.
#[derive(Debug, Drop)]
pub struct Frame {
    pub bytes: Vec<u8>,
    pub ghost short: { vec_len bytes ≤ 16777216 },
}

// Where a post names its stage and its sender.
const STAGE_AT: usize = 45;

const SENDER_AT: usize = 46;

impl Frame {
    /// All bytes.
    pub fn into_bytes(self) -> Vec<u8>
        ensures same { result ≡ self.bytes }
        ensures short { vec_len result ≤ 16777216 }
    {
        self.bytes
    }

    /// The stage that the frame names, if it is long enough for a post. Nothing rests on it.
    pub fn stage(&self) -> Option<u8> {
        self.bytes.get(STAGE_AT).copied()
    }

    /// The sender that the frame names, likewise.
    pub fn sender(&self) -> Option<u8> {
        self.bytes.get(SENDER_AT).copied()
    }
}

/// Why no further frame comes.
#[derive(Clone, Copy, Debug, PartialEq, Eq)]
pub enum FrameEnd {
    /// The bytes ended, also within a frame, or a read failed or took too long.
    Closed,
    /// A frame was announced that is too long, or more than the connection may bring.
    TooMuch,
    OutOfMemory,
}

impl From<io::Error> for FrameEnd {
    fn from(_error: io::Error) -> FrameEnd {
        FrameEnd::Closed
    }
}

impl From<AllocError> for FrameEnd {
    fn from(_error: AllocError) -> FrameEnd {
        FrameEnd::OutOfMemory
    }
}

/// Reads one frame, and charges it. Nothing is kept for its length before its bytes come. After an error no further
/// frame can be read.
pub fn read_frame<S: Read>(
    alloc: Global,
    stream: &mut S,
    allowance: &mut Allowance,
) -> Result<Frame, FrameEnd>
    ensures taken { IfOk result (λ frame. Consumes (S.remaining stream.old) (S.remaining stream.new) (prefixed frame.bytes.items)) }
    ensures allowed { IfOk result (λ frame. Allows allowance.old.left (vec_len frame.bytes)) }
    ensures charged { IfOk result (λ frame. allowance.new.left ≡ after_frame allowance.old.left (vec_len frame.bytes)) }
{
    let size = read_size(stream)?;
    if !allowance.spend(size) {
        return Err(FrameEnd::TooMuch);
    }
    let mut piece = vec![in alloc; 0u8; PIECE]?;
    let bytes = read_bytes(alloc, stream, size, piece.as_mut_slice())?;
    Ok(Frame { bytes })
}

// Reads a length of four bytes.
fn read_size<S: Read>(stream: &mut S) -> Result<u32, FrameEnd>
    ensures { IfOk result (λ size. Consumes (S.remaining stream.old) (S.remaining stream.new) (to_be_bytes w32 size)) }
{
    let mut word = [0u8; 4];
    stream.read_exact(&mut word)?;
    Ok(number_of(word))
}

// The number that these bytes spell.
fn number_of(word: [u8; 4]) -> u32
    ensures { to_be_bytes w32 result ≡ word }
{
    u32::from_be_bytes(word)
}

// Reads so many bytes, at most PIECE at a time, by way of `piece`.
fn read_bytes<S: Read>(
    alloc: Global,
    stream: &mut S,
    size: u32,
    piece: &mut [u8],
) -> Result<Vec<u8>, FrameEnd>
    requires { 16384 ≤ length piece.old }
    ensures whole { IfOk result (λ bytes. vec_len bytes ≡ size) }
    ensures taken { IfOk result (λ bytes. Consumes (S.remaining stream.old) (S.remaining stream.new) bytes.items) }
{
    let mut bytes = Vec::new(alloc);
    let size = size as usize;
    for _ in 0..size / PIECE {
        read_front(stream, piece, PIECE, &mut bytes)?;
    }
    read_front(stream, piece, size % PIECE, &mut bytes)?;
    Ok(bytes)
}

// Reads so many bytes into the front of the piece, and puts them behind the others.
fn read_front<S: Read>(
    stream: &mut S,
    piece: &mut [u8],
    count: usize,
    bytes: &mut Vec<u8>,
) -> Result<(), FrameEnd>
    requires { count ≤ length piece.old }
    ensures room { length piece.new ≡ length piece.old }
    ensures longer { OnOk result (vec_len bytes.new ≡ vec_len bytes.old + count) }
    ensures taken { OnOk result (Consumes (S.remaining stream.old) (S.remaining stream.new) (take count piece.new)) }
    ensures kept { OnOk result (bytes.new.items ≡ bytes.old.items ++ take count piece.new) }
{
    let (front, _) = piece.split_at_mut(count);
    read_piece(stream, front, bytes)
}

// Reads as many bytes as the piece has, and puts them behind the others.
fn read_piece<S: Read>(
    stream: &mut S,
    piece: &mut [u8],
    bytes: &mut Vec<u8>,
) -> Result<(), FrameEnd>
    ensures longer { OnOk result (vec_len bytes.new ≡ vec_len bytes.old + length piece.old) }
    ensures taken { OnOk result (Consumes (S.remaining stream.old) (S.remaining stream.new) piece.new) }
    ensures kept { OnOk result (bytes.new.items ≡ bytes.old.items ++ piece.new) }
{
    stream.read_exact(piece)?;
    bytes.extend_from_slice(piece)?;
    Ok(())
}

/// Writes a frame of at most `FRAME_LIMIT` bytes. It fails where the stream takes no more or fails, and where bytes are
/// left to be written when `limit` has passed; a part may then be written.
pub fn write_frame<W: Write, C: Clock>(
    clock: &C,
    stream: &mut W,
    bytes: &[u8],
    limit: Duration,
) -> io::Result<()>
    requires { length bytes.now ≤ 16777216 }
    ensures { OnOk result (Appends (W.contents stream.old) (W.contents stream.new) (prefixed bytes.now)) }
{
    let start = Instant::now(clock)?;
    let word = (bytes.len() as u32).to_be_bytes();
    write_within(clock, stream, &word, start, limit)?;
    write_within(clock, stream, bytes, start, limit)
}

// Writes all bytes, as long as the time since `start` is within the limit.
fn write_within<W: Write, C: Clock>(
    clock: &C,
    stream: &mut W,
    bytes: &[u8],
    start: Instant,
    limit: Duration,
) -> io::Result<()>
    ensures { OnOk result (Appends (W.contents stream.old) (W.contents stream.new) bytes.now) }
{
    let mut rest = bytes;
    for _ in 0..u64::MAX {
        if rest.is_empty() {
            return Ok(());
        }
        if start.elapsed(clock)? > limit {
            return Err(io::Error::from(ErrorKind::TimedOut));
        }
        match stream.write(rest) {
            Ok(0) => return Err(io::Error::from(ErrorKind::WriteZero)),
            Ok(count) => rest = &rest[count..],
            Err(error) if error.kind() == ErrorKind::Interrupted => {}
            Err(error) => return Err(error),
        }
    }
    Err(io::Error::from(ErrorKind::Interrupted))
}
