//! The bytes of a file in memory, in room that was taken before.
ghost use Rattle.std.specs.Prelude.{◌≡◌, ◌⊎◌, ◌+◌, ◌-◌, ◌<◌, ◌≤◌, [], length, min, IfOk};
ghost use Rattle.crash_disk.specs.Disk.{IsFilled, overwritten};
ghost use Rattle.crash_disk.specs.Memory.{fits};

use std::alloc::{AllocError, Global};
use std::marker::Model;

/// The bytes of a file, at most 128, as contracts see them.
#[derive(Debug, Drop)]
pub struct Room {
    buffer: Vec<u8>,
    size: u32,
}

impl Model for Room {
    ghost use Rattle.std.specs.Prelude.{◌≡◌, ◌≤◌, ℕ, List, length, take};

    ghost Value = { List ℕ };

    ghost view = { λ room. take room.size room.buffer.items };

    ghost invariant = { λ room. (length room.buffer.items ≡ 128) × (room.size ≤ 128) };
}

impl Room {
    /// Room for 128 bytes, with these in it.
    pub fn new(alloc: Global, bytes: &[u8]) -> Result<Room, AllocError>
        requires { length bytes.now ≤ 128 }
        ensures { IfOk result (λ room. room ≡ bytes.now) }
    {
        let mut buffer = vec![in alloc; 0; 128]?;
        overwrite(&mut buffer, 0, bytes);
        Ok(Room {
            buffer,
            size: bytes.len() as u32,
        })
    }

    /// The bytes.
    pub fn bytes(&self) -> &[u8]
        ensures value { result.now ≡ self.now }
        ensures within { length self.now ≤ 128 }
    {
        &self.buffer[..self.size as usize]
    }

    /// No bytes are left.
    pub fn clear(&mut self)
        ensures { self.new ≡ [] }
    {
        self.size = 0;
    }

    /// These bytes and no others.
    pub fn set(&mut self, bytes: &[u8])
        requires { length bytes.now ≤ 128 }
        ensures { self.new ≡ bytes.now }
    {
        overwrite(&mut self.buffer, 0, bytes);
        self.size = bytes.len() as u32;
    }

    /// The same bytes as another.
    pub fn copy(&mut self, other: &Room)
        ensures { self.new ≡ other.now }
    {
        self.buffer.copy_from_slice(&other.buffer);
        self.size = other.size;
    }

    /// Reads bytes from `at` on into the first of `into`, as many as there are and fit.
    pub fn read(&self, at: u32, into: &mut [u8]) -> u32
        ensures bounded { result ≤ length into.old }
        ensures filled { IsFilled self.now at result into.old into.new }
        ensures taken { result ≡ min (length into.old) (length self.now - at) }
        ensures ended { result ≡ 0 → (length into.old ≡ 0) ⊎ (length self.now ≤ at) }
    {
        read_from(self.bytes(), at, into)
    }

    /// Whether bytes may be written from `at` on: there is room, and `at` is no place past the end.
    pub fn fits(&self, at: u32, size: usize) -> bool
        ensures value { result ≡ fits (length self.now) at size }
        ensures within { length self.now ≤ 128 }
    {
        at <= self.size && size <= 128 - at as usize
    }

    /// Writes bytes from `at` on.
    pub fn write(&mut self, at: u32, bytes: &[u8])
        requires place { at ≤ length self.old }
        requires room { at + length bytes.now ≤ 128 }
        ensures { self.new ≡ overwritten self.old at bytes.now }
    {
        let at = at as usize;
        overwrite(&mut self.buffer, at, bytes);
        self.size = self.size.max((at + bytes.len()) as u32);
    }
}

/// Writes bytes over those from `at` on.
pub fn overwrite(all: &mut [u8], at: usize, bytes: &[u8])
    requires { at + length bytes.now ≤ length all.old }
    ensures { all.new ≡ overwritten all.old at bytes.now }
{
    all[at..at + bytes.len()].copy_from_slice(bytes);
}

// Reads bytes of a file of at most 128 bytes.
fn read_from(file: &[u8], at: u32, into: &mut [u8]) -> u32
    requires { length file.now ≤ 128 }
    ensures bounded { result ≤ length into.old }
    ensures filled { IsFilled file.now at result into.old into.new }
    ensures taken { result ≡ min (length into.old) (length file.now - at) }
    ensures ended { result ≡ 0 → (length into.old ≡ 0) ⊎ (length file.now ≤ at) }
{
    let at = at as usize;
    if at >= file.len() {
        return 0;
    }
    let taken = into.len().min(file.len() - at);
    into[..taken].copy_from_slice(&file[at..at + taken]);
    taken as u32
}
