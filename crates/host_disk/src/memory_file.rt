//! A file in memory, of which calls are interrupted by a plan. It tells what it holds.
ghost use Rattle.std.specs.Prelude.{◌≡◌, ◌⊎◌, ◌+◌, ◌-◌, ◌++◌, ◌≤◌, ◌<◌, ◌↔◌, Some, IsTrue, IsErr, IsErrAnd, IfOk, IfErr, OnOk, OnErr, length, option_map, replicate};
ghost use Rattle.std.specs.IoError.{error_kind};
ghost use Rattle.crash_disk.specs.Disk.{IsFilled};
ghost use Rattle.outside.specs.Plans.{after_call, fails_next, plan_of};
ghost use Rattle.host_disk.specs.Placed.{moved_to, ReadsSome, synced, WritesSome, written_over};
ghost use Rattle.host_disk.specs.Room.{IsWantOfRoom};

use crate::placed_file::PlacedFile;
use crash_disk::overwrite;
use outside::FaultPlan;
use std::alloc::AllocError;
use std::io;
use std::io::ErrorKind;

/// A file in memory. A call that its plan names is interrupted, and no other fails but for want of memory.
#[derive(Debug, Drop)]
pub struct MemoryFile {
    bytes: Vec<u8>,
    place: usize,
    syncs: u64,
    // The most bytes that one call reads or writes.
    most: usize,
    plan: FaultPlan,
    ghost takes_some: { 0 < most },
}

impl MemoryFile {
    ghost use Rattle.host_disk.specs.Memory.{plan_in, state_of};

    /// A file of these bytes at its first place, that was never synced. The calls with the numbers `interrupted`, from 1,
    /// are interrupted. One call reads or writes `most` bytes at most.
    pub fn new(bytes: Vec<u8>, most: usize, interrupted: Vec<u64>) -> Self
        requires { 0 < most }
        ensures state { state_of result ≡ record { bytes = bytes.items; place = 0; syncs = 0 } }
        ensures planned { plan_in result ≡ plan_of interrupted.items }
    {
        MemoryFile {
            bytes,
            place: 0,
            syncs: 0,
            most,
            plan: FaultPlan::new(interrupted),
        }
    }

    /// All bytes.
    pub fn bytes(&self) -> &[u8]
        ensures { result.now ≡ (state_of self.now).bytes }
    {
        &self.bytes
    }

    /// How often it was synced.
    pub fn syncs(&self) -> u64
        ensures { result ≡ (state_of self.now).syncs }
    {
        self.syncs
    }
}

impl PlacedFile for MemoryFile {
    ghost use Rattle.host_disk.specs.Memory.{plan_in, state_of};

    ghost told = { λ file. Some (state_of file) };

    fn seek_to(&mut self, at: u32) -> io::Result<()>
        ensures moved { OnOk result (Some (state_of self.new) ≡ option_map (moved_to at) (Some (state_of self.old))) }
        ensures kept { OnErr result (Some (state_of self.new) ≡ Some (state_of self.old)) }

        ensures planned { IsErr result ↔ IsTrue (fails_next (plan_in self.old)) }
        ensures interrupted { IfErr result (λ error. error_kind error ≡ ErrorKind.Interrupted) }
        ensures counted { plan_in self.new ≡ after_call (plan_in self.old) }
    {
        next_call(&mut self.plan)?;
        self.place = at as usize;
        Ok(())
    }

    fn read_some(&mut self, into: &mut [u8]) -> io::Result<usize>
        ensures bounded { IfOk result (λ taken. taken ≤ length into.old) }
        ensures read { ReadsSome (Some (state_of self.old)) (Some (state_of self.new)) into.old into.new result }

        ensures planned { IsErr result ↔ IsTrue (fails_next (plan_in self.old)) }
        ensures interrupted { IfErr result (λ error. error_kind error ≡ ErrorKind.Interrupted) }
        ensures counted { plan_in self.new ≡ after_call (plan_in self.old) }
    {
        next_call(&mut self.plan)?;
        let taken = read_at(&self.bytes, self.place, self.most, into);
        self.place += taken;
        Ok(taken)
    }

    fn write_some(&mut self, bytes: &[u8]) -> io::Result<usize>
        ensures bounded { IfOk result (λ count. count ≤ length bytes.now) }
        ensures written { WritesSome (Some (state_of self.old)) (Some (state_of self.new)) bytes.now result }

        ensures planned { IsTrue (fails_next (plan_in self.old))
            → IsErrAnd result (λ error. error_kind error ≡ ErrorKind.Interrupted) }
        ensures some { IfOk result (λ count. count ≡ 0 → length bytes.now ≡ 0) }
        ensures unplanned { IfErr result (λ error. IsTrue (fails_next (plan_in self.old)) ⊎ IsWantOfRoom (error_kind error)) }
        ensures counted { plan_in self.new ≡ after_call (plan_in self.old) }
    {
        next_call(&mut self.plan)?;
        let count = bytes.len().min(self.most);
        self.place = write_at(&mut self.bytes, self.place, &bytes[..count])?;
        Ok(count)
    }

    fn sync(&mut self) -> io::Result<()>
        ensures synced { OnOk result (Some (state_of self.new) ≡ option_map synced (Some (state_of self.old))) }
        ensures kept { OnErr result (Some (state_of self.new) ≡ Some (state_of self.old)) }

        ensures planned { IsErr result ↔ IsTrue (fails_next (plan_in self.old)) }
        ensures interrupted { IfErr result (λ error. error_kind error ≡ ErrorKind.Interrupted) }
        ensures counted { plan_in self.new ≡ after_call (plan_in self.old) }
    {
        next_call(&mut self.plan)?;
        self.syncs = self.syncs.saturating_add(1);
        Ok(())
    }
}

// Counts a call, and interrupts it where the plan says so.
fn next_call(plan: &mut FaultPlan) -> io::Result<()>
    ensures planned { IsErr result ↔ IsTrue (fails_next plan.old) }
    ensures interrupted { IfErr result (λ error. error_kind error ≡ ErrorKind.Interrupted) }
    ensures counted { plan.new ≡ after_call plan.old }
{
    if plan.fails() {
        return Err(io::Error::from(ErrorKind::Interrupted));
    }
    Ok(())
}

// Reads at most `most` bytes from a place on.
fn read_at(file: &[u8], at: usize, most: usize, into: &mut [u8]) -> usize
    requires { 0 < most }
    ensures bounded { result ≤ length into.old }
    ensures filled { IsFilled file.now at result into.old into.new }
    ensures ended { result ≡ 0 → (length into.old ≡ 0) ⊎ (length file.now ≤ at) }
    ensures within { (result ≡ 0) ⊎ (at + result ≤ length file.now) }
{
    if at >= file.len() {
        return 0;
    }
    let taken = into.len().min(most).min(file.len() - at);
    into[..taken].copy_from_slice(&file[at..at + taken]);
    taken
}

// Writes bytes from a place on, and gives the place behind them.
fn write_at(file: &mut Vec<u8>, at: usize, bytes: &[u8]) -> io::Result<usize>
    ensures written { OnOk result (file.new.items ≡ written_over file.old.items at bytes.now) }
    ensures place { IfOk result (λ place. place ≡ at + length bytes.now) }
    ensures kept { OnErr result (file.new.items ≡ file.old.items) }
    ensures room { IfErr result (λ error. IsWantOfRoom (error_kind error)) }
{
    if bytes.is_empty() {
        return Ok(at);
    }
    let Some(end) = at.checked_add(bytes.len()) else {
        return Err(io::Error::from(ErrorKind::FileTooLarge));
    };
    fill_to(file, end)?;
    overwrite(file, at, bytes);
    Ok(end)
}

// Puts zeros behind bytes of which there are fewer than `size`.
fn fill_to(bytes: &mut Vec<u8>, size: usize) -> Result<(), AllocError>
    ensures filled { OnOk result (bytes.new.items ≡ bytes.old.items ++ replicate (size - length bytes.old.items) 0) }
    ensures kept { OnErr result (bytes.new.items ≡ bytes.old.items) }
{
    if bytes.len() < size {
        bytes.resize(size, 0)?;
    }
    Ok(())
}
