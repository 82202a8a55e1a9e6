//! A disk in memory, with one file of at most 128 bytes, of which calls fail by a plan, and which may crash.
ghost use Rattle.std.specs.Prelude.{◌≡◌, ◌⊎◌, ◌-◌, ◌≤◌, ◌↔◌, ℕ, List, [], length, min, Some, None, option_map, IfOk, IsSome, IsTrue, if◌then◌else◌, string_bytes, true};
ghost use Rattle.outside.specs.Plans.{plan_of};
ghost use Rattle.crash_disk.specs.Naming.{chosen_as, no_file};
ghost use Rattle.crash_disk.specs.Memory.{after_call, after_change, after_choice, after_fault, after_look, answer_of, fails_change, fails_choice, fails_look, fails_read, fails_step, fails_sync, fails_write, file_of, image_of, looks, MayLeave, new_disk, StepFits, unchosen, write_step};

use crate::disk::{Disk, DiskAnswer, DiskRead};
use crate::images::Images;
use crate::naming::Naming;
use crate::room::{Room, overwrite};
use crate::steps_taken::{Pick, Step};
use outside::FaultPlan;
use std::alloc::{AllocError, Global};
use std::marker::Model;

/// A disk in memory, with room for one file under a name of at most 128 bytes. A call that fails changes nothing, but that
/// no file is chosen where a choice fails: one that the plan names, one after those that pass where the disk stops, one
/// where no file is chosen, a write that begins past the end or has no room in 128 bytes, the choice of a fresh file where
/// one stands and of another where none stands under the name, and a write, a sync or the choice of a fresh file where
/// the room for these is used up. All others are Done.
#[derive(Debug, Drop)]
pub struct MemoryDisk {
    first: Room,
    images: Images,
    steps: Vec<Step>,
    room: usize,
    plan: FaultPlan,
    passing: Option<u32>,
    naming: Naming,
}

impl Model for MemoryDisk {
    ghost use Rattle.std.specs.Prelude.{◌≡◌, ◌≤◌, vec_capacity};
    ghost use Rattle.crash_disk.specs.Memory.{after_steps, DiskState, synced};
    ghost use Rattle.crash_disk.specs.Picks.{AreImagesOf};

    ghost Value = { DiskState };

    ghost view = { λ disk. record {
      first = disk.first;
      steps = disk.steps.items;
      room = disk.room;
      plan = disk.plan;
      passing = disk.passing;
      naming = disk.naming;
    } };

    ghost invariant = { λ disk. record {
      images : AreImagesOf (after_steps (synced disk.first) disk.steps.items) disk.images;
      room : disk.room ≤ vec_capacity disk.steps;
    } };
}

impl MemoryDisk {
    /// With no file yet, and room for this number of writes, syncs and choices of a fresh file; the calls with these
    /// numbers, from 1, fail.
    pub fn new(alloc: Global, room: usize, failing: Vec<u64>) -> Result<MemoryDisk, AllocError>
        ensures { IfOk result (λ disk. disk ≡ new_disk [] no_file room (plan_of failing.items)) }
    {
        MemoryDisk::with(alloc, &[], Naming::none(alloc)?, room, failing)
    }

    /// With a file of these bytes under a name, which is chosen.
    pub fn holding(
        alloc: Global,
        name: &[u8],
        bytes: &[u8],
        room: usize,
        failing: Vec<u64>,
    ) -> Result<MemoryDisk, AllocError>
        requires name { length name.now ≤ 128 }
        requires bytes { length bytes.now ≤ 128 }
        ensures { IfOk result (λ disk. disk ≡ new_disk bytes.now (chosen_as name.now) room (plan_of failing.items)) }
    {
        MemoryDisk::with(alloc, bytes, Naming::of(alloc, name)?, room, failing)
    }

    // With a file of these bytes, and a name.
    fn with(
        alloc: Global,
        bytes: &[u8],
        naming: Naming,
        room: usize,
        failing: Vec<u64>,
    ) -> Result<MemoryDisk, AllocError>
        requires { length bytes.now ≤ 128 }
        ensures { IfOk result (λ disk. disk ≡ new_disk bytes.now naming room (plan_of failing.items)) }
    {
        Ok(MemoryDisk {
            first: Room::new(alloc, bytes)?,
            images: Images::new(alloc, bytes)?,
            steps: Vec::with_capacity(alloc, room)?,
            room,
            plan: FaultPlan::new(failing),
            passing: None,
            naming,
        })
    }

    /// The bytes of the file, as a read gives them.
    #[tactic(auto, unfolding(crate::specs::Memory::file_of))]
    pub fn file(&self) -> &[u8]
        ensures { result.now ≡ file_of self.now }
    {
        self.images.picked(Pick::New)
    }

    /// The number of calls so far, those that failed among them.
    pub fn calls(&self) -> u64
        ensures { result ≡ self.now.plan.calls }
    {
        self.plan.calls()
    }

    /// After this number of further calls, whatever they are and whether they fail, each call fails.
    pub fn stop_after(&mut self, calls: u32)
        ensures { self.new ≡ record self.old { passing = Some calls } }
    {
        self.passing = Some(calls);
    }

    /// The disk as a crash leaves it, where it leaves the picked image: with this file, the same name and room, and no
    /// failing calls.
    pub fn crash(&self, alloc: Global, pick: Pick) -> Result<MemoryDisk, AllocError>
        ensures left { IfOk result (λ disk. disk ≡ new_disk (image_of self.now pick) self.now.naming self.now.room (plan_of [])) }
        ensures image { MayLeave self.now (image_of self.now pick) }
    {
        MemoryDisk::with(
            alloc,
            self.images.picked(pick),
            self.naming.copy(alloc)?,
            self.room,
            Vec::new(alloc),
        )
    }

    // Counts a call, and says whether it fails.
    fn counts(&mut self) -> bool
        ensures answer { result ≡ fails_look self.old true }
        ensures counted { self.new ≡ after_look self.old }
        ensures no_fall { self.old.plan.faults ≤ self.new.plan.faults }
    {
        let planned = self.plan.call();
        match self.passing {
            None => planned,
            Some(calls) => {
                self.passing = Some(calls.saturating_sub(1));
                planned || calls == 0
            }
        }
    }

    // A call that does nothing to the file. It fails where it may not be made.
    fn look(&mut self, ready: bool) -> DiskAnswer
        ensures answer { result ≡ answer_of (fails_look self.old ready) }
        ensures after { self.new ≡ looks (fails_look self.old ready) self.old }
        ensures no_fall { self.old.plan.faults ≤ self.new.plan.faults }
    {
        if self.counts() || !ready {
            self.plan.fault();
            return DiskAnswer::Failed;
        }
        DiskAnswer::Done
    }

    // Counts a call that fails.
    fn fails(&mut self)
        ensures after { self.new ≡ after_fault self.old }
        ensures no_fall { self.old.plan.faults ≤ self.new.plan.faults }
    {
        self.counts();
        self.plan.fault();
    }

    // Counts a call, and does its step to the file where it does not fail. It fails where it may not be made.
    #[tactic(auto, unfolding(crate::specs::Memory::file_of))]
    fn step(&mut self, ready: bool, step: Step) -> DiskAnswer
        requires { StepFits (file_of self.old) step }
        ensures answer { result ≡ answer_of (fails_step self.old ready) }
        ensures after { self.new ≡ after_call (fails_step self.old ready) self.old step }
        ensures no_fall { self.old.plan.faults ≤ self.new.plan.faults }
    {
        let full = self.steps.len() >= self.room;
        if self.counts() || !ready || full {
            self.plan.fault();
            return DiskAnswer::Failed;
        }
        self.images.step(&step);
        match self.steps.push(step) {
            Ok(()) => DiskAnswer::Done,
            Err(_) => unreachable!(),
        }
    }

    // Chooses a file, as the plan has it.
    fn choose_file(&mut self, name: &String, fresh: bool) -> DiskAnswer
        ensures answer { result ≡ answer_of (fails_choice self.old (string_bytes name.now) fresh) }
        ensures after { self.new ≡ after_choice (fails_choice self.old (string_bytes name.now) fresh) self.old (string_bytes name.now) fresh }
        ensures no_fall { self.old.plan.faults ≤ self.new.plan.faults }
    {
        let ready = self.naming.allows(name, fresh);
        self.naming.chosen = false;
        if !ready {
            self.fails();
            return DiskAnswer::Failed;
        }
        match self.change(fresh) {
            DiskAnswer::Done => {
                self.naming.choose(name);
                DiskAnswer::Done
            }
            DiskAnswer::Failed => DiskAnswer::Failed,
        }
    }

    // Empties the file where it is to be fresh.
    fn change(&mut self, fresh: bool) -> DiskAnswer
        ensures answer { result ≡ answer_of (fails_change self.old fresh) }
        ensures after { self.new ≡ after_change (fails_change self.old fresh) self.old fresh }
        ensures no_fall { self.old.plan.faults ≤ self.new.plan.faults }
    {
        if fresh {
            return self.step(true, Step::Emptied);
        }
        self.look(true)
    }
}

// The step of a write.
fn write_step(at: u32, bytes: &[u8]) -> Step
    requires { length bytes.now ≤ 128 }
    ensures { result ≡ write_step at bytes.now }
{
    let mut buffer = [0; 128];
    overwrite(&mut buffer, 0, bytes);
    Step::Wrote {
        at,
        size: bytes.len() as u32,
        bytes: buffer,
    }
}

impl Disk for MemoryDisk {
    ghost use Rattle.std.specs.Prelude.{false};
    ghost use Rattle.outside.specs.Faults.{Rose};
    ghost use Rattle.crash_disk.specs.Disk.{Elapses, IfRead, ImagesTear, IsFilled, Only, Tears, Writes};
    ghost use Rattle.crash_disk.specs.Memory.{LeftSince, counts_now, moment_of, names_of, names_show_file, only_now, read_is_image};
    ghost use Rattle.crash_disk.specs.Names.{Chooses, IsUnchosen, StaysBeside};

    ghost faults = { λ disk. disk.plan.faults };

    ghost file = { λ disk. Some (file_of disk) };

    ghost names = { λ disk. Some (names_of disk) };

    ghost may_leave = { MayLeave };

    ghost moment = { moment_of };

    ghost left_since = { LeftSince };

    ghost names_show_file = { names_show_file };

    ghost read_is_image = { read_is_image };

    ghost counts_now = { counts_now };

    ghost only_now = { only_now };

    fn choose(&mut self, name: &String, fresh: bool) -> DiskAnswer
        ensures answer { result ≡ answer_of (fails_choice self.old (string_bytes name.now) fresh) }
        ensures after { self.new ≡ after_choice (fails_choice self.old (string_bytes name.now) fresh) self.old (string_bytes name.now) fresh }

        ensures names { Chooses (Some (names_of self.old)) (Some (names_of self.new)) (string_bytes name.now) fresh result }
        ensures emptied { result ≡ DiskAnswer.Done → IsTrue fresh → Some (file_of self.new) ≡ option_map (λ _. []) (Some (file_of self.old)) }
        ensures untold { Some (file_of self.old) ≡ None → Some (file_of self.new) ≡ None }
        ensures told { IsSome (Some (file_of self.old)) → IsSome (Some (file_of self.new)) }
        ensures kept { fresh ≡ false → Some (file_of self.new) ≡ Some (file_of self.old) }
        ensures images { fresh ≡ false → (image : List ℕ) → MayLeave self.new image → MayLeave self.old image }
        ensures time { Elapses (moment_of self.old) (moment_of self.new) (LeftSince self.old) (LeftSince self.new) (MayLeave self.new) }
        ensures failed { result ≡ DiskAnswer.Failed → Rose self.old.plan.faults self.new.plan.faults }
        ensures no_fall { self.old.plan.faults ≤ self.new.plan.faults }
    {
        self.choose_file(name, fresh)
    }

    #[tactic(auto, unfolding(crate::specs::Memory::file_of))]
    fn read_at(&mut self, at: u32, into: &mut [u8]) -> DiskRead
        ensures planned { (result ≡ DiskRead.Failed) ↔ IsTrue (fails_read self.old) }
        ensures after { self.new ≡ looks (fails_read self.old) self.old }

        ensures bounded { IfRead result (λ taken. taken ≤ length into.old) }
        ensures filled { IfRead result (λ taken. IsFilled (file_of self.old) at taken into.old into.new) }
        ensures taken { IfRead result (λ taken. taken ≡ min (length into.old) (length (file_of self.old) - at)) }
        ensures ended { result ≡ DiskRead.Read 0 → (length into.old ≡ 0) ⊎ (length (file_of self.old) ≤ at) }
        ensures kept { Some (file_of self.new) ≡ Some (file_of self.old) }
        ensures images { (image : List ℕ) → MayLeave self.new image → MayLeave self.old image }
        ensures beside { StaysBeside (Some (names_of self.old)) (Some (names_of self.new)) }
        ensures unchosen { IsUnchosen (Some (names_of self.old)) → result ≡ DiskRead.Failed }
        ensures time { Elapses (moment_of self.old) (moment_of self.new) (LeftSince self.old) (LeftSince self.new) (MayLeave self.new) }
        ensures failed { result ≡ DiskRead.Failed → Rose self.old.plan.faults self.new.plan.faults }
        ensures no_fall { self.old.plan.faults ≤ self.new.plan.faults }
    {
        let ready = self.naming.is_chosen();
        match self.look(ready) {
            DiskAnswer::Done => DiskRead::Read {
                taken: self.images.file.read(at, into),
            },
            DiskAnswer::Failed => DiskRead::Failed,
        }
    }

    #[tactic(auto, unfolding(crate::specs::Memory::file_of))]
    fn write_at(&mut self, at: u32, bytes: &[u8]) -> DiskAnswer
        ensures answer { result ≡ answer_of (fails_write self.old at (length bytes.now)) }
        ensures after { self.new ≡ after_call (fails_write self.old at (length bytes.now)) self.old (write_step at bytes.now) }

        ensures written { result ≡ DiskAnswer.Done → Writes (Some (file_of self.old)) (Some (file_of self.new)) at bytes.now }
        ensures torn { result ≡ DiskAnswer.Failed → Tears (Some (file_of self.old)) (Some (file_of self.new)) at (length bytes.now) }
        ensures images { ImagesTear (MayLeave self.old) (MayLeave self.new) at (length bytes.now) }
        ensures beside { StaysBeside (Some (names_of self.old)) (Some (names_of self.new)) }
        ensures unchosen { IsUnchosen (Some (names_of self.old)) → result ≡ DiskAnswer.Failed }
        ensures time { Elapses (moment_of self.old) (moment_of self.new) (LeftSince self.old) (LeftSince self.new) (MayLeave self.new) }
        ensures failed { result ≡ DiskAnswer.Failed → Rose self.old.plan.faults self.new.plan.faults }
        ensures no_fall { self.old.plan.faults ≤ self.new.plan.faults }
    {
        if !self.images.file.fits(at, bytes.len()) {
            self.fails();
            return DiskAnswer::Failed;
        }
        let ready = self.naming.is_chosen();
        self.step(ready, write_step(at, bytes))
    }

    fn sync(&mut self) -> DiskAnswer
        ensures answer { result ≡ answer_of (fails_sync self.old) }
        ensures after { self.new ≡ after_call (fails_sync self.old) self.old Step.Synced }

        ensures durable { result ≡ DiskAnswer.Done → Only (file_of self.old) (MayLeave self.new) }
        ensures kept { Some (file_of self.new) ≡ Some (file_of self.old) }
        ensures images { (image : List ℕ) → MayLeave self.new image → MayLeave self.old image }
        ensures beside { StaysBeside (Some (names_of self.old)) (Some (names_of self.new)) }
        ensures unchosen { IsUnchosen (Some (names_of self.old)) → result ≡ DiskAnswer.Failed }
        ensures time { Elapses (moment_of self.old) (moment_of self.new) (LeftSince self.old) (LeftSince self.new) (MayLeave self.new) }
        ensures failed { result ≡ DiskAnswer.Failed → Rose self.old.plan.faults self.new.plan.faults }
        ensures no_fall { self.old.plan.faults ≤ self.new.plan.faults }
    {
        let ready = self.naming.is_chosen();
        self.step(ready, Step::Synced)
    }
}
