//! Files and a sink in memory. The calls of a plan fail, and all others don't; they tell what they hold.
ghost use Rattle.std.specs.Prelude.{◌≡◌, ◌⊎◌, ◌≤◌, ◌<◌, ℕ, List, [], IsTrue, IfSome, IsSomeAnd, Some, None, is_some, length, string_bytes};
ghost use Rattle.outside.specs.Faults.{Rose};
ghost use Rattle.outside.specs.Plans.{after_call, call_counted, fails_next, fault_counted, plan_of};
ghost use Rattle.offline_commands.specs.Outside.{Gains, GainsFirstOf, HoldsNow, IfBytes, IsMissing, OthersStay, Shows};

use crate::interfaces::{FileRead, FileWrite, Files, Sink, SinkAnswer};
use crate::stored::{StoredFile, first_of, put, read_from};
use outside::FaultPlan;
use std::alloc::{AllocError, Global};

/// Files in memory. With no failing calls none fails but for want of memory. A read of a missing file is no fault.
#[derive(Debug, Drop)]
pub struct MemoryFiles {
    alloc: Global,
    // What was written last stands first, and hides an earlier file of its name.
    files: Vec<StoredFile>,
    plan: FaultPlan,
}

impl MemoryFiles {
    ghost use Rattle.offline_commands.specs.Memory.{memory_held, files_plan};

    /// No files. The calls with these numbers, from 1, fail.
    pub fn new(alloc: Global, failing: Vec<u64>) -> Self
        ensures held { (name : List ℕ) → memory_held result name ≡ None }
        ensures planned { files_plan result ≡ plan_of failing.items }
    {
        MemoryFiles {
            alloc,
            files: Vec::new(alloc),
            plan: FaultPlan::new(failing),
        }
    }

    // Whether there is a file of this name.
    fn has(&self, name: &String) -> bool
        ensures { result ≡ is_some (memory_held self.now (string_bytes name.now)) }
    {
        first_of(&self.files, name).is_some()
    }
}

impl Files for MemoryFiles {
    ghost use Rattle.offline_commands.specs.Memory.{memory_held, files_plan};

    ghost faults = { λ files. (files_plan files).faults };

    ghost told = { λ files. Some (memory_held files) };

    fn read(&mut self, name: &String, limit: u32) -> FileRead
        ensures bounded { IfBytes result (λ bytes. length bytes ≤ limit) }
        ensures bytes { IfBytes result (λ bytes. memory_held self.old (string_bytes name.now) ≡ Some bytes) }
        ensures too_long { result ≡ FileRead.TooLong
            → IsSomeAnd (memory_held self.old (string_bytes name.now)) (λ bytes. limit < length bytes) }
        ensures failed { result ≡ FileRead.Failed → Rose (files_plan self.old).faults (files_plan self.new).faults
            ⊎ (memory_held self.old (string_bytes name.now) ≡ None) }
        ensures missing { result ≡ FileRead.Failed → memory_held self.old (string_bytes name.now) ≡ None
            → (files_plan self.new).faults ≡ (files_plan self.old).faults }
        ensures memory { result ≡ FileRead.OutOfMemory
            → IsSomeAnd (memory_held self.old (string_bytes name.now)) (λ bytes. length bytes ≤ limit) }
        ensures no_fall { (files_plan self.old).faults ≤ (files_plan self.new).faults }
        ensures kept { memory_held self.new ≡ memory_held self.old }

        // By the plan: a call fails where it has it fail, and else only of a file that is missing.
        ensures planned { IsTrue (fails_next (files_plan self.old)) → result ≡ FileRead.Failed }
        ensures unplanned { result ≡ FileRead.Failed → IsTrue (fails_next (files_plan self.old))
            ⊎ (memory_held self.old (string_bytes name.now) ≡ None) }
        ensures counted { (files_plan self.new ≡ call_counted (files_plan self.old))
            ⊎ (files_plan self.new ≡ after_call (files_plan self.old)) }
    {
        if self.plan.call() {
            if self.has(name) {
                self.plan.fault();
            }
            return FileRead::Failed;
        }
        read_from(self.alloc, &self.files, name, limit)
    }

    fn write(&mut self, name: &String, bytes: &Vec<u8>) -> FileWrite
        ensures written { result ≡ FileWrite.Written
            → memory_held self.new (string_bytes name.now) ≡ Some bytes.now.items }
        ensures others { OthersStay (Some (memory_held self.old)) (Some (memory_held self.new)) (string_bytes name.now) }
        ensures failed { result ≡ FileWrite.Failed → Rose (files_plan self.old).faults (files_plan self.new).faults }
        ensures no_fall { (files_plan self.old).faults ≤ (files_plan self.new).faults }

        // By the plan: a call fails just where it has it fail, and then changes nothing.
        ensures planned { IsTrue (fails_next (files_plan self.old)) → result ≡ FileWrite.Failed }
        ensures unplanned { result ≡ FileWrite.Failed → IsTrue (fails_next (files_plan self.old)) }
        ensures unchanged { result ≡ FileWrite.Failed → memory_held self.new ≡ memory_held self.old }
        ensures counted { files_plan self.new ≡ after_call (files_plan self.old) }
    {
        if self.plan.fails() {
            return FileWrite::Failed;
        }
        match put(self.alloc, &mut self.files, name, bytes) {
            Ok(()) => FileWrite::Written,
            Err(AllocError) => FileWrite::OutOfMemory,
        }
    }
}

/// A sink in memory. With no failing calls none fails but for want of memory.
#[derive(Debug, Drop)]
pub struct MemorySink {
    written: Vec<u8>,
    plan: FaultPlan,
}

impl MemorySink {
    ghost use Rattle.offline_commands.specs.Memory.{memory_written, sink_plan};

    /// An empty sink. The calls with these numbers, from 1, fail.
    pub fn new(alloc: Global, failing: Vec<u64>) -> Self
        ensures written { memory_written result ≡ [] }
        ensures planned { sink_plan result ≡ plan_of failing.items }
    {
        MemorySink {
            written: Vec::new(alloc),
            plan: FaultPlan::new(failing),
        }
    }

    /// All that was written.
    pub fn written(&self) -> &[u8]
        ensures { result.now ≡ memory_written self.now }
    {
        &self.written
    }
}

impl Sink for MemorySink {
    ghost use Rattle.offline_commands.specs.Memory.{memory_written, sink_plan};

    ghost faults = { λ sink. (sink_plan sink).faults };

    ghost told = { λ sink. Some (memory_written sink) };

    fn write(&mut self, piece: &Vec<u8>) -> SinkAnswer
        ensures written { result ≡ SinkAnswer.Written
            → Gains (Some (memory_written self.old)) (Some (memory_written self.new)) piece.now.items }
        ensures part { GainsFirstOf (Some (memory_written self.old)) (Some (memory_written self.new)) piece.now.items }
        ensures failed { result ≡ SinkAnswer.Failed → Rose (sink_plan self.old).faults (sink_plan self.new).faults }
        ensures no_fall { (sink_plan self.old).faults ≤ (sink_plan self.new).faults }

        // By the plan: a call fails just where it has it fail, and then writes nothing.
        ensures planned { IsTrue (fails_next (sink_plan self.old)) → result ≡ SinkAnswer.Failed }
        ensures unplanned { result ≡ SinkAnswer.Failed → IsTrue (fails_next (sink_plan self.old)) }
        ensures unchanged { result ≡ SinkAnswer.Failed → memory_written self.new ≡ memory_written self.old }
        ensures counted { sink_plan self.new ≡ after_call (sink_plan self.old) }
    {
        if self.plan.fails() {
            return SinkAnswer::Failed;
        }
        match self.written.extend_from_slice(piece) {
            Ok(()) => SinkAnswer::Written,
            Err(AllocError) => SinkAnswer::OutOfMemory,
        }
    }
}
