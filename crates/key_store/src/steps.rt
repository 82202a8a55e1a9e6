//! The steps by which a key file is written: each changes the image in memory and the file alike.
ghost use Rattle.std.specs.Prelude.{◌≡◌, ℕ, List, IsSome, IfSome, Ok, ◌+◌, ◌<◌, ◌≤◌, ◌∷◌, [], length, option_map};
ghost use Rattle.outside.specs.Faults.{Rose};
ghost use Rattle.crash_disk.specs.Disk.{Elapses, IsTorn, LeavesOf, Only, Tears, overwritten};
ghost use Rattle.key_store.specs.Crashes.{IsMidway, IsPaired, IsRise, LeavesHalfRaised};
ghost use Rattle.crash_disk.specs.Names.{StaysBeside};
ghost use Rattle.key_store.specs.declared.layout.KeyContent.{KeyContent};
ghost use Rattle.key_store.specs.KeyFiles.{IsAtRest, IsClosing, IsSlot, chosen, closed, key_read, numbers, opened, raised, written};
ghost use Rattle.key_store.specs.Store.{begun_by, handed_when};
ghost use Rattle.key_store.specs.History.{IsCall};
ghost use Rattle.lms_tree.specs.States.{made_leaves};

use crate::layout::{self, KeyContent};
use crash_disk::{Disk, DiskAnswer, overwrite};

/// Writes bytes into the image and the file, and syncs.
pub fn put<D: Disk>(disk: &mut D, image: &mut [u8; 128], at: u32, bytes: &[u8]) -> DiskAnswer
    requires within { at + length bytes.now ≤ 128 }
    requires current { IsAtRest (D.file disk.old) (D.may_leave disk.old) image.old }
    ensures image { image.new ≡ overwritten image.old at bytes.now }
    ensures done { result ≡ DiskAnswer.Done
        → D.file disk.new ≡ option_map (λ file. overwritten file at bytes.now) (D.file disk.old) }
    ensures current { result ≡ DiskAnswer.Done → IsAtRest (D.file disk.new) (D.may_leave disk.new) image.new }
    ensures torn { Tears (D.file disk.old) (D.file disk.new) at (length bytes.now) }
    ensures moments { LeavesOf D.moment D.left_since (D.file disk.old) disk.old disk.new
        (λ file. IsTorn file at (length bytes.now)) }
    ensures failed { result ≡ DiskAnswer.Failed → Rose (D.faults disk.old) (D.faults disk.new) }
    ensures beside { StaysBeside (D.names disk.old) (D.names disk.new) }
    ensures no_fall { D.faults disk.old ≤ D.faults disk.new }
{
    overwrite(image, at as usize, bytes);
    match disk.write_at(at, bytes) {
        DiskAnswer::Done => settle(disk),
        failed => failed,
    }
}

// Brings what was written onto the disk.
fn settle<D: Disk>(disk: &mut D) -> DiskAnswer
    ensures durable { result ≡ DiskAnswer.Done → IfSome (D.file disk.old) (λ bytes. Only bytes (D.may_leave disk.new)) }
    ensures kept { D.file disk.new ≡ D.file disk.old }
    ensures images { (image : List ℕ) → D.may_leave disk.new image → D.may_leave disk.old image }
    ensures time { Elapses (D.moment disk.old) (D.moment disk.new) (D.left_since disk.old) (D.left_since disk.new) (D.may_leave disk.new) }
    ensures failed { result ≡ DiskAnswer.Failed → Rose (D.faults disk.old) (D.faults disk.new) }
    ensures beside { StaysBeside (D.names disk.old) (D.names disk.new) }
    ensures no_fall { D.faults disk.old ≤ D.faults disk.new }
{
    disk.sync()
}

/// Closes the gate of a slot. Where it reads 0 already it is not written, and there is a sync all the same.
pub fn close_gate<D: Disk>(disk: &mut D, image: &mut [u8; 128], at: u32) -> DiskAnswer
    requires slot { IsSlot at }
    requires current { IsAtRest (D.file disk.old) (D.may_leave disk.old) image.old }
    ensures image { image.new ≡ closed image.old at }
    ensures done { result ≡ DiskAnswer.Done
        → D.file disk.new ≡ option_map (λ file. closed file at) (D.file disk.old) }
    ensures current { result ≡ DiskAnswer.Done → IsAtRest (D.file disk.new) (D.may_leave disk.new) image.new }
    ensures torn { Tears (D.file disk.old) (D.file disk.new) at 1 }
    ensures moments { LeavesOf D.moment D.left_since (D.file disk.old) disk.old disk.new (IsClosing at) }
    ensures failed { result ≡ DiskAnswer.Failed → Rose (D.faults disk.old) (D.faults disk.new) }
    ensures beside { StaysBeside (D.names disk.old) (D.names disk.new) }
    ensures no_fall { D.faults disk.old ≤ D.faults disk.new }
{
    if image[at as usize] == 0 {
        return settle(disk);
    }
    put(disk, image, at, &[0])
}

/// Writes the numbers of a slot, behind its gate.
pub fn write_slot<D: Disk>(
    disk: &mut D,
    image: &mut [u8; 128],
    at: u32,
    round: u64,
    next: u32,
) -> DiskAnswer
    requires slot { IsSlot at }
    requires current { IsAtRest (D.file disk.old) (D.may_leave disk.old) image.old }
    ensures image { image.new ≡ written image.old at round next }
    ensures done { result ≡ DiskAnswer.Done
        → D.file disk.new ≡ option_map (λ file. written file at round next) (D.file disk.old) }
    ensures current { result ≡ DiskAnswer.Done → IsAtRest (D.file disk.new) (D.may_leave disk.new) image.new }
    ensures torn { Tears (D.file disk.old) (D.file disk.new) (at + 1) 12 }
    ensures moments { LeavesOf D.moment D.left_since (D.file disk.old) disk.old disk.new (λ file. IsTorn file (at + 1) 12) }
    ensures failed { result ≡ DiskAnswer.Failed → Rose (D.faults disk.old) (D.faults disk.new) }
    ensures beside { StaysBeside (D.names disk.old) (D.names disk.new) }
    ensures no_fall { D.faults disk.old ≤ D.faults disk.new }
{
    put(disk, image, at + 1, &numbers(round, next))
}

/// Opens the gate of a slot.
pub fn open_gate<D: Disk>(disk: &mut D, image: &mut [u8; 128], at: u32) -> DiskAnswer
    requires slot { IsSlot at }
    requires current { IsAtRest (D.file disk.old) (D.may_leave disk.old) image.old }
    ensures image { image.new ≡ opened image.old at }
    ensures done { result ≡ DiskAnswer.Done
        → D.file disk.new ≡ option_map (λ file. opened file at) (D.file disk.old) }
    ensures current { result ≡ DiskAnswer.Done → IsAtRest (D.file disk.new) (D.may_leave disk.new) image.new }
    ensures torn { Tears (D.file disk.old) (D.file disk.new) at 1 }
    ensures moments { LeavesOf D.moment D.left_since (D.file disk.old) disk.old disk.new (λ file. IsTorn file at 1) }
    ensures failed { result ≡ DiskAnswer.Failed → Rose (D.faults disk.old) (D.faults disk.new) }
    ensures beside { StaysBeside (D.names disk.old) (D.names disk.new) }
    ensures no_fall { D.faults disk.old ≤ D.faults disk.new }
{
    put(disk, image, at, &[1])
}

// Raises a slot: closes it, writes its numbers and opens it, each brought onto the disk before the next.
#[tactic(auto, unfolding(crate::specs::KeyFiles::raised))]
fn raise<D: Disk>(disk: &mut D, image: &mut [u8; 128], at: u32, round: u64, next: u32) -> DiskAnswer
    requires slot { IsSlot at }
    requires current { IsAtRest (D.file disk.old) (D.may_leave disk.old) image.old }
    ensures image { result ≡ DiskAnswer.Done → image.new ≡ raised image.old at round next }
    ensures moments { (content : KeyContent) → IsRise content image.old at round next
        → LeavesOf D.moment D.left_since (D.file disk.old) disk.old disk.new (IsMidway content at) }
    ensures beside_slot { LeavesOf D.moment D.left_since (D.file disk.old) disk.old disk.new (λ file. IsTorn file at 13) }
    ensures told { IsSome (D.file disk.old) → IsSome (D.file disk.new) }
    ensures current { result ≡ DiskAnswer.Done → IsAtRest (D.file disk.new) (D.may_leave disk.new) image.new }
    ensures failed { result ≡ DiskAnswer.Failed → Rose (D.faults disk.old) (D.faults disk.new) }
    ensures beside { StaysBeside (D.names disk.old) (D.names disk.new) }
    ensures no_fall { D.faults disk.old ≤ D.faults disk.new }
{
    match close_gate(disk, image, at) {
        DiskAnswer::Done => {}
        DiskAnswer::Failed => return DiskAnswer::Failed,
    }
    match write_slot(disk, image, at, round, next) {
        DiskAnswer::Done => open_gate(disk, image, at),
        DiskAnswer::Failed => DiskAnswer::Failed,
    }
}

/// Raises the slot that is chosen, in a file that says this, for a round that may begin.
pub fn raise_for<D: Disk>(
    disk: &mut D,
    image: &mut [u8; 128],
    content: &KeyContent,
    round: u64,
    leaves: u32,
) -> DiskAnswer
    requires read { key_read image.old ≡ Ok content.now }
    requires later { content.now.kept.round < round }
    requires enough { content.now.kept.next + leaves ≤ made_leaves content.now.height }
    requires current { IsAtRest (D.file disk.old) (D.may_leave disk.old) image.old }
    ensures raised { result ≡ DiskAnswer.Done → image.new
        ≡ raised image.old (chosen (made_leaves content.now.height) image.old) round (content.now.kept.next + leaves) }
    ensures says { result ≡ DiskAnswer.Done → key_read image.new ≡ Ok (begun_by content.now round leaves) }
    ensures paired { result ≡ DiskAnswer.Done → 0 < leaves → IsPaired image.old → IsPaired image.new }
    ensures current { result ≡ DiskAnswer.Done → IsAtRest (D.file disk.new) (D.may_leave disk.new) image.new }
    ensures moments { 0 < leaves → IsPaired image.old → LeavesOf D.moment D.left_since (D.file disk.old) disk.old disk.new
        (IsMidway content.now (chosen (made_leaves content.now.height) image.old)) }
    ensures beside_slot { LeavesOf D.moment D.left_since (D.file disk.old) disk.old disk.new
        (λ file. IsTorn file (chosen (made_leaves content.now.height) image.old) 13) }
    ensures used { 0 < leaves → IfSome (D.file disk.old) (λ _. IsSome (D.file disk.new)
        × IsCall D.may_leave D.moment D.left_since disk.old disk.new (handed_when result content.now round leaves)) }
    ensures torn { LeavesHalfRaised (D.file disk.old) (D.file disk.new) content.now leaves }
    ensures failed { result ≡ DiskAnswer.Failed → Rose (D.faults disk.old) (D.faults disk.new) }
    ensures beside { StaysBeside (D.names disk.old) (D.names disk.new) }
    ensures no_fall { D.faults disk.old ≤ D.faults disk.new }
{
    let at = layout::chosen(image, layout::leaves(content.height));
    raise(disk, image, at, round, content.kept.next + leaves)
}

// The numbers of a slot, as they are written.
fn numbers(round: u64, next: u32) -> [u8; 12]
    ensures { result ≡ numbers round next }
{
    let mut bytes = [0; 12];
    bytes[..8].copy_from_slice(&round.to_be_bytes());
    bytes[8..].copy_from_slice(&next.to_be_bytes());
    bytes
}
