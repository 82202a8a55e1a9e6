//! Reading the front of a disk's file.
ghost use Rattle.std.specs.Prelude.{◌≡◌, ◌⊎◌, ℕ, List, ◌+◌, ◌-◌, ◌<◌, ◌≤◌, ◌++◌, length, take, drop, IfOk, IfErr, IfSome};
ghost use Rattle.key_store.specs.declared.refusals.StoreRefusal.TheVariants.{DiskFault};
ghost use Rattle.outside.specs.Faults.{Rose};
ghost use Rattle.crash_disk.specs.Disk.{Elapses, IfRead, LeavesOnly};
ghost use Rattle.crash_disk.specs.Names.{StaysBeside};
ghost use Rattle.key_store.specs.Store.{IsFault};

use crate::refusals::StoreRefusal;
use crash_disk::{Disk, DiskRead};

/// Reads the file's first 128 bytes, or all where there are fewer, and says how many there are.
pub fn read_front<D: Disk>(disk: &mut D, image: &mut [u8; 128]) -> Result<u32, StoreRefusal>
    ensures within { IfOk result (λ size. size ≤ 128) }
    ensures read { IfOk result (λ size. IfSome (D.file disk.old) (λ file. take size image.new ≡ take 128 file)) }
    ensures refused { IfErr result (λ e. IsFault e (D.faults disk.old) (D.faults disk.new)) }
    ensures kept { D.file disk.new ≡ D.file disk.old }
    ensures images { (image : List ℕ) → D.may_leave disk.new image → D.may_leave disk.old image }
    ensures moments { LeavesOnly D.moment D.left_since disk.old disk.new (D.may_leave disk.old) }
    ensures beside { StaysBeside (D.names disk.old) (D.names disk.new) }
    ensures no_fall { D.faults disk.old ≤ D.faults disk.new }
{
    let mut size = 0;
    while size < 128 {
        match read_more(disk, image, size) {
            DiskRead::Read { taken } => {
                if taken == 0 {
                    return Ok(size);
                }
                size += taken;
            }
            DiskRead::Failed => return Err(StoreRefusal::DiskFault),
        }
    }
    Ok(size)
}

// Reads bytes of the file from `size` on, to the same place of the image.
fn read_more<D: Disk>(disk: &mut D, image: &mut [u8; 128], size: u32) -> DiskRead
    requires { size < 128 }
    ensures bounded { IfRead result (λ taken. size + taken ≤ 128) }
    ensures read { IfRead result (λ taken. IfSome (D.file disk.old) (λ file.
        take (size + taken) image.new ≡ take size image.old ++ take taken (drop size file))) }
    ensures within { IfRead result (λ taken. IfSome (D.file disk.old) (λ file. taken ≤ length file - size)) }
    ensures ended { result ≡ DiskRead.Read 0 → IfSome (D.file disk.old) (λ file. length file ≤ size) }
    ensures failed { result ≡ DiskRead.Failed → Rose (D.faults disk.old) (D.faults disk.new) }
    ensures kept { D.file disk.new ≡ D.file disk.old }
    ensures images { (image : List ℕ) → D.may_leave disk.new image → D.may_leave disk.old image }
    ensures time { Elapses (D.moment disk.old) (D.moment disk.new) (D.left_since disk.old) (D.left_since disk.new) (D.may_leave disk.new) }
    ensures beside { StaysBeside (D.names disk.old) (D.names disk.new) }
    ensures no_fall { D.faults disk.old ≤ D.faults disk.new }
{
    disk.read_at(size, &mut image[size as usize..])
}
