//! The key file of an LMS key, which keeps what was used. Before leaves are handed out for a round the file is raised.
ghost use Rattle.std.specs.Prelude.{◌≡◌, ◌⊎◌, ◌≤◌, ◌∷◌, [], false, IfOk, IfErr, IfSome, Ok, take};
ghost use Rattle.lms_tree.specs.Secret.{own_public, parts_of_master};
ghost use Rattle.lms_tree.specs.States.{made_leaves, made_type};
ghost use Rattle.key_store.specs.declared.refusals.StoreRefusal.TheVariants.{DiskFault, Memory};
ghost use Rattle.outside.specs.Faults.{Rose};
ghost use Rattle.key_store.specs.Crashes.{Keeps, KeepsFront};
ghost use Rattle.crash_disk.specs.Disk.{Every, IsTornOf, LeavesOnly, Only};
ghost use Rattle.key_store.specs.KeyFiles.{IsAtRest, Mirrors, key_read, made, new_content, opened, parts_in};
ghost use Rattle.crash_disk.specs.Names.{StaysBeside};
ghost use Rattle.key_store.specs.Store.{FrontRefused, IsLoaded};

use crate::front::read_front;
use crate::layout::{self, KeyContent, Standing, read_key};
use crate::refusals::StoreRefusal;
use crate::steps::{put, raise_for};
use crash_disk::{Disk, DiskAnswer};
use lms_tree::{LeafRun, LmsPublic, LmsSecret, MadeHeight, OtsType, parts_of_master};
use std::alloc::Global;
use std::marker::Model;

/// Makes the key file of a master's key over whatever the disk's file held, with no round and no leaf used, and
/// gives the public key. It answers `Memory`, with the disk not touched, or `DiskFault`, and no other refusal.
pub fn create<D: Disk>(
    alloc: Global,
    disk: &mut D,
    height: MadeHeight,
    width: OtsType,
    master: &[u8; 32],
) -> Result<LmsPublic, StoreRefusal>
    ensures key { IfOk result (λ key. key ≡ own_public (parts_of_master (made_type height) width master.now)) }
    ensures file { IfOk result (λ _. Mirrors (D.file disk.new)
        (opened (made (parts_of_master (made_type height) width master.now)) 64)) }
    ensures reads { IfOk result (λ _. IfSome (D.file disk.new) (λ file.
        key_read (take 128 file) ≡ Ok (new_content height width master.now))) }
    ensures durable { IfOk result (λ _. IfSome (D.file disk.new) (λ file. Only file (D.may_leave disk.new))) }
    ensures keeps { IfOk result (λ _. IfSome (D.file disk.new) (λ _. Every (D.may_leave disk.new) (KeepsFront (new_content height width master.now)))) }
    ensures refused { IfErr result (λ e. ((e ≡ DiskFault) × Rose (D.faults disk.old) (D.faults disk.new))
        ⊎ ((e ≡ Memory) × (disk.new ≡ disk.old))) }
    // At every moment of the call, whatever it answers, no image differs behind its first 128 bytes from one before.
    ensures moments { IfSome (D.file disk.old) (λ _. LeavesOnly D.moment D.left_since disk.old disk.new (IsTornOf (D.may_leave disk.old) 0 128)) }
    ensures beside { StaysBeside (D.names disk.old) (D.names disk.new) }
    ensures no_fall { D.faults disk.old ≤ D.faults disk.new }
{
    let content = first_content(height, width, master);
    let secret = secret_of(alloc, &content)?;
    match write_made(disk, &content) {
        DiskAnswer::Done => Ok(secret.public()),
        DiskAnswer::Failed => Err(StoreRefusal::DiskFault),
    }
}

// The secret of what a file says.
fn secret_of(alloc: Global, content: &KeyContent) -> Result<LmsSecret, StoreRefusal>
    requires { content.now.kept.next ≤ made_leaves content.now.height }
    ensures secret { IfOk result (λ secret. secret ≡ record { parts = parts_in content.now; next = content.now.kept.next }) }
    ensures refused { IfErr result (λ e. e ≡ Memory) }
{
    let secret = LmsSecret::from_parts(
        alloc,
        content.height,
        content.width,
        content.identifier,
        content.seed,
        content.kept.next,
    )?;
    Ok(secret)
}

// A key file of the bytes that were read, of which there are so many.
fn from_front(alloc: Global, image: &[u8; 128], size: u32) -> Result<KeyFile, StoreRefusal>
    requires { size ≤ 128 }
    ensures loaded { IfOk result (λ key. IsLoaded (key_read (take size image.now)) (take size image.now) key) }
    ensures image { IfOk result (λ key. key.image ≡ take size image.now) }
    ensures works { IfOk result (λ key. key.failed ≡ false) }
    ensures refused { IfErr result (λ e. FrontRefused e (key_read (take size image.now))) }
{
    let content = match read_key(&image[..size as usize]) {
        Ok(content) => content,
        Err(at) => return Err(StoreRefusal::NotKeyFile { at }),
    };
    match secret_of(alloc, &content) {
        Ok(secret) => Ok(KeyFile {
            image: *image,
            secret,
            failed: false,
        }),
        Err(refusal) => Err(refusal),
    }
}

// What the file of a new key says.
fn first_content(height: MadeHeight, width: OtsType, master: &[u8; 32]) -> KeyContent
    ensures { result ≡ new_content height width master.now }
{
    let (identifier, seed) = parts_of_master(master);
    KeyContent {
        height,
        width,
        identifier,
        seed,
        kept: Standing { round: 0, next: 0 },
    }
}

// Writes the file of a new key, and then opens the gate of its first slot.
fn write_made<D: Disk>(disk: &mut D, content: &KeyContent) -> DiskAnswer
    ensures done { result ≡ DiskAnswer.Done → IsAtRest (D.file disk.new) (D.may_leave disk.new) (opened (made (parts_in content.now)) 64) }
    ensures keeps { result ≡ DiskAnswer.Done → Keeps record content.now { kept = record { round = 0; next = 0 } } (opened (made (parts_in content.now)) 64) }
    ensures reads { result ≡ DiskAnswer.Done → IfSome (D.file disk.new) (λ file.
        key_read (take 128 file) ≡ Ok record content.now { kept = record { round = 0; next = 0 } }) }
    ensures moments { IfSome (D.file disk.old) (λ _. LeavesOnly D.moment D.left_since disk.old disk.new (IsTornOf (D.may_leave disk.old) 0 128)) }
    ensures failed { result ≡ DiskAnswer.Failed → Rose (D.faults disk.old) (D.faults disk.new) }
    ensures beside { StaysBeside (D.names disk.old) (D.names disk.new) }
    ensures no_fall { D.faults disk.old ≤ D.faults disk.new }
{
    let mut image = layout::made(content);
    match disk.write_at(0, &image) {
        DiskAnswer::Done => {}
        DiskAnswer::Failed => return DiskAnswer::Failed,
    }
    match disk.sync() {
        DiskAnswer::Done => put(disk, &mut image, 64, &[1]),
        DiskAnswer::Failed => DiskAnswer::Failed,
    }
}

/// A key whose leaves are handed out for rounds, and its file as it was last read or written.
#[derive(Drop)]
pub struct KeyFile {
    image: [u8; 128],
    secret: LmsSecret,
    failed: bool,
}

impl Model for KeyFile {
    ghost use Rattle.std.specs.Prelude.{◌≡◌, false};
    ghost use Rattle.key_store.specs.KeyFiles.{key_read};
    ghost use Rattle.key_store.specs.Store.{IsSecretOf, KeyState};

    ghost Value = { KeyState };

    ghost view = { λ key. record { parts = key.secret.parts; image = key.image; failed = key.failed } };

    ghost invariant = { λ key. key.failed ≡ false → IsSecretOf (key_read key.image) key.secret };
}

impl KeyFile {
    ghost use Rattle.std.specs.Prelude.{◌≡◌, ◌≢◌, ◌⊎◌, ℕ, ◌+◌, ◌<◌, ◌≤◌, IsTrue, false, IfOk, IfErr, IsSome, IfSome, None, Ok, take, Err};
    ghost use Rattle.lms_tree.specs.Secret.{own_public};
    ghost use Rattle.key_store.specs.declared.layout.KeyContent.{KeyContent};
    ghost use Rattle.key_store.specs.declared.refusals.StoreRefusal.TheVariants.{DiskFault, Exhausted, Memory, NotKeyFile, OldRound};
    ghost use Rattle.key_store.specs.Crashes.{IsMidway, IsPaired, Keeps, KeepsFront, LeavesHalfRaised};
    ghost use Rattle.crash_disk.specs.Disk.{Every, IsTorn, LeavesOf, LeavesOnly};
    ghost use Rattle.key_store.specs.History.{IsCall};
    ghost use Rattle.key_store.specs.KeyFiles.{chosen, key_read, raised};
    ghost use Rattle.crash_disk.specs.Names.{StaysBeside};
    ghost use Rattle.key_store.specs.Store.{IsCurrent, IsFault, IsLoaded, LoadRefused, MayBegin, RoundRefused, handed_by, kept_by, leaves_of};

    /// Reads a key file. `NotKeyFile` tells the first offset at which its bytes are none; `OldRound` and `Exhausted`
    /// are not answered. The file stays as it is.
    pub fn load<D: Disk>(alloc: Global, disk: &mut D) -> Result<KeyFile, StoreRefusal>
        ensures loaded { IfOk result (λ key. IfSome (D.file disk.old) (λ file.
            IsLoaded (key_read (take 128 file)) (take 128 file) key)) }
        ensures current { IfOk result (λ key. IsCurrent key (D.file disk.new) (D.may_leave disk.new)) }
        ensures works { IfOk result (λ key. key.failed ≡ false) }
        // Whether the disk tells its file or not, the key is of the bytes that were read.
        ensures says { IfOk result (λ key. IsLoaded (key_read key.image) key.image key) }
        ensures refused { IfErr result (λ e.
            LoadRefused e (D.file disk.old) (D.faults disk.old) (D.faults disk.new)) }
        ensures kept { D.file disk.new ≡ D.file disk.old }
        ensures beside { StaysBeside (D.names disk.old) (D.names disk.new) }
        ensures no_fall { D.faults disk.old ≤ D.faults disk.new }

        // A crash at any moment of the call leaves what one before it might have left. So what every image keeps then,
        // every image keeps, and the key file too.
        ensures moments { LeavesOnly D.moment D.left_since disk.old disk.new (D.may_leave disk.old) }
        ensures used { IsCall D.may_leave D.moment D.left_since disk.old disk.new None }
        ensures keeps { (least : KeyContent) → Every (D.may_leave disk.old) (KeepsFront least)
            → IfOk result (λ key. IfSome (D.file disk.old) (λ _. Keeps least key.image)) }
        ensures never_refused { (least : KeyContent) → Every (D.may_leave disk.old) (KeepsFront least)
            → IfErr result (λ e. IfSome (D.file disk.old) (λ _. (at : ℕ) → e ≢ NotKeyFile at)) }
    {
        match disk.sync() {
            DiskAnswer::Done => {}
            DiskAnswer::Failed => return Err(StoreRefusal::DiskFault),
        }
        let mut image = layout::blank();
        let size = read_front(disk, &mut image)?;
        from_front(alloc, &image, size)
    }

    /// The public key.
    pub fn public(&self) -> LmsPublic
        ensures { result ≡ own_public self.now.parts }
    {
        self.secret.public()
    }

    /// Whether the disk failed in a call that raised the file. Then each further call is refused.
    pub fn failed(&self) -> bool
        ensures { result ≡ self.now.failed }
    {
        self.failed
    }

    /// Begins a round that is greater than each before, and hands out the next `leaves` leaves for it, which the file
    /// keeps as used before this call returns. `OldRound` comes exactly where the round is not greater, else
    /// `Exhausted` exactly where fewer leaves are left; these and `Memory` change nothing. After a `DiskFault`
    /// this value gives no more leaves: load the file again.
    pub fn begin_round<D: Disk>(
        &mut self,
        alloc: Global,
        disk: &mut D,
        round: u64,
        leaves: u32,
    ) -> Result<LeafRun, StoreRefusal>
        requires { IsCurrent self.old (D.file disk.old) (D.may_leave disk.old) }
        ensures reserved { IfOk result (λ run.
            run ≡ record { parts = self.old.parts; first = (kept_by self.old).next; left = leaves }) }
        ensures raised { IfOk result (λ _. self.new ≡ record {
          parts = self.old.parts;
          image = raised self.old.image (chosen (leaves_of self.old) self.old.image) round
              ((kept_by self.old).next + leaves);
          failed = false;
        }) }
        ensures stands { IfOk result (λ _.
            kept_by self.new ≡ record { round = round; next = (kept_by self.old).next + leaves }) }
        ensures says { IfOk result (λ _. IfOk (key_read self.old.image) (λ content. key_read self.new.image
            ≡ Ok record content { kept = record { round = round; next = content.kept.next + leaves } })) }
        ensures current { IsCurrent self.new (D.file disk.new) (D.may_leave disk.new) }
        ensures stopped { IsTrue self.old.failed
            → (result ≡ Err DiskFault) × (self.new ≡ self.old) × (disk.new ≡ disk.old) }
        ensures old_round { self.old.failed ≡ false → round ≤ (kept_by self.old).round
            → result ≡ Err (OldRound (kept_by self.old).round) }
        ensures exhausted { self.old.failed ≡ false → (kept_by self.old).round < round
            → leaves_of self.old < (kept_by self.old).next + leaves
            → result ≡ Err (Exhausted (kept_by self.old).next) }
        ensures begun { self.old.failed ≡ false → (kept_by self.old).round < round
            → (kept_by self.old).next + leaves ≤ leaves_of self.old
            → IfErr result (λ e. (e ≡ Memory) ⊎ IsFault e (D.faults disk.old) (D.faults disk.new)) }
        ensures kept { IfErr result (λ e. e ≢ DiskFault → (self.new ≡ self.old) × (disk.new ≡ disk.old)) }
        ensures faulted { IfErr result (λ e. e ≡ DiskFault → IsTrue self.new.failed) }
        ensures parts { self.new.parts ≡ self.old.parts }
        ensures beside { StaysBeside (D.names disk.old) (D.names disk.new) }
        ensures no_fall { D.faults disk.old ≤ D.faults disk.new }

        // At each moment of the call, every image keeps what the file said, and differs at most in the chosen slot.
        ensures moments { self.old.failed ≡ false → 0 < leaves → IfOk (key_read self.old.image) (λ content. IsPaired self.old.image
            → LeavesOf D.moment D.left_since (D.file disk.old) disk.old disk.new
            (IsMidway content (chosen (leaves_of self.old) self.old.image))) }
        // It differs in no other place also where no leaf is asked for, and where the slots are not paired.
        ensures beside_slot { self.old.failed ≡ false → LeavesOf D.moment D.left_since (D.file disk.old) disk.old disk.new
            (λ file. IsTorn file (chosen (leaves_of self.old) self.old.image) 13) }
        // After a fault the file itself is as it was, but for at most that slot, and where its slots were paired it keeps what
        // it said.
        ensures torn { self.old.failed ≡ false → result ≡ Err DiskFault → IfOk (key_read self.old.image) (λ content.
            LeavesHalfRaised (D.file disk.old) (D.file disk.new) content leaves) }
        ensures paired { IfOk result (λ _. 0 < leaves → IsPaired self.old.image → IsPaired self.new.image) }
        // So whatever was handed out before, this is later and behind it, and stays so whenever a crash comes.
        ensures used { 0 < leaves → IfSome (D.file disk.old) (λ _. IsSome (D.file disk.new)
            × IsCall D.may_leave D.moment D.left_since disk.old disk.new (handed_by round result)) }
    {
        let content = self.content_to_raise(round, leaves)?;
        let run = match self.secret.reserve(alloc, leaves) {
            Ok(run) => run,
            Err(_) => return Err(StoreRefusal::Memory),
        };
        match raise_for(disk, &mut self.image, &content, round, leaves) {
            DiskAnswer::Done => Ok(run),
            DiskAnswer::Failed => {
                self.failed = true;
                run.retire();
                Err(StoreRefusal::DiskFault)
            }
        }
    }

    // What the file says, where a round may begin for so many leaves.
    fn content_to_raise(&self, round: u64, leaves: u32) -> Result<KeyContent, StoreRefusal>
        ensures raisable { IfOk result (λ content. MayBegin self.now content round leaves) }
        ensures refused { IfErr result (λ e. RoundRefused e self.now round leaves) }
    {
        if self.failed {
            return Err(StoreRefusal::DiskFault);
        }
        let Ok(content) = read_key(&self.image) else {
            unreachable!()
        };
        let Standing { round: last, next } = content.kept;
        if round <= last {
            return Err(StoreRefusal::OldRound { kept: last });
        }
        if leaves > layout::leaves(content.height) - next {
            return Err(StoreRefusal::Exhausted { next });
        }
        Ok(content)
    }
}
