//! The bytes of a key file.
ghost use Rattle.std.specs.Prelude.{◌≡◌, ◌==◌, ◌+◌, ◌≤◌, length, slice_index, replicate, IfOk};
ghost use Rattle.lm_ots.specs.OneTime.{type_of_number};
ghost use Rattle.lms_tree.specs.States.{made_leaves};
ghost use Rattle.key_store.specs.KeyFiles.{chosen, expected, field, fields_written, greatest, head_read, IsSlot, key_read, long_at, made, made_of_number, magic, part, parts_in, slot_at, word_at};

use crash_disk::overwrite;
use lms_tree::{MadeHeight, OtsType};

const MAGIC: u32 = 0x4453_4b46;

/// The bytes of a key file.
pub const SIZE: usize = 128;

// A slot as it stands in a file.
#[derive(Clone, Copy)]
pub struct Slot {
    pub gate: u8,
    pub round: u64,
    pub next: u32,
}

/// What a file stands for: the greatest round, and the greatest next leaf.
#[derive(Clone, Copy, Debug, PartialEq, Eq)]
pub struct Standing {
    pub round: u64,
    pub next: u32,
}

// What a key file says.
#[derive(Clone, Copy)]
pub struct KeyContent {
    pub height: MadeHeight,
    pub width: OtsType,
    pub identifier: [u8; 16],
    pub seed: [u8; 32],
    pub kept: Standing,
}

// Copies the bytes from `at` on, as many as `into` has room for.
fn copy_part(file: &[u8], at: usize, into: &mut [u8])
    requires { at + length into.old ≤ length file.now }
    ensures { into.new ≡ part file.now at (length into.old) }
{
    into.copy_from_slice(&file[at..at + into.len()]);
}

// The number of four bytes.
#[tactic(auto, unfolding(crate::specs::KeyFiles::word_at))]
fn word_at(file: &[u8], at: usize) -> u32
    requires { at + 4 ≤ length file.now }
    ensures { result ≡ word_at file.now at }
{
    let mut word = [0; 4];
    copy_part(file, at, &mut word);
    u32::from_be_bytes(word)
}

// The number of eight bytes.
#[tactic(auto, unfolding(crate::specs::KeyFiles::long_at))]
fn long_at(file: &[u8], at: usize) -> u64
    requires { at + 8 ≤ length file.now }
    ensures { result ≡ long_at file.now at }
{
    let mut long = [0; 8];
    copy_part(file, at, &mut long);
    u64::from_be_bytes(long)
}

// The number of leaves of a key.
pub fn leaves(height: MadeHeight) -> u32
    ensures { result ≡ made_leaves height }
{
    match height {
        MadeHeight::H5 => 32,
        MadeHeight::H10 => 1024,
    }
}

fn made_of_number(number: u32) -> Option<MadeHeight>
    ensures { result ≡ made_of_number number }
{
    match number {
        5 => Some(MadeHeight::H5),
        6 => Some(MadeHeight::H10),
        _ => None,
    }
}

#[tactic(auto, unfolding(crate::specs::KeyFiles::slot_at))]
fn slot_at(file: &[u8], at: usize) -> Slot
    requires { at + 13 ≤ length file.now }
    ensures { result ≡ slot_at file.now at }
{
    Slot {
        gate: file[at],
        round: long_at(file, at + 1),
        next: word_at(file, at + 9),
    }
}

impl Slot {
    ghost use Rattle.std.specs.Prelude.{◌≡◌};
    ghost use Rattle.key_store.specs.KeyFiles.{counted, is_valid};

    fn is_valid(self, leaves: u32) -> bool
        ensures { result ≡ is_valid leaves self }
    {
        self.gate == 1 && self.next <= leaves
    }

    fn counted(self, leaves: u32) -> Standing
        ensures { result ≡ counted leaves self }
    {
        if self.is_valid(leaves) {
            return Standing {
                round: self.round,
                next: self.next,
            };
        }
        Standing { round: 0, next: 0 }
    }
}

// The field "DSKF".
fn check_magic(file: &[u8]) -> Result<(), u32>
    requires { length file.now ≤ 128 }
    ensures { result ≡ field (length file.now) 0 4 (expected (word_at file.now 0 == magic)) }
{
    if file.len() < 4 {
        return Err(file.len() as u32);
    }
    if word_at(file, 0) == MAGIC {
        Ok(())
    } else {
        Err(0)
    }
}

fn check_version(file: &[u8]) -> Result<(), u32>
    requires { length file.now ≤ 128 }
    ensures { result ≡ field (length file.now) 4 1 (expected (slice_index file.now 4 == 1)) }
{
    if file.len() < 5 {
        return Err(file.len() as u32);
    }
    if file[4] == 1 { Ok(()) } else { Err(4) }
}

fn height_of(file: &[u8]) -> Result<MadeHeight, u32>
    requires { length file.now ≤ 128 }
    ensures { result ≡ field (length file.now) 5 4 (made_of_number (word_at file.now 5)) }
{
    if file.len() < 9 {
        return Err(file.len() as u32);
    }
    made_of_number(word_at(file, 5)).ok_or(5)
}

fn width_of(file: &[u8]) -> Result<OtsType, u32>
    requires { length file.now ≤ 128 }
    ensures { result ≡ field (length file.now) 9 4 (type_of_number (word_at file.now 9)) }
{
    if file.len() < 13 {
        return Err(file.len() as u32);
    }
    OtsType::of_number(word_at(file, 9)).ok_or(9)
}

// The types, where the file is whole.
#[tactic(auto, unfolding(crate::specs::KeyFiles::head_read))]
fn head(file: &[u8]) -> Result<(MadeHeight, OtsType), u32>
    requires { length file.now ≤ 128 }
    ensures value { result ≡ head_read file.now }
    ensures whole { IfOk result (λ _. length file.now ≡ 128) }
{
    check_magic(file)?;
    check_version(file)?;
    let height = height_of(file)?;
    let width = width_of(file)?;
    if file.len() < SIZE {
        return Err(file.len() as u32);
    }
    Ok((height, width))
}

// What a key file says, or the first place at which the bytes are none.
#[tactic(auto, unfolding(crate::specs::KeyFiles::key_read, crate::specs::KeyFiles::stands))]
pub fn read_key(file: &[u8]) -> Result<KeyContent, u32>
    requires { length file.now ≤ 128 }
    ensures value { result ≡ key_read file.now }
    ensures within { IfOk result (λ c. c.kept.next ≤ made_leaves c.height) }
    ensures whole { IfOk result (λ _. length file.now ≡ 128) }
{
    let (height, width) = head(file)?;
    let total = leaves(height);
    let first = slot_at(file, 64);
    let second = slot_at(file, 96);
    if !first.is_valid(total) && !second.is_valid(total) {
        return Err(64);
    }
    Ok(KeyContent {
        height,
        width,
        identifier: identifier_of(file),
        seed: seed_of(file),
        kept: greatest(first.counted(total), second.counted(total)),
    })
}

fn identifier_of(file: &[u8]) -> [u8; 16]
    requires { 29 ≤ length file.now }
    ensures { result ≡ part file.now 13 16 }
{
    let mut identifier = [0; 16];
    copy_part(file, 13, &mut identifier);
    identifier
}

fn seed_of(file: &[u8]) -> [u8; 32]
    requires { 61 ≤ length file.now }
    ensures { result ≡ part file.now 29 32 }
{
    let mut seed = [0; 32];
    copy_part(file, 29, &mut seed);
    seed
}

fn greatest(a: Standing, b: Standing) -> Standing
    ensures { result ≡ greatest a b }
{
    Standing {
        round: a.round.max(b.round),
        next: a.next.max(b.next),
    }
}

/// The offset of the slot that the next round is written into.
pub fn chosen(file: &[u8], leaves: u32) -> u32
    requires { length file.now ≡ 128 }
    ensures value { result ≡ chosen leaves file.now }
    ensures slot { IsSlot result }
{
    let first = slot_at(file, 64);
    let second = slot_at(file, 96);
    if !first.is_valid(leaves) {
        return 64;
    }
    if second.is_valid(leaves) && first.next < second.next {
        64
    } else {
        96
    }
}

// Zeros.
pub fn blank() -> [u8; 128]
    ensures { result ≡ replicate 128 0 }
{
    [0; SIZE]
}

// Writes the fields before the slots.
#[tactic(auto, unfolding(crate::specs::KeyFiles::fields_written))]
fn write_fields(image: &mut [u8; 128], content: &KeyContent)
    ensures { image.new ≡ fields_written (parts_in content.now) image.old }
{
    overwrite(image, 0, &u32::to_be_bytes(MAGIC));
    overwrite(image, 4, &[1]);
    overwrite(
        image,
        5,
        &u32::to_be_bytes(content.height.lms_type().number()),
    );
    overwrite(image, 9, &u32::to_be_bytes(content.width.number()));
    overwrite(image, 13, &content.identifier);
    overwrite(image, 29, &content.seed);
}

/// The file as it is made, with both gates closed.
#[tactic(auto, unfolding(crate::specs::KeyFiles::made))]
pub fn made(content: &KeyContent) -> [u8; 128]
    ensures value { result ≡ made (parts_in content.now) }
    ensures whole { length result ≡ 128 }
{
    let mut image = blank();
    write_fields(&mut image, content);
    image
}
