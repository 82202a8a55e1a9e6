//! What a fault makes of a descriptor and of bodies.

ghost use Rattle.std.specs.Prelude.{◌≡◌, ◌≤◌, IfOk};
ghost use Rattle.bulk_descriptor.specs.Fields.{description_of};
ghost use Rattle.round_script.specs.declared.fault.Fault.TheVariants.{BadDescriptor, BadVotes, DropEntry, FalseNogo, WrongSeed};
ghost use Rattle.group_spec.specs.Alterations.{body_altered, description_altered, is_altered_at, least_other};

use crate::bits::{change_bit, change_hash, change_last_in, copy_to_last};
use bulk_descriptor::Descriptor;
use phase_message::{Body, StageKind};
use round_script::Fault;
use std::alloc::Global;
use wire_core::{List, Mem};

/// The least of the other members.
pub(crate) fn least_other(member: u8) -> u8
    ensures value { result ≡ least_other member }
    ensures least { 1 ≤ result }
{
    if member == 1 { 2 } else { 1 }
}

/// Whether a fault alters contents at stages of a kind.
pub(crate) fn is_altered_at(fault: Fault, kind: Option<StageKind>) -> bool
    ensures { result ≡ is_altered_at fault kind }
{
    match (fault, kind) {
        (Fault::Malformed, Some(StageKind::Keys)) => true,
        (Fault::CopySubmit | Fault::FalseView, Some(StageKind::Submit { shuffle })) => shuffle == 1,
        (Fault::DropEntry | Fault::FalseAbort, Some(StageKind::Shuffle { shuffle, .. })) => shuffle
            == 1,
        (Fault::FalseNogo, Some(StageKind::Go { shuffle })) => shuffle == 1,
        (Fault::WrongSeed | Fault::BadVotes, Some(StageKind::Final { shuffle })) => shuffle == 1,
        (Fault::FlipPad, Some(StageKind::Pad)) => true,
        _ => false,
    }
}

/// The descriptor of a member: a bad one has another bit in the pad hash of the least other member.
pub(crate) fn altered_descriptor(fault: Fault, member: u8, own: Descriptor) -> Descriptor
    ensures { description_of result ≡ description_altered fault member (description_of own) }
{
    match fault {
        Fault::BadDescriptor => bad_descriptor(member, own),
        _ => own,
    }
}

fn bad_descriptor(member: u8, own: Descriptor) -> Descriptor
    ensures { description_of result ≡ description_altered BadDescriptor member (description_of own) }
{
    let Descriptor {
        length,
        message_hash,
        pad_hashes,
        capsules,
    } = own;
    let mut hashes = pad_hashes.into_items();
    change_hash(&mut hashes, usize::from(least_other(member)) - 1);
    Descriptor {
        length,
        message_hash,
        pad_hashes: List::of(hashes),
        capsules,
    }
}

/// A copy of a descriptor.
pub(crate) fn copied(alloc: Global, own: &Descriptor) -> Mem<Descriptor>
    ensures { IfOk result (λ copy. description_of copy ≡ description_of own.now) }
{
    Ok(Descriptor {
        length: own.length,
        message_hash: own.message_hash,
        pad_hashes: List::of(Vec::from_slice(alloc, own.pad_hashes.items())?),
        capsules: List::of(Vec::from_slice(alloc, own.capsules.items())?),
    })
}

/// A turn of a shuffle whose last entry is a copy of the first.
pub(crate) fn with_entry_dropped(alloc: Global, body: Body) -> Mem<Body>
    ensures { IfOk result (λ altered. altered ≡ body_altered DropEntry body) }
{
    match body {
        Body::Shuffled { list } => {
            let mut list = list.into_items();
            copy_to_last(alloc, &mut list)?;
            Ok(Body::Shuffled {
                list: List::of(list),
            })
        }
        body => Ok(body),
    }
}

/// A vote that says no.
pub(crate) fn with_no(body: Body) -> Body
    ensures { result ≡ body_altered FalseNogo body }
{
    match body {
        Body::Go { .. } => Body::Go { yes: false },
        body => body,
    }
}

/// What a member reveals, with another seed.
pub(crate) fn with_wrong_seed(body: Body) -> Body
    ensures { result ≡ body_altered WrongSeed body }
{
    match body {
        Body::Reveal { votes, seed } => {
            let mut seed = seed;
            change_bit(&mut seed, 0);
            Body::Reveal { votes, seed }
        }
        body => body,
    }
}

/// What a member reveals, with another first vote.
pub(crate) fn with_bad_votes(alloc: Global, body: Body) -> Body
    ensures { result ≡ body_altered BadVotes body }
{
    match body {
        Body::Reveal { votes, seed } => {
            let mut votes = votes.into_items();
            change_last_in(alloc, &mut votes, 0);
            Body::Reveal {
                votes: List::of(votes),
                seed,
            }
        }
        body => body,
    }
}
