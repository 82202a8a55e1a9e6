//! The rows of submissions.

ghost use Rattle.std.specs.Prelude.{◌≡◌, ◌≤◌, ◌<◌, ℕ, All, List, IfOk, length, vec_len};
ghost use Rattle.phase_message.specs.declared.post.TheConstants.{POST_LIMIT};
ghost use Rattle.bulk_descriptor.specs.declared.making.TheConstants.{MESSAGE_LIMIT};
ghost use Rattle.bulk_descriptor.specs.Descriptor.{own_pad};
ghost use Rattle.bulk_descriptor.specs.Fields.{description_of};
ghost use Rattle.accusation.specs.Item.{NamesWithin};
ghost use Rattle.round_spec.specs.Slots.{bulk_place, items_opened, keys_said, slots_of_past};
ghost use Rattle.round_spec.specs.Say.{Configuration, own_description, own_item, own_pad_seeds, own_submission, shape_in};
ghost use Rattle.honest_say.specs.Own.{AreBulkSecrets, AreShuffleKeys, AreShuffleSecrets};
ghost use Rattle.honest_say.specs.Seats.{IsSeatOf};

use crate::group_keys::ShuffleKeys;
use crate::seat::Seat;
use crate::secrets::{BulkSecrets, ShuffleSecrets};
use accusation::own_item;
use bulk_descriptor::{Made, SlotState, make};
use ring_encrypt::PublicKey;
use shuffle_core::{Submission, layer_seeds, submission};
use std::alloc::Global;
use wire_core::{List, Mem};

// The side of the inner layers.
const INNER: u8 = 1;

// The side of the outer ones.
const OUTER: u8 = 2;

/// The descriptor of a message of at most 65,536 bytes, made by the bulk keys that all members said, by member, and the
/// pad that the member sends itself.
pub fn make_descriptor(
    alloc: Global,
    seat: &Seat,
    keys: &Vec<PublicKey>,
    secrets: &BulkSecrets,
    message: &[u8],
) -> Mem<Made>
    requires keys { vec_len keys.now ≡ seat.now.shape.members }
    requires seeds { length secrets.now.pad_seeds ≡ seat.now.shape.members }
    requires short { length message.now ≤ MESSAGE_LIMIT }
    ensures descriptor { IfOk result (λ made. (c : Configuration) (past : List (List ℕ)) → IsSeatOf c seat.now →
        AreBulkSecrets c secrets.now → message.now ≡ c.message → keys.now.items ≡ keys_said (shape_in c) past bulk_place →
        description_of made.descriptor ≡ own_description c past) }
    ensures pad { IfOk result (λ made. (c : Configuration) → IsSeatOf c seat.now → AreBulkSecrets c secrets.now →
        message.now ≡ c.message → made.own_pad ≡ own_pad (own_pad_seeds c) c.number c.message) }
{
    let seeds = secrets.pad_seeds.items();
    let made = make(alloc, keys, seeds, seat.number, message)?;
    Ok(made)
}

/// The 34 bytes that the member puts into shuffle B: what it accuses of, or zeros. `own` are the bytes of its own
/// descriptor, and the states are those of the slots that the list of shuffle A opened to.
pub fn accusation_item(
    own: &[u8],
    opened: &Vec<Option<List<u8>>>,
    states: &Vec<SlotState>,
    secrets: &BulkSecrets,
) -> [u8; 34]
    requires as_many { vec_len opened.now ≡ vec_len states.now }
    requires few { vec_len states.now ≤ 255 }
    requires members { All (NamesWithin (length secrets.now.pad_seeds)) states.now.items }
    ensures { (c : Configuration) (past : List (List ℕ)) → AreBulkSecrets c secrets.now →
        opened.now.items ≡ items_opened (shape_in c) past 1 → states.now.items ≡ slots_of_past (shape_in c) past →
        result ≡ own_item c own.now past 2 }
{
    let seeds = secrets.pad_seeds.items();
    let item = own_item(own, opened, states, seeds);
    item
}

/// An item of fewer than `POST_LIMIT` bytes, 16,777,216, as the member submits it to a shuffle: in layers under the inner
/// keys that all members said, and these in layers under the outer ones.
pub fn submit(
    alloc: Global,
    seat: &Seat,
    secrets: &ShuffleSecrets,
    keys: &ShuffleKeys,
    shuffle: u8,
    item: &[u8],
) -> Mem<Submission>
    requires inner { length keys.now.inner ≡ seat.now.shape.members }
    requires outer { length keys.now.outer ≡ seat.now.shape.members }
    requires short { length item.now < POST_LIMIT }
    ensures { IfOk result (λ submission. (c : Configuration) (own : List ℕ) (past : List (List ℕ)) → IsSeatOf c seat.now →
        AreShuffleSecrets c shuffle secrets.now → AreShuffleKeys (shape_in c) past shuffle keys.now →
        item.now ≡ own_item c own past shuffle → submission ≡ own_submission c own past shuffle) }
{
    let Seat {
        shape,
        round,
        number,
        ..
    } = *seat;
    let n = shape.members;
    let inner = &secrets.inner_opening;
    let outer = &secrets.outer_opening;
    let inner_seeds = layer_seeds(alloc, inner, round, shuffle, INNER, number, n)?;
    let outer_seeds = layer_seeds(alloc, outer, round, shuffle, OUTER, number, n)?;
    let inner_keys = keys.inner.items();
    let outer_keys = keys.outer.items();
    let submission = submission(
        alloc,
        inner_keys,
        outer_keys,
        &inner_seeds,
        &outer_seeds,
        item,
    )?;
    Ok(submission)
}
