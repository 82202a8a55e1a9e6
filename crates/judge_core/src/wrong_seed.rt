//! The claim WrongSeed: the seed that a member reveals is not that of the inner key that it said.

ghost use Rattle.group_roster.specs.Given.{roster_of};
ghost use Rattle.std.specs.Prelude.{◌≡◌, ◌<◌, ◌∷◌, [], length, Some, Ok, Err};
ghost use Rattle.phase_message.specs.Shape.{Shape as GivenShape};
ghost use Rattle.phase_message.specs.Stages.{shape_of};
ghost use Rattle.wire_core.specs.Answers.{Gives};
ghost use Rattle.judge_core.specs.Checks.{conviction_of, is_seed_right};
ghost use Rattle.judge_core.specs.Case.{case_of, said_of};
ghost use Rattle.judge_core.specs.WrongSeed.{IsKeysContent, RevealsSeed, SaysKey, SpellsKeys, SpellsReveal, shuffle_ended};
ghost use Rattle.round_spec.specs.Slots.{inner_place};

use crate::failed_check::FailedCheck;
use crate::hearing::{Case, Said, take};
use phase_message::{Shape, StageKind, stage_kind};
use ring_encrypt::public_of;
use transcript_form::{Claim, ListedPosts};

// Where the first key of a content of keys stands.
const KEYS_AT: usize = 76;

// Whether two posts are the keys of the accused, and a seed that it reveals and that is not of these keys.
pub(crate) fn wrong_seed(case: Case<'_>, mut posts: ListedPosts<'_>) -> Result<(), FailedCheck>
    requires claim { case.claim ≡ Claim.WrongSeed }
    requires two { length posts ≡ 2 }
    ensures { Gives (λ e. Some e) (λ x. x) result (conviction_of (case_of case.entry) posts.entry) }
{
    let (Some(first_post), Some(second_post)) = (posts.next(), posts.next()) else {
        unreachable!()
    };
    let first = take(case, None, 1, first_post)?;
    let second = take(case, Some(first.header), 2, second_post)?;
    if is_seed_right(case.roster.shape(), first, second) {
        return Err(FailedCheck::SeedFits);
    }
    Ok(())
}

// Whether the seed that the second post reveals is that of the inner key in the first.
fn is_seed_right(shape: Shape, keys: Said<'_>, last: Said<'_>) -> bool
    requires keys { IsKeysContent (shape_of shape) keys.content.now }
    requires last { RevealsSeed (shape_of shape) last.content.now }
    ensures { result ≡ is_seed_right (shape_of shape) (said_of keys.entry ∷ said_of last.entry ∷ []) }
{
    let Some(shuffle) = shuffle_ended(stage_kind(shape, last.header.stage)) else {
        return true;
    };
    let key = key_in(keys.content, inner_place(shuffle));
    public_of(&seed_in(last.content)).bytes().as_slice() == key
}

// The key at a place from 0, of a content of five keys.
fn key_in(content: &[u8], place: usize) -> &[u8]
    requires place { place < 5 }
    requires keys { SpellsKeys content.now }
    ensures { (shape : GivenShape) → IsKeysContent shape content.now → SaysKey shape content.now place result.now }
{
    let at = KEYS_AT + 1824 * place;
    &content[at..at + 1824]
}

// The seed at the end of a content that reveals it.
fn seed_in(content: &[u8]) -> [u8; 32]
    requires { SpellsReveal content.now }
    ensures { (shape : GivenShape) (reveals : RevealsSeed shape content.now) → result ≡ reveals.seed }
{
    let mut seed = [0; 32];
    seed.copy_from_slice(&content[content.len() - 32..]);
    seed
}

// Which shuffle a stage ends.
fn shuffle_ended(kind: Option<StageKind>) -> Option<u8>
    ensures { result ≡ shuffle_ended kind }
{
    match kind {
        Some(StageKind::Final { shuffle }) => Some(shuffle),
        _ => None,
    }
}

// Which of five keys is the inner one of a shuffle.
fn inner_place(shuffle: u8) -> usize
    ensures value { result ≡ inner_place shuffle }
    ensures within { result < 5 }
{
    if shuffle == 1 { 0 } else { 3 }
}
