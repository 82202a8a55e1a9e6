//! Where all agree at the end of a shuffle: the seeds that the members revealed.

ghost use Rattle.std.specs.Prelude.{◌≡◌, ◌≤◌, All, IfOk, IsTrue, Some, length, map};
ghost use Rattle.wire_core.specs.Answers.{first_below};
ghost use Rattle.closing_verdict.specs.Telling.{TellsSeed, seed_told, wrong_at};

use crate::convicting::Charge;
use crate::judging::{Closing, Judged};
use crate::reading::Told;
use honest_say::opened_items;
use phase_message::{Slot, StageKind};
use ring_encrypt::{PublicKey, is_key_of};
use std::alloc::Global;
use transcript_form::Claim;
use wire_core::Mem;

impl<'a> Closing<'a> {
    ghost use Rattle.std.specs.List.{list_all};
    ghost use Rattle.phase_message.specs.Stages.{kind_of_stage};
    ghost use Rattle.shuffle_blame.specs.Asked.{past_of};
    ghost use Rattle.round_spec.specs.Slots.{inner_place, keys_said};
    ghost use Rattle.closing_verdict.specs.Closed.{AreTold};
    ghost use Rattle.closing_verdict.specs.Judgement.{IsToBeJudged, TellsVerdict, completed_of, stage_closed, verdict_in};
    ghost use Rattle.closing_verdict.specs.Telling.{seed_conviction, tells_assent};

    // What the end of a shuffle comes to where all agree.
    pub(crate) fn judge_seeds(self, alloc: Global, shuffle: u8, told: &Vec<Told>) -> Mem<Judged>
        requires closing { IsToBeJudged self }
        requires told { AreTold (completed_of self) told.now.items }
        requires agree { IsTrue (list_all tells_assent told.now.items) }
        requires at { kind_of_stage self.log.now.shape self.stage ≡ Some (StageKind.Final shuffle) }
        ensures { IfOk result (TellsVerdict (completed_of self.entry)) }
    {
        let seeds = seeds_revealed(alloc, told)?;
        if let Some(member) = wrong_seed(&seeds, self.inner_keys(shuffle)) {
            return self.convict_seed(alloc, member);
        }
        if shuffle == 1 {
            let items = opened_items(alloc, self.log, self.stage + 1, 1, &seeds)?;
            Ok(Judged::Opens(items))
        } else {
            self.judge_accusations(alloc, &seeds)
        }
    }

    // The keys of the inner layers of a shuffle, by member.
    fn inner_keys(self, shuffle: u8) -> &'a [PublicKey]
        requires { IsToBeJudged self }
        ensures keys { result.now ≡ keys_said self.entry.log.now.shape (past_of self.entry.log.now 1) (inner_place shuffle) }
        ensures count { length result.now ≡ self.entry.log.now.shape.members }
    {
        if shuffle == 1 {
            self.keys.first.inner.items().as_slice()
        } else {
            self.keys.second.inner.items().as_slice()
        }
    }

    // A member revealed a seed that is not that of its key: its keys and its closing post show it.
    fn convict_seed(self, alloc: Global, member: u8) -> Mem<Judged>
        requires closing { IsToBeJudged self }
        requires least { 1 ≤ member }
        requires most { member ≤ self.log.now.shape.members }
        requires verdict { verdict_in (completed_of self) ≡ seed_conviction (stage_closed (completed_of self)) member }
        ensures { IfOk result (TellsVerdict (completed_of self.entry)) }
    {
        let keys = Slot {
            stage: 0,
            sender: member,
        };
        let last = Slot {
            stage: self.stage,
            sender: member,
        };
        let mut posts = Vec::with_capacity(alloc, 2)?;
        posts.push(self.post_sent(alloc, keys)?)?;
        posts.push(self.post_sent(alloc, last)?)?;
        let charge = Charge::of(Claim::WrongSeed, member, self.round);
        let conviction = charge.shown_by(alloc, posts)?;
        Ok(Judged::Convicts(conviction))
    }
}

// The seeds that the members revealed.
fn seeds_revealed(alloc: Global, told: &[Told]) -> Mem<Vec<[u8; 32]>>
    requires { All TellsSeed told.now }
    ensures { IfOk result (λ seeds. seeds.items ≡ map seed_told told.now) }
{
    let mut seeds = Vec::with_capacity(alloc, told.len())?;
    for one in told {
        seeds.push(seed_revealed(*one))?;
    }
    Ok(seeds)
}

fn seed_revealed(told: Told) -> [u8; 32]
    requires { TellsSeed told }
    ensures { result ≡ seed_told told }
{
    match told {
        Told::Reveals { seed } => seed,
        _ => unreachable!(),
    }
}

// The least member whose seed is not that of its key.
fn wrong_seed(seeds: &[[u8; 32]], keys: &[PublicKey]) -> Option<u8>
    requires count { length keys.now ≡ length seeds.now }
    requires few { length seeds.now ≤ 8 }
    ensures { result ≡ first_below (length seeds.now) (wrong_at seeds.now keys.now) }
{
    for place in 0..seeds.len() {
        if !is_key_of(&seeds[place], &keys[place]) {
            return Some(place as u8 + 1);
        }
    }
    None
}
