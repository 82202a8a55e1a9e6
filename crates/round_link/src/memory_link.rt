//! A link in memory. The calls of a plan fail, and all others don't; it tells its traffic.
ghost use Rattle.std.specs.Prelude.{◌≡◌, ◌≢◌, ◌⊎◌, ◌^◌, ◌<◌, ◌≤◌, ◌↔◌, [], ◌∷◌, ◌++◌, All, IfOk, IfSome, IsSome, IsTrue, None, OnErr, OnOk, Some, length};
ghost use Rattle.outside.specs.Faults.{Rose};
ghost use Rattle.outside.specs.Plans.{after_call, fails_next, plan_of};
ghost use Rattle.round_link.specs.Memory.{IsFrame, new_link, traffic_of};
ghost use Rattle.round_link.specs.Traffic.{IfFrame, Makes, Receives, ends_after, frames_after};

use crate::link::{Arrival, Link, LinkAnswer};
use crate::link_call::LinkCall;
use outside::FaultPlan;
use std::alloc::{AllocError, Global};
use std::marker::Model;
use wire_core::{List, Mem};

/// A link in memory: what is to arrive is given to it, and it keeps what was posted. With no failing calls none fails but
/// for want of memory.
#[derive(Debug, Drop)]
pub struct MemoryLink {
    alloc: Global,
    arrivals: Vec<List<u8>>,
    // How many of the arrivals were taken.
    taken: usize,
    ends: u64,
    calls: Vec<LinkCall>,
    plan: FaultPlan,
}

impl Model for MemoryLink {
    ghost use Rattle.std.specs.Prelude.{◌≡◌, ◌<◌, ◌≤◌, All, drop, length};
    ghost use Rattle.round_link.specs.Memory.{IsFrame, LinkState};

    ghost Value = { LinkState };

    ghost view = { λ link. record {
      left = drop link.taken link.arrivals.items;
      calls = link.calls.items;
      frames = link.taken;
      ends = link.ends;
      plan = link.plan;
    } };

    ghost invariant = { λ link. All IsFrame link.arrivals.items × (link.taken ≤ length link.arrivals.items)
        × (0 < link.ends → link.taken ≡ length link.arrivals.items) };
}

// Whether bytes may come as a frame: there are fewer than 2^32.
fn is_frame(bytes: &List<u8>) -> bool
    ensures { IsTrue result ↔ IsFrame bytes.now }
{
    bytes.items().len() < 4_294_967_296
}

// The same bytes once more.
fn copy_of(alloc: Global, bytes: &[u8]) -> Mem<List<u8>>
    ensures { IfOk result (λ copy. copy ≡ bytes.now) }
{
    Ok(List::of(bytes.to_vec(alloc)?))
}

impl MemoryLink {
    /// A link on which these frames arrive, in this order. The calls with these numbers, from 1, fail. `None` exactly
    /// where some frame has 2^32 bytes or more.
    pub fn new(alloc: Global, arrivals: Vec<List<u8>>, failing: Vec<u64>) -> Option<MemoryLink>
        ensures made { IsSome result ↔ All IsFrame arrivals.items }
        ensures link { IfSome result (λ link. link ≡ new_link arrivals.items (plan_of failing.items)) }
    {
        if !arrivals.iter().all(is_frame) {
            return None;
        }
        Some(MemoryLink {
            alloc,
            arrivals,
            taken: 0,
            ends: 0,
            calls: Vec::new(alloc),
            plan: FaultPlan::new(failing),
        })
    }

    /// The calls of `recv` and `post` so far, as the link tells them.
    pub fn calls(&self) -> &Vec<LinkCall>
        ensures { result.now.items ≡ self.now.calls }
    {
        &self.calls
    }
}

impl MemoryLink {
    // A call that fails by the plan; it is told that no frame was taken.
    fn fail(&mut self) -> Mem<Arrival>
        ensures told { IfOk result (λ arrival. (arrival ≡ Arrival.Failed) × (self.new ≡ record self.old { calls = self.old.calls ++ LinkCall.Received None ∷ [] })) }
        ensures untold { OnErr result (self.new ≡ self.old) }
    {
        self.calls.push(LinkCall::Received(None))?;
        Ok(Arrival::Failed)
    }

    // A post is made. Out of memory it is not.
    fn keep(&mut self, bytes: &[u8]) -> Mem<()>
        ensures made { OnOk result (self.new ≡ record self.old { calls = self.old.calls ++ LinkCall.Posted bytes.now ∷ [] }) }
        ensures unmade { OnErr result (self.new ≡ self.old) }
    {
        self.calls
            .push(LinkCall::Posted(copy_of(self.alloc, bytes)?))?;
        Ok(())
    }

    // The first frame that is left, or the end. Out of memory nothing is taken.
    fn next(&mut self) -> Mem<Arrival>
        requires { self.old.ends ≡ 0 }
        ensures taken { IfOk result (λ arrival. Receives (Some (traffic_of self.old)) (Some (traffic_of self.new)) arrival) }
        ensures counts { IfOk result (λ arrival. (self.new.frames ≡ frames_after arrival self.old.frames) × (self.new.ends ≡ ends_after arrival self.old.ends)) }
        ensures short { IfOk result (λ arrival. IfFrame arrival IsFrame) }
        ensures plan { self.new.plan ≡ self.old.plan }
        ensures unplanned { IfOk result (λ arrival. (arrival ≢ Arrival.Failed) × (arrival ≢ Arrival.OutOfMemory)) }
        ensures untold { OnErr result (self.new ≡ self.old) }
    {
        let Some(frame) = self.arrivals.get(self.taken) else {
            self.calls.push(LinkCall::Received(None))?;
            self.ends = 1;
            return Ok(Arrival::End);
        };
        let told = copy_of(self.alloc, frame.items())?;
        let frame = copy_of(self.alloc, frame.items())?;
        self.calls.push(LinkCall::Received(Some(told)))?;
        self.taken += 1;
        Ok(Arrival::Frame(frame))
    }
}

impl Link for MemoryLink {
    ghost use Rattle.round_link.specs.Memory.{traffic_of};

    ghost faults = { λ link. link.plan.faults };

    ghost frames = { λ link. link.frames };

    ghost ends = { λ link. link.ends };

    ghost told = { λ link. Some (traffic_of link) };

    fn begin(&mut self, _number: u8, _addresses: &Vec<String>, _wait: u32) -> LinkAnswer
        ensures kept { Some (traffic_of self.new) ≡ Some (traffic_of self.old) }
        ensures frames { self.new.frames ≡ self.old.frames }
        ensures ends { self.new.ends ≡ self.old.ends }
        ensures failed { result ≡ LinkAnswer.Failed → Rose self.old.plan.faults self.new.plan.faults }
        ensures no_fall { self.old.plan.faults ≤ self.new.plan.faults }

        // By the plan: a call fails just where it has it fail, and takes no memory.
        ensures planned { (result ≡ LinkAnswer.Failed) ↔ IsTrue (fails_next self.old.plan) }
        ensures memory { result ≢ LinkAnswer.OutOfMemory }
        ensures counted { self.new.plan ≡ after_call self.old.plan }
    {
        if self.plan.fails() {
            return LinkAnswer::Failed;
        }
        LinkAnswer::Done
    }

    fn recv(&mut self) -> Arrival
        ensures received { Receives (Some (traffic_of self.old)) (Some (traffic_of self.new)) result }
        ensures short { IfFrame result (λ frame. length frame < 2 ^ 32) }
        ensures ended { 0 < self.old.ends → result ≡ Arrival.End }
        ensures frames { self.new.frames ≡ frames_after result self.old.frames }
        ensures ends { self.new.ends ≡ ends_after result self.old.ends }
        ensures failed { result ≡ Arrival.Failed → Rose self.old.plan.faults self.new.plan.faults }
        ensures no_fall { self.old.plan.faults ≤ self.new.plan.faults }

        // By the plan, before it has answered End: a call fails only where the plan has it fail, and there takes no frame.
        ensures planned { self.old.ends ≡ 0 → IsTrue (fails_next self.old.plan) → (result ≡ Arrival.Failed) ⊎ (result ≡ Arrival.OutOfMemory) }
        ensures unplanned { result ≡ Arrival.Failed → IsTrue (fails_next self.old.plan) }
        ensures counted { self.new.plan ≡ after_call self.old.plan }
    {
        let fails = self.plan.fails();
        if self.ends > 0 {
            self.ends = self.ends.saturating_add(1);
            return Arrival::End;
        }
        let arrival = if fails { self.fail() } else { self.next() };
        arrival.unwrap_or(Arrival::OutOfMemory)
    }

    fn post(&mut self, bytes: &Vec<u8>) -> LinkAnswer
        ensures made { Makes (Some (traffic_of self.old)) (Some (traffic_of self.new)) bytes.now.items result }
        ensures frames { self.new.frames ≡ self.old.frames }
        ensures ends { self.new.ends ≡ self.old.ends }
        ensures failed { result ≡ LinkAnswer.Failed → Rose self.old.plan.faults self.new.plan.faults }
        ensures no_fall { self.old.plan.faults ≤ self.new.plan.faults }

        // By the plan: a call fails just where it has it fail.
        ensures planned { (result ≡ LinkAnswer.Failed) ↔ IsTrue (fails_next self.old.plan) }
        ensures counted { self.new.plan ≡ after_call self.old.plan }
    {
        if self.plan.fails() {
            return LinkAnswer::Failed;
        }
        match self.keep(bytes) {
            Ok(()) => LinkAnswer::Done,
            Err(AllocError) => LinkAnswer::OutOfMemory,
        }
    }
}
