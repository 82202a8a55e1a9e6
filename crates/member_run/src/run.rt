//! The run of a member over a link.
ghost use Rattle.std.specs.Prelude.{◌≡◌, ◌<◌, ◌↔◌, false, ℕ, List, [], ◌∷◌, ◌++◌, IfErr, IfOk, IsTrue, OnOk, length};
ghost use Rattle.wire_core.specs.Bytes.{IsBytes};
ghost use Rattle.round_link.specs.Traffic.{shown_by};
ghost use Rattle.round_spec.specs.Say.{Configuration};
ghost use Rattle.member_parts.specs.Endings.{HasEnded, IsOpen, IsOutOfMemory, IsRunning};
ghost use Rattle.member_core.specs.Promises.{IsPlainMember};
ghost use Rattle.member_run.specs.Begun.{Begun, Going};
ghost use Rattle.member_run.specs.Ran.{Ran};

use crate::posting::hand_out;
use crate::run_end::{FRAME_LIMIT, RunEnd};
use member_core::{Conduct, Honest, Member, State};
use round_link::{Arrival, Link};
use std::alloc::Global;

/// Runs a member over a link: it makes all posts that are due, takes a frame, and goes on so until its round has ended.
/// The posts that are due at the end of the round are made before the run ends. It takes at most `FRAME_LIMIT` frames.
pub fn run_member<L: Link>(alloc: Global, member: &mut Member<Honest>, link: &mut L) -> RunEnd
    ensures { Ran ⟦<Honest as Conduct>⟧.replies member.old member.new (shown_by L.faults L.frames L.ends L.told link.old)
        (shown_by L.faults L.frames L.ends L.told link.new) result }
{
    for _taken in 0..FRAME_LIMIT {
        if let Err(end) = turn(alloc, member, link) {
            return end;
        }
    }
    if let Err(end) = hand_out(alloc, member, link) {
        return end;
    }
    if has_ended(member) {
        return RunEnd::Ended;
    }
    RunEnd::Flooded
}

// Whether the round has ended for a member.
fn has_ended(member: &Member<Honest>) -> bool
    ensures value { IsTrue result ↔ HasEnded member.now.holds.ending }
    ensures open { IsRunning member.now.holds.ending → result ≡ false → IsOpen member.now.holds.ending }
{
    matches!(member.state(), State::Done | State::Blamed { .. })
}

// One turn: all posts that are due are made, and a frame is taken, unless the round has ended.
fn turn<L: Link>(alloc: Global, member: &mut Member<Honest>, link: &mut L) -> Result<(), RunEnd>
    ensures ok { IfOk result (λ _. (begun : Begun Honest) (frames : List (List ℕ)) →
        Going ⟦<Honest as Conduct>⟧.replies begun frames member.old (shown_by L.faults L.frames L.ends L.told link.old) →
        (frame : List ℕ) × Going ⟦<Honest as Conduct>⟧.replies begun (frames ++ frame ∷ []) member.new
        (shown_by L.faults L.frames L.ends L.told link.new)) }
    ensures err { IfErr result (λ end. (begun : Begun Honest) (frames : List (List ℕ)) → length frames < FRAME_LIMIT →
        Going ⟦<Honest as Conduct>⟧.replies begun frames member.old (shown_by L.faults L.frames L.ends L.told link.old) →
        Ran ⟦<Honest as Conduct>⟧.replies begun.member member.new begun.link (shown_by L.faults L.frames L.ends L.told link.new) end) }
{
    hand_out(alloc, member, link)?;
    if has_ended(member) {
        return Err(RunEnd::Ended);
    }
    match link.recv() {
        Arrival::Frame(frame) => take(alloc, member, frame.items()),
        Arrival::End => Err(RunEnd::Waiting),
        Arrival::Failed => Err(RunEnd::LinkFault),
        Arrival::OutOfMemory => Err(RunEnd::OutOfMemory),
    }
}

// A frame is delivered.
fn take(alloc: Global, member: &mut Member<Honest>, frame: &[u8]) -> Result<(), RunEnd>
    ensures stands { OnOk result ((c : Configuration) (delivered : List (List ℕ)) →
        IsPlainMember ⟦<Honest as Conduct>⟧.replies c delivered member.old →
        IsPlainMember ⟦<Honest as Conduct>⟧.replies c (delivered ++ frame.now ∷ []) member.new) }
    ensures handed { OnOk result (member.new.holds.handed ≡ member.old.holds.handed) }
    ensures err { IfErr result (λ end. (end ≡ RunEnd.OutOfMemory) × IsOutOfMemory member.new.holds.ending) }
    ensures bytes { IsBytes frame.now }
{
    match member.deliver(alloc, frame) {
        Ok(_) => Ok(()),
        Err(_) => Err(RunEnd::OutOfMemory),
    }
}
