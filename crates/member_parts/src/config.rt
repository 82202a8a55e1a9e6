//! What a member enters a round with.

ghost use Rattle.std.specs.Prelude.{◌<◌, ◌≤◌, ◌+◌, ◌^◌};
ghost use Rattle.wire_core.specs.Bytes.{IsBytes};

use crate::secrets::Secrets;
use group_roster::Roster;
use lms_tree::LeafRun;
use stage_log::StageLog;
use std::alloc::Global;
use wire_core::{List, Mem};

/// What a member enters a round with, beside the leaves that it signs with.
#[derive(Drop)]
pub struct Config {
    pub roster: Roster,
    /// The member's number, from 1: the place of its key in the roster.
    pub number: u8,
    pub round: u64,
    /// Fresh bytes, of which all secrets of the round are made.
    pub fresh: [u8; 32],
    /// The message, of at most 65,536 bytes.
    pub message: List<u8>,
}

impl Config {
    ghost use Rattle.std.specs.Prelude.{◌≡◌, ◌<◌, ◌≤◌, ◌+◌, ◌^◌, IfOk, length};
    ghost use Rattle.wire_core.specs.Bytes.{IsBytes};
    ghost use Rattle.lms_tree.specs.Secret.{leaves};
    ghost use Rattle.group_roster.specs.Given.{roster_of};
    ghost use Rattle.group_roster.specs.Roster.{shape_of_roster};
    ghost use Rattle.stage_log.specs.Table.{empty_log};
    ghost use Rattle.round_spec.specs.Say.{Configuration, shape_in};
    ghost use Rattle.member_parts.specs.Secrets.{AreAll, AreSecretsOf};

    /// What the types of a round, of a message and of leaves say.
    pub fn have_bounds(&self, run: &LeafRun)
        ensures round { self.now.round < 2 ^ 64 }
        ensures message { IsBytes self.now.message }
        ensures leaves { run.now.first + run.now.left ≤ leaves run.now.parts }
    {
        let _round = self.round;
        are_bytes(self.message.items());
        let _next = run.next();
    }

    /// A log of the group that holds nothing, and all secrets of the round.
    pub fn log_and_secrets(&self, alloc: Global) -> Mem<(StageLog, Secrets)>
        ensures log { IfOk result (λ made. made.0 ≡ empty_log (shape_of_roster (roster_of self.now.roster))) }
        ensures secrets { IfOk result (λ made. (c : Configuration) → c.fresh ≡ self.now.fresh → c.round ≡ self.now.round →
            (shape_in c).members ≡ length self.now.roster.keys → AreSecretsOf c made.1) }
        ensures all { IfOk result (λ made. AreAll made.1) }
    {
        let shape = self.roster.shape();
        let log = StageLog::new(alloc, shape)?;
        let secrets = Secrets::derive(alloc, &self.fresh, self.round, shape.members)?;
        Ok((log, secrets))
    }
}

fn are_bytes(bytes: &[u8])
    ensures { IsBytes bytes.now }
{
    let _first = bytes.first();
}
