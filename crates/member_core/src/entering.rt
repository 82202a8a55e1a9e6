//! Entering a round.

use crate::machine::Machine;
use honest_say::Seat;
use lms_tree::LeafRun;
use member_parts::{Config, Ending, Own, Secrets};
use member_spec::Mood;
use stage_log::{Seen, StageLog};
use std::alloc::Global;
use wire_core::Mem;

impl Machine {
    ghost use Rattle.std.specs.Prelude.{◌≡◌, ◌≤◌, IfOk, length};
    ghost use Rattle.bulk_descriptor.specs.declared.making.TheConstants.{MESSAGE_LIMIT};
    ghost use Rattle.group_roster.specs.Given.{roster_of};
    ghost use Rattle.group_roster.specs.Roster.{shape_of_roster};
    ghost use Rattle.stage_log.specs.Table.{empty_log};
    ghost use Rattle.round_spec.specs.Say.{Configuration, shape_in};
    ghost use Rattle.member_spec.specs.Actor.{first_actor};
    ghost use Rattle.member_spec.specs.Replies.{Replies};
    ghost use Rattle.member_parts.specs.Endings.{IsOpen};
    ghost use Rattle.member_parts.specs.Secrets.{AreAll, AreSecretsOf};
    ghost use Rattle.member_core.specs.Membership.{holdings_of};
    ghost use Rattle.member_core.specs.Sound.{IsSound};
    ghost use Rattle.member_core.specs.Stands.{StandsFor, configuration_of};

    // Enters a round, before anything was said. Out of memory the leaves are retired.
    pub(crate) fn enter(alloc: Global, config: Config, leaves: LeafRun) -> Mem<Machine>
        requires first { 1 ≤ config.number }
        requires last { config.number ≤ length config.roster.keys }
        requires short { length config.message ≤ MESSAGE_LIMIT }
        requires leaves { 12 ≤ leaves.left }
        ensures sound { IfOk result IsSound }
        ensures open { IfOk result (λ machine. IsOpen machine.ending) }
        ensures handed { IfOk result (λ machine. machine.handed ≡ 0) }
        ensures stands { IfOk result (λ machine. (now : Replies) → StandsFor now now (configuration_of config leaves)
            (first_actor (configuration_of config leaves)) (holdings_of machine)) }
    {
        match config.log_and_secrets(alloc) {
            Ok((log, secrets)) => Ok(Machine::of(alloc, config, leaves, log, secrets)),
            Err(error) => {
                leaves.retire();
                Err(error)
            }
        }
    }

    // At the first stage.
    fn of(
        alloc: Global,
        config: Config,
        leaves: LeafRun,
        log: StageLog,
        secrets: Secrets,
    ) -> Machine
        requires first { 1 ≤ config.number }
        requires last { config.number ≤ length config.roster.keys }
        requires short { length config.message ≤ MESSAGE_LIMIT }
        requires leaves { 12 ≤ leaves.left }
        requires log { log ≡ empty_log (shape_of_roster (roster_of config.roster)) }
        requires secrets { (c : Configuration) → c.fresh ≡ config.fresh → c.round ≡ config.round →
            (shape_in c).members ≡ length config.roster.keys → AreSecretsOf c secrets }
        requires all { AreAll secrets }
        ensures sound { IsSound result }
        ensures open { IsOpen result.ending }
        ensures handed { result.handed ≡ 0 }
        ensures stands { (now : Replies) → StandsFor now now (configuration_of config leaves)
            (first_actor (configuration_of config leaves)) (holdings_of result) }
    {
        config.have_bounds(&leaves);
        let Config {
            roster,
            number,
            round,
            fresh: _,
            message,
        } = config;
        let seat = Seat::new(&roster, round, number);
        let seen = Seen::new(seat.shape);
        Machine {
            roster,
            seat,
            message,
            leaves,
            log,
            seen,
            stage: 0,
            mood: Mood::Unasked,
            stray: None,
            handed: 0,
            secrets,
            own: Own::new(alloc),
            keys: None,
            opened: None,
            slots: None,
            ending: Ending::Open,
        }
    }
}
