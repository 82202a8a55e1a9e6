//! A round from a script.

ghost use Rattle.std.specs.Prelude.{◌≡◌, ◌≤◌, ◌+◌, [], ◌∷◌, IfOk, length, map};
ghost use Rattle.lms_tree.specs.Secret.{own_public};
ghost use Rattle.lms_tree.specs.Tree.{key_bytes};
ghost use Rattle.wire_core.specs.Hash.{hash_of};
ghost use Rattle.group_roster.specs.Given.{roster_of};
ghost use Rattle.round_script.specs.Script.{IsScript};
ghost use Rattle.group_spec.specs.Scripts.{fault_in, script_end, script_members, script_roster};
ghost use Rattle.group_threads.specs.Given.{ShowsGroup};
ghost use Rattle.group_threads.specs.Scripted.{entrance_of, leaves_of, script_entrance, script_secret, spare_of};

use crate::copying::copied_roster;
use crate::driving::drive;
use crate::ending::GroupEnd;
use crate::leaves::Leaves;
use faulty_member::Fault;
use group_roster::Roster;
use lms_tree::{LmsSecret, MadeHeight, OtsType};
use member_core::Config;
use round_script::{FaultLine, Script};
use std::alloc::{AllocError, Global};
use wire_core::{List, Mem, Register, Tag};

/// The leaves that a member may use in a round.
const ROUND_LEAVES: u32 = 12;

/// The round of a script: its keys and all that is fresh are drawn from its seed.
pub fn run_scripted(alloc: Global, script: &Script) -> Mem<GroupEnd>
    requires { IsScript script.now }
    ensures exact { IfOk result (ShowsGroup (script_end script.now)) }
    ensures roster { IfOk result (λ end. roster_of end.roster ≡ script_roster script.now) }
{
    let keys = secrets_of(alloc, script)?;
    let roster = roster_of(alloc, &keys)?;
    let configs = configs_of(alloc, script, &roster)?;
    let faults = faults_of(alloc, script)?;
    let runs = runs_of(alloc, keys)?;
    let (leaves, spare) = runs;
    let repeat = script.repeat.unwrap_or(1);
    drive(
        alloc,
        &configs,
        leaves,
        spare,
        &faults,
        script.drops.items(),
        repeat,
    )
}

// What a member draws from the seed.
fn drawn(tag: Tag, seed: &[u8; 32], member: u8) -> [u8; 32]
    ensures { result ≡ hash_of tag (seed.now ∷ (member ∷ []) ∷ []) }
{
    let mut register = Register::new(tag);
    register.piece(seed);
    register.piece(&[member]);
    register.end()
}

// The keys of all members, of which no leaf has been used.
fn secrets_of(alloc: Global, script: &Script) -> Mem<Vec<LmsSecret>>
    requires { length script.now.messages ≤ 8 }
    ensures { IfOk result (λ keys. keys.items ≡ map (script_secret script.now) (script_members script.now)) }
{
    let mut keys = Vec::new(alloc);
    for place in 0..script.messages.items().len() {
        let key = secret_of(alloc, script, place as u8 + 1)?;
        keys.push(key)?;
    }
    Ok(keys)
}

fn secret_of(alloc: Global, script: &Script, member: u8) -> Mem<LmsSecret>
    ensures { IfOk result (λ key. key ≡ script_secret script.now member) }
{
    let master = drawn(Tag::ScriptKey, &script.seed, member);
    LmsSecret::make(alloc, MadeHeight::H5, OtsType::W4, &master, 0)
}

fn roster_of(alloc: Global, keys: &Vec<LmsSecret>) -> Mem<Roster>
    ensures { IfOk result (λ roster. roster_of roster ≡ record {
      version = 1;
      keys = map (λ key. key_bytes (own_public key.parts)) keys.now.items;
    }) }
{
    let public = public_of(alloc, keys)?;
    match Roster::new(1, List::of(public)) {
        Some(roster) => Ok(roster),
        None => Err(AllocError),
    }
}

// The public keys.
fn public_of(alloc: Global, keys: &Vec<LmsSecret>) -> Mem<Vec<[u8; 56]>>
    ensures { IfOk result (λ public. public.items ≡ map (λ key. key_bytes (own_public key.parts)) keys.now.items) }
{
    let mut public = Vec::with_capacity(alloc, keys.len())?;
    for key in keys {
        public.push(key.public().bytes())?;
    }
    Ok(public)
}

// What all members enter the round with.
fn configs_of(alloc: Global, script: &Script, roster: &Roster) -> Mem<Vec<Config>>
    requires { length script.now.messages ≤ 8 }
    ensures { IfOk result (λ configs. map entrance_of configs.items
        ≡ map (script_entrance script.now (roster_of roster.now)) (script_members script.now)) }
{
    let mut configs = Vec::new(alloc);
    for place in 0..script.messages.items().len() {
        let config = config_of(alloc, script, roster, place as u8 + 1)?;
        configs.push(config)?;
    }
    Ok(configs)
}

fn config_of(alloc: Global, script: &Script, roster: &Roster, number: u8) -> Mem<Config>
    requires first { 1 ≤ number }
    requires last { number ≤ length script.now.messages }
    ensures { IfOk result (λ config. entrance_of config ≡ script_entrance script.now (roster_of roster.now) number) }
{
    let message = &script.messages.items()[usize::from(number) - 1];
    Ok(Config {
        roster: copied_roster(alloc, roster)?,
        number,
        round: script.round,
        fresh: drawn(Tag::ScriptFresh, &script.seed, number),
        message: List::of(Vec::from_slice(alloc, message.items())?),
    })
}

// The faults of all members.
fn faults_of(alloc: Global, script: &Script) -> Mem<Vec<Fault>>
    requires { length script.now.messages ≤ 8 }
    ensures { IfOk result (λ faults. faults.items ≡ map (fault_in script.now.faults) (script_members script.now)) }
{
    let mut faults = Vec::new(alloc);
    for place in 0..script.messages.items().len() {
        let fault = fault_in(script, place as u8 + 1);
        faults.push(fault)?;
    }
    Ok(faults)
}

fn fault_in(script: &Script, member: u8) -> Fault
    ensures { result ≡ fault_in script.now.faults member }
{
    fault_of(script.faults.items(), member)
}

// The fault of a member, by its line if it has one.
fn fault_of(lines: &Vec<FaultLine>, member: u8) -> Fault
    ensures { result ≡ fault_in lines.now.items member }
{
    for line in lines {
        if line.member == member {
            return line.fault;
        }
    }
    Fault::None
}

// The leaves of each key for the round, and the spare one behind them.
fn runs_of(alloc: Global, keys: Vec<LmsSecret>) -> Mem<(Vec<Leaves>, Vec<Leaves>)>
    ensures own { IfOk result (λ runs. runs.0.items ≡ map leaves_of keys.items) }
    ensures spare { IfOk result (λ runs. runs.1.items ≡ map spare_of keys.items) }
{
    let mut leaves = Vec::new(alloc);
    let mut spare = Vec::new(alloc);
    for key in keys {
        let (own, second) = two_runs(alloc, key)?;
        leaves.push(own)?;
        spare.push(second)?;
    }
    Ok((leaves, spare))
}

fn two_runs(alloc: Global, key: LmsSecret) -> Mem<(Leaves, Leaves)>
    ensures own { IfOk result (λ runs. runs.0 ≡ leaves_of key) }
    ensures spare { IfOk result (λ runs. runs.1 ≡ spare_of key) }
{
    let mut key = key;
    let own = reserved(alloc, &mut key, ROUND_LEAVES)?;
    let second = reserved(alloc, &mut key, 1)?;
    Ok((own, second))
}

fn reserved(alloc: Global, key: &mut LmsSecret, count: u32) -> Mem<Leaves>
    ensures run { IfOk result (λ run. run ≡ record { parts = key.old.parts; first = key.old.next; left = count }) }
    ensures risen { IfOk result (λ _. key.new ≡ record { parts = key.old.parts; next = key.old.next + count }) }
{
    match key.reserve(alloc, count) {
        Ok(run) => Ok(Leaves { run }),
        Err(_) => Err(AllocError),
    }
}
