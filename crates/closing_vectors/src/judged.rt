//! A log to the end of FINAL A, and what that stage comes to.

ghost use Rattle.std.specs.Prelude.{◌≡◌, ◌<◌, ◌^◌, IfOk, length};
ghost use Rattle.phase_message.specs.Post.{post_spelling};
ghost use Rattle.group_roster.specs.Given.{roster_of};
ghost use Rattle.group_roster.specs.Roster.{shape_of_roster};
ghost use Rattle.go_nogo.specs.Stands.{StandAll};
ghost use Rattle.phase_message.specs.Stages.{shape_of};
ghost use Rattle.closing_verdict.specs.Carried.{AreKeysOf};
ghost use Rattle.closing_verdict.specs.Judgement.{IsComplete};
ghost use Rattle.closing_verdict.specs.Shorts.{KeepsShort};
ghost use Rattle.closing_vectors.specs.Ended.{completed_in};

use crate::words::{bytes, first};
use anyhow::{Result, bail, ensure};
use closing_verdict::{Closing, Conviction, Judged};
use group_roster::{Roster, decode as decode_roster};
use honest_say::GroupKeys;
use phase_message::{Post, Shape, Slot, decode};
use sha2::{Digest, Sha256};
use stage_log::StageLog;
use std::alloc::Global;

// Far more bytes than a post of two members has at FINAL A.
const LIMIT: usize = 1 << 20;

/// The posts of a log, as they were sent.
#[derive(Drop)]
pub struct Sent {
    // The bytes of the group.
    roster: Vec<u8>,
    round: u64,
    posts: Vec<Vec<u8>>,
}

// A log to the end of FINAL A, with the keys that were said in it.
#[derive(Drop)]
struct Ended {
    roster: Roster,
    round: u64,
    log: StageLog,
    keys: GroupKeys,
}

impl Sent {
    /// How many they are.
    pub fn count(&self) -> usize {
        self.posts.len()
    }
}

/// The log of `ROSTER ROUND POST,POST,..`.
pub fn sent_log(alloc: Global, rest: &str) -> Result<Sent> {
    let (roster, rest) = first(rest)?;
    let (round, words) = first(rest)?;
    let roster = bytes(alloc, roster)?;
    let round = round.parse::<u64>()?;
    let mut posts = Vec::new(alloc);
    for word in words.split(',') {
        posts.push(bytes(alloc, word)?)?;
    }
    Ok(Sent {
        roster,
        round,
        posts,
    })
}

/// What FINAL A comes to in a log, but for `SLOT POST`.
pub fn judged(alloc: Global, sent: &Sent, rest: &str) -> Result<String> {
    let (slot, post) = first(rest)?;
    let slot = slot.parse::<usize>()?;
    let post = bytes(alloc, post)?;
    let Ok(roster) = decode_roster(alloc, &sent.roster) else {
        bail!("no roster");
    };
    let log = kept(alloc, roster.shape(), sent, slot, &post)?;
    let ended = ended_log(alloc, roster, sent.round, log)?;
    ended.verdict(alloc)
}

// The log of the posts, with another one in a slot.
fn kept(alloc: Global, shape: Shape, sent: &Sent, slot: usize, post: &[u8]) -> Result<StageLog>
    ensures shape { IfOk result (λ log. log.shape ≡ shape_of shape) }
    ensures stand { IfOk result StandAll }
    ensures short { IfOk result KeepsShort }
{
    let mut log = StageLog::new(alloc, shape)?;
    for place in 0..sent.posts.len() {
        if place == slot {
            keep(alloc, &mut log, post)?;
        } else {
            keep(alloc, &mut log, &sent.posts[place])?;
        }
    }
    Ok(log)
}

// Keeps a post of the grammar in its slot.
fn keep(alloc: Global, log: &mut StageLog, bytes: &[u8]) -> Result<()>
    requires stand { StandAll log.old }
    requires short { KeepsShort log.old }
    ensures stand { StandAll log.new }
    ensures short { KeepsShort log.new }
    ensures shape { log.new.shape ≡ log.old.shape }
{
    let post = post_of(alloc, bytes)?;
    let Ok(content) = decode(alloc, log.shape(), post.content.items()) else {
        bail!("a content outside the grammar");
    };
    let slot = Slot {
        stage: content.header.stage,
        sender: content.header.sender,
    };
    let _put = log.put(slot, post);
    Ok(())
}

// The post that bytes spell, if it is short.
fn post_of(alloc: Global, bytes: &[u8]) -> Result<Post>
    ensures { IfOk result (λ post. length (post_spelling post) < 2 ^ 32) }
{
    let Ok(post) = signed_post::read(alloc, bytes) else {
        bail!("no post");
    };
    ensure!(post.content.items().len() < LIMIT, "a post is too long");
    ensure!(post.signature.items().len() < LIMIT, "a post is too long");
    Ok(post)
}

// A log that goes to the end of FINAL A, with its keys.
fn ended_log(alloc: Global, roster: Roster, round: u64, log: StageLog) -> Result<Ended>
    requires shape { log.shape ≡ shape_of_roster (roster_of roster) }
    requires stand { StandAll log }
    requires short { KeepsShort log }
    ensures complete { IfOk result (λ ended. IsComplete (completed_in ended)) }
    ensures keys { IfOk result (λ ended. AreKeysOf ended.log ended.keys) }
{
    let Some(next) = log.first_incomplete() else {
        bail!("the log goes on");
    };
    if next != log.shape().members + 4 {
        bail!("the log is not to the end of FINAL A");
    }
    let keys = GroupKeys::said(alloc, &log, 1)?;
    Ok(Ended {
        roster,
        round,
        log,
        keys,
    })
}

impl Ended {
    ghost use Rattle.closing_verdict.specs.Carried.{AreKeysOf};
    ghost use Rattle.closing_verdict.specs.Judgement.{IsComplete};
    ghost use Rattle.closing_vectors.specs.Ended.{completed_in};

    // What FINAL A comes to, as it is printed.
    fn verdict(&self, alloc: Global) -> Result<String>
        requires complete { IsComplete (completed_in self.now) }
        requires keys { AreKeysOf self.now.log self.now.keys }
    {
        let closing = Closing {
            roster: &self.roster,
            round: self.round,
            log: &self.log,
            stage: self.roster.shape().members + 3,
            keys: &self.keys,
            opened: None,
            slots: None,
        };
        match closing.judge(alloc)? {
            Judged::Opens(items) => Ok(format!(in alloc; "opens {}", items.len())?),
            Judged::Convicts(conviction) => convicts(alloc, &conviction),
            _ => bail!("another verdict"),
        }
    }
}

// A conviction, as it is printed.
fn convicts(alloc: Global, conviction: &Conviction) -> Result<String> {
    let mut hasher = Sha256::new();
    hasher.update(conviction.transcript.items());
    let digest = hex::encode(alloc, &hasher.finalize())?;
    let accused = conviction.accused;
    let claim = conviction.claim.number();
    Ok(format!(in alloc; "convicts {accused} {claim} {digest}")?)
}
