//! The table of a round's posts.

ghost use Rattle.std.specs.Prelude.{◌≡◌, ◌<◌, ◌≤◌, ◌+◌, ◌-◌, ◌^◌, ◌++◌, ◌∷◌, [], ℕ, List, length, replicate, bytes_eq, None, Some, IsTrue, IsSome, IfOk, IfSome, OnOk};
ghost use Rattle.std.specs.Option.{option_copied};
ghost use Rattle.wire_core.specs.declared.tag.Tag.TheVariants.{View};
ghost use Rattle.wire_core.specs.Answers.{first_below};
ghost use Rattle.wire_core.specs.Hash.{hash_of};
ghost use Rattle.phase_message.specs.Slots.{slot_at, slots_before};
ghost use Rattle.phase_message.specs.Stages.{is_slot, shape_of};
ghost use Rattle.stage_log.specs.Table.{AreKept, IsKept, IsLog, empty_log, first_incomplete_of, is_complete, kept_in, missing_bit, missing_bits, posts_in};
ghost use Rattle.stage_log.specs.Log.{before, content_in, contents_in, has_view, is_carried, log_first_wrong, log_view, posts_kept, sender_of, unlike_at};
ghost use Rattle.stage_log.specs.Running.{Carries};

use crate::running::RunningView;
use phase_message::{
    Header, Post, Shape, Slot, StageKind, is_slot, read_header, slot_number, slots_before,
    stage_kind,
};
use std::alloc::Global;
use std::marker::Model;
use wire_core::{List, Mem, Short};

/// What became of a post that was put into a log.
#[derive(Debug, Drop)]
pub enum Put {
    /// It is kept.
    Stored,
    /// The slot holds a post with this content: the post that was put, handed back.
    Same(Post),
    /// The slot holds a post with another content: the post that was put, handed back.
    Other(Post),
}

/// The posts that a member keeps of a round, at most one for each slot.
#[derive(Debug, Drop)]
pub struct StageLog {
    shape: Shape,
    posts: Vec<Option<Post>>,
}

impl Model for StageLog {
    ghost use Rattle.stage_log.specs.Table.{Log, IsLog};
    ghost use Rattle.phase_message.specs.Stages.{shape_of};

    ghost Value = { Log };

    ghost view = { λ a. record { shape = shape_of a.shape; posts = a.posts.items } };

    ghost invariant = { λ a. IsLog (record { shape = shape_of a.shape; posts = a.posts.items }) };
}

impl StageLog {
    ghost use Rattle.stage_log.specs.Put.{put_answer, put_log};

    /// A log that holds nothing, with room for the posts of all slots.
    pub fn new(alloc: Global, shape: Shape) -> Mem<StageLog>
        ensures { IfOk result (λ log. log ≡ empty_log (shape_of shape)) }
    {
        let count = 12 * u32::from(shape.members);
        let posts = no_posts(alloc, count)?;
        Ok(StageLog { shape, posts })
    }

    /// Keeps a post in an empty slot. A slot that holds a post keeps it; the answer says whether the two have
    /// one content, whatever their signatures are, and hands the new one back.
    pub fn put(&mut self, slot: Slot, post: Post) -> Put
        requires slot { IsTrue (is_slot self.old.shape slot.stage slot.sender) }
        requires content { IsKept post.content }
        ensures answer { result ≡ put_answer (kept_in self.old slot) post }
        ensures log { self.new ≡ put_log self.old slot post }
    {
        let number = slot_number(self.shape, slot) as usize;
        match &self.posts[number] {
            None => {
                self.posts[number] = Some(post);
                Put::Stored
            }
            Some(kept) if is_content(kept, &post) => Put::Same(post),
            Some(_) => Put::Other(post),
        }
    }

    /// The post of a slot: `None` exactly where nothing is kept.
    pub fn kept(&self, slot: Slot) -> Option<&Post>
        ensures post { option_copied result ≡ kept_in self.now slot }
        ensures content { IfSome result (λ post. IsKept post.now.content) }
    {
        if !is_slot(self.shape, slot) {
            return None;
        }
        let number = slot_number(self.shape, slot) as usize;
        self.posts[number].as_ref()
    }

    /// The members whose posts are missing in a stage: bit i - 1 stands for member i, and is set where the
    /// member speaks in the stage and nothing of it is kept there.
    pub fn missing(&self, stage: u8) -> u32
        ensures { result ≡ missing_bits self.now stage }
    {
        let mut bits = 0;
        for sender in 1..self.shape.members + 1 {
            bits += self.missing_bit(Slot { stage, sender });
        }
        bits
    }

    // The bit of a member, where its post is missing.
    fn missing_bit(&self, slot: Slot) -> u32
        requires least { 1 ≤ slot.sender }
        requires most { slot.sender ≤ 8 }
        ensures bit { result ≡ missing_bit self.now slot.stage slot.sender }
        ensures most { result ≤ 2 ^ (slot.sender - 1) }
    {
        if is_slot(self.shape, slot) && self.kept(slot).is_none() {
            1 << (slot.sender - 1)
        } else {
            0
        }
    }

    /// Whether each sender of a stage has a post in it.
    pub fn complete(&self, stage: u8) -> bool
        ensures { result ≡ is_complete self.now stage }
    {
        self.row(stage).iter().all(Option::is_some)
    }

    /// The view of the log at a stage: of the contents of all stages before it, each of which is complete.
    pub fn view(&self, stage: u8) -> [u8; 32]
        requires { IsSome (before self.now stage) }
        ensures { log_view self.now stage ≡ Some result }
    {
        let mut running = RunningView::new(self.shape);
        for earlier in 0..stage {
            carry(&mut running, self.row(earlier));
        }
        running.view()
    }

    /// The first slot before a stage whose header does not carry the view of its own stage, where all stages
    /// before are complete.
    pub fn wrong_views(&self, stage: u8) -> Option<Slot>
        requires { IsSome (before self.now stage) }
        ensures { log_first_wrong self.now stage ≡ Some result }
    {
        let mut running = RunningView::new(self.shape);
        for earlier in 0..stage {
            let row = self.row(earlier);
            if let Some(place) = first_unlike(&running.view(), row) {
                return Some(slot_of(self.shape, earlier, place));
            }
            carry(&mut running, row);
        }
        None
    }

    /// Copies of the posts of all stages before a stage, each of which is complete, by the numbers of their slots.
    pub fn posts_before(&self, alloc: Global, stage: u8) -> Mem<Vec<Post>>
        requires { IsSome (before self.now stage) }
        ensures { IfOk result (λ posts. before self.now stage ≡ Some posts.items) }
    {
        let end = slots_before(self.shape, stage) as usize;
        copies(alloc, &self.posts[..end])
    }

    /// The places of a stage's slots, by sender: the post of each, where one is kept. A stage that the round does not
    /// have has no places.
    pub fn row(&self, stage: u8) -> &[Option<Post>]
        ensures posts { result.now ≡ posts_in self.now stage }
        ensures kept { AreKept result.now }
        ensures form { IsLog self.now }
    {
        let first = slots_before(self.shape, stage) as usize;
        let end = slots_before(self.shape, stage.saturating_add(1)) as usize;
        &self.posts[first..end]
    }

    /// The first stage of the round that is not complete: `None` exactly where the log holds all posts.
    pub fn first_incomplete(&self) -> Option<u8>
        ensures { result ≡ first_incomplete_of self.now }
    {
        for stage in 0..2 * self.shape.members + 10 {
            if !self.complete(stage) {
                return Some(stage);
            }
        }
        None
    }

    /// What the stages of the round depend on.
    pub fn shape(&self) -> Shape
        ensures shape { shape_of result ≡ self.now.shape }
        ensures form { IsLog self.now }
    {
        self.shape
    }
}

// Whether two posts have one content, whatever their signatures are.
fn is_content(kept: &Post, post: &Post) -> bool
    ensures { result ≡ bytes_eq kept.now.content post.now.content }
{
    kept.content.items().as_slice() == post.content.items().as_slice()
}

// So many places without a post.
fn no_posts(alloc: Global, count: u32) -> Mem<Vec<Option<Post>>>
    ensures { IfOk result (λ posts. posts.items ≡ replicate count None) }
{
    let mut posts = Vec::with_capacity(alloc, count as usize)?;
    for _ in 0..count {
        posts.push(None)?;
    }
    Ok(posts)
}

// Carries a view on over the places of a stage.
pub(crate) fn carry(running: &mut RunningView, places: &[Option<Post>])
    requires { AreKept places.now }
    ensures { (view : List ℕ) → Carries running.old view [] →
        Carries running.new (hash_of View (view ∷ contents_in places.now)) [] }
{
    for kept in places {
        say(running, kept);
    }
    running.end_stage();
}

// Takes the content of a place, if there is a post.
fn say(running: &mut RunningView, kept: &Option<Post>)
    requires { IfSome kept.now (λ post. IsKept post.content) }
    ensures { (view : List ℕ) (said : List (List ℕ)) → Carries running.old view said →
        Carries running.new view (said ++ contents_in (kept.now ∷ [])) }
{
    if let Some(post) = kept {
        running.piece(post.content.items().as_slice());
    }
}

// The first of the places of a stage whose content does not carry a view.
pub(crate) fn first_unlike(view: &[u8; 32], places: &[Option<Post>]) -> Option<usize>
    requires { AreKept places.now }
    ensures { result ≡ first_below (length places.now) (unlike_at view.now places.now) }
{
    for (place, kept) in places.iter().enumerate() {
        if !carries(view, kept) {
            return Some(place);
        }
    }
    None
}

// Whether there is a post and its header carries a view.
fn carries(view: &[u8; 32], kept: &Option<Post>) -> bool
    requires { IfSome kept.now (λ post. IsKept post.content) }
    ensures { result ≡ is_carried view.now (content_in kept.now) }
{
    match kept {
        None => false,
        Some(post) => has_view(view, read_header(post.content.items().as_slice())),
    }
}

fn has_view(view: &[u8; 32], header: Result<Header, Short>) -> bool
    ensures { result ≡ has_view view.now header }
{
    match header {
        Ok(header) => header.view == *view,
        Err(_) => false,
    }
}

// The slot of the sender at a place of a stage.
fn slot_of(shape: Shape, stage: u8, place: usize) -> Slot
    requires { slots_before (shape_of shape) stage + place < slots_before (shape_of shape) (stage + 1) }
    ensures { slot_at (shape_of shape) (slots_before (shape_of shape) stage + place) ≡ Some result }
{
    let sender = sender_of(stage_kind(shape, stage), place as u8);
    Slot { stage, sender }
}

// Who speaks at a place of a stage.
fn sender_of(kind: Option<StageKind>, place: u8) -> u8
    requires { place < 8 }
    ensures { result ≡ sender_of kind place }
{
    match kind {
        Some(StageKind::Shuffle { k, .. }) => k,
        _ => place + 1,
    }
}

// Copies of the posts of places.
fn copies(alloc: Global, places: &[Option<Post>]) -> Mem<Vec<Post>>
    ensures { IfOk result (λ posts. posts.items ≡ posts_kept places.now) }
{
    let mut posts = Vec::with_capacity(alloc, places.len())?;
    for kept in places {
        push_copy(alloc, &mut posts, kept)?;
    }
    Ok(posts)
}

// Appends a copy of the post of a place, if there is one.
fn push_copy(alloc: Global, posts: &mut Vec<Post>, kept: &Option<Post>) -> Mem<()>
    ensures { OnOk result (posts.new.items ≡ posts.old.items ++ posts_kept (kept.now ∷ [])) }
{
    if let Some(post) = kept {
        posts.push(copy(alloc, post)?)?;
    }
    Ok(())
}

fn copy(alloc: Global, post: &Post) -> Mem<Post>
    ensures { IfOk result (λ copy. copy ≡ post.now) }
{
    let content = Vec::from_slice(alloc, post.content.items().as_slice())?;
    let signature = Vec::from_slice(alloc, post.signature.items().as_slice())?;
    Ok(Post {
        content: List::of(content),
        signature: List::of(signature),
    })
}
