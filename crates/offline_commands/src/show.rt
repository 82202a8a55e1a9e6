//! What `show` tells of a post file.
ghost use Rattle.group_roster.specs.Given.{roster_of};
ghost use Rattle.std.specs.Prelude.{◌≡◌, IfOk};
ghost use Rattle.wire_core.specs.Answers.{Gives};
ghost use Rattle.transcript_form.specs.Refusals.{failure_of_refusal};
ghost use Rattle.signed_post.specs.Admission.{IsPostFile};
ghost use Rattle.offline_commands.specs.Show.{failure_told, file_checked, kind_name, shown_line};

use group_roster::Roster;
use phase_message::{Body, Content};
use signed_post::{PostRefusal, ReadRefusal, check, read};
use std::alloc::{AllocError, Global};
use transcript_form::Refused;

/// The content of the post that a file spells, or the first check that refuses it, as a check of post 1.
#[tactic(auto, unfolding(crate::specs::Show::file_checked))]
pub(crate) fn check_file(
    alloc: Global,
    roster: &Roster,
    round: u64,
    bytes: &[u8],
) -> Result<Content, Refused>
    ensures exact { Gives failure_of_refusal (λ content. content) result (file_checked round (roster_of roster.now) bytes.now) }
    ensures passes { IfOk result (λ content. IsPostFile (roster_of roster.now) round bytes.now content) }
{
    let post = match read(alloc, bytes) {
        Ok(post) => post,
        Err(ReadRefusal::Frame { at }) => return Err(refused(PostRefusal::Frame { at })),
        Err(ReadRefusal::Memory) => return Err(Refused::Memory),
    };
    match check(alloc, roster, round, &post) {
        Ok(content) => Ok(content),
        Err(refusal) => Err(refused(refusal)),
    }
}

// A file has one post.
fn refused(refusal: PostRefusal) -> Refused
    ensures { failure_of_refusal result ≡ failure_told refusal }
{
    match refusal {
        PostRefusal::Memory => Refused::Memory,
        _ => Refused::Check {
            check: refusal.number(),
            post: 1,
            at: refusal.place(),
        },
    }
}

/// The line of a content: its stage, its sender, its kind and its view.
pub(crate) fn shown_text(alloc: Global, content: &Content) -> Result<Vec<u8>, AllocError>
    ensures { IfOk result (λ text. text.items ≡ shown_line content.now) }
{
    let stage = content.header.stage;
    let sender = content.header.sender;
    let kind = kind_name(&content.body);
    let view = hex::encode(alloc, content.header.view)?;
    let text = format!(in alloc; "stage {stage} sender {sender} kind {kind} view {view}\n")?;
    Ok(text.into_bytes())
}

// The name of a body's kind.
fn kind_name(body: &Body) -> &'static str
    ensures { result.now ≡ kind_name body.now }
{
    match body {
        Body::Keys { .. } => "Keys",
        Body::Submit { .. } => "Submit",
        Body::Shuffled { .. } => "Shuffled",
        Body::Abort => "Abort",
        Body::Go { .. } => "Go",
        Body::Reveal { .. } => "Reveal",
        Body::Dispute { .. } => "Dispute",
        Body::Pads { .. } => "Pads",
        Body::Check { .. } => "Check",
        Body::Confirm { .. } => "Confirm",
        Body::Differ { .. } => "Differ",
    }
}
