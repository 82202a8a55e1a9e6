//! Laws of the definitions that the contracts of this crate cite. Nobody calls these functions: the
//! contract of each states a law, and its proof is a lemma in proofs/.

ghost use Rattle.signed_post.specs.Frame.{FramedExactly};
ghost use Rattle.signed_post.specs.Admission.{AdmitsExactly};
ghost use Rattle.signed_post.specs.Lengths.{PostsAreShort, VotesAreShort};
ghost use Rattle.signed_post.specs.Own.{OwnPostsAreAdmitted};

/// Bytes have no fault of the frame exactly where they spell a post that fits one, and they spell no
/// other.
pub fn posts_are_framed()
    ensures { FramedExactly }
{}

/// A post is admitted exactly where no check refuses it, with the header that it has.
pub fn posts_are_admitted()
    ensures { AdmitsExactly }
{}

/// An admitted post has at most 9,328 bytes beside its content, and a vote at most 9,405 in all.
pub fn admitted_posts_are_short()
    ensures posts { PostsAreShort }
    ensures votes { VotesAreShort }
{}

/// A content that names the group, the round and a slot, signed by the sender's own key, is admitted.
pub fn own_posts_are_admitted()
    ensures { OwnPostsAreAdmitted }
{}
