//! Laws of how a round ends. Nobody calls these functions: the contract of each states a law.

ghost use Rattle.accountability.specs.Agreed.{PlaceOpens, PlacesDiffer, SamePast};
ghost use Rattle.accountability.specs.AllHonest.{AllHonest, NothingButPads};
ghost use Rattle.accountability.specs.Evidence.{AcceptedFor, EvidenceAccepted, EvidenceIsBytes, FaultAccepted, VerdictAccepted};
ghost use Rattle.accountability.specs.Faulty.{AccusedFaulty};
ghost use Rattle.accountability.specs.Lengths.{EvidenceShort, ReplayShort};
ghost use Rattle.accountability.specs.Messages.{DoneHasMessages};
ghost use Rattle.accountability.specs.Naming.{OpenNames};
ghost use Rattle.accountability.specs.SameList.{SameList};
ghost use Rattle.round_spec.specs.Cases.{IsBadLog, IsBadPad, IsEquivocation, IsReplay, IsWrongSeed};

/// An open round names exactly the members whose post for its stage was not delivered, and it names somebody.
pub fn open_names()
    ensures { OpenNames }
{}

/// The post of a member whose closing content is not justified convicts it of a bad log.
pub fn bad_log_accepted()
    ensures { AcceptedFor IsBadLog }
{}

/// The keys of a member and what it revealed at the end of a shuffle convict it, where that is not the seed of its inner
/// key.
pub fn wrong_seed_accepted()
    ensures { AcceptedFor IsWrongSeed }
{}

/// A delivered string convicts its sender where its body is outside the grammar, or, with the first post of its slot,
/// where that says another content.
pub fn fault_accepted()
    ensures { FaultAccepted }
{}

/// The closing posts of all members convict whom the replay of what they embed blames.
pub fn replay_accepted()
    ensures { AcceptedFor IsReplay }
{}

/// A post that a justified closing content embeds, and the kept post of its slot, convict the sender of the slot, where
/// they say different contents.
pub fn equivocation_accepted()
    ensures { AcceptedFor IsEquivocation }
{}

/// All posts before the pads, and the pads of a member, convict it where an accusation that names it holds at the end of
/// shuffle B.
pub fn bad_pad_accepted()
    ensures { AcceptedFor IsBadPad }
{}

/// Whatever was delivered: where the round ends by a conviction, its transcript is accepted against the member that it
/// accuses. So it is with every verdict on what an honest run kept. Nothing is asked of signatures or hashes.
pub fn evidence_accepted()
    ensures verdict { VerdictAccepted }
    ensures whole { EvidenceAccepted }
    ensures bytes { EvidenceIsBytes }
{}

/// Whoever is accused by the member of an honest run has no run in the round, where no signature was forged in what was
/// delivered, and no two strings of the runs and of the transcript have one hash.
pub fn accused_faulty()
    ensures { AccusedFaulty }
{}

/// Where all members agree at the end of a closing stage, each honest run of the round kept before the votes what the
/// member kept there.
pub fn same_past()
    ensures { SamePast }
{}

/// Where all members agree behind shuffle A, each honest run of the round stands at a place of its last list, which opens
/// to its own descriptor; and two members stand at two places.
pub fn places_open()
    ensures opens { PlaceOpens }
    ensures differ { PlacesDiffer }
{}

/// The slots of a member that is done hold the message of each honest run of the round, exactly, and those of two members
/// at two places; where no signature was forged in what was delivered, and no two strings of the runs have one hash.
pub fn done_has_messages()
    ensures { DoneHasMessages }
{}

/// Two members of a round that are done have the same list of slots, whoever is faulty; where no signature was forged in
/// what was delivered to one of them, and no two strings of the runs have one hash.
pub fn same_list()
    ensures { SameList }
{}

/// The transcript of a round that ends by a conviction has fewer than 134,217,728 bytes, and at most 92,394,067 where it
/// is a replay.
pub fn evidence_short()
    ensures whole { EvidenceShort }
    ensures replay { ReplayShort }
{}

/// Where all members have runs of the round, nothing but a bad pad is shown of any of them; where no signature was forged
/// in what was delivered, and no two strings of the runs have one hash.
pub fn nothing_but_pads()
    ensures { NothingButPads }
{}

/// Where all members have runs of the round, and a string was delivered for each slot of the others up to where the checks
/// are closed, the round is done, with the message of each member; where no signature was forged in what was delivered,
/// and no two strings of the runs have one hash.
pub fn all_honest()
    ensures { AllHonest }
{}
