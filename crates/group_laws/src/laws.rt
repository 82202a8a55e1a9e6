//! Laws of the groups of scripts. Nobody calls these functions: the contract of each states a law.

ghost use Rattle.group_laws.specs.Accountable.{GroupsAreAccountable};
ghost use Rattle.group_laws.specs.AllHonest.{UndisturbedGroupsAreDone};
ghost use Rattle.group_laws.specs.Entering.{ScriptsEnter};
ghost use Rattle.group_laws.specs.Forging.{
  BlamedAreFaulty,
  DoneMembersAgree,
  HonestMembersAreServed,
  HonestStandAmong,
  NothingIsForged,
  RunsAreHonest,
};
ghost use Rattle.group_laws.specs.Members.{FaultsAreShown, MembersAreShown};
ghost use Rattle.group_laws.specs.Naming.{BitsListMembers, OpenMembersPrintMissed};
ghost use Rattle.group_laws.specs.Promises.{DeliveriesAreBytes, MembersKeepTheirPromise};

/// Each member of every script can enter its round, with twelve leaves and one behind them, and the roster has its key under
/// its number.
pub fn scripts_enter()
    ensures { ScriptsEnter }
{}

/// Those that are shown of the group of every script are its members, each once and by number, and just those are shown as
/// faulty to whom the script gives a fault.
pub fn members_are_shown()
    ensures members { MembersAreShown }
    ensures faults { FaultsAreShown }
{}

/// What is shown of each honest member of the group of every script is the result of what was delivered to it, and keeps the
/// promise of its round: it names those that are missed, or holds the messages, or has evidence that convicts.
pub fn members_keep_their_promise()
    ensures promise { MembersKeepTheirPromise }
    ensures bytes { DeliveriesAreBytes }
{}

/// While the round of an honest member is open, the words that are printed of it name exactly those that are missed: of
/// ascending members from 1 to 8 their bits list just these.
pub fn open_members_print_who_is_missed()
    ensures bits { BitsListMembers }
    ensures missed { OpenMembersPrintMissed }
{}

/// In the group of a script no signature is forged: the runs of its honest members are honest, and what is delivered in
/// their names was sent by them, embedded posts too. So each of these members stands among them.
pub fn nothing_is_forged()
    ensures honest { RunsAreHonest }
    ensures unforged { NothingIsForged }
    ensures among { HonestStandAmong }
{}

/// Where no two strings of the honest members' runs have one hash, each of these members that is done has every honest
/// message, and the list of each other; and whom one blames is faulty, where its transcript has no such string either.
pub fn honest_members_are_served()
    ensures served { HonestMembersAreServed }
    ensures one_list { DoneMembersAgree }
    ensures faulty { BlamedAreFaulty }
{}

/// In the group of a script that names no fault and no post that does not arrive, every member is done with the message of
/// each, where no two strings of their runs have one hash.
pub fn undisturbed_groups_are_done()
    ensures { UndisturbedGroupsAreDone }
{}

/// All of this of one group: its members are shown, each once and by number, and whether it has a fault; the honest ones keep
/// their promise, and name those that are missed while they are open; where no two strings of their runs have one hash, those
/// that are done have every honest message, and one list, and whom they blame is faulty; and without faults and losses all
/// are done.
pub fn groups_are_accountable()
    ensures { GroupsAreAccountable }
{}
