//! How a member of a script is faulty.

ghost use Rattle.std.specs.Prelude.{◌≡◌, Some};
ghost use Rattle.round_script.specs.Fault.{fault_name, fault_of_name};

use std::fmt;

/// What a member alters of all that it says. All else it says as an honest member.
#[derive(Clone, Copy, Debug, PartialEq, Eq)]
pub enum Fault {
    /// Nothing: the member is honest.
    None,
    /// It says its keys and nothing after.
    Silent,
    /// The first coefficient of its inner key of shuffle A is out of range.
    Malformed,
    /// Its vote of shuffle A goes to members with a greater number with the flag changed.
    TwoVotes,
    /// Its item of shuffle A is that of the least other member.
    CopySubmit,
    /// The last entry of its turn of shuffle A is a copy of the first.
    DropEntry,
    /// Its turn of shuffle A says that an entry did not open.
    FalseAbort,
    /// Its vote of shuffle A is no.
    FalseNogo,
    /// The view of its item of shuffle A has another last bit.
    FalseView,
    /// The inner seed that it reveals for shuffle A has another bit.
    WrongSeed,
    /// The first vote in what it reveals for shuffle A has another last bit.
    BadVotes,
    /// A pad that it sends has another bit.
    FlipPad,
    /// A pad hash of its descriptor has another bit.
    BadDescriptor,
}

impl Fault {
    /// The fault of a name: `None` exactly where no fault has the name.
    pub fn of_name(name: &[u8]) -> Option<Fault>
        ensures { result ≡ fault_of_name name.now }
    {
        if name == b"none".as_slice() {
            Some(Fault::None)
        } else if name == b"silent".as_slice() {
            Some(Fault::Silent)
        } else if name == b"malformed".as_slice() {
            Some(Fault::Malformed)
        } else if name == b"two-votes".as_slice() {
            Some(Fault::TwoVotes)
        } else if name == b"copy-submit".as_slice() {
            Some(Fault::CopySubmit)
        } else if name == b"drop-entry".as_slice() {
            Some(Fault::DropEntry)
        } else if name == b"false-abort".as_slice() {
            Some(Fault::FalseAbort)
        } else if name == b"false-nogo".as_slice() {
            Some(Fault::FalseNogo)
        } else if name == b"false-view".as_slice() {
            Some(Fault::FalseView)
        } else if name == b"wrong-seed".as_slice() {
            Some(Fault::WrongSeed)
        } else if name == b"bad-votes".as_slice() {
            Some(Fault::BadVotes)
        } else if name == b"flip-pad".as_slice() {
            Some(Fault::FlipPad)
        } else if name == b"bad-descriptor".as_slice() {
            Some(Fault::BadDescriptor)
        } else {
            None
        }
    }
}

impl fmt::Display for Fault {
    ghost output = { λ fault. Some (fault_name fault) };

    fn fmt<W: fmt::Write>(&self, f: &mut fmt::Formatter<W>) -> fmt::Result {
        match self {
            Fault::None => write!(f, "none"),
            Fault::Silent => write!(f, "silent"),
            Fault::Malformed => write!(f, "malformed"),
            Fault::TwoVotes => write!(f, "two-votes"),
            Fault::CopySubmit => write!(f, "copy-submit"),
            Fault::DropEntry => write!(f, "drop-entry"),
            Fault::FalseAbort => write!(f, "false-abort"),
            Fault::FalseNogo => write!(f, "false-nogo"),
            Fault::FalseView => write!(f, "false-view"),
            Fault::WrongSeed => write!(f, "wrong-seed"),
            Fault::BadVotes => write!(f, "bad-votes"),
            Fault::FlipPad => write!(f, "flip-pad"),
            Fault::BadDescriptor => write!(f, "bad-descriptor"),
        }
    }
}
