//! The commands of the program.
use lm_ots::OtsType;
use lms_tree::MadeHeight;

/// A command, with what its words give it. Files are given by name; no name is opened here.
#[derive(Debug, Drop)]
pub enum Command {
    /// Makes a key file of a height and a width.
    Keygen {
        key: String,
        height: MadeHeight,
        width: OtsType,
    },
    /// Writes the roster that a file in TOML stands for into another file.
    Roster {
        toml: String,
        out: String,
    },
    /// Shows what a post says that passes the checks under a roster, for a round from 1 on.
    Show {
        roster: String,
        round: u64,
        post: String,
    },
    /// Judges a transcript under a roster.
    Judge {
        roster: String,
        transcript: String,
    },
    /// Runs a whole group by a script, and writes its roster and a transcript.
    Group {
        script: String,
        roster: String,
        transcript: String,
    },
    /// Makes a script from a number, and runs it: 2 to 8 members, messages of at most 65,536 bytes, and the name of a
    /// fault, which is not looked at here.
    Make {
        number: u64,
        members: u8,
        bytes: u32,
        fault: String,
    },
    /// Takes part in a round from 1 on as one member, waiting 1 to 3,600 seconds for the others, of whom there is one
    /// address or more.
    Member {
        roster: String,
        key: String,
        round: u64,
        message: String,
        transcript: String,
        wait: u16,
        addresses: Vec<String>,
    },
    /// Runs a whole group by a script, each member by itself.
    Live {
        script: String,
    },
}
