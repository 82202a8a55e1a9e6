//! The lines of scripts, and a script that is made from a number.

use anyhow::{Result, ensure};
use phase_message::Slot;
use round_script::{Fault, FaultLine, ScriptRefusal, make_script, parse_script};
use std::alloc::Global;
use wire_core::{Mem, put_bytes};

// The lines of a script of three members: up to the seed, and those of its messages.
const FIRST_LINES: &[u8] =
    b"dissent-script 1\nmembers 3\nround 1\nseed 0707070707070707070707070707070707070707070707070707070707070707\n";

const MESSAGES: &[u8] = b"message 1 61\nmessage 2 -\nmessage 3 63ff\n";

// Texts, and the number of their first bad line.
const BAD_TEXTS: [(&[u8], u64); 19] = [
    (b"", 1),
    (b"dissent-script 1", 1),
    (b" dissent-script 1\n", 1),
    (b"dissent-script 2\n", 1),
    (b"dissent-script 1\n", 2),
    (b"dissent-script 1\n\n", 2),
    (b"dissent-script 1\nmembers 1\n", 2),
    (b"dissent-script 1\nmembers 9\n", 2),
    (b"dissent-script 1\nmembers 30\n", 2),
    (b"dissent-script 1\nmembers 3\r\n", 2),
    (b"dissent-script 1\nmembers 3\nround 0\n", 3),
    (b"dissent-script 1\nmembers 3\nround 01\n", 3),
    (b"dissent-script 1\nmembers 3\nround +1\n", 3),
    (b"dissent-script 1\nmembers 3\nround \xff\n", 3),
    (
        b"dissent-script 1\nmembers 3\nround 18446744073709551616\n",
        3,
    ),
    (
        b"dissent-script 1\nmembers 3\nround 18446744073709551615\n",
        4,
    ),
    (b"dissent-script 1\nmembers 3\nround 1\nseed 07\n", 4),
    (b"dissent-script 1\nmembers 3\nround 1\nseed  07\n", 4),
    (
        b"dissent-script 1\nmembers 3\nround 1\nseed 070707070707070707070707070707070707070707070707070707070707070A\n",
        4,
    ),
];

// What follows the line of the seed, and the number of the first bad line.
const BAD_MESSAGES: [(&[u8], u64); 8] = [
    (b"", 5),
    (b"message 2 61\n", 5),
    (b"message 1 \n", 5),
    (b"message 1 6\n", 5),
    (b"message 1 6G\n", 5),
    (b"message 1 61\nmessage 2 --\n", 6),
    (b"message 1 61\nmessage 2 -\nmessage 3 63", 7),
    (b"message 1 61\nmessage 2 -\nmessage 3 6F\n", 7),
];

// What follows the messages, and the number of the first bad line.
const BAD_ENDS: [(&[u8], u64); 20] = [
    (b"message 4 61\n", 8),
    (b"comment\n", 8),
    (b"fault 0 none\n", 8),
    (b"fault 4 none\n", 8),
    (b"fault 2\n", 8),
    (b"fault 02 none\n", 8),
    (b"fault 2 false-digest\n", 8),
    (b"fault 2 none\nfault 2 none\n", 9),
    (b"fault 2 none\nfault 1 none\n", 9),
    (b"drop 0 0\n", 8),
    (b"drop 2 2\n", 8),
    (b"drop 00 1\n", 8),
    (b"drop 16 1\n", 8),
    (b"drop 2 1\ndrop 2 1\n", 9),
    (b"drop 0 1\ndrop 0 2\ndrop 0 1\nrepeat x\n", 10),
    (b"repeat 0\n", 8),
    (b"repeat 01\n", 8),
    (b"repeat 2\nrepeat 2\n", 9),
    (b"repeat 2\ndrop 0 1\n", 9),
    (b"repeat 2\nfault 1 none\n", 9),
];

fn joined(alloc: Global, parts: &[&[u8]]) -> Mem<Vec<u8>> {
    let mut text = Vec::new(alloc);
    for part in parts {
        put_bytes(&mut text, part)?;
    }
    Ok(text)
}

fn bad_line(alloc: Global, parts: &[&[u8]]) -> Option<u64> {
    let text = joined(alloc, parts).ok()?;
    match parse_script(alloc, &text) {
        Err(ScriptRefusal::BadLine { line }) => Some(line),
        _ => None,
    }
}

pub fn the_first_bad_line_is_named(alloc: Global) -> Result<()> {
    for (text, line) in BAD_TEXTS {
        ensure!(bad_line(alloc, &[text]) == Some(line), "line {line}");
    }
    for (text, line) in BAD_MESSAGES {
        ensure!(
            bad_line(alloc, &[FIRST_LINES, text]) == Some(line),
            "line {line}"
        );
    }
    for (text, line) in BAD_ENDS {
        ensure!(
            bad_line(alloc, &[FIRST_LINES, MESSAGES, text]) == Some(line),
            "line {line}"
        );
    }
    Ok(())
}

pub fn a_script_says_what_its_lines_say(alloc: Global) -> Result<()> {
    let further = b"fault 1 none\nfault 3 silent\ndrop 0 2\ndrop 15 3\nrepeat 9\n".as_slice();
    let text = joined(alloc, &[FIRST_LINES, MESSAGES, further])?;
    let script = parse_script(alloc, &text)?;
    ensure!(script.round == 1);
    ensure!(script.seed == [7; 32]);
    ensure!(script.messages.items().len() == 3);
    ensure!(script.messages.items()[1].items().is_empty());
    ensure!(script.messages.items()[2].items().as_slice() == b"c\xff".as_slice());
    let faults = [
        FaultLine {
            member: 1,
            fault: Fault::None,
        },
        FaultLine {
            member: 3,
            fault: Fault::Silent,
        },
    ];
    ensure!(script.faults.items().as_slice() == faults.as_slice());
    let drops = [
        Slot {
            stage: 0,
            sender: 2,
        },
        Slot {
            stage: 15,
            sender: 3,
        },
    ];
    ensure!(script.drops.items().as_slice() == drops.as_slice());
    ensure!(script.repeat == Some(9));
    Ok(())
}

// The seed and the messages are those that another program draws from the number.
pub fn a_script_is_made_from_a_number(alloc: Global) -> Result<()> {
    let script = make_script(alloc, 7, 3, 4, Fault::FlipPad)?;
    let seed = hex::encode(alloc, script.seed)?;
    ensure!(seed.as_str() == "2ef6510ad49a80cabfb967ef2cc7c4ad2b29efc004ce231c1b8519a3194b9971");
    let messages = ["16d389ef", "d7b96d5a", "d0279126"];
    for (message, want) in script.messages.items().iter().zip(messages) {
        let message = hex::encode(alloc, message.items())?;
        ensure!(message.as_str() == want);
    }
    let fault = FaultLine {
        member: 2,
        fault: Fault::FlipPad,
    };
    ensure!(script.faults.items().as_slice() == [fault].as_slice());
    Ok(())
}
