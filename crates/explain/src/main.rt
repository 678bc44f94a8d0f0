// Reads frames from standard input and prints what they come to, each answer when its line is read. Started with an argument it writes
// what the run came to as one digit on descriptor 3, and ends with status 0.
#![tactic(auto)]

mod input;

use frames::{AREA_WORDS, CONNECTION_ROOM, NODE_ROOM, RULE_ROOM, Store, TEXT_ROOM};
use input::{FRAME_ROOM, Memory, Outcome, read_all};
use model::NODE_LIMIT;
use pieces::KEPT_LIMIT;
use std::env::{Env, FillError};
use std::fs::{File, OpenOptions};
use std::io::{Read, Write};

// How many bytes are read at a time.
const PIECE_BYTES: usize = 65536;

// Descriptor 3, as a file to write to, and what the system tells of it.
const STATUS_FILE: &str = "/dev/fd/3";

const STATUS_INFO: &str = "/proc/self/fdinfo/3";

// Whether the program was started with an argument.
fn is_asked(rt: &HostRuntime) -> bool {
    let mut first = [0u8; 1];
    !matches!(rt.arg(1, &mut first), Err(FillError::NotPresent))
}

// Whether a descriptor may be written to, of what the system tells of it. The second line ends with an octal digit, which is 0 in its
// lower two bits where the descriptor is open for reading alone.
fn is_for_writing(told: &[u8]) -> bool {
    let mut second = false;
    let mut last = 0u8;
    for b in told {
        if *b == b'\n' {
            if second {
                return last % 4 != 0;
            }
            second = true;
        }
        last = *b;
    }
    false
}

// Whether descriptor 3 is open, and for writing.
fn is_open(rt: &HostRuntime) -> bool {
    let mut told = [0u8; 64];
    let Ok(mut file) = File::open(rt, STATUS_INFO) else {
        return false;
    };
    match file.read(&mut told) {
        Ok(n) => is_for_writing(&told[..n]),
        Err(_) => false,
    }
}

// Writes what the run came to as one digit on descriptor 3. Where nobody holds that open to be written, nobody is told.
fn tell_status(rt: &HostRuntime, outcome: Outcome) {
    if !is_open(rt) {
        return;
    }
    if let Ok(mut file) = OpenOptions::new().append(true).open(rt, STATUS_FILE) {
        let _ = file.write_all(&[b'0' + u8::from(outcome)]);
    }
}

fn main(rt: HostRuntime) {
    let mut piece = [0u8; PIECE_BYTES];
    let mut memory = Memory {
        line: [0; KEPT_LIMIT],
        bytes: [0; FRAME_ROOM],
        store: Store {
            nodes: [0; NODE_ROOM],
            rules: [0; RULE_ROOM],
            conns: [0; CONNECTION_ROOM],
            classes: [0; NODE_LIMIT],
            area: [0; AREA_WORDS],
            room: [0; TEXT_ROOM],
        },
    };
    let outcome = read_all(&rt, &mut piece, &mut memory);
    if is_asked(&rt) {
        tell_status(&rt, outcome);
    }
}
