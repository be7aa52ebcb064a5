//! One call of each, which succeeds and is told as it should be: a contract lets a call answer that there was no memory.

use crate::{audit_into, play_into};
use rv_c_text::Text;

// A script that is played, and refused at its last step.
const STEPS: &[u8] = b"@shape\nunit Nav\ntask Pilot 15\n@steps\nNav.Pilot clock\noperator fly\n";

// What is told of it, and how much of that is the journal.
const PLAYED: &[u8] =
    b"1 operator load Nav -> accepted 0\n2 Nav.Pilot clock -> accepted 0\nscript line 6: BadStep\n";

const JOURNAL: usize = 66;

#[test]
fn plays(rt: HostRuntime) {
    let mut room = [b'.'; 128];
    let mut text = Text {
        bytes: &mut room,
        length: 0,
        fault: 0,
    };
    let status = play_into(rt.alloc(), STEPS, false, &mut text);
    assert_eq!(rt; status, 1);
    assert_eq!(rt; text.length, PLAYED.len());
    assert_eq!(rt; text.fault, JOURNAL);
    assert!(rt; room.starts_with(PLAYED));
}

#[test]
fn audits(rt: HostRuntime) {
    let script = b"@shape\nunit Nav\n@journal\n1 operator load Nav -> accepted 0\n";
    let mut room = [b'.'; 8];
    let mut text = Text {
        bytes: &mut room,
        length: 0,
        fault: 0,
    };
    let status = audit_into(rt.alloc(), script, &mut text);
    assert_eq!(rt; status, 0);
    assert_eq!(rt; text.length, 16);
    assert_eq!(rt; text.fault, 16);
    assert!(rt; room.starts_with(b"legal 1 "));
}
