ghost use Rattle.state_export.specs.Spelling.{IsState, value_of};

use request_catalogue::Name;
use state_export::*;
use std::alloc::{AllocError, Global};
use std::test::*;

/// The least state, as `docs/FORMATS.md` spells it.
const LEAST: [u8; 21] = [
    0x4f, 0x54, 0x53, 0x31, 1, 0, 0, 2, 0, 0, 3, 8, 0, 0, 0, 0, 0, 0, 0, 0, 0,
];

/// A state of which each part shows.
const SHOWN: State<'static> = State {
    terminal: b"vt",
    unread: b"who",
    lines: 0x0403_0201,
    bytes: 63,
};

/// Its spelling.
const SPELLED: [u8; 26] = [
    0x4f, 0x54, 0x53, 0x31, 1, 2, 0, 0x76, 0x74, 2, 3, 0, 0x77, 0x68, 0x6f, 3, 8, 0, 1, 2, 3, 4,
    63, 0, 0, 0,
];

/// The state that `LEAST` spells.
const PLAIN: State = State {
    terminal: b"",
    unread: b"",
    lines: 0,
    bytes: 0,
};

/// The state with the longest texts and the greatest numbers.
const GREATEST: State = State {
    terminal: &[b't'; 64],
    unread: &[b'u'; 4_096],
    lines: u32::MAX,
    bytes: u32::MAX,
};

/// Whether a state is written as these bytes, and read back from them.
fn is_spelled(state: State, spelled: &[u8]) -> bool
    requires { IsState (value_of state) }
{
    let mut out = [0xff; STATE_MAX];
    let len = write_state(&state, &mut out);
    &out[..len] == spelled && read_state(spelled) == Ok(state)
}

/// Whether the least state leaves what stands after it.
fn leaves_rest() -> bool {
    let mut out = [0xff; STATE_MAX];
    write_state(&PLAIN, &mut out) == 21 && out[21] == 0xff
}

/// Whether the greatest state fills the room that there is, and is read back.
fn fills_room() -> bool {
    let mut out = [0xff; STATE_MAX];
    write_state(&GREATEST, &mut out) == STATE_MAX && read_state(&out) == Ok(GREATEST)
}

#[test]
fn states_written_and_read(rt: HostRuntime) {
    assert!(rt; is_spelled(PLAIN, &LEAST) && leaves_rest());
    assert!(rt; is_spelled(SHOWN, &SPELLED));
    assert!(rt; fills_room());
}

/// What the least state is read as, cut after so many bytes.
fn cut(len: usize) -> Option<StateFault> {
    match len {
        0..=3 => Some(StateFault::Magic),
        4..=12 => Some(StateFault::Missing),
        13..=20 => Some(StateFault::Length),
        _ => None,
    }
}

/// Whether the bytes of these parts are refused with this fault.
fn are_refused(alloc: Global, parts: &[&[u8]], fault: StateFault) -> Result<bool, AllocError> {
    let bytes = parts.concat(alloc)?;
    Ok(read_state(&bytes).err() == Some(fault))
}

#[test]
fn states_that_are_cut_or_too_long(rt: HostRuntime) -> Result<(), Fail> {
    for len in 0..22 {
        assert!(rt; read_state(&LEAST[..len]).err() == cut(len));
    }
    let wide: [&[u8]; 4] = [&LEAST[..4], &[1, 65, 0], &[b't'; 65], &LEAST[7..]];
    assert!(rt; are_refused(rt.alloc(), &[&LEAST, &[0]], StateFault::Trailing)?);
    assert!(rt; are_refused(rt.alloc(), &wide, StateFault::Length)?);
    Ok(())
}

#[test]
fn faults_of_states(rt: HostRuntime) {
    // A place, the byte that stands there instead, and the fault.
    let rows = [
        (3, 0x32, StateFault::Magic),
        (4, 2, StateFault::Tag),
        (5, 15, StateFault::Length),
        (6, 1, StateFault::Length),
        (7, 1, StateFault::Tag),
        (9, 0x11, StateFault::Length),
        (10, 4, StateFault::Tag),
        (11, 7, StateFault::Length),
        (11, 9, StateFault::Length),
    ];
    for (place, byte, fault) in rows {
        let mut bytes = LEAST;
        bytes[place] = byte;
        assert!(rt; read_state(&bytes).err() == Some(fault));
    }
}

/// The import record of bob's least state.
const RECORD: [u8; 29] = [
    0xe9, 3, 0, 0, 3, 0x62, 0x6f, 0x62, 0x4f, 0x54, 0x53, 0x31, 1, 0, 0, 2, 0, 0, 3, 8, 0, 0, 0, 0,
    0, 0, 0, 0, 0,
];

/// Whether bob's least state is written as the record.
fn is_written(bob: &Name) -> bool {
    let mut out = [0; IMPORT_MAX];
    let len = write_import(1_001, bob, &LEAST, &mut out);
    &out[..len] == RECORD.as_slice()
}

/// Whether the record is read as bob's least state.
fn is_read(bob: &Name) -> bool {
    match read_import(&RECORD) {
        Ok(import) => {
            (import.uid, import.user) == (1_001, *bob) && Ok(import.state) == read_state(&LEAST)
        }
        Err(_) => false,
    }
}

#[test]
fn import_records(rt: HostRuntime) -> Result<(), Fail> {
    let bob = Name::of(b"bob").ok_or("a name")?;
    assert!(rt; is_written(&bob) && is_read(&bob));
    Ok(())
}

/// Whether a record is refused with this fault.
fn is_refused(record: &[u8], fault: ImportFault) -> bool {
    read_import(record).err() == Some(fault)
}

#[test]
fn records_that_are_cut_short(rt: HostRuntime) {
    for len in 0..8 {
        assert!(rt; is_refused(&RECORD[..len], ImportFault::Head));
    }
    assert!(rt; is_refused(&RECORD[..8], ImportFault::State(StateFault::Magic)));
    assert!(rt; is_refused(&RECORD[..12], ImportFault::State(StateFault::Missing)));
    assert!(rt; is_refused(&RECORD[..28], ImportFault::State(StateFault::Length)));
}

#[test]
fn heads_that_are_none(rt: HostRuntime) {
    for (place, byte) in [(4, 0), (4, 33), (5, b'9'), (6, b'B')] {
        let mut other = RECORD;
        other[place] = byte;
        assert!(rt; is_refused(&other, ImportFault::Head));
    }
}
