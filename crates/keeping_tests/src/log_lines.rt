use decision_log::*;
use policy_model::{Ask, Decision, Event, Why};
use request_catalogue::{Label, Name, Note};
use std::test::*;

/// Whether a text is refused with the fault.
fn is_refused(text: &str, fault: LineFault) -> bool {
    read_line(text.as_bytes()).err() == Some(fault)
}

/// A line, and its fault.
type Refused = (&'static str, LineFault);

const FIRST_FAULTS: &[Refused] = &[
    ("x w0 s1 open permit\n", LineFault::Number),
    ("1 w0 s1 opens permit\n", LineFault::Word),
    ("1 w0 s1 banner deny 23 1\n", LineFault::Rule),
    ("1 w0 s1 note 6 permit\n", LineFault::Hex),
    ("1 w0 s1 open permit \n", LineFault::End),
];

#[test]
fn the_first_fault_of_a_line(rt: HostRuntime) -> Result<(), Fail> {
    for (text, fault) in FIRST_FAULTS {
        assert!(rt; is_refused(text, *fault), "{text}");
    }
    Ok(())
}

const NUMBERS_AND_WORDS: &[Refused] = &[
    ("", LineFault::Number),
    ("01 w0 s1 open permit\n", LineFault::Number),
    ("12x w0 s1 open permit\n", LineFault::Number),
    ("4294967296 w0 s1 open permit\n", LineFault::Number),
    ("1 w s1 open permit\n", LineFault::Number),
    ("1 0 s1 open permit\n", LineFault::Word),
    ("1 w0 w1 open permit\n", LineFault::Word),
    ("1  w0 s1 open permit\n", LineFault::Word),
    ("1 w0 s1 challenge Bob 1 permit 0\n", LineFault::Word),
    ("1 w0 s1 open permitx\n", LineFault::Word),
];

#[test]
fn faults_of_numbers_and_words(rt: HostRuntime) -> Result<(), Fail> {
    for (text, fault) in NUMBERS_AND_WORDS {
        assert!(rt; is_refused(text, *fault), "{text}");
    }
    Ok(())
}

const RULES_AND_DIGITS: &[Refused] = &[
    ("1 w0 s1 banner deny 0 1\n", LineFault::Rule),
    ("1 w0 s1 banner deny 300 1\n", LineFault::Number),
    ("1 w0 s1 bad 6 1 deny 6 1\n", LineFault::Rule),
    ("1 w0 s1 end violation 8 permit\n", LineFault::Rule),
    ("1 w0 s1 note 6A permit\n", LineFault::Hex),
    ("1 w0 s1 grant 1 20 permit 1\n", LineFault::Hex),
    ("1 w0 s1 reply permit 9e876134d90499\n", LineFault::Hex),
    ("1 w0 s1 open permit", LineFault::End),
    ("1 w0 s1 open permit\n\n", LineFault::End),
    ("1 w0 s1 banner permit 0\n", LineFault::End),
];

#[test]
fn faults_of_rules_and_digits(rt: HostRuntime) -> Result<(), Fail> {
    for (text, fault) in RULES_AND_DIGITS {
        assert!(rt; is_refused(text, *fault), "{text}");
    }
    Ok(())
}

/// Whether the text is read as this, and the event is written so.
fn is_line(text: &[u8], what: LoggedAsk, event: &Event) -> bool {
    let mut out = [b'#'; 256];
    let len = line(7, event, &mut out);
    let logged = Logged {
        number: 7,
        worker: event.worker,
        session: event.session,
        what,
        decision: event.decision,
    };
    &out[..len] == text && read_line(text).ok() == Some(logged)
}

/// An event of the third worker's fourth session.
fn event(ask: Ask, decision: Decision) -> Event {
    Event {
        worker: 2,
        session: 4,
        ask,
        decision,
    }
}

/// A reply without its readings.
const REPLY: Ask = Ask::Reply {
    words: None,
    hex: None,
};

const BAD_FRAME: Why = Why::BadFrame { len: 16_385 };

/// Lines, what they say, and the asks and decisions of which they are written.
const LINES: [(&str, LoggedAsk, Ask, Decision); 4] = [
    (
        "7 w2 s4 open permit\n",
        LoggedAsk::Begin,
        Ask::Begin,
        Decision::Permit { value: 4 },
    ),
    (
        "7 w2 s4 reply permit 9e876134d90499dd\n",
        LoggedAsk::Reply,
        REPLY,
        Decision::Permit {
            value: 0x9E87_6134_D904_99DD,
        },
    ),
    (
        "7 w2 s4 reply deny 13 2\n",
        LoggedAsk::Reply,
        REPLY,
        Decision::Deny {
            rule: 13,
            detail: 2,
        },
    ),
    (
        "7 w2 s4 end bad-frame 16385 permit\n",
        LoggedAsk::End { why: BAD_FRAME },
        Ask::End { why: BAD_FRAME },
        Decision::Permit { value: 0 },
    ),
];

#[test]
fn lines_written_and_read(rt: HostRuntime) -> Result<(), Fail> {
    for (text, what, ask, decision) in LINES {
        assert!(rt;
            is_line(text.as_bytes(), what, &event(ask, decision)),
            "{text}"
        );
    }
    Ok(())
}

/// Whether a challenge of alice is written so, and read.
fn is_challenge(text: &[u8]) -> bool {
    let Some(user) = Name::of(b"alice") else {
        return false;
    };
    let asked = Ask::Challenge { user, now: 1_000 };
    let what = LoggedAsk::Challenge { user, now: 1_000 };
    is_line(text, what, &event(asked, Decision::Permit { value: 0 }))
}

/// Whether an opening of the file `notes` is.
fn is_opening(text: &[u8]) -> bool {
    let Some(name) = Label::of(b"notes") else {
        return false;
    };
    let asked = Ask::OpenFile { mode: 1, name };
    let what = LoggedAsk::OpenFile { mode: 1, name };
    is_line(text, what, &event(asked, Decision::Permit { value: 1 }))
}

/// Whether a denied note is.
fn is_note(text: &[u8]) -> bool {
    let Some(note) = Note::of(b"a") else {
        return false;
    };
    let what = LoggedAsk::Note { text: note };
    let denied = Decision::Deny { rule: 1, detail: 8 };
    is_line(text, what, &event(Ask::Note { text: note }, denied))
}

#[test]
fn lines_with_texts(rt: HostRuntime) -> Result<(), Fail> {
    assert!(rt; is_challenge(b"7 w2 s4 challenge alice 1000 permit 0\n"));
    assert!(rt; is_opening(b"7 w2 s4 grant 1 6e6f746573 permit 1\n"));
    assert!(rt; is_note(b"7 w2 s4 note 61 deny 1 8\n"));
    Ok(())
}

/// The log of a whole login, and of a takeover.
const LOGS: &str = "1 w0 s1 open permit\n\
    2 w0 s1 banner permit\n\
    3 w0 s1 write 0 0 10 permit\n\
    4 w0 s1 read 0 0 512 permit\n\
    5 w0 s1 challenge bob 1000 permit 0\n\
    6 w0 s1 write 0 0 16 permit\n\
    7 w0 s1 reply permit bb9e6ae1979d8ff4\n\
    8 w0 s1 export 50 permit 0\n\
    9 w0 s1 import permit\n\
    10 w0 s1 write 0 0 12 permit\n\
    11 w0 s1 grant 1 6e6f746573 permit 1\n\
    12 w0 s1 read 1 0 4000 permit\n\
    13 w0 s1 close 1 permit\n\
    14 w0 s1 write 0 0 11 permit\n\
    15 w0 s1 grant 2 6e6f746573 permit 1\n\
    16 w0 s1 write 1 0 3 permit\n\
    17 w0 s1 close 1 permit\n\
    18 w0 s1 write 0 0 5 permit\n\
    19 w0 s1 write 0 0 4 permit\n\
    20 w0 s1 finish permit\n\
    21 w0 s1 end finished permit\n\
    1 w0 s1 open permit\n\
    2 w1 s2 open permit\n\
    3 w0 s1 challenge alice 1000 permit 0\n\
    4 w1 s2 challenge alice 30999 deny 12 1\n\
    5 w1 s2 challenge alice 31000 permit 0\n\
    6 w0 s1 reply deny 13 2\n\
    7 w1 s2 reply permit 9e876134d90499dd\n";

/// An ask that a line says, of a reply without its readings.
fn ask_of(what: LoggedAsk) -> Ask {
    match what {
        LoggedAsk::Begin => Ask::Begin,
        LoggedAsk::Banner => Ask::Banner,
        LoggedAsk::Challenge { user, now } => Ask::Challenge { user, now },
        LoggedAsk::Reply => REPLY,
        LoggedAsk::Abandon => Ask::Abandon,
        LoggedAsk::Export { len } => Ask::Export { len },
        LoggedAsk::Import => Ask::Import,
        LoggedAsk::ReadAt {
            handle,
            offset,
            max,
        } => Ask::ReadAt {
            handle,
            offset,
            max,
        },
        LoggedAsk::WriteAt {
            handle,
            offset,
            len,
        } => Ask::WriteAt {
            handle,
            offset,
            len,
        },
        LoggedAsk::OpenFile { mode, name } => Ask::OpenFile { mode, name },
        LoggedAsk::CloseFile { handle } => Ask::CloseFile { handle },
        LoggedAsk::Info { number } => Ask::Info { number },
        LoggedAsk::Note { text } => Ask::Note { text },
        LoggedAsk::Finish => Ask::Finish,
        LoggedAsk::Bad { rule, detail } => Ask::Bad { rule, detail },
        LoggedAsk::End { why } => Ask::End { why },
    }
}

/// Whether a line is read, and the event that it says is written so.
fn is_written_again(text: &[u8]) -> bool {
    let Ok(logged) = read_line(text) else {
        return false;
    };
    let event = Event {
        worker: logged.worker,
        session: logged.session,
        ask: ask_of(logged.what),
        decision: logged.decision,
    };
    let mut out = [0; 256];
    let len = line(logged.number, &event, &mut out);
    &out[..len] == text
}

#[test]
fn logs_read_and_written_again(rt: HostRuntime) -> Result<(), Fail> {
    for line in LOGS.split_inclusive('\n') {
        assert!(rt; is_written_again(line.as_bytes()), "of {line}");
    }
    Ok(())
}
