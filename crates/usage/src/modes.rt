//! The modes of the program, as they are called.

use outside::Word;

/// A mode of the program, as it is called.
pub(crate) struct Mode {
    pub(crate) word: &'static str,
    pub(crate) usage: &'static str,
    pub(crate) about: &'static str,
    /// What its arguments have to be.
    pub(crate) rule: &'static str,
}

/// The modes, but those of the children, which the launcher calls.
pub(crate) const MODES: [Mode; 8] = [
    Mode {
        word: "serve",
        usage: "otplogd serve [SETUP [LOG]]",
        about: "Serves clients by a setup, with a durable log if one is named",
        rule: "SETUP and LOG are files",
    },
    Mode {
        word: "recover",
        usage: "otplogd recover SETUP LOG",
        about: "Brings what a stopped run's log has into the setup, and makes the log fresh",
        rule: "SETUP and LOG are files",
    },
    Mode {
        word: "check",
        usage: "otplogd check SETUP",
        about: "Says whether a setup and its word list are right",
        rule: "SETUP is a file",
    },
    Mode {
        word: "audit",
        usage: "otplogd audit SETUP LOG",
        about: "Says whether the policy allows each line of a log",
        rule: "SETUP and LOG are files",
    },
    Mode {
        word: "enrol",
        usage: "otplogd enrol NAME UID md5|sha1 N [SEED]",
        about: "Prints a new user's account; the pass phrase is the first line of standard input",
        rule: "NAME is a user's: 1 to 32 of a-z, 0-9, _ and -, the first of a-z and _; UID is 1 to 4294967294, \
            N 1 to 9999, SEED 1 to 16 ASCII letters and digits",
    },
    Mode {
        word: "renew",
        usage: "otplogd renew SETUP NAME [LOG]",
        about: "Begins a user's new chain by a response of RFC 2243 from standard input",
        rule: "NAME is a user's: 1 to 32 of a-z, 0-9, _ and -, the first of a-z and _",
    },
    Mode {
        word: "otp",
        usage: "otplogd otp md5|sha1 N SEED [WORDS]",
        about: "Prints a password; the pass phrase is the first line of standard input",
        rule: "N is 0 to 9999, SEED 1 to 16 ASCII letters and digits, WORDS a file",
    },
    Mode {
        word: "drill",
        usage: "otplogd drill N",
        about: "Runs the monitor in memory and prints what it decided",
        rule: "N is 1 to 64",
    },
];

/// The mode that the first word names.
pub(crate) fn mode_of(words: &[Word]) -> Option<&'static Mode> {
    let first = words.first()?;
    for mode in &MODES {
        if mode.word == first.as_str() {
            return Some(mode);
        }
    }
    None
}
