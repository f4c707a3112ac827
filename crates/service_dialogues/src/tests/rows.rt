//! Passwords, phases, files and decoys.

use super::{Row, goes_plainly};
use std::test::Fail;

/// The last password of a chain is accepted, and a later session is challenged by a decoy.
const LAST_PASSWORD: Row<'static> = Row {
    setup: "",
    sessions: &[
        "pre challenge 'alice = 00 'otp-md5 20 '0 20 'test 0a
         pre reply '9e876134d90499dd = 00
         pre finish = 00",
        "pre challenge 'alice = 00 'otp-md5 20 '532 20 'f4dcb785 0a
         pre finish = 00",
    ],
    told: "",
    log: "1 w0 s1 open permit
2 w0 s1 challenge alice 1000 permit 0
3 w0 s1 reply permit 9e876134d90499dd
4 w0 s1 finish permit
5 w0 s1 end finished permit
6 w0 s2 open permit
7 w0 s2 challenge alice 1000 permit 10532
8 w0 s2 finish permit
9 w0 s2 end finished permit
",
};

/// What isn't for the phase before the login ends the session.
const EARLY: Row<'static> = Row {
    setup: "",
    sessions: &[
        "pre reply '9e876134d90499dd = 01 06 03000000",
        "pre export 4f545331 010000 020000 030800 00000000 00000000 = 01 06 05000000",
        "pre banner = 00 'OTP 20 'login
         pre banner = 01 07 01000000
         pre finish =",
    ],
    told: "",
    log: "1 w0 s1 open permit
2 w0 s1 reply deny 6 3
3 w0 s1 end violation 6 permit
4 w0 s2 open permit
5 w0 s2 export 21 deny 6 5
6 w0 s2 end violation 6 permit
7 w0 s3 open permit
8 w0 s3 banner permit
9 w0 s3 banner deny 7 1
10 w0 s3 end violation 7 permit
",
};

/// A user's child can't export.
const LATE_EXPORT: Row<'static> = Row {
    setup: "",
    sessions: &[
        "pre challenge 'alice = 00 'otp-md5 20 '0 20 'test 0a
         pre reply '9e876134d90499dd = 00
         pre export 4f545331 010000 020000 030800 00000000 00000000 =
         user export 4f545331 010000 020000 030800 00000000 00000000 = 01 06 05000000",
    ],
    told: "",
    log: "1 w0 s1 open permit
2 w0 s1 challenge alice 1000 permit 0
3 w0 s1 reply permit 9e876134d90499dd
4 w0 s1 export 21 permit 0
5 w0 s1 export 21 deny 6 5
6 w0 s1 end violation 6 permit
",
};

/// A state is imported once.
const TWO_IMPORTS: Row<'static> = Row {
    setup: "",
    sessions: &[
        "pre challenge 'alice = 00 'otp-md5 20 '0 20 'test 0a
         pre reply '9e876134d90499dd = 00
         pre export 4f545331 010000 020000 030800 00000000 00000000 =
         user import = 00 e8030000 05 'alice 4f545331 010000 020000 030800 00000000 00000000
         user import = 01 07 06000000",
    ],
    told: "",
    log: "1 w0 s1 open permit
2 w0 s1 challenge alice 1000 permit 0
3 w0 s1 reply permit 9e876134d90499dd
4 w0 s1 export 21 permit 0
5 w0 s1 import permit
6 w0 s1 import deny 7 6
7 w0 s1 end violation 7 permit
",
};

/// The log alone tells why a reply was denied.
const DENIED_REPLIES: Row<'static> = Row {
    setup: "",
    sessions: &[
        "pre challenge 'alice = 00 'otp-md5 20 '0 20 'test 0a
         pre reply 'hello = 01 10 00000000
         pre challenge 'alice = 00 'otp-md5 20 '0 20 'test 0a
         pre reply '7965e05436f5029f = 01 10 00000000
         pre challenge 'alice = 00 'otp-md5 20 '0 20 'test 0a
         pre reply '0000000000000000 = 01 10 00000000
         pre challenge 'alice = 01 08 03000000",
    ],
    told: "",
    log: "1 w0 s1 open permit
2 w0 s1 challenge alice 1000 permit 0
3 w0 s1 reply deny 14 0
4 w0 s1 challenge alice 1000 permit 0
5 w0 s1 reply deny 15 0
6 w0 s1 challenge alice 1000 permit 0
7 w0 s1 reply deny 16 0
8 w0 s1 challenge alice 1000 deny 8 3
9 w0 s1 end child-ended permit
",
};

/// Eight files, and the least free handle.
const HANDLES: Row<'static> = Row {
    setup: "",
    sessions: &[
        "pre challenge 'alice = 00 'otp-md5 20 '0 20 'test 0a
         pre reply '9e876134d90499dd = 00
         pre export 4f545331 010000 020000 030800 00000000 00000000 =
         user grant 01 'f1 = 00 01000000
         user grant 01 'f2 = 00 02000000
         user grant 01 'f3 = 00 03000000
         user grant 01 'f4 = 00 04000000
         user grant 01 'f5 = 00 05000000
         user grant 01 'f6 = 00 06000000
         user grant 01 'f7 = 00 07000000
         user grant 01 'f8 = 00 08000000
         user grant 01 'f9 = 01 13 08000000
         user close 03000000 = 00
         user grant 01 'f9 = 00 03000000
         user read 09000000 0000000000000000 0100 = 01 11 09000000
         user write 01000000 0000000000000000 'x = 01 12 01000000
         user close 00000000 = 01 11 00000000
         user close 08000000 = 00
         user grant 01 'g = 01 14 00000000
         user grant 02 'f1 = 01 15 02000000
         user finish = 00",
    ],
    told: "",
    log: "1 w0 s1 open permit
2 w0 s1 challenge alice 1000 permit 0
3 w0 s1 reply permit 9e876134d90499dd
4 w0 s1 export 21 permit 0
5 w0 s1 grant 1 6631 permit 1
6 w0 s1 grant 1 6632 permit 2
7 w0 s1 grant 1 6633 permit 3
8 w0 s1 grant 1 6634 permit 4
9 w0 s1 grant 1 6635 permit 5
10 w0 s1 grant 1 6636 permit 6
11 w0 s1 grant 1 6637 permit 7
12 w0 s1 grant 1 6638 permit 8
13 w0 s1 grant 1 6639 deny 19 8
14 w0 s1 close 3 permit
15 w0 s1 grant 1 6639 permit 3
16 w0 s1 read 9 0 1 deny 17 9
17 w0 s1 write 1 0 1 deny 18 1
18 w0 s1 close 0 deny 17 0
19 w0 s1 close 8 permit
20 w0 s1 grant 1 67 deny 20 0
21 w0 s1 grant 2 6631 deny 21 2
22 w0 s1 finish permit
23 w0 s1 end finished permit
",
};

/// A decoy is challenged and denied as a user is. Its number and seed are of the MD5 hash of salt and
/// name, folded: 46976fe5143330c2.
const DECOY_BY_SHA1: Row<'static> = Row {
    setup: "salt = \"a\"",
    sessions: &[
        "pre challenge 'bc = 00 'otp-sha1 20 '482 20 '46976fe5 0a
         pre reply 'hello = 01 10 00000000
         pre finish = 00",
    ],
    told: "",
    log: "1 w0 s1 open permit
2 w0 s1 challenge bc 1000 permit 10482
3 w0 s1 reply deny 14 0
4 w0 s1 finish permit
5 w0 s1 end finished permit
",
};

/// The folded hash is e430ddbbac5cefe4.
const DECOY_BY_MD5: Row<'static> = Row {
    setup: "salt = \"hel\"",
    sessions: &[
        "pre challenge 'lo = 00 'otp-md5 20 '412 20 'e430ddbb 0a
         pre reply '0000000000000000 = 01 10 00000000",
    ],
    told: "",
    log: "1 w0 s1 open permit
2 w0 s1 challenge lo 1000 permit 10412
3 w0 s1 reply deny 16 0
4 w0 s1 end child-ended permit
",
};

/// The rows that need no information.
const ROWS: &[&Row<'static>] = &[
    &LAST_PASSWORD,
    &EARLY,
    &LATE_EXPORT,
    &TWO_IMPORTS,
    &DENIED_REPLIES,
    &HANDLES,
    &DECOY_BY_SHA1,
    &DECOY_BY_MD5,
];

#[test]
fn worked_sessions(rt: HostRuntime) -> Result<(), Fail> {
    for row in ROWS {
        assert!(&rt; goes_plainly(&rt, rt.alloc(), row)?);
    }
    Ok(())
}
