ghost use Rattle.std.specs.Prelude.{◌≤◌};

use otp_extended::*;
use otp_hash::{Algo, Seed};
use otp_words::Dictionary;
use outside_memory::{CallKind, Fail as Failing, MemStream};
use policy_model::{Account, Accounts, Grants, Setup, SetupParts};
use request_catalogue::Name;
use std::alloc::{AllocError, Global};
use std::test::*;
use trouble::{RenewFault, ResponseFault, Trouble};

/// Passwords of `This is a test.` with the seed `test` (RFC 2289, appendix C): by MD5 those of the
/// numbers 0, 1 and 99, and by SHA-1 that of the number 1.
const LAST: u64 = 0x9E87_6134_D904_99DD;

const FIRST: u64 = 0x7965_E054_36F5_029F;

const LATE: u64 = 0x50FE_1962_C496_5880;

const SHA1: u64 = 0x63D9_3663_9734_385B;

/// What a response reads as. `~` is a tab. The words are those of the plain list.
const RESPONSES: &str = "\
plain 9e876134d90499dd|hex:9e87 6134 d904 99dd
plain 9e876134d90499dd|HeX: 9E876134~D90499DD~
plain 9e876134d90499dd|word:QEPE QBNI QCGJ QFJA QCEM QHHE
plain 9e876134d90499dd|WORD:qepe  qbni~Qcgj QFJA QCEM QHHE
plain 7965e05436f5029f|Word:QDML QBHI QAKI QDGP QCIB QCHN
init 9e876134d90499dd Md5 99 test2 50fe1962c4965880|init-hex:9e87 6134 d904 99dd:md5 99 test2:50fe1962c4965880
init 9e876134d90499dd Sha1 9999 abc123 50fe1962c4965880|INIT-Hex:9E876134D90499DD:sha1~9999 ~ABC123:50FE 1962 C496 5880
init 9e876134d90499dd Md5 1 z 50fe1962c4965880|init-word:QEPE QBNI QCGJ QFJA QCEM QHHE:md5 0001 Z:QCIH QHIG QCMF QEEJ QDCM QCAC
init 0000000000000000 Md5 1 abcdefghijklmnop ffffffffffffffff|init-hex:0000000000000000:md5 1 abcdefghijklmnop:ffffffffffffffff
Kind|
Kind|hex
Kind|9e876134d90499dd
Kind|hexa:9e876134d90499dd
Kind| hex:9e876134d90499dd
Kind|init:9e876134d90499dd:md5 99 test2:50fe1962c4965880
Kind|:9e876134d90499dd
Parts|hex:9e876134d90499dd:
Parts|hex:x:md5 99 test2:50fe1962c4965880
Parts|word:QEPE QBNI:QCGJ QFJA QCEM QHHE
Parts|init-hex:9e876134d90499dd
Parts|init-hex:9e876134d90499dd:md5 99 test2
Parts|init-hex:x:x:x:x
Parts|init-word:9e876134d90499dd:md5 99 test2:50fe1962c4965880:
Current|hex:
Current|hex:9e876134d90499d
Current|hex:9e876134d90499dd0
Current|hex:QEPE QBNI QCGJ QFJA QCEM QHHE
Current|word:9e876134d90499dd
Current|word: QEPE QBNI QCGJ QFJA QCEM QHHE
Current|word:QEPE QBNI QCGJ QFJA QCEM QHHE~
Current|word:QEPE QBNI QCGJ QFJA QCEM QHHF
Current|word:QEPE QBNI QCGJ QFJA QCEM
Current|init-hex:x:x:x
Current|init-hex:QEPE QBNI QCGJ QFJA QCEM QHHE:md5 99 test2:50fe1962c4965880
Params|init-hex:9e876134d90499dd:x:x
Params|init-hex:9e876134d90499dd:md5 0 test2:50fe1962c4965880
Params|init-hex:9e876134d90499dd:md5 0000 test2:50fe1962c4965880
Params|init-hex:9e876134d90499dd:md5 10000 test2:50fe1962c4965880
Params|init-hex:9e876134d90499dd:md5 09999 test2:50fe1962c4965880
Params|init-hex:9e876134d90499dd:md5  test2:50fe1962c4965880
Params|init-hex:9e876134d90499dd:md5 99:50fe1962c4965880
Params|init-hex:9e876134d90499dd:md599 test2:50fe1962c4965880
Params|init-hex:9e876134d90499dd: md5 99 test2:50fe1962c4965880
Params|init-hex:9e876134d90499dd:md5 99 test2 :50fe1962c4965880
Params|init-hex:9e876134d90499dd:md5 99 te st:50fe1962c4965880
Params|init-hex:9e876134d90499dd:md5 99 test-2:50fe1962c4965880
Params|init-hex:9e876134d90499dd:md5 99 abcdefghijklmnopq:50fe1962c4965880
Params|init-hex:9e876134d90499dd:MD5 99 test2:50fe1962c4965880
Params|init-hex:9e876134d90499dd:otp-md5 99 test2:50fe1962c4965880
Params|init-hex:9e876134d90499dd::50fe1962c4965880
New|init-hex:9e876134d90499dd:md5 99 test2:
New|init-hex:9e876134d90499dd:md5 99 test2:x
New|init-hex:9e876134d90499dd:md5 99 test2:QCIH QHIG QCMF QEEJ QDCM QCAC
New|init-word:QEPE QBNI QCGJ QFJA QCEM QHHE:md5 99 test2:50fe1962c4965880
";

/// The bytes of a text, in which `~` stands for a tab, `$` for a newline and `%` for a carriage return.
fn bytes_of(alloc: Global, text: &str) -> Result<Vec<u8>, AllocError> {
    let mut bytes = Vec::new(alloc);
    for byte in text.as_bytes() {
        bytes.push(byte_of(*byte))?;
    }
    Ok(bytes)
}

fn byte_of(byte: u8) -> u8 {
    match byte {
        b'~' => b'\t',
        b'$' => b'\n',
        b'%' => b'\r',
        other => other,
    }
}

/// The text of a seed.
fn seed_text(seed: &Seed) -> &str {
    std::str::from_utf8(seed.as_slice()).unwrap_or("")
}

/// A response, or its fault, in a line.
fn response_text(
    alloc: Global,
    reading: Result<Response, ResponseFault>,
) -> Result<String, AllocError> {
    match reading {
        Err(fault) => format!(in alloc; "{fault:?}"),
        Ok(Response::Plain { current }) => format!(in alloc; "plain {current:016x}"),
        Ok(
            Response::Init {
                current,
                algo,
                sequence,
                seed,
                password,
            },
        ) => {
            let seed = seed_text(&seed);
            format!(in alloc; "init {current:016x} {algo:?} {sequence} {seed} {password:016x}")
        }
    }
}

/// Whether a line of a table reads as it says.
fn reads(alloc: Global, dictionary: &Dictionary, line: &str) -> Result<bool, AllocError> {
    let Some((want, text)) = line.split_once('|') else {
        return Ok(false);
    };
    let text = bytes_of(alloc, text)?;
    let got = response_text(alloc, read_response(dictionary, text.as_slice()))?;
    Ok(got.as_str() == want)
}

/// Whether all lines read as they say by these words.
fn all_read_by(alloc: Global, dictionary: &Dictionary) -> Result<bool, AllocError> {
    for line in RESPONSES.lines() {
        if !reads(alloc, dictionary, line)? {
            return Ok(false);
        }
    }
    Ok(true)
}

/// Whether all lines read as they say.
fn all_read(alloc: Global) -> Result<bool, AllocError> {
    all_read_by(alloc, &Dictionary::plain(alloc)?)
}

#[test]
fn responses_read(rt: HostRuntime) -> Result<(), Fail> {
    assert!(rt; all_read(rt.alloc())?);
    Ok(())
}

/// A response, of which each front has the fault of the part that is missing.
const CUT: &[u8] = b"init-hex:9e876134d90499dd:md5 99 test2:50fe1962c4965880";

/// Whether each front of the response reads so, and the whole reads as no fault.
fn are_cut(dictionary: &Dictionary) -> bool {
    for len in 0..CUT.len() {
        let fault = match len {
            0..9 => ResponseFault::Kind,
            9..39 => ResponseFault::Parts,
            _ => ResponseFault::New,
        };
        if read_response(dictionary, &CUT[..len]) != Err(fault) {
            return false;
        }
    }
    read_response(dictionary, CUT).is_ok()
}

/// The same by the plain list.
fn are_cut_plainly(alloc: Global) -> Result<bool, AllocError> {
    Ok(are_cut(&Dictionary::plain(alloc)?))
}

/// A response that is cut short anywhere has the fault of the part that is missing.
#[test]
fn a_response_that_is_cut(rt: HostRuntime) -> Result<(), Fail> {
    assert!(rt; are_cut_plainly(rt.alloc())?);
    Ok(())
}

/// A name and a number, the place and the password of the chain, and whether the account is enabled.
type User = (&'static str, u32, (u16, u64), bool);

/// The accounts bob, who isn't enabled, alice, dave, whose chain is at 0, and erin.
const USERS: &[User] = &[
    ("bob", 1_000, (9, SHA1), false),
    ("alice", 1_001, (1, FIRST), true),
    ("dave", 1_002, (0, FIRST), true),
    ("erin", 1_003, (9_999, SHA1), true),
];

/// A user's account, by MD5 where its last password is `FIRST`.
fn account_of(alloc: Global, user: &User) -> Result<Account, Fail> {
    let (name, uid, (sequence, password), enabled) = *user;
    let is_md5 = password == FIRST;
    Ok(Account {
        name: Name::of(name.as_bytes()).ok_or("a name")?,
        uid,
        algo: if is_md5 { Algo::Md5 } else { Algo::Sha1 },
        seed: Seed::of(b"test").ok_or("a seed")?,
        sequence,
        password,
        enabled,
        grants: Grants::of(Vec::new(alloc)),
    })
}

/// The accounts of all users.
fn accounts_of(alloc: Global) -> Result<Accounts, Fail> {
    let mut items = Vec::new(alloc);
    for user in USERS {
        items.push(account_of(alloc, user)?)?;
    }
    Ok(Accounts::of(items))
}

/// The parts of a setup of these accounts, else those of another.
fn parts_by(alloc: Global, parts: &SetupParts) -> Result<SetupParts, Fail> {
    let accounts = accounts_of(alloc)?;
    Ok(parts_with(alloc, parts, accounts)?)
}

/// A setup of these accounts, by the parts of another.
fn setup_by(alloc: Global, parts: &SetupParts) -> Result<Setup, Fail> {
    Ok(Setup::of(parts_by(alloc, parts)?).ok().ok_or("a setup")?)
}

/// A setup of these accounts.
fn setup_of(alloc: Global) -> Result<Setup, Fail> {
    setup_by(alloc, Setup::plain(alloc)?.parts())
}

/// What comes of a response: `N ALGO SEED SEQUENCE PASSWORD`, or the fault.
const RENEWALS: &str = "\
1 Md5 test2 99 50fe1962c4965880|alice|init-hex:9e87 6134 d904 99dd:md5 99 test2:50fe1962c4965880
1 Sha1 test2 9999 50fe1962c4965880|alice|init-hex:9e876134d90499dd:sha1 9999 TEST2:50fe1962c4965880
1 Md5 t 1 fb868501f478d2aa|alice|init-hex:9e876134d90499dd:md5 1 T:fb868501f478d2aa
3 Md5 test2 99 50fe1962c4965880|erin|init-hex:bb9e6ae1979d8ff4:md5 99 test2:50fe1962c4965880
Unknown|carol|init-hex:9e876134d90499dd:md5 99 test2:50fe1962c4965880
Unknown|carol|hex:9e876134d90499dd
Disabled|bob|init-hex:bb9e6ae1979d8ff4:md5 99 test2:50fe1962c4965880
Disabled|bob|hex:bb9e6ae1979d8ff4
Exhausted|dave|init-hex:9e876134d90499dd:md5 99 test2:50fe1962c4965880
Exhausted|dave|hex:9e876134d90499dd
NotInit|alice|hex:9e876134d90499dd
NotInit|alice|word:QDML QBHI QAKI QDGP QCIB QCHN
SameSeed|alice|init-hex:9e876134d90499dd:md5 99 TesT:50fe1962c4965880
SameSeed|alice|init-hex:7965e05436f5029f:md5 99 test:7965e05436f5029f
Replayed|alice|init-hex:7965e05436f5029f:md5 99 test2:50fe1962c4965880
Replayed|alice|init-hex:7965e05436f5029f:md5 99 test2:7965e05436f5029f
NoMatch|alice|init-hex:9e876134d90499de:md5 99 test2:50fe1962c4965880
NoMatch|alice|init-hex:50fe1962c4965880:md5 99 test2:50fe1962c4965880
NoMatch|erin|init-hex:9e876134d90499dd:md5 99 test2:50fe1962c4965880
Loop|alice|init-hex:9e876134d90499dd:md5 99 test2:9e876134d90499dd
Loop|alice|init-word:QEPE QBNI QCGJ QFJA QCEM QHHE:md5 99 test2:QDML QBHI QAKI QDGP QCIB QCHN
Loop|alice|init-hex:9e876134d90499dd:sha1 99 test2:7965e05436f5029f
Loop|alice|init-hex:9e876134d90499dd:sha1 99 test2:fb868501f478d2aa
";

/// A new chain, or the fault, in a line.
fn renewal_text(alloc: Global, reading: Result<Renewed, RenewFault>) -> Result<String, AllocError> {
    match reading {
        Err(fault) => format!(in alloc; "{fault:?}"),
        Ok(
            Renewed {
                account,
                algo,
                seed,
                sequence,
                password,
            },
        ) => {
            let seed = seed_text(&seed);
            format!(in alloc; "{account} {algo:?} {seed} {sequence} {password:016x}")
        }
    }
}

/// Whether what comes of a line of a table is what it says.
fn renews(
    alloc: Global,
    setup: &Setup,
    dictionary: &Dictionary,
    line: &str,
) -> Result<bool, AllocError> {
    let Some((want, rest)) = line.split_once('|') else {
        return Ok(false);
    };
    let Some((user, text)) = rest.split_once('|') else {
        return Ok(false);
    };
    let (Some(user), Ok(response)) = (
        Name::of(user.as_bytes()),
        read_response(dictionary, text.as_bytes()),
    ) else {
        return Ok(false);
    };
    let got = renewal_text(alloc, renew(setup, &user, &response))?;
    Ok(got.as_str() == want)
}

/// Whether all lines are renewed as they say by these words.
fn all_renew_by(alloc: Global, setup: &Setup, dictionary: &Dictionary) -> Result<bool, AllocError> {
    for line in RENEWALS.lines() {
        if !renews(alloc, setup, dictionary, line)? {
            return Ok(false);
        }
    }
    Ok(true)
}

/// Whether all lines are renewed as they say.
fn all_renew(alloc: Global, setup: &Setup) -> Result<bool, Fail> {
    Ok(all_renew_by(alloc, setup, &Dictionary::plain(alloc)?)?)
}

/// The input that renews alice.
const INPUT: &[u8] = b"init-hex:9e87 6134 d904 99dd:md5 99 test2:50fe1962c4965880";

/// What a renewal leaves: alice with the new chain, and all others as they were.
const AFTER: &str = "\
bob 1000 Sha1 test 9 63d936639734385b false
alice 1001 Md5 test2 99 50fe1962c4965880 true
dave 1002 Md5 test 0 7965e05436f5029f true
erin 1003 Sha1 test 9999 63d936639734385b true
";

/// An account in a line.
fn account_text(alloc: Global, account: &Account) -> Result<String, AllocError> {
    let name = std::str::from_utf8(account.name.as_slice()).unwrap_or("");
    let seed = seed_text(&account.seed);
    let (uid, algo, enabled) = (account.uid, account.algo, account.enabled);
    let (sequence, password) = (account.sequence, account.password);
    format!(in alloc; "{name} {uid} {algo:?} {seed} {sequence} {password:016x} {enabled}\n")
}

/// The accounts of a setup, a line each.
fn accounts_text(alloc: Global, accounts: &[Account]) -> Result<String, AllocError> {
    let mut text = String::new(alloc);
    for account in accounts {
        let line = account_text(alloc, account)?;
        text.push_str(line.as_str())?;
    }
    Ok(text)
}

/// The trouble of a renewal, after its status.
fn trouble_text(alloc: Global, trouble: Trouble) -> Result<String, AllocError> {
    let status = trouble.status();
    format!(in alloc; "{status} {trouble:?}")
}

/// Whether this came of a renewal: the accounts that it leaves, or its trouble and its status.
fn is_outcome(
    alloc: Global,
    outcome: &Result<Renewal, Trouble>,
    want: &str,
) -> Result<bool, AllocError> {
    let text = match outcome {
        Ok(renewal) => accounts_text(alloc, renewal.setup.parts().accounts.as_slice())?,
        Err(trouble) => trouble_text(alloc, *trouble)?,
    };
    Ok(text.as_str() == want)
}

/// Whether this comes of alice's input at these ends, by these words.
fn comes_by(
    alloc: Global,
    setup: &Setup,
    dictionary: &Dictionary,
    ends: &mut MemStream,
    want: &str,
) -> Result<bool, AllocError> {
    let Some(alice) = Name::of(b"alice") else {
        return Ok(false);
    };
    is_outcome(
        alloc,
        &receive_renewal(alloc, setup, dictionary, &alice, ends),
        want,
    )
}

/// The same by the plain list.
fn comes_plainly(
    alloc: Global,
    setup: &Setup,
    ends: &mut MemStream,
    want: &str,
) -> Result<bool, AllocError> {
    comes_by(alloc, setup, &Dictionary::plain(alloc)?, ends, want)
}

/// An input that arrives in pieces of some length, and the calls that fail.
#[derive(Clone, Copy)]
struct Input<'a> {
    bytes: &'a [u8],
    cut: usize,
    fails: &'a [Failing],
}

/// Whether this comes of alice's input.
fn comes_of(alloc: Global, setup: &Setup, input: &Input<'_>, want: &str) -> Result<bool, AllocError>
    requires { 1 ≤ input.now.cut }
{
    let mut ends = MemStream::new(alloc, input.bytes, &[input.cut], input.fails)?;
    comes_plainly(alloc, setup, &mut ends, want)
}

/// Whether an input has this outcome, whole and byte by byte.
fn comes_by_any_cut(
    alloc: Global,
    setup: &Setup,
    bytes: &[u8],
    want: &str,
) -> Result<bool, AllocError> {
    let whole = Input {
        bytes,
        cut: 5_000,
        fails: &[],
    };
    let pieces = Input { cut: 1, ..whole };
    Ok(comes_of(alloc, setup, &whole, want)? && comes_of(alloc, setup, &pieces, want)?)
}

/// Whether an input, with something after it, has this outcome.
fn comes(alloc: Global, setup: &Setup, behind: &[u8], want: &str) -> Result<bool, AllocError> {
    let input = [INPUT, behind].concat(alloc)?;
    comes_by_any_cut(alloc, setup, &input, want)
}

/// What comes of alice's input with these bytes after it.
const INPUTS: &str = "\
after|
after|$
after|%$hex:x$
12 ResponseRefused(Unreadable(New))|%
12 ResponseRefused(Unreadable(New))|%%$
12 ResponseRefused(Unreadable(Parts))|:$
";

/// Whether what comes of a line of the table is what it says.
fn comes_so(alloc: Global, setup: &Setup, line: &str) -> Result<bool, AllocError> {
    let Some((want, behind)) = line.split_once('|') else {
        return Ok(false);
    };
    let behind = bytes_of(alloc, behind)?;
    let want = if want == "after" { AFTER } else { want };
    comes(alloc, setup, behind.as_slice(), want)
}

/// Whether all lines come as they say.
fn all_come(alloc: Global, setup: &Setup) -> Result<bool, Fail> {
    for line in INPUTS.lines() {
        if !comes_so(alloc, setup, line)? {
            return Ok(false);
        }
    }
    Ok(true)
}

/// Whether alice's input with so many spaces after it has this outcome.
fn blanks_come(alloc: Global, setup: &Setup, len: usize, want: &str) -> Result<bool, AllocError> {
    let blanks = vec![in alloc; b' '; len]?;
    comes(alloc, setup, &blanks, want)
}

/// Whether a line of 4,095 bytes is read, and those of 4,096 and more aren't.
fn are_bounded(alloc: Global, setup: &Setup) -> Result<bool, Fail> {
    Ok(
        blanks_come(alloc, setup, 4_037, AFTER)?
            && blanks_come(alloc, setup, 4_038, "12 ResponseRefused(TooLong)")?
            && blanks_come(alloc, setup, 5_000, "12 ResponseRefused(TooLong)")?,
    )
}

/// Whether an input whose second receiving fails has this outcome.
fn fails_so(
    alloc: Global,
    setup: &Setup,
    bytes: &[u8],
    cut: usize,
    want: &str,
) -> Result<bool, AllocError>
    requires { 1 ≤ cut }
{
    let second = Failing {
        call: CallKind::Recv,
        number: 2,
        sent: 0,
    };
    let fails = &[second];
    comes_of(alloc, setup, &Input { bytes, cut, fails }, want)
}

/// Whether nothing is renewed where the line isn't whole by then, or is no new chain.
fn renew_nothing(alloc: Global, setup: &Setup) -> Result<bool, Fail> {
    let refused = b"hex:9e876134d90499dd\n";
    Ok(
        fails_so(alloc, setup, INPUT, 20, "11 EndsFailed")?
            && fails_so(alloc, setup, refused, 30, "15 NoRenewal(NotInit)")?,
    )
}

/// What is asked over the setup of the users.
#[derive(Clone, Copy)]
enum Asked {
    Renewals,
    Inputs,
    Lengths,
    Failures,
}

/// Whether what is asked is so over a setup.
fn is_so_over(alloc: Global, setup: &Setup, asked: Asked) -> Result<bool, Fail> {
    match asked {
        Asked::Renewals => all_renew(alloc, setup),
        Asked::Inputs => all_come(alloc, setup),
        Asked::Lengths => are_bounded(alloc, setup),
        Asked::Failures => renew_nothing(alloc, setup),
    }
}

/// Whether it is so over the setup of the users.
fn is_so(alloc: Global, asked: Asked) -> Result<bool, Fail> {
    is_so_over(alloc, &setup_of(alloc)?, asked)
}

#[test]
fn renewals(rt: HostRuntime) -> Result<(), Fail> {
    assert!(rt; is_so(rt.alloc(), Asked::Renewals)?);
    Ok(())
}

#[test]
fn inputs_and_their_renewals(rt: HostRuntime) -> Result<(), Fail> {
    assert!(rt; is_so(rt.alloc(), Asked::Inputs)?);
    Ok(())
}

/// A line of 4,095 bytes is read, and one of 4,096 isn't.
#[test]
fn the_longest_line(rt: HostRuntime) -> Result<(), Fail> {
    assert!(rt; is_so(rt.alloc(), Asked::Lengths)?);
    Ok(())
}

#[test]
fn a_failing_input_renews_nothing(rt: HostRuntime) -> Result<(), Fail> {
    assert!(rt; is_so(rt.alloc(), Asked::Failures)?);
    Ok(())
}
