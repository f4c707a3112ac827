use otp_hash::{Algo, Seed};
use otp_words::*;
use std::alloc::AllocError;
use std::test::*;

/// The plain word list as a text, with other words at some lines, and an end for each line.
fn text_of(
    rt: &HostRuntime,
    changed: &[(usize, &[u8])],
    lines: usize,
    end: &[u8],
) -> Result<Vec<u8>, AllocError> {
    let mut text = Vec::new(rt.alloc());
    for i in 0..lines {
        let plain = [
            b'q',
            b'a' + (i / 256 % 16) as u8,
            b'A' + (i / 16 % 16) as u8,
            b'a' + (i % 16) as u8,
        ];
        let other = changed.iter().find(|row| row.0 == i);
        text.extend_from_slice(other.map_or(plain.as_slice(), |row| row.1))?;
        text.extend_from_slice(end)?;
    }
    Ok(text)
}

#[test]
fn spellings_by_the_plain_list(rt: HostRuntime) -> Result<(), Fail> {
    let plain = Dictionary::plain(rt.alloc())?;
    let hex = Candidates {
        words: None,
        hex: Some(0x9E87_6134_D904_99DD),
    };
    let words = Candidates {
        words: hex.hex,
        hex: None,
    };
    let neither = Candidates {
        words: None,
        hex: None,
    };
    let rows = [
        (b"9E87 6134 D904 99DD".as_slice(), hex),
        (b" 9e876134\td90499dd ", hex),
        (b"9E87 6134 D904 99DDA", neither),
        (b"9E87 6134 D904 99D", neither),
        (b"9E87 6134 D904 99DG", neither),
        (b"qepe QBNI qcgj QFJA qcem QHHE", words),
        (b"qepe  QBNI\tqcgj QFJA \t qcem QHHE", words),
        (b" qepe QBNI qcgj QFJA qcem QHHE", neither),
        (b"qepe QBNI qcgj QFJA qcem QHHE ", neither),
        (b"qepe QBNI qcgj QFJA qcem", neither),
        (b"QDML QBHI QAKI QDGP QCIB QCHM", neither),
        (b"", neither),
    ];
    for (text, expected) in rows {
        assert!(rt; candidates(&plain, text) == expected);
    }
    let mut out = [0; 29];
    let len = to_words(&plain, 0x7965_E054_36F5_029F, &mut out);
    assert!(rt; &out[..len] == b"QDML QBHI QAKI QDGP QCIB QCHN".as_slice());
    let len = to_hex(0x9E87_6134_D904_99DD, &mut out);
    assert!(rt; &out[..len] == b"9E87 6134 D904 99DD".as_slice());
    Ok(())
}

#[test]
fn two_readings(rt: HostRuntime) -> Result<(), Fail> {
    let changed = [(0, b"BAD".as_slice()), (1, b"FE"), (2, b"ED")];
    let text = text_of(&rt, &changed, 2_048, b"\n")?;
    let dictionary = Dictionary::read(rt.alloc(), &text)
        .ok()
        .ok_or("a dictionary")?;
    let both = Candidates {
        words: Some(0x200),
        hex: Some(0xBADB_ADBA_DBAD_FEED),
    };
    assert!(rt; candidates(&dictionary, b"bad bad bad bad fe ed") == both);
    Ok(())
}

#[test]
fn word_lists(rt: HostRuntime) -> Result<(), Fail> {
    let rows = [
        ((4, b"QAAE".as_slice()), 2_048, None),
        ((0, b"qaaa"), 2_047, Some((2_047, DictRule::Count))),
        ((2_048, b"QaAa"), 2_049, Some((2_049, DictRule::Twice))),
        ((2_048, b"z"), 2_049, Some((2_049, DictRule::Count))),
        ((4, b"z"), 3_000, Some((3_000, DictRule::Count))),
        ((4, b"QAAA"), 2_048, Some((5, DictRule::Twice))),
        ((4, b""), 9, Some((5, DictRule::Length))),
        ((4, b"QAAAA"), 9, Some((5, DictRule::Length))),
        ((4, b"QA1"), 9, Some((5, DictRule::Letter))),
    ];
    for (change, lines, fault) in rows {
        let text = text_of(&rt, &[change], lines, b"\r\n")?;
        let read = Dictionary::read(rt.alloc(), &text).err();
        let expected = fault.map(|(line, rule)| DictError::Refused(DictFault { line, rule }));
        assert!(rt; read == expected);
    }
    Ok(())
}

#[test]
fn challenges(rt: HostRuntime) -> Result<(), Fail> {
    let rows = [
        (
            Algo::Md5,
            99,
            b"TeSt".as_slice(),
            b"otp-md5 99 test\n".as_slice(),
        ),
        (Algo::Md5, 0, b"test", b"otp-md5 0 test\n"),
        (
            Algo::Sha1,
            9_999,
            b"abcdefghijklmnop",
            b"otp-sha1 9999 abcdefghijklmnop\n",
        ),
        (Algo::Sha1, 100, b"0", b"otp-sha1 100 0\n"),
    ];
    for (algo, n, seed, text) in rows {
        let seed = Seed::of(seed).ok_or("a seed")?;
        let mut out = [0; 32];
        let len = challenge_text(algo, n, &seed, &mut out);
        assert!(rt; &out[..len] == text);
    }
    Ok(())
}

#[test]
fn challenges_read(rt: HostRuntime) -> Result<(), Fail> {
    let rows = [
        (
            b"otp-md5 99 test\n".as_slice(),
            Algo::Md5,
            99,
            b"test".as_slice(),
            16,
        ),
        (
            b"otp-sha1 \t 0099\t\tTeSt left",
            Algo::Sha1,
            99,
            b"test",
            22,
        ),
        (
            b"otp-md5 0 abcdefghijklmno9\n\n",
            Algo::Md5,
            0,
            b"abcdefghijklmno9",
            27,
        ),
        (b"otp-sha1 9999 1 otp-md5 1 2 ", Algo::Sha1, 9_999, b"1", 16),
    ];
    for (text, algo, n, seed, used) in rows {
        let seed = Seed::of(seed).ok_or("a seed")?;
        let challenge = Challenge {
            algo,
            n,
            seed,
            used,
        };
        assert!(rt; read_challenge(text) == Ok(challenge));
    }
    let faulty = [
        b"".as_slice(),
        b"otp-md5 99 test",
        b"otp-md5 99 test\t",
        b"otp-md5 99 test\r\n",
        b" otp-md5 99 test\n",
        b"otp-MD5 99 test\n",
        b"otp-md4 99 test\n",
        b"otp-md599 test\n",
        b"otp-md5 test\n",
        b"otp-md5 99test\n",
        b"otp-md5 00099 test\n",
        b"otp-md5 -9 test\n",
        b"otp-md5 99 te-st\n",
        b"otp-md5 99 \n",
        b"otp-md5 99 abcdefghijklmnopq\n",
    ];
    for text in faulty {
        assert!(rt; read_challenge(text) == Err(Unreadable));
    }
    Ok(())
}
