use otp_hash::*;
use std::test::*;

const PHRASE: &[u8] = b"This is a test.";

#[test]
fn passwords_of_the_standard(rt: HostRuntime) -> Result<(), Fail> {
    let seed = Seed::of(b"TeSt").ok_or("a seed")?;
    let rows = [
        (Algo::Md5, 0, 0x9E87_6134_D904_99DD),
        (Algo::Md5, 1, 0x7965_E054_36F5_029F),
        (Algo::Md5, 99, 0x50FE_1962_C496_5880),
        (Algo::Sha1, 0, 0xBB9E_6AE1_979D_8FF4),
        (Algo::Sha1, 1, 0x63D9_3663_9734_385B),
    ];
    for (algo, n, password) in rows {
        assert!(rt; at(algo, &seed, PHRASE, n) == password);
    }
    assert!(rt; first(Algo::Md5, &seed, PHRASE) == rows[0].2);
    assert!(rt; step(Algo::Md5, rows[0].2) == rows[1].2);
    Ok(())
}

#[test]
fn seeds(rt: HostRuntime) -> Result<(), Fail> {
    let seed = Seed::of(b"0aZ9").ok_or("a seed")?;
    assert!(rt; seed.as_slice() == b"0az9".as_slice());
    assert!(rt; Some(seed) == Seed::of(b"0az9"));
    assert!(rt; Seed::of(b"abcdefghijklmnop").is_some());
    for text in [b"".as_slice(), b"a b", b"a-b", b"abcdefghijklmnopq"] {
        assert!(rt; Seed::of(text).is_none());
    }
    Ok(())
}

#[test]
fn names(rt: HostRuntime) -> Result<(), Fail> {
    assert!(rt; Algo::Md5.name() == "md5");
    assert!(rt; Algo::Sha1.name() == "sha1");
    assert!(rt; algo_named(b"md5") == Some(Algo::Md5));
    assert!(rt; algo_named(b"sha1") == Some(Algo::Sha1));
    for name in [b"".as_slice(), b"MD5", b"sha", b"md5 "] {
        assert!(rt; algo_named(name).is_none());
    }
    Ok(())
}
