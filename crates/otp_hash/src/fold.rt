//! Digests folded to eight bytes.

ghost use Rattle.std.specs.Prelude.{◌≡◌, ◌*◌, ◌<◌};
ghost use Rattle.sha1.specs.Sha1.{word_at};
ghost use Rattle.otp_hash.specs.Hashing.{folded_md5, folded_sha1};

/// The fold of an MD5 digest: byte `k` is the exclusive or of its bytes `k` and `k + 8`.
pub fn fold_md5(digest: &[u8; 16]) -> [u8; 8]
    ensures { result ≡ folded_md5 digest.now }
{
    let mut folded = [0; 8];
    for k in 0..8 {
        folded[k] = digest[k] ^ digest[k + 8];
    }
    folded
}

/// The fold of a SHA-1 digest of the words H0 to H4: `H0 ^ H2 ^ H4` and then `H1 ^ H3`, each lowest
/// byte first.
pub fn fold_sha1(digest: &[u8; 20]) -> [u8; 8]
    ensures { result ≡ folded_sha1 digest.now }
{
    let first = word(digest, 0) ^ word(digest, 2) ^ word(digest, 4);
    let second = word(digest, 1) ^ word(digest, 3);
    let mut folded = [0; 8];
    folded[..4].copy_from_slice(&first.to_le_bytes());
    folded[4..].copy_from_slice(&second.to_le_bytes());
    folded
}

/// The word of a SHA-1 digest at a place from 0 to 4.
fn word(digest: &[u8; 20], place: usize) -> u32
    requires { place < 5 }
    ensures { result ≡ word_at digest.now (4 * place) }
{
    let i = 4 * place;
    u32::from_be_bytes([digest[i], digest[i + 1], digest[i + 2], digest[i + 3]])
}
