//! The names of the algorithms.

ghost use Rattle.std.specs.Prelude.{◌≡◌, ◌≤◌, IfSome, Some, length};
ghost use Rattle.otp_hash.specs.declared.chain.Algo.{Algo};
ghost use Rattle.otp_hash.specs.Names.{algo_name, algo_named};

use crate::chain::Algo;

impl Algo {
    /// The name of the algorithm: `md5` or `sha1`.
    pub fn name(self) -> &'static str
        ensures text { result.now ≡ algo_name self }
        ensures len { length result.now ≤ 4 }
        ensures read_back { algo_named (algo_name self) ≡ Some self }
    {
        match self {
            Algo::Md5 => "md5",
            Algo::Sha1 => "sha1",
        }
    }
}

/// The algorithm of a name, `None` exactly where no algorithm has it.
pub fn algo_named(name: &[u8]) -> Option<Algo>
    ensures value { result ≡ algo_named name.now }
    ensures found { IfSome result (λ algo. name.now ≡ algo_name algo) }
    ensures only { (algo : Algo) → name.now ≡ algo_name algo → result ≡ Some algo }
{
    if name == Algo::Md5.name().as_bytes() {
        Some(Algo::Md5)
    } else if name == Algo::Sha1.name().as_bytes() {
        Some(Algo::Sha1)
    } else {
        None
    }
}
