//! In which bucket of an index a set is.
ghost use Rattle.std.specs.Prelude.{◌≡◌, ◌<◌};
ghost use Rattle.subsets.specs.Buckets.{IsFourWords, mixed, bucket_of};

use positions::set::Set;

/// An odd number near 2 ^ 64 divided by the golden ratio: a product by it spreads over the high bits.
const MULTIPLIER: u64 = 11400714819323198485;

/// A sum with a word more.
fn mixed(sum: u64, word: u64) -> u64
    ensures { result ≡ mixed sum word }
{
    sum.wrapping_add(word).wrapping_mul(MULTIPLIER)
}

/// The bucket of a set, one of 512: the first nine bits of its words' sum.
pub(crate) fn bucket(set: &Set) -> usize
    ensures bucket { result ≡ bucket_of set.now }
    ensures low { result < 512 }
    ensures words { IsFourWords set.now }
{
    let [a, b, c, d] = set.words;
    let sum = mixed(mixed(mixed(mixed(0, a), b), c), d);
    (sum >> 55) as usize
}
