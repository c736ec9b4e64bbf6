// The index of the names: "Names number from 0 in file order; a repeated name adds none", so each name is looked up before it is added.
ghost use Rattle.std.specs.Prelude.{◌≡◌, List, ℕ, ◌+◌, ◌≤◌, ◌<◌, length, get_or, set, replicate};
ghost use Rattle.names.specs.Names.{name_at, names_of, Named, same_name};
ghost use Rattle.names.specs.Index.{InBucket, Indexed, AskedBy, Sought};

use crate::{NameIndex, Names, name_at, same};
use fields::number;

// The bucket of a name: its bytes mixed into 32 bits, of which the upper 13 are taken.
pub fn bucket_of(name: &[u8]) -> usize
    ensures { InBucket name.now result }
{
    let mut hash: usize = 2166136261;
    for byte in name {
        hash = (hash * 16777619 + usize::from(*byte)) % 4294967296;
    }
    hash / 524288
}

// Name k is x.
fn is_name(names: &Names, k: usize, x: &[u8]) -> bool
    requires { (k < length names.now.places.now) × (k < length names.now.lengths.now) × (get_or names.now.places.now k 0 + get_or names.now.lengths.now k 0 ≤ length names.now.bytes.now) }
    ensures { result ≡ same_name x.now (name_at names.now.bytes.now names.now.places.now names.now.lengths.now k) }
{
    same(x, name_at(names, k))
}

// The number of the name x, if it is one of the names that the index has: along the chain of its bucket, from the last name to the first. Names lie in columns or in a stage's
// table, so `is_name` says whether name k is x. Inlined, as `find` is.
#[inline(always)]
pub fn find_by<F: Fn(usize) -> bool>(index: &NameIndex, x: &[u8], is_name: &F) -> Option<usize>
    requires { (names : List (List ℕ)) × AskedBy (F.pre is_name.now) (F.post is_name.now) names index.now.heads.now index.now.chain.now x.now }
    ensures { (names : List (List ℕ)) → AskedBy (F.pre is_name.now) (F.post is_name.now) names index.now.heads.now index.now.chain.now x.now → Sought names x.now result }
{
    let mut cur = number(index.heads, bucket_of(x));
    // A walk along a chain, which is no count.
    while cur != 0 {
        let k = cur - 1;
        if is_name(k) {
            return Some(k);
        }
        cur = number(index.chain, k);
    }
    None
}

// The number of the name x among the n names, if it is one of them. While a table is read, its columns are longer than n. Inlined: handed to a call by reference, the structs of
// slices would have to lie in memory at each caller.
#[inline(always)]
pub fn find(names: &Names, n: usize, index: &NameIndex, x: &[u8]) -> Option<usize>
    requires { Named names.now.bytes.now names.now.places.now names.now.lengths.now n × Indexed (names_of names.now.bytes.now names.now.places.now names.now.lengths.now n) index.now.heads.now index.now.chain.now }
    ensures { Sought (names_of names.now.bytes.now names.now.places.now names.now.lengths.now n) x.now result }
{
    find_by(index, x, &|k| is_name(names, k, x))
}

// Enters name k into its bucket, before the last name that was entered there. Read, an index is one `NameIndex`; here its two columns stand apart: each caller has them as two
// fields of a struct of more columns, and one of both alone would be made anew for each name.
pub fn enter(heads: &mut [u16], chain: &mut [u16], bucket: usize, k: usize)
    requires { (bucket < length heads.old) × (k < length chain.old) × (k < 65535) }
    ensures { (heads.new ≡ set heads.old bucket (k + 1))
        × (chain.new ≡ set chain.old k (get_or heads.old bucket 0)) }
{
    chain[k] = heads[bucket];
    heads[bucket] = (k + 1) as u16;
}

// No name is in any bucket.
pub fn clear_heads(heads: &mut [u16])
    ensures { heads.new ≡ replicate (length heads.old) 0 }
{
    heads.fill(0);
}
