ghost use Rattle.std.specs.Prelude.{◌≡◌, map};
ghost use Rattle.std.specs.Hash as fed;
ghost use Rattle.std.proofs.Common.{ap};
ghost use Rattle.rp_base.specs.PlainValues.{equal_to};
ghost use Rattle.rp_base.specs.EqualLaws.{equal_partial, equal_equivalence};
ghost use Rattle.py_store.specs.Digests.{mixed, mixed_all, digest};
ghost use Rattle.py_store.specs.DigestLaws.{equal_digests};

use rp_base::{Plain, equal};
use std::hash::{Hash, Hasher};
use std::marker::Model;

/// A plain value as a key: `==` on it is Python's equality.
#[derive(Drop)]
pub struct Key {
    plain: Plain,
}

impl Model for Key {
    ghost use Rattle.rp_base.specs.declared.plain.Plain.{Plain};
    ghost use Rattle.rp_base.specs.contracts.plain.Plain as plain_type;
    ghost use Rattle.std.specs.Coded.{codes};

    ghost Value = { Plain };

    ghost coded = { Prim.hlevel (codes, plain_type.the_row.coded) };

    ghost view = { λ k. k.plain };
}

impl Key {
    pub fn new(plain: Plain) -> Key
        ensures { result ≡ plain }
    {
        Key { plain }
    }

    pub fn plain(&self) -> &Plain
        ensures { result.now ≡ self.now }
    {
        &self.plain
    }

    pub fn into_plain(self) -> Plain
        ensures { result ≡ self }
    {
        self.plain
    }
}

impl PartialEq for Key {
    ghost eq = { equal_to };

    ghost laws = { equal_partial };

    fn eq(&self, other: &Key) -> bool {
        equal(&self.plain, &other.plain)
    }
}

impl Eq for Key {
    ghost laws = { equal_equivalence };
}

impl Hash for Key {
    ghost hash_input = { λ k. fed.u64 (digest k) };

    ghost respects_eq = { λ a b h. ap fed.u64 (equal_digests a b h) };

    fn hash<H: Hasher>(&self, state: &mut H) {
        state.write_u64(digest_of(&self.plain));
    }
}

/// A number that equal keys share.
#[cycle(digests)]
#[tactic(auto, using(crate::specs::DigestLaws::digest_tuple), unfolding(crate::specs::Digests::digest))]
fn digest_of(plain: &Plain) -> u64
    ensures { result ≡ digest plain.now }
{
    match plain {
        Plain::None => 1,
        Plain::Bool(b) => u64::from(*b),
        Plain::Int(n) => (n.unsigned_abs() % 18446744073709551616) as u64,
        Plain::Text(text) => digest_of_bytes(2, text.as_str().as_bytes()),
        Plain::Bytes(bytes) => digest_of_bytes(3, bytes.as_slice()),
        Plain::NotImpl => 4,
        Plain::Ellipsis => 5,
        Plain::Tuple(items) => digest_of_items(items.as_slice()),
    }
}

#[cycle(digests)]
fn digest_of_items(items: &[Plain]) -> u64
    ensures { result ≡ mixed_all 6 (map digest items.now) }
{
    let mut hash = 6u64;
    for item in items {
        hash = mix(hash, digest_of(item));
    }
    hash
}

fn digest_of_bytes(kind: u64, bytes: &[u8]) -> u64
    ensures { result ≡ mixed_all kind bytes.now }
{
    let mut hash = kind;
    for byte in bytes {
        hash = mix(hash, u64::from(*byte));
    }
    hash
}

/// One number more, as in the hash of Fowler, Noll and Vo.
fn mix(hash: u64, number: u64) -> u64
    ensures { result ≡ mixed hash number }
{
    hash.wrapping_mul(1099511628211).wrapping_add(number)
}
