// FNV-1a with 32 bits, by which the vector programs show every byte that they lent.
#![tactic(auto)]

ghost use Rattle.std.specs.Prelude.{◌≡◌, Some, fold};
ghost use Rattle.std.specs.List.{flat_map};
ghost use Rattle.fingerprints.specs.Inner.Fnv.{fnv_new, fnv_write, fnv_text};

use std::fmt;
use std::hash::{Hash, Hasher};

// The digest of nothing.
pub const EMPTY: u32 = 0x811c_9dc5;

// The digest of all that was written so far.
#[derive(Clone, Copy)]
pub struct Fnv(pub u32);

impl Default for Fnv {
    ghost is_default = { λ digest. digest ≡ fnv_new };

    fn default() -> Fnv {
        Fnv(EMPTY)
    }
}

impl Hasher for Fnv {
    ghost write = { fnv_write };

    ghost finish = { λ digest. digest.0 };

    fn finish(&self) -> u64 {
        self.0 as u64
    }

    fn write(&mut self, bytes: &[u8]) {
        self.0 = bytes.iter().fold(
            self.0,
            |digest, byte| (digest ^ *byte as u32).wrapping_mul(0x100_0193),
        );
    }
}

// Eight digits in base 16.
impl fmt::Display for Fnv {
    ghost output = { λ digest. Some (fnv_text digest.0) };

    fn fmt<W: fmt::Write>(&self, f: &mut fmt::Formatter<W>) -> fmt::Result {
        write!(f, "{:08x}", self.0)
    }
}

// The digest of the items: of a byte each, or of an entry's two, the low one first.
pub fn digest_of<T: Hash>(items: &[T]) -> Fnv
    ensures { result ≡ fold fnv_write fnv_new (flat_map T.hash_input items.now) }
{
    let mut digest = Fnv::default();
    T::hash_slice(items, &mut digest);
    digest
}
