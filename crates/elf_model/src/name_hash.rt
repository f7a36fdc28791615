//! How tables of names hash: a name at a time, sixteen bytes a step, where each factor of a product depends on the seed.
ghost use Rattle.std.specs.Prelude.{◌≡◌, drop};
ghost use Rattle.elf_model.specs.NameHash as hashing;

use byteview::View;
use std::hash::{BuildHasher, FoldHasher, Hasher};

/// A hasher of names. Two words of eight bytes go in at a time, each into a factor of a product of 128 bits, of which the
/// halves are joined. Both factors depend on the seed, so that no name makes one of them 0 for whoever doesn't know it.
#[derive(Clone, Copy)]
pub struct NameHasher {
    state: u64,
    secret: u64,
}

/// The two halves of a product, joined.
fn mixed(a: u64, b: u64) -> u64
    ensures { result ≡ hashing.mixed a b }
{
    let product = a as u128 * b as u128;
    (product & 0xffff_ffff_ffff_ffff) as u64 ^ (product >> 64) as u64
}

/// The bytes from an offset on as a number, least significant byte first.
fn tail_word(bytes: &[u8], from: usize) -> u64
    ensures { result ≡ hashing.tail_word (drop from bytes.now) }
{
    let mut word: u64 = 0;
    let mut at = bytes.len();
    while at > from {
        at -= 1;
        word = word.wrapping_mul(256).wrapping_add(u64::from(bytes[at]));
    }
    word
}

/// The eight bytes at an offset as a number, least significant byte first; fewer where the bytes end before.
fn word(bytes: &[u8], at: usize) -> u64
    ensures { result ≡ hashing.word bytes.now at }
{
    if bytes.len() >= 8 && at <= bytes.len() - 8 {
        return View::new(bytes).u64_inside(at);
    }
    tail_word(bytes, at)
}

impl Hasher for NameHasher {
    ghost write = { hashing.write };

    ghost finish = { λ s. s.state };

    fn finish(&self) -> u64 {
        self.state
    }

    fn write(&mut self, bytes: &[u8]) {
        let mut state = self.state.wrapping_add(bytes.len() as u64);
        for n in 0..bytes.len() / 16 + 1 {
            let (first, second) = (word(bytes, 16 * n), word(bytes, 16 * n + 8));
            state = mixed(state ^ first, self.secret ^ second);
        }
        self.state = state;
    }
}

/// Makes the hashers of a table of names, from a seed. Who picks the names can make them collide only where the seed
/// is known.
#[derive(Clone, Copy)]
pub struct NameSeed {
    state: u64,
    secret: u64,
}

impl NameSeed {
    /// The seed of a number.
    pub fn new(seed: u64) -> NameSeed {
        let mut hasher = FoldHasher::default();
        hasher.write_u64(seed);
        let state = hasher.finish();
        hasher.write_u64(seed);
        NameSeed {
            state,
            secret: hasher.finish(),
        }
    }

    /// The seed that is always the same.
    pub fn fixed() -> NameSeed {
        NameSeed::new(0)
    }

    /// The seed that another maker of hashers gives, as `RandomState`, which no input can know.
    pub fn drawn<S: BuildHasher>(source: &S) -> NameSeed {
        NameSeed {
            state: source.hash_one(0u64),
            secret: source.hash_one(1u64),
        }
    }
}

impl BuildHasher for NameSeed {
    type Hasher = NameHasher;

    ghost build_hasher = { λ s. record { state = s.state; secret = s.secret } };

    fn build_hasher(&self) -> NameHasher {
        NameHasher {
            state: self.state,
            secret: self.secret,
        }
    }
}
