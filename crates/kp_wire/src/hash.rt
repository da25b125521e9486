//! The hash that chooses a key's partition: MurmurHash2 of 32 bits (Austin Appleby), with Kafka's seed.

ghost use Rattle.std.specs.Prelude.{◌≡◌, ◌<◌, ◌%◌, ◌^◌, bit_and};
ghost use Rattle.kp_wire.specs.Hash.{multiplied, folded, with_word, with_left, finished, murmur2};

/// What the hash is before the length goes into it.
const SEED: u32 = 0x9747_b28c;

/// By what the words and the hash are multiplied, modulo 2^32.
const MULTIPLIER: u32 = 0x5bd1_e995;

/// The bits that leave a hash that isn't negative as a signed number.
const NOT_NEGATIVE: u32 = 0x7fff_ffff;

#[tactic(auto, unfolding(crate::specs::Hash::multiplied))]
fn multiply(n: u32) -> u32
    ensures { result ≡ multiplied n }
{
    n.wrapping_mul(MULTIPLIER)
}

/// The hash with one more word.
#[tactic(auto, unfolding(crate::specs::Hash::folded, crate::specs::Hash::with_word))]
fn add_word(hash: u32, word: u32) -> u32
    ensures { result ≡ with_word hash word }
{
    let product = multiply(word);
    multiply(hash) ^ multiply(product ^ (product >> 24))
}

/// The hash with the bytes behind the last whole word: less than four.
#[tactic(auto, unfolding(crate::specs::Hash::with_left))]
fn add_left(hash: u32, left: &[u8]) -> u32
    ensures { result ≡ with_left hash left.now }
{
    match left {
        [a] => multiply(hash ^ u32::from(*a)),
        [a, b] => multiply(hash ^ (u32::from(*b) << 8) ^ u32::from(*a)),
        [a, b, c] => {
            multiply(hash ^ (u32::from(*c) << 16) ^ (u32::from(*b) << 8) ^ u32::from(*a))
        }
        _ => hash,
    }
}

#[tactic(auto, unfolding(crate::specs::Hash::folded, crate::specs::Hash::finished))]
fn finish(hash: u32) -> u32
    ensures { result ≡ finished hash }
{
    let product = multiply(hash ^ (hash >> 13));
    product ^ (product >> 15)
}

/// The hash of the bytes.
pub fn murmur2(bytes: &[u8]) -> u32
    ensures { result ≡ murmur2 bytes.now }
{
    let mut hash = SEED ^ (bytes.len() % (1 << 32)) as u32;
    let mut rest = bytes;
    while let [a, b, c, d, behind @ ..] = rest {
        hash = add_word(hash, u32::from_le_bytes([*a, *b, *c, *d]));
        rest = behind;
    }
    finish(add_left(hash, rest))
}

/// The partition, counted from 0, of so many, in which a record of this key goes.
pub fn partition_of_key(key: &[u8], partitions: u32) -> u32
    requires { 0 < partitions }
    ensures value { result ≡ bit_and (murmur2 key.now) 0x7fffffff % partitions }
    ensures below { result < partitions }
{
    (murmur2(key) & NOT_NEGATIVE) % partitions
}
