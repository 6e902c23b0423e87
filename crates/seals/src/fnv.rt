// FNV-1a, the public hash of 32 bits.
ghost use Rattle.std.specs.Prelude.{◌≡◌, ◌∷◌, fold};
ghost use Rattle.seals.specs.Fnv.{fnv1a as hash_of, step};

const OFFSET_BASIS: u32 = 2166136261;

const PRIME: u32 = 16777619;

pub fn fnv1a(bytes: &[u8]) -> u32
    ensures { result ≡ hash_of bytes.now }
{
    absorb(OFFSET_BASIS, bytes)
}

// the hash of a sealed pair: of the replica's byte and then the bytes, which callers hold apart; both hashes are one fold
pub fn fnv1a_pair(replica: u8, bytes: &[u8]) -> u32
    ensures { result ≡ hash_of (replica ∷ bytes.now) }
{
    absorb(absorb_byte(OFFSET_BASIS, replica), bytes)
}

fn absorb(start: u32, bytes: &[u8]) -> u32
    ensures { result ≡ fold step start bytes.now }
{
    bytes.iter().copied().fold(start, absorb_byte)
}

fn absorb_byte(hash: u32, byte: u8) -> u32
    ensures { result ≡ step hash byte }
{
    (hash ^ u32::from(byte)).wrapping_mul(PRIME)
}
