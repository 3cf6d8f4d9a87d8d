// The functions of SHA-256 on words of 32 bits.
ghost use Rattle.std.specs.Prelude.{◌≡◌, ◌<◌};
ghost use Rattle.digest.specs.Words.{big_sigma, ch, maj, small_sigma};

// For each bit, y's where x has a 1 and z's where it has a 0. One operation less than as the standard writes it.
pub(crate) fn choose(x: u32, y: u32, z: u32) -> u32
    ensures { result ≡ ch x y z }
{
    z ^ (x & (y ^ z))
}

// For each bit, the one that at least two of the three have. Written so, y ^ z is the x ^ y of the round before.
pub(crate) fn majority(x: u32, y: u32, z: u32) -> u32
    ensures { result ≡ maj x y z }
{
    y ^ ((x ^ y) & (y ^ z))
}

// The standard's Σ0 and Σ1.
pub(crate) fn big_sigma<const A: u32, const B: u32, const C: u32>(x: u32) -> u32
    requires { (0 < A) × (A < 32) × (0 < B) × (B < 32) × (0 < C) × (C < 32) }
    ensures { result ≡ big_sigma A B C x }
{
    x.rotate_right(A) ^ x.rotate_right(B) ^ x.rotate_right(C)
}

// The standard's σ0 and σ1, which shift where the other two rotate a third time.
pub(crate) fn small_sigma<const A: u32, const B: u32, const C: u32>(x: u32) -> u32
    requires { (0 < A) × (A < 32) × (0 < B) × (B < 32) × (C < 32) }
    ensures { result ≡ small_sigma A B C x }
{
    x.rotate_right(A) ^ x.rotate_right(B) ^ (x >> C)
}
