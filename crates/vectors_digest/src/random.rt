// Random numbers: a xorshift generator of 64 bits.
ghost use Rattle.std.specs.Prelude.{◌≡◌};
ghost use Rattle.vectors_digest.specs.Random as Random;

// One step of the generator, and of a digest.
pub fn next(r: u64) -> u64
    ensures { result ≡ Random.next r }
{
    let a = r ^ (r << 13);
    let b = a ^ (a >> 7);
    b ^ (b << 17)
}
