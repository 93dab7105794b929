// Numbers and parts that are within a slice, whatever the input says.
ghost use Rattle.std.specs.Prelude.{◌≡◌, ◌+◌, ◌*◌, ◌%◌, ◌≤◌, min};
ghost use Rattle.std.proofs.Math.Seq.{slice};

pub fn at_most(most: usize, n: u64) -> usize
    ensures upper_bound { result ≤ most }
    ensures value { result ≡ min n most }
{
    n.min(most as u64) as usize
}

// The number of two words.
pub fn whole(low: u64, high: u64) -> u64
    ensures { result ≡ low % 4294967296 + high % 4294967296 * 4294967296 }
{
    low % 0x1_0000_0000 + high % 0x1_0000_0000 * 0x1_0000_0000
}

// The floats from one place to another.
pub fn floats(s: &[f32], start: u64, end: u64) -> &[f32]
    ensures { result.now ≡ slice start end s.now }
{
    let e = at_most(s.len(), end);
    let a = at_most(e, start);
    &s[a..e]
}
