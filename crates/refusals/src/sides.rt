// Two sides: of boxes and tracks, or of what is there and what is lent. Whether they are too many, and the larger and the
// smaller of them.
ghost use Rattle.std.specs.Prelude.{◌≡◌, max, min};
ghost use Rattle.refusals.specs.Refusal.{too_many};

// 31 before 32 and 33, so that no product is taken of sides above 255.
pub fn too_many(boxes: usize, tracks: usize) -> bool
    ensures { result ≡ too_many boxes tracks }
{
    (boxes > 255) | (tracks > 255)
}

// The side of the square that two sides stand in.
pub fn larger(a: usize, b: usize) -> usize
    ensures { result ≡ max a b }
{
    a.max(b)
}

// The most pairs that two sides have.
pub fn smaller(a: usize, b: usize) -> usize
    ensures { result ≡ min a b }
{
    a.min(b)
}
