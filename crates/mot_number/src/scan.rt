// Where a byte first stands in a text.
ghost use Rattle.std.specs.Prelude.{◌≡◌, ◌≤◌, length};
ghost use Rattle.mot_number.specs.Index.{index_of};

// The first place of the byte, or the end where it stands nowhere.
// Kept: the end for none, as `index_of` of the definition has it: what stands before it is the field in both cases.
pub fn find(text: &[u8], byte: u8) -> usize
    ensures place { result ≡ index_of byte text.now }
    ensures inside { result ≤ length text.now }
{
    text.iter().position(|&b| b == byte).unwrap_or(text.len())
}
