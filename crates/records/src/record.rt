// A record of a fixed number of bytes: how record k of a slice of them is read and written.
ghost use Rattle.std.specs.Prelude.{◌≡◌, ◌+◌, ◌≤◌, ◌<◌, ℕ, List, length};
ghost use Rattle.records.specs.Record.{record_at};
ghost use Rattle.records.specs.Written.{Put, WritesRecord};

pub(crate) trait Record {
    const SIZE: usize;

    ghost SIZE: { ℕ };

    // the record that SIZE bytes hold, and the bytes of a record
    ghost of: { List ℕ → Self };

    ghost bytes: { Self → List ℕ };

    fn of(b: &[u8]) -> Self
        requires { length b.now ≡ SIZE }
        ensures { result ≡ of b.now };

    // Writes the record from `at` on, and answers where it ends.
    fn put(self, out: &mut [u8], at: usize) -> usize
        requires { at + SIZE ≤ length out.old }
        ensures { Put at (bytes self) out.old result out.new };

    ghost some: { 0 < SIZE };

    ghost long: { (r : Self) → length (bytes r) ≡ SIZE };
}

// Record k of a slice of records, counted from 0. None: the slice ends before it does.
pub(crate) fn read<R: Record>(bytes: &[u8], k: usize) -> Option<R>
    ensures { result ≡ record_at R.SIZE R.of bytes.now k }
{
    let size = R::SIZE;
    if k < bytes.len() / size {
        let at = k * size;
        return Some(R::of(&bytes[at..at + size]));
    }
    None
}

// Writes r as record k, counted from 0, and answers how many bytes that is. None: the slice is too short, and no byte is written.
pub(crate) fn write<R: Record + Copy>(r: R, k: usize, out: &mut [u8]) -> Option<usize>
    ensures { WritesRecord R.SIZE k (R.bytes r) out.old result out.new }
{
    let size = R::SIZE;
    if k < out.len() / size {
        r.put(out, k * size);
        return Some(size);
    }
    None
}
