// A line that is printed: words and numbers, each after a space, in parts with a bar between them.
ghost use Rattle.std.specs.Prelude.{◌≡◌, ◌+◌, ◌≤◌, min};
ghost use Rattle.vectors.specs.Line as Printed;

use crate::part::at_most;
use vectors_digest::floats::word;

// More bytes than any line of a fixed list has.
const ROOM: usize = 256;

fn write(bytes: &[u8; 256], used: u64) -> usize
    ensures { (result ≡ min used 256) × (result ≤ 256) }
{
    let all: &[u8] = bytes;
    let end = at_most(ROOM, used);
    io::write_all(1, &all[..end]);
    io::write_all(1, b"\n");
    end
}

#[derive(Drop)]
pub struct Line {
    pub bytes: [u8; 256],
    pub used: usize,
}

impl Line {
    pub fn new() -> Line
        ensures { result ≡ Printed.empty }
    {
        Line {
            bytes: [b' '; 256],
            used: 0,
        }
    }

    // A title of 40 bytes, which is read.
    pub fn titled() -> Line
        ensures { result.used ≡ 40 }
    {
        let mut bytes = [b' '; 256];
        io::read_full(0, &mut bytes[..40]);
        Line { bytes, used: 40 }
    }

    // A byte for which there is no room is left out.
    #[tactic(auto, unfolding(crate::specs::Line::pushed))]
    fn byte(mut self, b: u8) -> Line
        ensures { result ≡ Printed.pushed self b }
    {
        if self.used < ROOM {
            self.bytes[self.used] = b;
            self.used += 1;
        }
        self
    }

    pub fn text(self, s: &[u8]) -> Line
        ensures { result ≡ Printed.text self s.now }
    {
        s.iter().fold(self, |line, &b| line.byte(b))
    }

    pub fn number(self, n: u64) -> Line
        ensures { result ≡ Printed.number self n }
    {
        let mut digits = [0u8; 20];
        let k = io::decimal(n, &mut digits);
        self.text(b" ").text(&digits[..k])
    }

    pub fn digest(self, sum: u64) -> Line
        ensures { result ≡ Printed.digest self sum }
    {
        let mut digits = [0u8; 16];
        let k = io::hex(sum, 16, &mut digits);
        self.text(b" ").text(&digits[..k])
    }

    pub fn float(self, x: f32) -> Line
        ensures { result ≡ Printed.float self x }
    {
        let mut digits = [0u8; 16];
        let k = io::hex(word(x), 8, &mut digits);
        self.text(b" ").text(&digits[..k])
    }

    pub fn floats(self, s: &[f32]) -> Line
        ensures { result ≡ Printed.floats self s.now }
    {
        s.iter().fold(self, |line, &x| line.float(x))
    }

    pub fn bar(self) -> Line
        ensures { result ≡ Printed.bar self }
    {
        self.text(b" |")
    }

    // Prints the line, and says how many bytes it has with its end.
    pub fn print(self) -> usize
        ensures { result ≡ min self.used 256 + 1 }
    {
        let bytes = self.bytes;
        write(&bytes, self.used as u64) + 1
    }
}
