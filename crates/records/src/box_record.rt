// A box record: BOX_BYTES bytes, a frame number, a scored box and its label.
ghost use Rattle.std.specs.Prelude.{◌≡◌};
ghost use Rattle.records.specs.BoxRecord.{box_bytes, box_of, bytes_of_box, box_at, WritesBox, length-box};
ghost use Rattle.std.proofs.Common.{lit<};

use super::field::{f32_of, put_bytes, put_five, put_u8, u8_of, u32_of};
use super::record;
use super::record::Record;

pub const BOX_BYTES: usize = 25;

// Left, top, width, height and score: what a frame's slice has of each of its boxes.
pub const BOX_VALUES: usize = 5;

#[derive(Clone, Copy, Debug, PartialEq)]
pub struct BoxRecord {
    pub frame: u32,
    pub left: f32,
    pub top: f32,
    pub width: f32,
    pub height: f32,
    pub score: f32,
    // 1 sleeper, 2 partner, 3 staff; any other byte is read too
    pub label: u8,
}

impl Record for BoxRecord {
    const SIZE: usize = BOX_BYTES;

    ghost SIZE = { box_bytes };

    ghost of = { box_of };

    ghost bytes = { bytes_of_box };

    fn of(b: &[u8]) -> BoxRecord {
        BoxRecord {
            frame: u32_of(&b[0..4]),
            left: f32_of(&b[4..8]),
            top: f32_of(&b[8..12]),
            width: f32_of(&b[12..16]),
            height: f32_of(&b[16..20]),
            score: f32_of(&b[20..24]),
            label: u8_of(&b[24..25]),
        }
    }

    fn put(self, out: &mut [u8], at: usize) -> usize {
        let floats = put_bytes(out, at, &self.frame.to_le_bytes());
        let label = put_five(
            out,
            floats,
            self.left,
            self.top,
            self.width,
            self.height,
            self.score,
        );
        put_u8(out, label, self.label)
    }

    ghost some = { lit< tt };

    ghost long = { length-box };
}

// Box record k of a slice of box records, counted from 0. None: the slice ends before it does.
#[tactic(auto, unfolding(crate::specs::BoxRecord::box_at))]
pub fn read_box(bytes: &[u8], k: usize) -> Option<BoxRecord>
    ensures { result ≡ box_at bytes.now k }
{
    record::read(bytes, k)
}

// Writes r as box record k, counted from 0, and answers how many bytes that is. None: the slice is too short, and no byte is written.
pub fn write_box(r: BoxRecord, k: usize, out: &mut [u8]) -> Option<usize>
    ensures { WritesBox r k out.old result out.new }
{
    record::write(r, k, out)
}
