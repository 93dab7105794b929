// A track record: TRACK_BYTES bytes, a frame number, an emitted track and its label.
ghost use Rattle.std.specs.Prelude.{◌≡◌};
ghost use Rattle.records.specs.TrackRecord.{track_bytes, track_of, bytes_of_track, track_at, WritesTrack, length-track};
ghost use Rattle.std.proofs.Common.{lit<};

use super::field::{f32_of, put_bytes, put_five, put_u8, u8_of, u32_of, u64_of};
use super::record;
use super::record::Record;

pub const TRACK_BYTES: usize = 33;

#[derive(Clone, Copy, Debug, PartialEq)]
pub struct TrackRecord {
    pub frame: u32,
    pub id: u64,
    pub left: f32,
    pub top: f32,
    pub width: f32,
    pub height: f32,
    pub confidence: f32,
    pub label: u8,
}

impl Record for TrackRecord {
    const SIZE: usize = TRACK_BYTES;

    ghost SIZE = { track_bytes };

    ghost of = { track_of };

    ghost bytes = { bytes_of_track };

    fn of(b: &[u8]) -> TrackRecord {
        TrackRecord {
            frame: u32_of(&b[0..4]),
            id: u64_of(&b[4..12]),
            left: f32_of(&b[12..16]),
            top: f32_of(&b[16..20]),
            width: f32_of(&b[20..24]),
            height: f32_of(&b[24..28]),
            confidence: f32_of(&b[28..32]),
            label: u8_of(&b[32..33]),
        }
    }

    fn put(self, out: &mut [u8], at: usize) -> usize {
        let id = put_bytes(out, at, &self.frame.to_le_bytes());
        let floats = put_bytes(out, id, &self.id.to_le_bytes());
        let label = put_five(
            out,
            floats,
            self.left,
            self.top,
            self.width,
            self.height,
            self.confidence,
        );
        put_u8(out, label, self.label)
    }

    ghost some = { lit< tt };

    ghost long = { length-track };
}

// Track record k of a slice of track records, counted from 0. None: the slice ends before it does.
#[tactic(auto, unfolding(crate::specs::TrackRecord::track_at))]
pub fn read_track(bytes: &[u8], k: usize) -> Option<TrackRecord>
    ensures { result ≡ track_at bytes.now k }
{
    record::read(bytes, k)
}

// Writes t as track record k, counted from 0, and answers how many bytes that is. None: the slice is too short, and no byte is written.
pub fn write_track(t: TrackRecord, k: usize, out: &mut [u8]) -> Option<usize>
    ensures { WritesTrack t k out.old result out.new }
{
    record::write(t, k, out)
}
