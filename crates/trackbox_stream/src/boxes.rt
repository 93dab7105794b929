// The open frame's boxes in lent memory, five floats each: left, top, width, height, score; and their labels, a byte each.
ghost use Rattle.std.specs.Prelude.{◌≡◌, length};
ghost use Rattle.records.specs.BoxRecord.{box_values};
ghost use Rattle.trackbox_stream.specs.Boxes.{box_floats, held_then, label_then};

use records::{BOX_VALUES, BoxRecord};

// Stores the record's box in place k, counted from 0; past the places that the slice has, nothing.
pub fn hold(r: BoxRecord, k: usize, boxes: &mut [f32])
    ensures { boxes.new ≡ held_then r k boxes.old }
{
    if k < boxes.len() / BOX_VALUES {
        let at = k * BOX_VALUES;
        boxes[at..at + BOX_VALUES].copy_from_slice(&[r.left, r.top, r.width, r.height, r.score]);
    }
}

// Stores the record's label in place k, counted from 0; past the places that the slice has, nothing.
pub fn hold_label(r: BoxRecord, k: usize, labels: &mut [u8])
    ensures { labels.new ≡ label_then r k labels.old }
{
    if k < labels.len() {
        labels[k] = r.label;
    }
}
