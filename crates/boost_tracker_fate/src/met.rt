// The track that a box was paired with.
ghost use Rattle.std.specs.Prelude.{◌≡◌};
ghost use Rattle.assoc.specs.Association.{label_rule};
ghost use Rattle.boost_tracker_fate.specs.Partner.{box_of, partner_of, partner_with, nobody};

use crate::kinds::Partner;
use assoc_boxes::overlap::{BoundingBox, OverlapAreas, bounding_box, overlap};
use strack::rect::Xyxy;

fn box_of(c: Xyxy) -> BoundingBox
    ensures { result ≡ box_of c }
{
    bounding_box(c.x1, c.y1, c.x2, c.y2)
}

// 02's rule for labels: under unequal ones the ratio is 0, and the areas are as computed.
fn by_labels(same: bool, o: OverlapAreas) -> OverlapAreas
    ensures { result ≡ label_rule same o }
{
    if same {
        return o;
    }
    OverlapAreas {
        intersection: o.intersection,
        union: o.union,
        ratio: 0.0,
    }
}

fn partner_of(same: bool, areas: OverlapAreas, id: u64) -> Partner
    ensures { result ≡ partner_of same areas id }
{
    Partner {
        id,
        alike: same,
        iou: areas.ratio,
        intersection: areas.intersection,
        union: areas.union,
    }
}

pub fn nobody() -> Partner
    ensures { result ≡ nobody }
{
    Partner {
        id: 0,
        alike: false,
        iou: 0.0,
        intersection: 0.0,
        union: 0.0,
    }
}

// By whether box and track have the same label, the corners of both and the track's id.
pub fn partner(same: bool, det: Xyxy, trk: Xyxy, id: u64) -> Partner
    ensures { result ≡ partner_with same det trk id }
{
    partner_of(same, by_labels(same, overlap(box_of(det), box_of(trk))), id)
}
