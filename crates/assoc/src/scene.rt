// What associate is given of boxes and tracks, as one value.
ghost use Rattle.std.specs.Prelude.{◌≡◌, length};

use assoc_verdict::Lengths;

// The boxes and tracks of a call: how many, four corners and a label of each, and confidences where there are any.
#[derive(Clone, Copy)]
pub(crate) struct Scene<'a> {
    pub(crate) boxes: usize,
    pub(crate) tracks: usize,
    pub(crate) detections: &'a [f32],
    pub(crate) corners: &'a [f32],
    pub(crate) track_confidence: &'a [f32],
    pub(crate) detection_confidence: &'a [f32],
    pub(crate) box_labels: &'a [u8],
    pub(crate) track_labels: &'a [u8],
}

impl Scene<'_> {
    pub(crate) fn lengths(self) -> Lengths
        ensures { let s = self.entry in result ≡ record {
          boxes = s.boxes;
          tracks = s.tracks;
          detections = length s.detections.now;
          corners = length s.corners.now;
          track_confidence = length s.track_confidence.now;
          detection_confidence = length s.detection_confidence.now;
        } }
    {
        Lengths {
            boxes: self.boxes,
            tracks: self.tracks,
            detections: self.detections.len(),
            corners: self.corners.len(),
            track_confidence: self.track_confidence.len(),
            detection_confidence: self.detection_confidence.len(),
        }
    }
}
