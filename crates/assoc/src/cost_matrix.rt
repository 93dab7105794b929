// The cost matrix of associate of assoc.rs, steps 1 to 4, a cell for each detection and track.
ghost use Rattle.std.specs.Prelude.{◌≡◌, ◌+◌, ◌*◌, ◌≤◌, length, get_or};
ghost use Rattle.std.specs.Float.{nan};
ghost use Rattle.laws.specs.Tab.{tab};
ghost use Rattle.laws.specs.Grid.{grid, cell_at};
ghost use Rattle.floats.specs.Single.{plus_zero};
ghost use Rattle.assoc_similarity.specs.Overlap.{box_at};
ghost use Rattle.assoc_similarity.specs.Sizes.{Ready};
ghost use Rattle.assoc_cost.specs.Cost.{cost_cell, cost_matrix};

use super::scene::Scene;
use assoc_boxes::overlap::BoundingBox;
use assoc_cost::{AssociateParams, cost_cell};
use assoc_similarity::box_at;

// The costs of detection i, over the similarities of its distances.
fn cost_row(params: AssociateParams, scene: Scene, det: BoundingBox, i: usize, row: &mut [f32])
    requires { length scene.corners.now ≡ length row.old * 4 }
    ensures { let s = scene.entry in
        row.new ≡ tab (λ j. cost_cell params det (box_at s.corners.now j) (get_or s.detection_confidence.now i plus_zero) (get_or s.track_confidence.now j plus_zero) (get_or row.old j nan)) (length row.old) }
{
    for (j, cell) in row.iter_mut().enumerate() {
        *cell = cost_cell(
            params,
            det,
            box_at(scene.corners, j),
            scene.detection_confidence,
            i,
            scene.track_confidence,
            j,
            *cell,
        );
    }
}

// The costs, over the similarities of the distances that lie in the front of `cells`.
pub(crate) fn associate_cost(params: AssociateParams, scene: Scene, cells: &mut [f32])
    requires { Ready scene.boxes scene.tracks (length scene.detections.now) (length scene.corners.now) (length cells.old) }
    ensures { let s = scene.entry in
        cells.new ≡ grid (cost_matrix params s.detections.now s.corners.now s.track_confidence.now s.detection_confidence.now (cell_at nan s.tracks cells.old)) s.boxes s.tracks cells.old }
{
    let tracks = scene.tracks;
    for i in 0..scene.boxes {
        let at = i * tracks;
        cost_row(
            params,
            scene,
            box_at(scene.detections, i),
            i,
            &mut cells[at..at + tracks],
        );
    }
}
