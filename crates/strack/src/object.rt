// A detection or a tracked box, object.rs: its rect, its score, and the id of its track if it has one.
ghost use Rattle.std.specs.Prelude.{◌≡◌};
ghost use Rattle.strack.specs.Object.{new as new_object};

use crate::rect::Rect;

#[derive(Clone, Copy)]
pub struct Object {
    pub rect: Rect,
    pub prob: f32,
    pub id: Option<u64>,
}

impl Object {
    pub fn new(rect: Rect, prob: f32, id: Option<u64>) -> Object
        ensures { result ≡ new_object rect prob id }
    {
        Object { rect, prob, id }
    }

    pub fn get_rect(self) -> Rect
        ensures { result ≡ self.rect }
    {
        self.rect
    }

    pub fn get_x(self) -> f32
        ensures { result ≡ self.rect.left }
    {
        self.rect.left
    }

    pub fn get_y(self) -> f32
        ensures { result ≡ self.rect.top }
    {
        self.rect.top
    }

    pub fn get_width(self) -> f32
        ensures { result ≡ self.rect.width }
    {
        self.rect.width
    }

    pub fn get_height(self) -> f32
        ensures { result ≡ self.rect.height }
    {
        self.rect.height
    }

    pub fn get_prob(self) -> f32
        ensures { result ≡ self.prob }
    {
        self.prob
    }

    pub fn get_track_id(self) -> Option<u64>
        ensures { result ≡ self.id }
    {
        self.id
    }
}
