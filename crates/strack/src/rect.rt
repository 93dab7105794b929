// A box, rect.rs: left, top, width, height in f32. Each operation rounds once, in the order in which it is written here, which is the Rust's.
ghost use Rattle.std.specs.Prelude.{◌≡◌};
ghost use Rattle.strack.specs.Rect.{new as new_rect, area as area_of, shared_length, iou_over, calc_iou, get_xyah, get_xyxy, from_xyxy, width_of, centred, from_xyhr};

#[derive(Clone, Copy)]
pub struct Rect {
    pub left: f32,
    pub top: f32,
    pub width: f32,
    pub height: f32,
}

// Centre x, centre y, aspect (width / height), height.
#[derive(Clone, Copy)]
pub struct Xyah {
    pub x: f32,
    pub y: f32,
    pub a: f32,
    pub h: f32,
}

// Two corners: left, top, right, bottom.
#[derive(Clone, Copy)]
pub struct Xyxy {
    pub x1: f32,
    pub y1: f32,
    pub x2: f32,
    pub y2: f32,
}

// The length that two spans share, each counted with one more at its end.
fn shared_length(from: f32, extent: f32, other: f32, size: f32) -> f32
    ensures { result ≡ shared_length from extent other size }
{
    floats_pick::min(from + extent, other + size) - floats_pick::max(from, other) + 1.0
}

impl Rect {
    pub fn new(x: f32, y: f32, width: f32, height: f32) -> Rect
        ensures { result ≡ new_rect x y width height }
    {
        Rect {
            left: x,
            top: y,
            width,
            height,
        }
    }

    pub fn x(self) -> f32
        ensures { result ≡ self.left }
    {
        self.left
    }

    pub fn y(self) -> f32
        ensures { result ≡ self.top }
    {
        self.top
    }

    pub fn width(self) -> f32
        ensures { result ≡ self.width }
    {
        self.width
    }

    pub fn height(self) -> f32
        ensures { result ≡ self.height }
    {
        self.height
    }

    pub fn area(self) -> f32
        ensures { result ≡ area_of self }
    {
        (self.width + 1.0) * (self.height + 1.0)
    }

    // What both boxes share over what they cover together, the other's area being given.
    fn iou_over(self, area: f32, iw: f32, ih: f32) -> f32
        ensures { result ≡ iou_over self area iw ih }
    {
        let ua = (self.width + 1.0) * (self.height + 1.0) + area - iw * ih;
        iw * ih / ua
    }

    #[tactic(auto, unfolding(crate::specs::Rect::calc_iou))]
    pub fn calc_iou(self, other: Rect) -> f32
        ensures { result ≡ calc_iou self other }
    {
        let box_area = other.area();
        let iw = shared_length(self.left, self.width, other.left, other.width);
        if iw > 0.0 {
            let ih = shared_length(self.top, self.height, other.top, other.height);
            if ih > 0.0 {
                return self.iou_over(box_area, iw, ih);
            }
        }
        0.0
    }

    pub fn get_xyah(self) -> Xyah
        ensures { result ≡ get_xyah self }
    {
        Xyah {
            x: self.left + self.width / 2.0,
            y: self.top + self.height / 2.0,
            a: self.width / self.height,
            h: self.height,
        }
    }

    pub fn get_xyxy(self) -> Xyxy
        ensures { result ≡ get_xyxy self }
    {
        Xyxy {
            x1: self.left,
            y1: self.top,
            x2: self.left + self.width,
            y2: self.top + self.height,
        }
    }

    pub fn from_xyxy(x1: f32, y1: f32, x2: f32, y2: f32) -> Rect
        ensures { result ≡ from_xyxy x1 y1 x2 y2 }
    {
        Rect {
            left: x1,
            top: y1,
            width: x2 - x1,
            height: y2 - y1,
        }
    }

    // The box of width w and height h around (x, y).
    fn centred(x: f32, y: f32, w: f32, h: f32) -> Rect
        ensures { result ≡ centred x y w h }
    {
        Rect {
            left: x - w / 2.0,
            top: y - h / 2.0,
            width: w,
            height: h,
        }
    }

    pub fn from_xyhr(x: f32, y: f32, h: f32, r: f32) -> Rect
        ensures { result ≡ from_xyhr x y h r }
    {
        Rect::centred(x, y, width_of(h, r), h)
    }
}

// The width of a box of height h and aspect r: none where the aspect is zero or below.
#[tactic(auto, unfolding(crate::specs::Rect::width_of))]
pub(crate) fn width_of(h: f32, r: f32) -> f32
    ensures { result ≡ width_of h r }
{
    if r <= 0.0 { 0.0 } else { r * h }
}
