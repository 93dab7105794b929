// The settings of a tracker, boost_tracker.rs: `new` and the `with_` options but ECC's, and cap_confidence, which the Rust does not have. Each `with_` option returns the settings that it changed.
ghost use Rattle.std.specs.Prelude.{◌≡◌};
ghost use Rattle.boost_tracker_settings.specs.Settings.{new as new_settings, with_lambdas, with_boost, with_boost_plus, with_boost_plus_plus, with_shape_similarity_v1, with_cap_confidence};

// Kept: C fills it in, a byte for each option, as bedside.h's bedside_settings.
#[repr(C)]
#[derive(Clone, Copy)]
pub struct Settings {
    pub det_thresh: f32,
    pub iou_threshold: f32,
    pub lambda_iou: f32,
    pub lambda_mhd: f32,
    pub lambda_shape: f32,
    pub dlo_boost_coef: f32,
    pub max_age: u64,
    pub min_hits: u64,
    pub use_dlo_boost: bool,
    pub use_duo_boost: bool,
    pub use_rich_similarity: bool,
    pub use_shape_similarity_correction: bool,
    pub use_soft_boost: bool,
    pub use_varying_threshold: bool,
    // an emitted confidence above 1 is written as 1
    pub cap_confidence: bool,
}

impl Settings {
    pub fn new(det_thresh: f32, iou_threshold: f32, max_age: u64, min_hits: u64) -> Settings
        ensures { result ≡ new_settings det_thresh iou_threshold max_age min_hits }
    {
        Settings {
            det_thresh,
            iou_threshold,
            lambda_iou: 0.5,
            lambda_mhd: 0.25,
            lambda_shape: 0.25,
            dlo_boost_coef: 0.65,
            max_age,
            min_hits,
            use_dlo_boost: true,
            use_duo_boost: true,
            use_rich_similarity: false,
            use_shape_similarity_correction: true,
            use_soft_boost: false,
            use_varying_threshold: false,
            cap_confidence: false,
        }
    }

    pub fn with_lambdas(mut self, lambda_iou: f32, lambda_mhd: f32, lambda_shape: f32) -> Settings
        ensures { result ≡ with_lambdas self lambda_iou lambda_mhd lambda_shape }
    {
        self.lambda_iou = lambda_iou;
        self.lambda_mhd = lambda_mhd;
        self.lambda_shape = lambda_shape;
        self
    }

    pub fn with_boost(mut self, use_dlo_boost: bool, use_duo_boost: bool) -> Settings
        ensures { result ≡ with_boost self use_dlo_boost use_duo_boost }
    {
        self.use_dlo_boost = use_dlo_boost;
        self.use_duo_boost = use_duo_boost;
        self
    }

    pub fn with_boost_plus(mut self) -> Settings
        ensures { result ≡ with_boost_plus self }
    {
        self.use_rich_similarity = true;
        self
    }

    #[tactic(auto, unfolding(crate::specs::Settings::with_boost_plus_plus))]
    pub fn with_boost_plus_plus(mut self) -> Settings
        ensures { result ≡ with_boost_plus_plus self }
    {
        self.use_rich_similarity = true;
        self.use_soft_boost = true;
        self.use_varying_threshold = true;
        self
    }

    pub fn with_shape_similarity_v1(mut self) -> Settings
        ensures { result ≡ with_shape_similarity_v1 self }
    {
        self.use_shape_similarity_correction = false;
        self
    }

    pub fn with_cap_confidence(mut self, cap_confidence: bool) -> Settings
        ensures { result ≡ with_cap_confidence self cap_confidence }
    {
        self.cap_confidence = cap_confidence;
        self
    }
}
