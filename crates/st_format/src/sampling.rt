//! Which samples a pixel has, of how many bits, and the groups in which they are sent.
ghost use Rattle.std.specs.Prelude.{◌≡◌, ◌≢◌, ◌<◌, ◌≤◌, ◌↔◌, IsTrue, IfNone, IfSome, length};
ghost use Rattle.st_format.specs.Pgroup.{pixel_group, bits_of};

/// Which components a pixel has, and at which columns (SMPTE ST 2110-20, sampling).
#[derive(Clone, Copy, Debug, PartialEq, Eq)]
pub enum Sampling {
    /// YCbCr 4:2:2: Y at each column, Cb and Cr at the even ones.
    Ycc422,
    /// YCbCr 4:4:4: Y, Cb and Cr at each column.
    Ycc444,
    /// R, G and B at each column.
    Rgb,
}

/// How many bits a sample has (SMPTE ST 2110-20, depth).
#[derive(Clone, Copy, Debug, PartialEq, Eq)]
pub enum Depth {
    /// 8 bits: a sample is an octet.
    D8,
    /// 10 bits: four samples are five octets.
    D10,
    /// 12 bits: two samples are three octets.
    D12,
    /// 16 bits, whole numbers (SMPTE ST 2110-20, depth `16`, not `16f`).
    D16,
}

/// A pixel group (pgroup): the smallest piece of a row that a packet carries
/// (RFC 4175, 4.3; SMPTE ST 2110-20, pixel groups).
#[derive(Clone, Copy, Debug, PartialEq, Eq)]
pub struct Pgroup {
    /// How many octets it takes: at most 15.
    pub octets: usize,
    /// How many columns it covers: at most 4.
    pub pixels: u32,
    /// How many samples it has, of all components: at most 12.
    pub samples: usize,
}

impl Depth {
    ghost use Rattle.st_format.specs.Forms.{depth_named, depth_text};

    /// How many bits a sample has: 8, 10, 12 or 16.
    pub fn bits(self) -> u32
        ensures { result ≡ bits_of self }
    {
        match self {
            Depth::D8 => 8,
            Depth::D10 => 10,
            Depth::D12 => 12,
            Depth::D16 => 16,
        }
    }

    /// The depth of a word, which is just that, as `08` isn't.
    #[tactic(auto, unfolding(crate::specs::Forms::depth_named))]
    pub fn of_word(text: &[u8]) -> Option<Depth>
        ensures is { IfSome result (λ b. text.now ≡ depth_text b) }
        ensures none { IfNone result ((b : Depth) → text.now ≢ depth_text b) }
        // The same by comparisons, for the walks that go on from it.
        ensures exact { result ≡ depth_named text.now }
    {
        if text == b"8".as_slice() {
            Some(Depth::D8)
        } else if text == b"10".as_slice() {
            Some(Depth::D10)
        } else if text == b"12".as_slice() {
            Some(Depth::D12)
        } else if text == b"16".as_slice() {
            Some(Depth::D16)
        } else {
            None
        }
    }
}

impl Sampling {
    ghost use Rattle.st_format.specs.Position.{HasComponent, component_in_row, number_in_run};
    ghost use Rattle.st_format.specs.Position.{run_columns, run_samples};
    ghost use Rattle.st_format.specs.Words.{sampling_named, sampling_text};

    /// Its word (SMPTE ST 2110-20, sampling): `YCbCr-4:2:2`, `YCbCr-4:4:4` or `RGB`.
    pub fn word(self) -> &'static [u8]
        ensures text { result.now ≡ sampling_text self }
        ensures short { length result.now ≤ 11 }
    {
        match self {
            Sampling::Ycc422 => b"YCbCr-4:2:2",
            Sampling::Ycc444 => b"YCbCr-4:4:4",
            Sampling::Rgb => b"RGB",
        }
    }

    /// The sampling of a word, which is just that: case matters, and other samplings are none.
    #[tactic(auto, unfolding(crate::specs::Words::sampling_named))]
    pub fn of_word(text: &[u8]) -> Option<Sampling>
        ensures is { IfSome result (λ s. text.now ≡ sampling_text s) }
        ensures none { IfNone result ((s : Sampling) → text.now ≢ sampling_text s) }
        // The same by comparisons, for the walks that go on from it.
        ensures exact { result ≡ sampling_named text.now }
    {
        if text == b"YCbCr-4:2:2".as_slice() {
            Some(Sampling::Ycc422)
        } else if text == b"YCbCr-4:4:4".as_slice() {
            Some(Sampling::Ycc444)
        } else if text == b"RGB".as_slice() {
            Some(Sampling::Rgb)
        } else {
            None
        }
    }

    /// The pgroup of this sampling at a depth: at most 15 octets, 4 pixels and 12 samples.
    pub fn pgroup(self, depth: Depth) -> Pgroup
        ensures octets { result.octets ≡ (pixel_group self depth).octets }
        ensures pixels { result.pixels ≡ (pixel_group self depth).pixels }
        ensures samples { result.samples ≡ (pixel_group self depth).samples }
        ensures some { (0 < result.octets) × (0 < result.pixels) × (0 < result.samples) }
        ensures most { (result.octets ≤ 15) × (result.pixels ≤ 4) × (result.samples ≤ 12) }
    {
        let (octets, pixels, samples) = match self {
            Sampling::Ycc422 => match depth {
                Depth::D8 => (4, 2, 4),
                Depth::D10 => (5, 2, 4),
                Depth::D12 => (6, 2, 4),
                Depth::D16 => (8, 2, 4),
            },
            Sampling::Ycc444 | Sampling::Rgb => match depth {
                Depth::D8 => (3, 1, 3),
                Depth::D10 => (15, 4, 12),
                Depth::D12 => (9, 2, 6),
                Depth::D16 => (6, 1, 3),
            },
        };
        Pgroup {
            octets,
            pixels,
            samples,
        }
    }

    /// How many columns repeat along a row, each time with the same components.
    pub(crate) fn run_columns(self) -> u32
        ensures value { result ≡ run_columns self }
        ensures some { 0 < result }
    {
        match self {
            Sampling::Ycc422 => 2,
            Sampling::Ycc444 | Sampling::Rgb => 1,
        }
    }

    /// How many samples stand in the columns that repeat.
    pub(crate) fn run_samples(self) -> usize
        ensures value { result ≡ run_samples self }
        ensures limit { (0 < result) × (result ≤ 4) }
    {
        match self {
            Sampling::Ycc422 => 4,
            Sampling::Ycc444 | Sampling::Rgb => 3,
        }
    }

    /// How many samples of the columns that repeat are sent before that of a component of one of
    /// them.
    #[tactic(auto, unfolding(crate::specs::Position::number_in_run))]
    pub(crate) fn number_in_run(self, column: u32, component: u8) -> usize
        requires { column < 2 }
        ensures value { result ≡ number_in_run self column component }
        ensures small { result < 256 }
    {
        match (self, component) {
            (Sampling::Ycc422, 0) => 1 + 2 * column as usize,
            (Sampling::Ycc444, 0) => 1,
            (Sampling::Ycc422 | Sampling::Ycc444, 1) => 0,
            (Sampling::Ycc422 | Sampling::Ycc444, _) => 2,
            (Sampling::Rgb, _) => component as usize,
        }
    }

    /// The component of the sample of this number, counted from the start of a row or of a raster.
    pub fn component_in_row(self, number: usize) -> usize
        ensures value { result ≡ component_in_row self number }
        ensures below { result < 3 }
    {
        match (self, number % self.run_samples()) {
            (Sampling::Ycc422, 1 | 3) => 0,
            (Sampling::Ycc422, 0) => 1,
            (Sampling::Ycc422, _) => 2,
            (Sampling::Ycc444, 0) => 1,
            (Sampling::Ycc444, 1) => 0,
            (Sampling::Ycc444, _) => 2,
            (Sampling::Rgb, component) => component,
        }
    }

    /// Whether a pixel of this column has a sample of this component: of 4:2:2 only even columns
    /// have Cb and Cr.
    pub(crate) fn has_component(self, column: u32, component: u8) -> bool
        ensures { IsTrue result ↔ HasComponent self column component }
    {
        match self {
            Sampling::Ycc422 => component < 3 && (component == 0 || column % 2 == 0),
            Sampling::Ycc444 | Sampling::Rgb => component < 3,
        }
    }
}
