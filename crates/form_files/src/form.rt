//! The forms of a picture's file.
ghost use Rattle.std.specs.Prelude.{◌≡◌, ◌≢◌, ◌↔◌, IfNone, IfSome, IsTrue};

use st_format::Sampling;

/// A form of a picture's file.
#[derive(Clone, Copy, Debug, PartialEq, Eq)]
pub enum Form {
    /// The project's own file.
    Picture,
    /// A YUV4MPEG2 stream of one frame.
    Y4m,
    /// A portable pixmap, of R, G and B.
    Pixmap,
    /// The pgroups of the raster, packed, and nothing before or behind them.
    Raw,
}

impl Form {
    ghost use Rattle.form_files.specs.Form.{HoldsSampling, form_by_ending, form_named, form_word};

    /// The form that a file's name says by its ending: `.y4m`, `.ppm` or `.raw`. Any other name is
    /// that of a picture's own file. Case matters.
    #[tactic(auto, unfolding(crate::specs::Form::form_by_ending))]
    pub fn of_name(name: &str) -> Form
        ensures { result ≡ form_by_ending name.now }
    {
        let octets = name.as_bytes();
        let ending = &octets[octets.len().saturating_sub(4)..];
        if ending == b".y4m".as_slice() {
            Form::Y4m
        } else if ending == b".ppm".as_slice() {
            Form::Pixmap
        } else if ending == b".raw".as_slice() {
            Form::Raw
        } else {
            Form::Picture
        }
    }

    /// The form of a word, which is just that: `picture`, `y4m`, `ppm` or `raw`.
    #[tactic(auto, unfolding(crate::specs::Form::form_named))]
    pub fn of_word(word: &[u8]) -> Option<Form>
        ensures is { IfSome result (λ f. word.now ≡ form_word f) }
        ensures none { IfNone result ((f : Form) → word.now ≢ form_word f) }
        // The same by comparisons.
        ensures exact { result ≡ form_named word.now }
    {
        if word == b"picture".as_slice() {
            Some(Form::Picture)
        } else if word == b"y4m".as_slice() {
            Some(Form::Y4m)
        } else if word == b"ppm".as_slice() {
            Some(Form::Pixmap)
        } else if word == b"raw".as_slice() {
            Some(Form::Raw)
        } else {
            None
        }
    }

    /// Whether pictures of a sampling have this form: YUV4MPEG2 has YCbCr alone, and a portable
    /// pixmap RGB.
    pub fn holds(self, sampling: Sampling) -> bool
        ensures { IsTrue result ↔ HoldsSampling self sampling }
    {
        match (self, sampling) {
            (Form::Y4m, Sampling::Rgb) => false,
            (Form::Pixmap, Sampling::Ycc422 | Sampling::Ycc444) => false,
            _ => true,
        }
    }
}
