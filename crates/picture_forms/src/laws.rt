//! Laws of the layouts: what is written is read.
ghost use Rattle.std.specs.Prelude.{◌≡◌, ◌↔◌, ℕ, List, ◌++◌, Ok, length, map};
ghost use Rattle.std.specs.List.{AllByRecursion, flat_map};
ghost use Rattle.st_format.specs.declared.format.Format.{Format};
ghost use Rattle.st_format.specs.Fields.{Fields, fields_of};
ghost use Rattle.st_format.specs.Picture.{IsPicture, Values};
ghost use Rattle.st_format.specs.Position.{sample_count};
ghost use Rattle.picture_forms.specs.Frames.{frame_walk};
ghost use Rattle.picture_forms.specs.Heads.{HasY4mHead, head_walk};
ghost use Rattle.picture_forms.specs.Layouts.{IsRgb, IsYcc, frame_text, pixels_text};
ghost use Rattle.picture_forms.specs.Layouts.{pixmap_head, planes_text};
ghost use Rattle.picture_forms.specs.Pixmaps.{HasPixmapHead, pixels_walk, pixmap_head_walk};
ghost use Rattle.picture_forms.specs.Layouts.{y4m_head, y4m_text};
ghost use Rattle.picture_forms.specs.Streams.{IsOf, frames_in};

/// Octets begin with the planes of one picture of a format at most: so what is written is read as
/// the same picture.
pub fn one_picture()
    ensures { (f : Format) (xs ys a b : List ℕ) → IsYcc f.sampling
        → length xs ≡ sample_count f → length ys ≡ sample_count f
        → planes_text (record { format = f; samples = xs }) ++ a
        ≡ planes_text (record { format = f; samples = ys }) ++ b → xs ≡ ys }
{}

/// The same of the octets behind a pixmap's head.
pub fn one_pixmap()
    ensures { (f : Format) (xs ys a b : List ℕ) → length xs ≡ sample_count f
        → length ys ≡ sample_count f
        → pixels_text (record { format = f; samples = xs }) ++ a
        ≡ pixels_text (record { format = f; samples = ys }) ++ b → xs ≡ ys }
{}

/// The head of a stream is read exactly as the format that it says, whatever is behind it.
pub fn head_is()
    ensures { (octets rest : List ℕ) (f : Fields)
        → (head_walk octets ≡ Ok (f, rest)) ↔ HasY4mHead octets rest f }
{}

/// The head of a stream that is written is read as its format, whatever is behind it.
pub fn head_again()
    ensures { (f : Format) (behind : List ℕ) → IsYcc f.sampling
        → head_walk (y4m_head f ++ behind) ≡ Ok (fields_of f, behind) }
{}

/// A frame that is written is read as the planes of its picture, whatever is behind it.
pub fn frame_again()
    ensures { (v : Values) (behind : List ℕ) → IsYcc v.format.sampling → IsPicture v
        → frame_walk v.format (frame_text v ++ behind) ≡ Ok (planes_text v, behind) }
{}

/// The head of a pixmap is read, at a rate, exactly as the format that it says, whatever is behind
/// it (Netpbm, ppm).
pub fn pixmap_head_is()
    ensures { (n d : ℕ) (octets rest : List ℕ) (f : Fields)
        → (pixmap_head_walk n d octets ≡ Ok (f, rest)) ↔ HasPixmapHead n d octets rest f }
{}

/// The head of a pixmap that is written is read as its format, where the rate is given.
pub fn pixmap_head_again()
    ensures { (f : Format) (behind : List ℕ) → IsRgb f.sampling
        → pixmap_head_walk f.n f.d (pixmap_head f ++ behind) ≡ Ok (fields_of f, behind) }
{}

/// The samples of a pixmap that are written are read, whatever is behind them.
pub fn pixels_again()
    ensures { (v : Values) (behind : List ℕ) → IsPicture v
        → pixels_walk v.format (pixels_text v ++ behind) ≡ Ok (pixels_text v, behind) }
{}

/// A stream that is written is read as its format and all its pictures, in order, whatever is
/// behind them.
pub fn stream_again()
    ensures head { (f : Format) (pictures : List Values) (behind : List ℕ) → IsYcc f.sampling
        → head_walk (y4m_text f pictures ++ behind)
        ≡ Ok (fields_of f, flat_map frame_text pictures ++ behind) }
    ensures frames { (f : Format) (pictures : List Values) (behind : List ℕ) → IsYcc f.sampling
        → AllByRecursion (IsOf f) pictures
        → frames_in f (length pictures) (flat_map frame_text pictures ++ behind)
        ≡ map planes_text pictures }
{}
