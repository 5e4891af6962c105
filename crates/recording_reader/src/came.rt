//! By which paths records came.
ghost use Rattle.std.specs.Prelude.{◌≡◌, ◌∷◌, ◌++◌, [], List};
ghost use Rattle.media_file.specs.Records.{Entry};
ghost use Rattle.recording_reader.specs.Came.{AreNoted};
ghost use Rattle.recording_reader.specs.Files.{has_path};

use st_format::Path;

/// By which paths records came.
#[derive(Clone, Copy)]
pub(crate) struct Came {
    pub a: bool,
    pub b: bool,
}

impl Came {
    /// Before the first record.
    pub fn none() -> Came
        ensures { AreNoted result [] }
    {
        Came { a: false, b: false }
    }

    /// Notes that one more came by a path.
    pub fn note(&mut self, path: Path)
        ensures { (records : List Entry) (e : Entry) → e.path ≡ path → AreNoted self.old records
            → AreNoted self.new (records ++ e ∷ []) }
    {
        match path {
            Path::A => self.a = true,
            Path::B => self.b = true,
        }
    }

    /// Whether one came by a path.
    pub fn has(&self, path: Path) -> bool
        ensures { (records : List Entry) → AreNoted self.now records
            → result ≡ has_path path records }
    {
        match path {
            Path::A => self.a,
            Path::B => self.b,
        }
    }
}
