//! Laws of the definitions.
ghost use Rattle.std.specs.Prelude.{◌*◌, ◌≡◌, ◌≤◌, ◌↔◌, ◌⊎◌, ℕ, Some, Ok, Err, List, [], ◌++◌};
ghost use Rattle.std.specs.Prelude.{length, map};
ghost use Rattle.st_format.specs.declared.cell.Cell.{Cell};
ghost use Rattle.st_format.specs.Device.{AreOctets};
ghost use Rattle.st_format.specs.Picture.{IsPicture, Values};
ghost use Rattle.st_format.specs.Turns.{Due};
ghost use Rattle.media_file.specs.declared.fault.FileFault.{FileFault};
ghost use Rattle.media_file.specs.Capture.{Content, IsCapture, capture_walk};
ghost use Rattle.media_file.specs.CaptureFaults.{IsCaptureFault, IsCutCapture, IsRecordFault};
ghost use Rattle.media_file.specs.CaptureFaults.{cut_place};
ghost use Rattle.media_file.specs.PictureFaults.{IsCutPicture, IsPictureFault, picture_place};
ghost use Rattle.media_file.specs.PictureFile.{picture_walk, picture_text, shown_of};
ghost use Rattle.media_file.specs.Reader.{due_of_entry, dues_in};
ghost use Rattle.media_file.specs.Reading.{entries_in, fault_at};
ghost use Rattle.media_file.specs.Records.{Entry};
ghost use Rattle.media_file.specs.Runs.{AreRecordsOf};
ghost use Rattle.media_file.specs.StateFile.{IsKeptReceiver, Kept, cut_cells, state_text};

/// The records that are read of octets are those that they spell up to their first fault.
pub fn records_read()
    ensures { (octets : List ℕ) → AreOctets octets
        → (rest : List ℕ) × AreRecordsOf (entries_in octets) rest octets }
{}

/// Octets spell one list of records up to their first fault: those that are read of them.
pub fn one_run()
    ensures { (octets rest : List ℕ) (entries : List Entry) → AreOctets octets
        → AreRecordsOf entries rest octets → entries ≡ entries_in octets }
{}

/// The turns of octets are the datagrams of the records that they spell up to their first fault.
pub fn turns_of_run()
    ensures { (octets rest : List ℕ) (entries : List Entry) → AreOctets octets
        → AreRecordsOf entries rest octets → dues_in octets ≡ map due_of_entry entries }
{}

/// What is a capture is read as what it says.
pub fn capture_read()
    ensures { (c : Content) (octets : List ℕ) (limit : ℕ) → IsCapture octets c
        → length c.records ≤ limit → capture_walk limit octets ≡ Ok (c, []) }
{}

/// Octets are a capture of one content.
pub fn one_content()
    ensures { (c d : Content) (octets : List ℕ) → IsCapture octets c → IsCapture octets d → c ≡ d }
{}

/// What is wrong at the front of octets is a record's fault exactly where the fault's condition
/// holds.
pub fn record_fault()
    ensures { (f : FileFault) (octets : List ℕ)
        → (fault_at octets ≡ Some f) ↔ IsRecordFault f octets }
{}

/// Octets are read as a capture with a fault exactly where the fault's condition holds.
pub fn capture_fault()
    ensures { (limit : ℕ) (f : FileFault) (octets : List ℕ) → AreOctets octets
        → (capture_walk limit octets ≡ Err f) ↔ IsCaptureFault f limit octets }
{}

/// At most one fault's condition holds of a capture.
pub fn one_capture_fault()
    ensures { (limit : ℕ) (f g : FileFault) (octets : List ℕ)
        → IsCaptureFault f limit octets → IsCaptureFault g limit octets → f ≡ g }
{}

/// A capture that is cut is cut in one place.
pub fn one_cut()
    ensures { (limit : ℕ) (octets : List ℕ) → AreOctets octets
        → (a b : IsCutCapture octets limit) → cut_place a ≡ cut_place b }
{}

/// Octets are a capture of at most so many records, or a fault's condition holds of them.
pub fn capture_or_fault()
    ensures { (limit : ℕ) (octets : List ℕ) → AreOctets octets
        → ((c : Content) × IsCapture octets c × (length c.records ≤ limit))
        ⊎ ((f : FileFault) × IsCaptureFault f limit octets) }
{}

/// A receiver has one file: two that have equal files have the same format, payload type, source,
/// timestamps and cells. That equal ones have equal files is plain, since the text is a function of
/// these.
pub fn one_file()
    ensures { (k l : Kept) → IsKeptReceiver k → IsKeptReceiver l → state_text k ≡ state_text l
        → k ≡ l }
{}

/// Cells with equal groups are equal: so with [`one_file`] equal files are of equal frames.
pub fn one_raster()
    ensures { (size n : ℕ) (a b : List Cell) → length a ≡ n * size → length b ≡ n * size
        → cut_cells size n a ≡ cut_cells size n b → a ≡ b }
{}

/// A picture's file is read as that picture.
pub fn picture_read()
    ensures { (p : Values) → IsPicture p → picture_walk (picture_text p) ≡ Ok (shown_of p, []) }
{}

/// A picture has one file: two that have equal files have the same format and the same samples.
/// That equal ones have equal files is plain, since the text is a function of these.
pub fn one_picture()
    ensures { (p q : Values) → IsPicture p → IsPicture q → picture_text p ≡ picture_text q
        → shown_of p ≡ shown_of q }
{}

/// Octets are read as a picture with a fault exactly where the fault's condition holds.
pub fn picture_fault()
    ensures { (f : FileFault) (octets : List ℕ) → AreOctets octets
        → (picture_walk octets ≡ Err f) ↔ IsPictureFault f octets }
{}

/// At most one fault's condition holds of a picture's file.
pub fn one_picture_fault()
    ensures { (f g : FileFault) (octets : List ℕ) → AreOctets octets
        → IsPictureFault f octets → IsPictureFault g octets → f ≡ g }
{}

/// A picture's file that is cut is cut in one place.
pub fn one_picture_cut()
    ensures { (octets : List ℕ) (a b : IsCutPicture octets)
        → picture_place a ≡ picture_place b }
{}
