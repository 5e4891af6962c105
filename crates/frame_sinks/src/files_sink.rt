//! A sink of frames that writes the picture of each as a file of its own.
ghost use Rattle.std.specs.Prelude.{◌≡◌, ◌++◌, ◌∷◌, [], IfErr, ℕ, List, None, OnErr, OnOk};
ghost use Rattle.frame_sinks.specs.Files.{file_for};
ghost use Rattle.run_outcome.specs.Fault.{Accounts, IfRefused, counts};

use crate::filling::Filling;
use crate::settling::Settling;
use follow_engine::PictureSink;
use frame_assembly::Frame;
use run_outcome::Fault;
use st_format::Picture;
use std::alloc::{Allocator, Global};

/// Files of pictures, each by the name of a timestamp.
pub trait PictureFiles {
    /// The files that took their names so far, in order: the octets of each name, and its own.
    ghost files: { Self → List (List ℕ × List ℕ) };

    /// How many of its calls failed so far.
    ghost failures: { Self → ℕ };

    /// Writes a picture as the file of a timestamp, in place of one that has the name. An `Err` is
    /// that a device failed or memory was wanted: no file took its name then.
    fn put<A: Allocator>(&mut self, timestamp: u32, picture: &Picture<A>) -> Result<(), Fault>
        ensures filed { OnOk result
            (files self.new ≡ files self.old ++ file_for timestamp picture.now ∷ []) }
        ensures unfiled { OnErr result (files self.new ≡ files self.old) }
        ensures unrefused { IfErr result (λ f. IfRefused f ⊥) }
        ensures failures { Accounts result (counts (failures self.old) (failures self.new) ∷ []) };
}

/// Writes the picture of each frame that it is shown as a file of its own, by the name of its
/// timestamp. The samples that a frame has no value for are filled.
#[derive(Drop)]
pub struct FilesSink<F: PictureFiles + Drop, A: Allocator = Global> {
    /// What writes the pictures, each as a file by the name of its timestamp.
    pub files: F,
    settling: Settling<A>,
}

impl<F: PictureFiles + Drop, A: Allocator + Copy> FilesSink<F, A> {
    /// A sink that fills so, by which no file is written yet. Values of a fill that are greater
    /// than a sample can be count as the greatest, and where none are given it is black. No memory
    /// is taken.
    pub fn new(alloc: A, filling: Filling, fill: Option<[u16; 3]>, files: F) -> Self
        ensures files { result.files ≡ files }
        ensures filling { result.settling.filling ≡ filling }
        ensures fill { result.settling.fill ≡ fill }
        ensures held { result.settling.held ≡ None }
    {
        FilesSink {
            files,
            settling: Settling::new(alloc, filling, fill),
        }
    }

    /// Gives back what wrote the files, with those that were written.
    pub fn into_files(self) -> F
        ensures { result ≡ self.files }
    {
        self.files
    }
}

impl<F: PictureFiles + Drop, A: Allocator + Copy> PictureSink for FilesSink<F, A> {
    ghost use Rattle.frame_sinks.specs.Files.{FilesFrame};

    ghost takes = { λ k h l. FilesFrame F.files k h l };

    ghost fails = { λ k _ l. F.files l.files ≡ F.files k.files };

    ghost failures = { λ k. F.failures k.files };

    fn show<B: Allocator>(&mut self, timestamp: u32, frame: &Frame<B>) -> Result<(), Fault> {
        let picture = self.settling.settle(frame)?;
        self.files.put(timestamp, &picture)?;
        self.settling.keep(picture);
        Ok(())
    }
}
