//! The files that `follow` writes, where they are named: the pictures' stream, the report, and
//! pictures as files of their own.
ghost use Rattle.std.specs.Prelude.{◌≡◌, IfErr, IfSome, IsFalse, IsTrue, OnOk};
ghost use Rattle.follow_runs.specs.Outputs.{AreApart, AreInPlace, AreLeft, AreSinksOver};
ghost use Rattle.follow_runs.specs.Outputs.{AreUnplaced, AreUnwritten, IsFilesOver};
ghost use Rattle.follow_runs.specs.Outputs.{IsReportOver, SameOutputs, directory_under};
ghost use Rattle.follow_runs.specs.Outputs.{outputs_under, report_under};
ghost use Rattle.devices.specs.Passed.{IsUnplaced};
ghost use Rattle.run_outcome.specs.Refusing.{OfRefusal};
ghost use Rattle.run_outcome.specs.declared.refusal.Refusal.TheVariants.{OutputIsInput};
ghost use Rattle.run_outcome.specs.declared.refusal.Writer.TheVariants.{Follow};

use crate::picture_directory::{
    PictureDirectory, directory_writing, find_directory, named_directory,
};
use crate::pictured::{file_of, find_place, named_output, settle, sink_over, writing};
use crate::unplaced::UnplacedOutput;
use capture_runs::is_read;
use command_line::FollowWords;
use devices::{FileOutput, Writing};
use frame_sinks::{BothSinks, FilesSink, Filling, FormSink, ReportSink};
use run_outcome::Fault;
use std::mem;

/// A sink of frames over each file that is written, and over the directory.
pub(crate) type FollowSinks<'a> = BothSinks<
    Option<FormSink<UnplacedOutput<'a>>>,
    BothSinks<Option<ReportSink<UnplacedOutput<'a>>>, Option<FilesSink<PictureDirectory<'a>>>>,
>;

/// The files that `follow` writes, those of them that are named.
#[derive(Drop)]
pub struct FollowOutputs<'a> {
    /// The stream of the frames' pictures.
    pub out: Option<FileOutput<'a>>,
    /// The text of what each frame lacks.
    pub report: Option<FileOutput<'a>>,
    /// The directory in which each picture is a file of its own.
    pub pictures: Option<PictureDirectory<'a>>,
}

impl<'a> FollowOutputs<'a> {
    /// The files of these words, none of which is looked at yet. A part of one is of use, and
    /// stays.
    pub(crate) fn new(rt: &'a HostRuntime, words: &FollowWords<'a>) -> Self
        ensures { AreUnwritten result }
    {
        FollowOutputs {
            out: named_output(rt, words.out),
            report: named_output(rt, words.report),
            pictures: named_directory(rt, words.pictures),
        }
    }

    /// Leaves none, and answers those that there were.
    pub(crate) fn take(&mut self) -> FollowOutputs<'a>
        ensures { result ≡ self.old }
    {
        FollowOutputs {
            out: mem::replace(&mut self.out, None),
            report: mem::replace(&mut self.report, None),
            pictures: mem::replace(&mut self.pictures, None),
        }
    }

    /// Whether one of them is one of the files that these words say are read.
    pub(crate) fn are_read(&self, rt: &HostRuntime, words: &FollowWords<'_>) -> bool {
        is_among(rt, words, &self.out) || is_among(rt, words, &self.report)
    }

    /// Looks at their places.
    pub(crate) fn find(&mut self, is_input: bool) -> Result<(), Fault>
        requires { AreUnwritten self.old }
        ensures unwritten { AreUnwritten self.new }
        ensures apart { OnOk result (AreApart self.new is_input) }
        ensures refusal { IfErr result (λ f. OfRefusal f
            (λ r. (r ≡ OutputIsInput Follow) × IsTrue is_input)) }
    {
        find_place(&mut self.out, is_input)?;
        find_place(&mut self.report, is_input)?;
        find_directory(&mut self.pictures)?;
        Ok(())
    }

    /// Ends their writing, and tells whether that went well: the report's first, and where it could
    /// not take its name the other file takes none either.
    pub(crate) fn settle(&mut self, is_done: bool) -> bool
        requires { AreUnplaced self.old }
        ensures same { SameOutputs self.old self.new }
        ensures placed { IsTrue result → IsTrue is_done → AreInPlace self.new }
        ensures undone { IsFalse is_done → AreLeft self.new }
        ensures cut { IsFalse result → AreLeft self.new }
    {
        if settle(&mut self.report, is_done) {
            settle(&mut self.out, is_done)
        } else {
            settle(&mut self.out, false);
            false
        }
    }

    /// How the writing went of the one that failed, or else of the first one.
    pub(crate) fn writing(&self) -> Option<Writing<'_>> {
        let report = writing(&self.report);
        let pictures = directory_writing(&self.pictures);
        let failed = failed_of(report).or(failed_of(pictures));
        failed.or(writing(&self.out)).or(report).or(pictures)
    }
}

fn failed_of(writing: Option<Writing<'_>>) -> Option<Writing<'_>> {
    match writing {
        Some(writing) if writing.has_failed => Some(writing),
        _ => None,
    }
}

/// Whether a file, where there is one, is one of those that are read.
fn is_among(rt: &HostRuntime, words: &FollowWords<'_>, file: &Option<FileOutput<'_>>) -> bool {
    match file {
        Some(file) => is_read(rt, words.sdp, words.recordings.as_slice(), file.identity()),
        None => false,
    }
}

/// Sinks over the files, those of them that there are.
pub(crate) fn sinks_over<'a>(
    rt: &HostRuntime,
    filling: Filling,
    fill: Option<[u16; 3]>,
    outputs: FollowOutputs<'a>,
) -> FollowSinks<'a>
    requires { AreUnplaced outputs }
    ensures { AreSinksOver filling fill outputs.entry result }
{
    BothSinks {
        first: sink_over(rt, filling, fill, outputs.out),
        second: BothSinks {
            first: report_over(outputs.report),
            second: files_over(rt, filling, fill, outputs.pictures),
        },
    }
}

/// A sink of what frames lack over the file, where there is one.
fn report_over<'a>(report: Option<FileOutput<'a>>) -> Option<ReportSink<UnplacedOutput<'a>>>
    requires { IfSome report (λ f. IsUnplaced f) }
    ensures { IsReportOver report.entry result }
{
    match report {
        Some(file) => Some(ReportSink {
            sink: UnplacedOutput { file },
        }),
        None => None,
    }
}

/// A sink of pictures over the directory, where there is one.
fn files_over<'a>(
    rt: &HostRuntime,
    filling: Filling,
    fill: Option<[u16; 3]>,
    pictures: Option<PictureDirectory<'a>>,
) -> Option<FilesSink<PictureDirectory<'a>>>
    ensures { IsFilesOver filling fill pictures.entry result }
{
    match pictures {
        Some(pictures) => Some(FilesSink::new(rt.alloc(), filling, fill, pictures)),
        None => None,
    }
}

/// The files below sinks.
pub(crate) fn outputs_of<'a>(sinks: FollowSinks<'a>) -> FollowOutputs<'a>
    ensures files { result ≡ outputs_under sinks.entry }
    ensures unplaced { AreUnplaced result }
{
    FollowOutputs {
        out: file_of(sinks.first),
        report: report_of(sinks.second.first),
        pictures: pictures_of(sinks.second.second),
    }
}

/// The file below a sink of what frames lack, where there is one.
fn report_of<'a>(sink: Option<ReportSink<UnplacedOutput<'a>>>) -> Option<FileOutput<'a>>
    ensures file { result ≡ report_under sink.entry }
    ensures unplaced { IfSome result (λ f. IsUnplaced f) }
{
    match sink {
        Some(sink) => Some(file_reported(sink)),
        None => None,
    }
}

/// The file below a sink of what frames lack.
fn file_reported<'a>(report: ReportSink<UnplacedOutput<'a>>) -> FileOutput<'a>
    ensures file { result ≡ report.entry.sink.file }
    ensures unplaced { IsUnplaced result }
{
    let below = report.sink;
    below.file
}

fn pictures_of<'a>(sink: Option<FilesSink<PictureDirectory<'a>>>) -> Option<PictureDirectory<'a>>
    ensures { result ≡ directory_under sink.entry }
{
    match sink {
        Some(sink) => Some(sink.into_files()),
        None => None,
    }
}
