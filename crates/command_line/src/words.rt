//! The words of the command line.
ghost use Rattle.std.specs.Prelude.{◌≤◌, ◌<◌, ◌*◌, ◌^◌};

use crate::commands::program;
use crate::fault::WordsFault;
use crate::numbers::{is_type_of_sdp, read_start};
use clap::ArgMatches;
use std::alloc::{AllocError, Global};
use std::env;
use std::rt::Env;

/// What the command line asks for.
#[derive(Drop)]
pub struct Given<'a> {
    pub words: Words<'a>,
    /// Whether a fault's place is told behind its line.
    pub is_verbose: bool,
    /// Whether nothing more than is asked for is told where standard error is a terminal.
    pub is_quiet: bool,
    /// Whether it is told how far the command is.
    pub has_progress: bool,
}

/// A command, and what it is asked for.
#[derive(Drop)]
pub enum Words<'a> {
    /// Run the script on standard input.
    Trace,
    /// Read an SDP text, or write one.
    Sdp(SdpWords<'a>),
    /// Play the schedule on standard input.
    Rehearse,
    /// Write a capture of version 01 as one of version 02.
    Migrate(MigrateWords<'a>),
    /// Send pictures into a capture.
    Send(SendWords<'a>),
    /// Take the datagrams of captures and recordings.
    Receive(ReceiveWords<'a>),
    /// Merge receivers' files into one.
    Merge(MergeWords<'a>),
    /// Run a job on frames of receivers, and send its picture.
    Process(ProcessWords<'a>),
    /// Report what a receiver's file lacks, by its name.
    Report(&'a str),
    /// Send a picture over a link, and take what comes.
    Loop(LoopWords<'a>),
    /// Make a capture of recordings of other tools.
    Import(ImportWords<'a>),
    /// Write a capture as a recording for other tools.
    Export(ExportWords<'a>),
    /// Tell which streams recordings of other tools have.
    Inspect(InspectWords<'a>),
    /// Follow a stream, and tell every frame of it.
    Follow(FollowWords<'a>),
    /// Write a picture in another form.
    Convert(ConvertWords<'a>),
    /// Write a frame of a receiver as a picture's file.
    Picture(PictureWords<'a>),
}

/// The words behind `sdp`, by which of its two jobs they ask for.
#[derive(Clone, Copy)]
pub enum SdpWords<'a> {
    /// Read the text of the file of this name, where one is named that isn't `-`, else that on
    /// standard input.
    Read(Option<&'a str>),
    /// Write the text of a stream.
    Write(WriteWords<'a>),
}

/// The words behind `sdp --write`.
#[derive(Clone, Copy)]
pub struct WriteWords<'a> {
    /// The text of the format, as in `YCbCr-4:2:2 10 1920 1080 60000/1001`. It isn't read yet.
    pub format: &'a str,
    /// Where the datagrams of path A go.
    pub a: &'a str,
    /// Where those of path B go, where that is said.
    pub b: Option<&'a str>,
    pub payload_type: u8,
    // RFC 3550, 5.1: it has 7 bits.
    pub ghost payload_type_bits: { payload_type ≤ 127 },
}

/// The words behind `migrate`: names of files.
#[derive(Clone, Copy)]
pub struct MigrateWords<'a> {
    pub sdp: &'a str,
    pub out: &'a str,
    pub capture: &'a str,
}

/// The words behind `send`: names of files, and what its packets have in common.
#[derive(Drop)]
pub struct SendWords<'a> {
    /// The SDP's file, where one is named.
    pub sdp: Option<&'a str>,
    /// The name of the capture's file; `-` is standard output.
    pub out: &'a str,
    pub stamp: StampWords,
    /// Whether the payload type is that which the SDP says, in place of the stamp's.
    pub by_sdp: bool,
    /// The most octets of a packet, its RTP header among them.
    pub max_octets: u32,
    pub paths: NamedPaths,
    /// The names of the pictures' files, or that of one stream.
    pub pictures: Vec<&'a str>,
}

/// What the packets of a stream have in common, and where its numbers and timestamps begin.
#[derive(Clone, Copy)]
pub struct StampWords {
    pub payload_type: u8,
    /// The number of the first packet; numbers run on.
    pub first: u32,
    /// The timestamp of the first picture, in ticks of a 90 kHz clock.
    pub base: u32,
    /// The synchronization source.
    pub ssrc: u32,
    // RFC 3550, 5.1: it has 7 bits.
    pub ghost payload_type_bits: { payload_type ≤ 127 },
}

/// The paths by which packets go.
#[derive(Clone, Copy)]
pub enum NamedPaths {
    OnlyA,
    OnlyB,
    Both,
}

/// The words behind `receive`: names of files, and texts that aren't read yet.
#[derive(Drop)]
pub struct ReceiveWords<'a> {
    /// The SDP's file, where one is named.
    pub sdp: Option<&'a str>,
    /// Where the datagrams of path A go in recordings of other tools, where that is said.
    pub a: Option<&'a str>,
    /// Where those of path B go, likewise.
    pub b: Option<&'a str>,
    pub window: &'a str,
    pub ssrc: &'a str,
    /// The name of the receiver's file; `-` is standard output.
    pub state: &'a str,
    /// Whether refusals are counted and told.
    pub refusals: bool,
    /// Whether what came before a file's fault is saved.
    pub is_sound: bool,
    /// The files of captures and recordings.
    pub recordings: Vec<&'a str>,
}

/// The words behind `merge`: names of receivers' files.
#[derive(Drop)]
pub struct MergeWords<'a> {
    pub state: &'a str,
    pub left: &'a str,
    /// Those that are merged into it, one at least.
    pub others: Vec<&'a str>,
}

/// The words behind `process`: names of files, and texts that aren't read yet.
#[derive(Drop)]
pub struct ProcessWords<'a> {
    pub job: &'a str,
    /// The timestamp of the frames, in ticks of a 90 kHz clock.
    pub timestamp: u32,
    pub fill: &'a str,
    /// The held picture's file, where one is named.
    pub hold: Option<&'a str>,
    /// The SDP's file, where one is named.
    pub sdp: Option<&'a str>,
    /// The name of the capture's file; `-` is standard output.
    pub out: &'a str,
    pub stamp: StampWords,
    /// The most octets of a packet, its RTP header among them.
    pub max_octets: u32,
    /// The names of the receivers' files, one for each picture that the job takes.
    pub states: Vec<&'a str>,
}

/// The words behind `loop`: which picture is sent, and how far it goes.
#[derive(Clone, Copy)]
pub struct LoopWords<'a> {
    /// The picture's file.
    pub picture: &'a str,
    /// The most octets of a packet, its RTP header among them.
    pub max_octets: u32,
    /// The most turns: in each a datagram is sent and one looked for.
    pub limit: u64,
}

/// The words behind `import`: names of files, and texts of flows that aren't read yet.
#[derive(Drop)]
pub struct ImportWords<'a> {
    /// The SDP's file.
    pub sdp: &'a str,
    /// Where the datagrams of path A go, where that is said.
    pub a: Option<&'a str>,
    /// Where those of path B go, likewise.
    pub b: Option<&'a str>,
    /// The name of the capture's file; `-` is standard output.
    pub out: &'a str,
    /// The names of the captures' and recordings' files.
    pub recordings: Vec<&'a str>,
}

/// The words behind `inspect`: names of files, and what says the stream that is looked at.
#[derive(Drop)]
pub struct InspectWords<'a> {
    /// The SDP's file, where one is named.
    pub sdp: Option<&'a str>,
    /// The format and the payload type of a stream, where they are given.
    pub format: Option<FormatWords<'a>>,
    /// Where the datagrams of path A go in recordings of other tools, where that is said.
    pub a: Option<&'a str>,
    /// Where those of path B go, likewise.
    pub b: Option<&'a str>,
    /// Whether it is told as objects of JSON.
    pub is_json: bool,
    /// The files of recordings and captures.
    pub recordings: Vec<&'a str>,
}

/// The format and the payload type of a stream.
#[derive(Clone, Copy)]
pub struct FormatWords<'a> {
    pub format: &'a str,
    pub payload_type: u8,
    // RFC 3550, 5.1: it has 7 bits.
    pub ghost payload_type_bits: { payload_type ≤ 127 },
}

/// The words behind `export`: names of files, and texts of flows that aren't read yet.
#[derive(Clone, Copy)]
pub struct ExportWords<'a> {
    /// Where the datagrams of path A go.
    pub a: &'a str,
    /// Where those of path B go, where that is said.
    pub b: Option<&'a str>,
    /// The name of the recording's file; `-` is standard output.
    pub out: &'a str,
    /// The capture's file.
    pub capture: &'a str,
    /// When the first frame begins, where packets are paced.
    pub paced: Option<StartWords>,
}

/// The words behind `follow`: names of files, and texts that aren't read yet.
#[derive(Drop)]
pub struct FollowWords<'a> {
    /// The SDP's file, where one is named.
    pub sdp: Option<&'a str>,
    /// Where the datagrams of path A go in recordings of other tools, where that is said.
    pub a: Option<&'a str>,
    /// Where those of path B go, likewise.
    pub b: Option<&'a str>,
    /// How many frames are in at most.
    pub window: u32,
    pub ssrc: &'a str,
    /// Whether a frame leaves as soon as nothing of it is missing.
    pub is_eager: bool,
    /// The file of the pictures, where they are written.
    pub out: Option<&'a str>,
    /// The directory of the pictures' files, where each is written by itself.
    pub pictures: Option<&'a str>,
    /// The file of what each frame lacks, where that is written.
    pub report: Option<&'a str>,
    /// The text of the fill, where one is given.
    pub fill: Option<&'a str>,
    /// Whether a sample without a value takes that of the picture before.
    pub is_held: bool,
    /// The files of captures and recordings.
    pub recordings: Vec<&'a str>,
}

/// The words behind `convert`: two files with their forms, and which picture of the first is taken.
#[derive(Clone, Copy)]
pub struct ConvertWords<'a> {
    /// The form of the file that is read, where that is said.
    pub from: Option<&'a str>,
    /// The form of the file that is written, where that is said.
    pub form: Option<&'a str>,
    /// Which picture of a stream counts: 0 is the first.
    pub place: u64,
    /// The rate of a pixmap's picture, as `25/1`: the pixmap doesn't say it.
    pub rate: &'a str,
    /// The file that is read.
    pub input: &'a str,
    /// The file that is written.
    pub out: &'a str,
}

/// The words behind `picture`: which frame is written, and what stands where it has no value.
#[derive(Clone, Copy)]
pub struct PictureWords<'a> {
    /// The timestamp of the frame, in ticks of a 90 kHz clock.
    pub timestamp: u32,
    pub fill: Option<&'a str>,
    /// The held picture's file, where one is named.
    pub hold: Option<&'a str>,
    /// Whether what is missing and what is contested is marked.
    pub is_marked: bool,
    /// The word for the form of what is written, where one is given.
    pub form: Option<&'a str>,
    /// The file that is written.
    pub out: &'a str,
    /// The receiver's file.
    pub state: &'a str,
}

/// When packets that are paced begin.
#[derive(Clone, Copy)]
pub struct StartWords {
    /// In nanoseconds since 1970.
    pub start: u64,
    // pcap has 32 bits for the seconds.
    pub ghost early: { start < 2 ^ 32 * 1000000000 },
}

/// The words that the program was called with, its own name first.
pub fn given_words<R: Env + AllocGlobal>(rt: &R) -> Result<Vec<String>, WordsFault> {
    Ok(env::args(rt)?.collect(rt.alloc())?)
}

/// Reads the words; without any behind the program's name the command is `trace`.
pub fn read_words(alloc: Global, words: &[String]) -> Result<Given<'_>, WordsFault> {
    let matches = program(alloc)?.try_get_matches_from(words)?;
    Ok(Given {
        words: command(alloc, &matches)?,
        is_verbose: matches.get_flag("verbose"),
        is_quiet: matches.get_flag("quiet"),
        has_progress: has_progress(&matches),
    })
}

/// Whether it is told how far the command is. (Of a command without that word it isn't.)
fn has_progress(matches: &ArgMatches<'_>) -> bool {
    match matches.subcommand() {
        Some((_, given)) => given.get_flag("progress"),
        None => false,
    }
}

/// Reads the command; without one it is `trace`.
fn command<'a>(alloc: Global, matches: &ArgMatches<'a>) -> Result<Words<'a>, WordsFault> {
    match matches.subcommand() {
        Some((name, given)) => command_words(alloc, name, given),
        // clap lets no words through, as `trace`.
        None => Ok(Words::Trace),
    }
}

/// Reads the words of the command of this name.
fn command_words<'a>(
    alloc: Global,
    name: &str,
    given: &ArgMatches<'a>,
) -> Result<Words<'a>, WordsFault> {
    match name {
        "send" => Ok(Words::Send(send_words(alloc, given)?)),
        "export" => Ok(Words::Export(export_words(alloc, given)?)),
        "receive" => Ok(Words::Receive(receive_words(alloc, given)?)),
        "merge" => Ok(Words::Merge(merge_words(alloc, given)?)),
        "process" => Ok(Words::Process(process_words(alloc, given)?)),
        "import" => Ok(Words::Import(import_words(alloc, given)?)),
        "inspect" => Ok(Words::Inspect(inspect_words(alloc, given)?)),
        "follow" => Ok(Words::Follow(follow_words(alloc, given)?)),
        _ => Ok(plain_words(name, given)),
    }
}

/// Reads the words of a command that takes no list of files.
fn plain_words<'a>(name: &str, given: &ArgMatches<'a>) -> Words<'a> {
    match name {
        "sdp" => Words::Sdp(sdp_words(given)),
        "rehearse" => Words::Rehearse,
        "migrate" => Words::Migrate(migrate_words(given)),
        "report" => Words::Report(word(given, "state")),
        "loop" => Words::Loop(loop_words(given)),
        "convert" => Words::Convert(convert_words(given)),
        "picture" => Words::Picture(picture_words(given)),
        // clap lets `trace` through, and nothing else.
        _ => Words::Trace,
    }
}

fn sdp_words<'a>(given: &ArgMatches<'a>) -> SdpWords<'a> {
    match given.get_str("write") {
        Some(format) => SdpWords::Write(WriteWords {
            format,
            a: word(given, "a"),
            b: given.get_str("b"),
            payload_type: payload_type(given),
        }),
        None => SdpWords::Read(given.get_str("file").filter(|name| *name != "-")),
    }
}

fn migrate_words<'a>(given: &ArgMatches<'a>) -> MigrateWords<'a> {
    MigrateWords {
        sdp: word(given, "sdp"),
        out: word(given, "out"),
        capture: word(given, "capture"),
    }
}

fn send_words<'a>(alloc: Global, given: &ArgMatches<'a>) -> Result<SendWords<'a>, WordsFault> {
    Ok(SendWords {
        sdp: given.get_str("sdp"),
        out: word(given, "out"),
        stamp: stamp_words(given),
        by_sdp: is_type_of_sdp(alloc, word(given, "pt"))?,
        max_octets: number(given, "max"),
        paths: paths(given),
        pictures: list(alloc, given, "pictures")?,
    })
}

fn stamp_words(given: &ArgMatches<'_>) -> StampWords {
    StampWords {
        payload_type: payload_type(given),
        first: number(given, "first"),
        base: number(given, "base"),
        ssrc: number(given, "ssrc"),
    }
}

/// The payload type: clap lets none above 127 through.
fn payload_type(given: &ArgMatches<'_>) -> u8
    ensures { result ≤ 127 }
{
    match given.get_one::<u8>("pt") {
        Some(payload_type) if payload_type <= 127 => payload_type,
        _ => 96,
    }
}

/// The paths that are named: clap lets `a`, `b` and `both` through.
fn paths(given: &ArgMatches<'_>) -> NamedPaths {
    match word(given, "paths") {
        "b" => NamedPaths::OnlyB,
        "both" => NamedPaths::Both,
        _ => NamedPaths::OnlyA,
    }
}

fn receive_words<'a>(
    alloc: Global,
    given: &ArgMatches<'a>,
) -> Result<ReceiveWords<'a>, AllocError> {
    Ok(ReceiveWords {
        sdp: given.get_str("sdp"),
        a: given.get_str("a"),
        b: given.get_str("b"),
        window: word(given, "window"),
        ssrc: word(given, "ssrc"),
        state: word(given, "state"),
        refusals: given.get_flag("refusals"),
        is_sound: given.get_flag("sound"),
        recordings: list(alloc, given, "recordings")?,
    })
}

fn merge_words<'a>(alloc: Global, given: &ArgMatches<'a>) -> Result<MergeWords<'a>, AllocError> {
    let mut others = list(alloc, given, "more")?;
    others.insert(0, word(given, "right"))?;
    Ok(MergeWords {
        state: word(given, "state"),
        left: word(given, "left"),
        others,
    })
}

fn process_words<'a>(
    alloc: Global,
    given: &ArgMatches<'a>,
) -> Result<ProcessWords<'a>, AllocError> {
    Ok(ProcessWords {
        job: word(given, "job"),
        timestamp: number(given, "ts"),
        fill: word(given, "fill"),
        hold: given.get_str("hold"),
        sdp: given.get_str("sdp"),
        out: word(given, "out"),
        stamp: stamp_words(given),
        max_octets: number(given, "max"),
        states: list(alloc, given, "states")?,
    })
}

fn import_words<'a>(alloc: Global, given: &ArgMatches<'a>) -> Result<ImportWords<'a>, AllocError> {
    Ok(ImportWords {
        sdp: word(given, "sdp"),
        a: given.get_str("a"),
        b: given.get_str("b"),
        out: word(given, "out"),
        recordings: list(alloc, given, "recordings")?,
    })
}

fn inspect_words<'a>(
    alloc: Global,
    given: &ArgMatches<'a>,
) -> Result<InspectWords<'a>, AllocError> {
    Ok(InspectWords {
        sdp: given.get_str("sdp"),
        format: format_words(given),
        a: given.get_str("a"),
        b: given.get_str("b"),
        is_json: given.get_flag("json"),
        recordings: list(alloc, given, "recordings")?,
    })
}

fn follow_words<'a>(alloc: Global, given: &ArgMatches<'a>) -> Result<FollowWords<'a>, WordsFault> {
    check_apart(alloc, given)?;
    Ok(FollowWords {
        sdp: given.get_str("sdp"),
        a: given.get_str("a"),
        b: given.get_str("b"),
        window: number(given, "window"),
        ssrc: word(given, "ssrc"),
        is_eager: given.get_flag("eager"),
        out: given.get_str("out"),
        pictures: given.get_str("pictures"),
        report: given.get_str("report"),
        fill: given.get_str("fill"),
        is_held: given.get_flag("hold"),
        recordings: list(alloc, given, "recordings")?,
    })
}

/// Refuses one name for two files that are written.
fn check_apart(alloc: Global, given: &ArgMatches<'_>) -> Result<(), WordsFault> {
    let (Some(out), Some(report)) = (given.get_str("out"), given.get_str("report")) else {
        return Ok(());
    };
    if out == report {
        return Err(WordsFault::Misworded(format!(in alloc;
            "'--out <FILE>' and '--report <FILE>' both name '{out}'"
        )?));
    }
    Ok(())
}

fn format_words<'a>(given: &ArgMatches<'a>) -> Option<FormatWords<'a>> {
    Some(FormatWords {
        format: given.get_str("format")?,
        payload_type: payload_type(given),
    })
}

fn export_words<'a>(alloc: Global, given: &ArgMatches<'a>) -> Result<ExportWords<'a>, WordsFault> {
    Ok(ExportWords {
        a: word(given, "a"),
        b: given.get_str("b"),
        out: word(given, "out"),
        capture: word(given, "capture"),
        paced: start_words(alloc, given)?,
    })
}

/// When packets begin that are paced; clap lets `--start` through with `--paced` alone.
fn start_words(alloc: Global, given: &ArgMatches<'_>) -> Result<Option<StartWords>, WordsFault> {
    if !given.get_flag("paced") {
        return Ok(None);
    }
    let start = read_start(alloc, given.get_str("start").unwrap_or("0"))?;
    Ok(Some(start))
}

fn loop_words<'a>(given: &ArgMatches<'a>) -> LoopWords<'a> {
    LoopWords {
        picture: word(given, "picture"),
        max_octets: number(given, "max"),
        limit: given.get_one::<u64>("limit").unwrap_or(0),
    }
}

fn convert_words<'a>(given: &ArgMatches<'a>) -> ConvertWords<'a> {
    ConvertWords {
        from: given.get_str("from"),
        form: given.get_str("as"),
        place: given.get_one::<u64>("nth").unwrap_or(0),
        rate: word(given, "rate"),
        input: word(given, "input"),
        out: word(given, "out"),
    }
}

fn picture_words<'a>(given: &ArgMatches<'a>) -> PictureWords<'a> {
    PictureWords {
        timestamp: number(given, "ts"),
        fill: given.get_str("fill"),
        hold: given.get_str("hold"),
        is_marked: given.get_flag("mark"),
        form: given.get_str("as"),
        out: word(given, "out"),
        state: word(given, "state"),
    }
}

/// The word of an option that has one: clap asks for it, or has a default.
fn word<'a>(given: &ArgMatches<'a>, id: &str) -> &'a str {
    given.get_str(id).unwrap_or("")
}

/// The number of an option that has one: clap reads it, or has a default.
fn number(given: &ArgMatches<'_>, id: &str) -> u32 {
    given.get_one::<u32>(id).unwrap_or(0)
}

/// The words of a list; none where it isn't given.
fn list<'a>(alloc: Global, given: &ArgMatches<'a>, id: &str) -> Result<Vec<&'a str>, AllocError> {
    match given.get_strs(id) {
        Some(words) => words.to_vec(alloc),
        None => Ok(Vec::new(alloc)),
    }
}
