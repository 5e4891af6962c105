//! The commands of the program and their words, with help for a person.
use clap::builder::ValueParser;
use clap::{Arg, ArgAction, Command};
use std::alloc::{AllocError, Global};

/// The version of the program, as the top heading of CHANGELOG.md has it.
const VERSION: &str = "0.2.0";

/// A command, and the words that may stand behind it.
#[derive(Clone, Copy)]
struct Said {
    name: &'static str,
    about: &'static str,
    words: &'static [&'static [Word]],
}

/// An option of a command, or its files.
struct Word {
    name: &'static str,
    usage: Usage,
    help: &'static str,
}

/// How a word is given. The first text is what help calls its value.
#[derive(Clone, Copy)]
enum Usage {
    /// An option without a value.
    Flag,
    /// An option with a value.
    Optional(&'static str),
    /// An option with a value of a kind.
    OptionalOf(&'static str, ValueParser<'static>),
    /// An option with a value, beside which the word of this name may not be given.
    OptionalUnless(&'static str, &'static str),
    /// An option with a value that has to be given.
    Required(&'static str),
    /// An option with a value of a kind that has to be given.
    Number(&'static str, ValueParser<'static>),
    /// An option with a value of a kind, and the value where it isn't given.
    Default(&'static str, ValueParser<'static>, &'static str),
    /// An option with a value, beside which the word of this name has to be given.
    Beside(&'static str, &'static str),
    /// An option with a value of a kind, the value where it isn't given, and the word of this name,
    /// beside which alone it may be.
    DefaultBeside(&'static str, ValueParser<'static>, &'static str, &'static str),
    /// So a payload type, or `sdp`, which wants the option of that name; words.rt reads it.
    Type(&'static str, &'static str),
    /// One file.
    File(&'static str),
    /// One file, which may be left out, and which the word of this name leaves no place for.
    FileUnless(&'static str, &'static str),
    /// One file or more.
    Files(&'static str),
    /// Any number of files, or none.
    More(&'static str),
}

/// A number of 7 bits, 32 bits or 64 bits.
const U7: ValueParser<'static> = ValueParser::Signed(0, 127);

const U32: ValueParser<'static> = ValueParser::Signed(0, 4_294_967_295);

const U64: ValueParser<'static> = ValueParser::Unsigned(0, 18_446_744_073_709_551_615);

/// The words for the paths of a capture.
const PATHS: ValueParser<'static> = ValueParser::Names(&["a", "b", "both"]);

/// The forms in which a picture is read: raw isn't one, as it doesn't say its format.
const READ_FORMS: ValueParser<'static> = ValueParser::Names(&["picture", "y4m", "ppm"]);

/// The words for the forms in which a picture is written.
const FORMS: ValueParser<'static> = ValueParser::Names(&["picture", "y4m", "ppm", "raw"]);

/// How many commands there are: `nth_command` gives one for each place from 0 on.
const COMMANDS: usize = 16;

/// The command of a place in the order of the help; `trace` where there is none. (One table of all
/// takes as long to prove as half of the rest of this crate; arm by arm it takes little.)
fn nth_command(place: usize) -> Said {
    match place {
        1 => SDP,
        2 => REHEARSE,
        3 => SEND,
        4 => RECEIVE,
        5 => MERGE,
        6 => PROCESS,
        7 => REPORT,
        8 => LOOP,
        9 => IMPORT,
        10 => INSPECT,
        11 => EXPORT,
        12 => MIGRATE,
        13 => FOLLOW,
        14 => CONVERT,
        15 => PICTURE,
        _ => TRACE,
    }
}

const TRACE: Said = Said {
    name: "trace",
    about: "Runs a script of datagrams on standard input, and prints what a receiver makes of \
        them",
    words: &[],
};

const SDP: Said = Said {
    name: "sdp",
    about: "Reads an SDP text, and prints its canonical fmtp line or the first fault; or writes \
        one",
    words: &[DESCRIBED],
};

const REHEARSE: Said = Said {
    name: "rehearse",
    about: "Plays a schedule of sends, arrivals, slides and merges on standard input, and \
        prints what each receiver has",
    words: &[],
};

const SEND: Said = Said {
    name: "send",
    about: "Sends pictures of one format into a capture, and prints how many datagrams that \
        are",
    words: &[SENT, SENT_TYPE, STAMP, MAX, SENT_PICTURES, PROGRESS],
};

const RECEIVE: Said = Said {
    name: "receive",
    about: "Takes the datagrams of captures and recordings into one receiver, prints how many \
        came and a line for each frame, and writes what is known of each sample",
    words: &[RECEIVED, PROGRESS],
};

const MERGE: Said = Said {
    name: "merge",
    about: "Merges receivers that were opened alike, prints a line for each frame, and writes what \
        all know of each sample",
    words: &[MERGED],
};

const PROCESS: Said = Said {
    name: "process",
    about: "Runs a job on the frames of one timestamp, sends its picture into a capture, and \
        prints how many datagrams that are",
    words: &[JOB, PROCESSED, TYPE, STAMP, MAX],
};

const REPORT: Said = Said {
    name: "report",
    about: "Prints what a receiver was opened with, and of each frame its counts, its missing \
        pgroups and its contested samples",
    words: &[REPORTED],
};

const LOOP: Said = Said {
    name: "loop",
    about: "Sends a picture from one socket of this machine to another, and prints how many \
        datagrams were sent, how many came, and a line for the frame",
    words: &[LOOPED, MAX],
};

const IMPORT: Said = Said {
    name: "import",
    about: "Takes a stream's datagrams out of captures and recordings of other tools, joined by \
        time, into a capture, and prints how many came by each path",
    words: &[IMPORTED, PROGRESS],
};

const INSPECT: Said = Said {
    name: "inspect",
    about: "Prints which streams of datagrams recordings of other tools have, or, by a format, \
        what came of a stream by each path and what is missing",
    words: &[INSPECTED, PROGRESS],
};

const EXPORT: Said = Said {
    name: "export",
    about: "Writes a capture's datagrams as a recording for other tools, a file of pcap, and \
        prints how many",
    words: &[EXPORTED],
};

const MIGRATE: Said = Said {
    name: "migrate",
    about: "Writes a capture of version 01 as one of version 02, with an SDP text, and prints \
        how many records it has",
    words: &[MIGRATED],
};

const CONVERT: Said = Said {
    name: "convert",
    about: "Writes a picture in another form: a picture's file, or a file for other tools",
    words: &[CONVERTED],
};

/// The words of `sdp`.
const DESCRIBED: &[Word] = &[
    Word {
        name: "write",
        usage: Usage::Beside("S B W H N/D", "a"),
        help: "Write the SDP text of a stream of this format, one word as 'YCbCr-4:2:2 10 1920 \
            1080 60000/1001'",
    },
    Word {
        name: "a",
        usage: Usage::Beside("ADDR:PORT", "write"),
        help: "Where the datagrams of path A go, as 239.1.1.1:5004 or [ff3e::1]:5004; with the \
            source that they come from in front, in quotes: '198.51.100.7>239.1.1.1:5004'",
    },
    Word {
        name: "b",
        usage: Usage::Beside("ADDR:PORT", "write"),
        help: "Where those of path B go, likewise; without it the text has one leg",
    },
    Word {
        name: "pt",
        usage: Usage::DefaultBeside("N", U7, "96", "write"),
        help: "The payload type, up to 127",
    },
    Word {
        name: "file",
        usage: Usage::FileUnless("FILE", "write"),
        help: "The SDP text that is read; without it, and for -, standard input",
    },
];

/// Where `send` writes, and its SDP.
const SENT: &[Word] = &[
    Word {
        name: "out",
        usage: Usage::Required("FILE"),
        help: "Where the capture is written; - is standard output",
    },
    Word {
        name: "sdp",
        usage: Usage::Optional("FILE"),
        help: "SDP text that the capture has; without it, its text is empty",
    },
];

/// What `send` sends.
const SENT_PICTURES: &[Word] = &[
    Word {
        name: "paths",
        usage: Usage::Default("PATHS", PATHS, "a"),
        help: "The paths by which each packet goes",
    },
    Word {
        name: "pictures",
        usage: Usage::Files("PICTURE"),
        help: "Pictures, sent one after the other: the k-th is the k-th frame; or one stream of \
            pictures, YUV4MPEG2, whose name ends in .y4m, and for - that on standard input",
    },
];

/// How long packets are.
const MAX: &[Word] = &[Word {
    name: "max",
    usage: Usage::Default("OCTETS", U32, "1400"),
    help: "The most octets of a packet, up to 9000",
}];

/// The payload type of what is sent: a number, or that which the SDP says.
const SENT_TYPE: &[Word] = &[Word {
    name: "pt",
    usage: Usage::Type("N", "96"),
    help: "The payload type, up to 127; or sdp, that which the SDP says",
}];

/// The payload type, as a number alone.
const TYPE: &[Word] = &[Word {
    name: "pt",
    usage: Usage::Default("N", U7, "96"),
    help: "The payload type, up to 127",
}];

/// What else the packets of a stream have in common, and where its numbers and timestamps begin.
const STAMP: &[Word] = &[
    Word {
        name: "first",
        usage: Usage::Default("N", U32, "0"),
        help: "The number of the first packet; numbers run on",
    },
    Word {
        name: "base",
        usage: Usage::Default("TS", U32, "0"),
        help: "The timestamp of the first picture, in ticks of 90 kHz",
    },
    Word {
        name: "ssrc",
        usage: Usage::Default("N", U32, "1"),
        help: "The synchronization source",
    },
];

const RECEIVED: &[Word] = &[
    Word {
        name: "sdp",
        usage: Usage::Optional("FILE"),
        help: "SDP text that says format and payload type, and where the datagrams of each path \
            go; without it, the text of the first capture",
    },
    Word {
        name: "a",
        usage: Usage::Optional("[ADDR:]PORT"),
        help: "Where the datagrams of path A go in recordings of other tools, in place of what the \
            SDP says of both paths; with their source in front, in quotes: \
            '192.0.2.1>239.1.1.1:5004'; and in front of all with the interface that a pcapng \
            names: eth0@239.1.1.1:5004",
    },
    Word {
        name: "b",
        usage: Usage::Optional("[ADDR:]PORT"),
        help: "Where those of path B go, likewise",
    },
    Word {
        name: "window",
        usage: Usage::Required("TS[,TS..]|all|first:N"),
        help: "Timestamps of the frames to receive, in ticks of 90 kHz, 1 to 16, with commas \
            between; or the first N that come, 1 to 16; or all, but at most the first 16",
    },
    Word {
        name: "ssrc",
        usage: Usage::Default("N", ValueParser::String, "any"),
        help: "The one source to take datagrams of: a number, or any",
    },
    Word {
        name: "state",
        usage: Usage::Required("FILE"),
        help: "Where the receiver is written; - is standard output",
    },
    Word {
        name: "refusals",
        usage: Usage::Flag,
        help: "Also print how many datagrams were refused for which reason, and how many had \
            other timestamps",
    },
    Word {
        name: "sound",
        usage: Usage::Flag,
        help: "Where a file is at fault, print and save the frames of what came before that too; \
            the status is the fault's",
    },
    Word {
        name: "recordings",
        usage: Usage::Files("RECORDING"),
        help: "Captures, and recordings of other tools, pcap or pcapng, taken one after the other; \
            - is standard input",
    },
];

const FOLLOW: Said = Said {
    name: "follow",
    about: "Follows the stream that captures and recordings have, read side by side, and prints a \
        line for every frame as it leaves",
    words: &[FOLLOWED, PROGRESS],
};

const FOLLOWED: &[Word] = &[
    Word {
        name: "sdp",
        usage: Usage::Optional("FILE"),
        help: "SDP text that says format and payload type, and where the datagrams of each path \
            go; without it, the text of the first capture",
    },
    Word {
        name: "a",
        usage: Usage::Optional("[ADDR:]PORT"),
        help: "Where the datagrams of path A go in recordings of other tools, in place of what the \
            SDP says of both paths, as receive takes it",
    },
    Word {
        name: "b",
        usage: Usage::Optional("[ADDR:]PORT"),
        help: "Where those of path B go, likewise",
    },
    Word {
        name: "window",
        usage: Usage::Default("N", U32, "8"),
        help: "How many frames are waited for at once, 1 to 16",
    },
    Word {
        name: "ssrc",
        usage: Usage::Default("N", ValueParser::String, "any"),
        help: "The one source to take datagrams of: a number, or any",
    },
    Word {
        name: "eager",
        usage: Usage::Flag,
        help: "Let a frame leave as soon as it is the oldest and nothing of it is missing",
    },
    Word {
        name: "out",
        usage: Usage::Optional("FILE"),
        help: "Where the frames are written as pictures: of YCbCr as YUV4MPEG2, of RGB as portable \
            pixmaps; - is standard output, and the lines then go to standard error",
    },
    Word {
        name: "pictures",
        usage: Usage::Optional("DIR"),
        help: "The directory where each frame is written as a picture's file, by the name of its \
            timestamp",
    },
    Word {
        name: "report",
        usage: Usage::Optional("FILE"),
        help: "Where it is written what is missing and contested of each frame, as report tells it \
            of a receiver's; - is standard output, likewise",
    },
    Word {
        name: "fill",
        usage: Usage::Optional("A,B,C"),
        help: "For a sample that is missing or contested, a value of each component: Y, Cb and Cr, \
            or R, G and B of RGB; without it black",
    },
    Word {
        name: "hold",
        usage: Usage::Flag,
        help: "Give such a sample the value of the picture before, in the first one the fill's",
    },
    Word {
        name: "recordings",
        usage: Usage::Files("RECORDING"),
        help: "Captures, and recordings of other tools, pcap or pcapng, read side by side by their \
            timestamps; - is standard input",
    },
];

const MERGED: &[Word] = &[
    Word {
        name: "state",
        usage: Usage::Required("FILE"),
        help: "Where the merged receiver is written; - is standard output",
    },
    Word {
        name: "left",
        usage: Usage::File("LEFT"),
        help: "Receiver's file, as receive writes it",
    },
    Word {
        name: "right",
        usage: Usage::File("RIGHT"),
        help: "The receiver's file that is merged into it",
    },
    Word {
        name: "more",
        usage: Usage::More("MORE"),
        help: "Further receivers' files, which are merged into it one after the other",
    },
];

/// What `process` computes, of the frames of which timestamp, and what fills them.
const JOB: &[Word] = &[
    Word {
        name: "job",
        usage: Usage::Required("JOB"),
        help: "limit:nominal, limit:video, gain:G (in 4096ths, up to 16384: 4096 is unity), \
            ycc444, ycc422, wipe:columns:P:S, wipe:rows:P:S (position and softness, in \
            columns or rows) or key",
    },
    Word {
        name: "ts",
        usage: Usage::Number("TS", U32),
        help: "The timestamp of the frames, in ticks of 90 kHz",
    },
    Word {
        name: "fill",
        usage: Usage::Required("A,B,C"),
        help: "For a sample that is missing or contested, a value of each component: Y, Cb and Cr, \
            or R, G and B of RGB",
    },
];

/// The files of `process`.
const PROCESSED: &[Word] = &[
    Word {
        name: "hold",
        usage: Usage::Optional("FILE"),
        help: "Picture whose values the first frame takes in place of the fill's",
    },
    Word {
        name: "sdp",
        usage: Usage::Optional("FILE"),
        help: "SDP text that the capture has; without it, its text is empty",
    },
    Word {
        name: "out",
        usage: Usage::Required("FILE"),
        help: "Where the capture is written; - is standard output",
    },
    Word {
        name: "states",
        usage: Usage::Files("STATE"),
        help: "Receivers' files, one for each picture that the job takes",
    },
];

const PICTURE: Said = Said {
    name: "picture",
    about: "Writes a frame of a receiver as a picture's file, for other tools and to look at",
    words: &[PICTURED],
};

const PICTURED: &[Word] = &[
    Word {
        name: "ts",
        usage: Usage::Number("TS", U32),
        help: "The timestamp of the frame, in ticks of 90 kHz",
    },
    Word {
        name: "fill",
        usage: Usage::Optional("A,B,C"),
        help: "For a sample that is missing or contested, a value of each component: Y, Cb and Cr, \
            or R, G and B of RGB; without it, black",
    },
    Word {
        name: "hold",
        usage: Usage::Optional("FILE"),
        help: "Picture whose values such samples take in place of the fill's",
    },
    Word {
        name: "mark",
        usage: Usage::Flag,
        help: "Show a pixel with a missing sample magenta, one with a contested sample red, and \
            the others as grey by their luma, or as they are of RGB: a picture of RGB, for which \
            --fill and --hold say nothing",
    },
    Word {
        name: "as",
        usage: Usage::OptionalOf("FORM", FORMS),
        help: "The form of what is written: picture, as send reads it; y4m, YUV4MPEG2; ppm, a \
            portable pixmap; or raw, packed pgroups alone; without it that of FILE's ending, .y4m, \
            .ppm or .raw, or else picture",
    },
    Word {
        name: "out",
        usage: Usage::Required("FILE"),
        help: "Where the picture is written; - is standard output",
    },
    Word {
        name: "state",
        usage: Usage::File("STATE"),
        help: "Receiver's file, as receive writes it; - is standard input",
    },
];

const REPORTED: &[Word] = &[Word {
    name: "state",
    usage: Usage::File("STATE"),
    help: "Receiver's file, as receive writes it",
}];

/// The picture of `loop`, and how long it goes on.
const LOOPED: &[Word] = &[
    Word {
        name: "limit",
        usage: Usage::Default("TURNS", U64, "100000"),
        help: "The most turns: in each a datagram is sent and one looked for, for a second",
    },
    Word {
        name: "picture",
        usage: Usage::File("PICTURE"),
        help: "The picture that is sent",
    },
];

const MIGRATED: &[Word] = &[
    Word {
        name: "sdp",
        usage: Usage::Required("FILE"),
        help: "SDP text that the new capture has",
    },
    Word {
        name: "out",
        usage: Usage::Required("FILE"),
        help: "Where the new capture is written; - is standard output",
    },
    Word {
        name: "capture",
        usage: Usage::File("CAPTURE"),
        help: "Capture of version 01",
    },
];

const IMPORTED: &[Word] = &[
    Word {
        name: "sdp",
        usage: Usage::Required("FILE"),
        help: "SDP text that the capture has; it says where the datagrams of each path go in \
            recordings",
    },
    Word {
        name: "a",
        usage: Usage::Optional("[ADDR:]PORT"),
        help: "Where the datagrams of path A go, in place of what the SDP says of both paths; with \
            their source in front, in quotes: '192.0.2.1>239.1.1.1:5004'; and in front of all with \
            the interface that a pcapng names: eth0@239.1.1.1:5004",
    },
    Word {
        name: "b",
        usage: Usage::Optional("[ADDR:]PORT"),
        help: "Where those of path B go, likewise",
    },
    Word {
        name: "out",
        usage: Usage::Required("FILE"),
        help: "Where the capture is written; - is standard output",
    },
    Word {
        name: "recordings",
        usage: Usage::Files("RECORDING"),
        help: "Captures, and recordings of other tools, pcap or pcapng, joined by time; - is \
            standard input",
    },
];

const INSPECTED: &[Word] = &[
    Word {
        name: "sdp",
        usage: Usage::OptionalUnless("FILE", "format"),
        help: "SDP text that says the format and the payload type of a stream, and where the \
            datagrams of each path go; without it and --format a capture's own text says that",
    },
    Word {
        name: "format",
        usage: Usage::Optional("S B W H N/D"),
        help: "The format of a stream in place of that, one word as 'YCbCr-4:2:2 10 1920 1080 \
            60000/1001'",
    },
    Word {
        name: "pt",
        usage: Usage::DefaultBeside("N", U7, "96", "format"),
        help: "The stream's payload type, up to 127",
    },
    Word {
        name: "a",
        usage: Usage::Optional("[ADDR:]PORT"),
        help: "Where the datagrams of path A go in recordings of other tools, in place of what the \
            SDP says of both paths; with their source in front, in quotes: \
            '192.0.2.1>239.1.1.1:5004'; and in front of all with the interface that a pcapng \
            names: eth0@239.1.1.1:5004",
    },
    Word {
        name: "b",
        usage: Usage::Optional("[ADDR:]PORT"),
        help: "Where those of path B go, likewise",
    },
    Word {
        name: "json",
        usage: Usage::Flag,
        help: "Print objects of JSON for other tools, one in a line",
    },
    Word {
        name: "recordings",
        usage: Usage::Files("RECORDING"),
        help: "Recordings of other tools, pcap or pcapng, and captures, taken one after the other; \
            - is standard input",
    },
];

const EXPORTED: &[Word] = &[
    Word {
        name: "a",
        usage: Usage::Required("ADDR:PORT"),
        help: "Where the datagrams of path A go, as 239.1.1.1:5004 or [ff3e::1]:5004; with the \
            source that they come from in front, in quotes: '198.51.100.7>239.1.1.1:5004'",
    },
    Word {
        name: "b",
        usage: Usage::Optional("ADDR:PORT"),
        help: "Where those of path B go, likewise; without it they are left out",
    },
    Word {
        name: "out",
        usage: Usage::Required("FILE"),
        help: "Where the recording is written; - is standard output",
    },
    Word {
        name: "paced",
        usage: Usage::Flag,
        help: "Give each packet the moment that a sender has for it at the frame rate of the \
            capture's SDP, in place of its record's; the capture is read twice",
    },
    Word {
        name: "start",
        usage: Usage::Beside("SECONDS", "paced"),
        help: "When the first frame begins, in seconds since 1970, with up to nine digits behind a \
            point [without it: 0]",
    },
    Word {
        name: "capture",
        usage: Usage::File("CAPTURE"),
        help: "The capture that is read",
    },
];

const CONVERTED: &[Word] = &[
    Word {
        name: "from",
        usage: Usage::OptionalOf("FORM", READ_FORMS),
        help: "The form of IN: a picture's own file, a YUV4MPEG2 stream or a portable pixmap; \
            without it, that of its ending .y4m or .ppm, and else a picture's own",
    },
    Word {
        name: "as",
        usage: Usage::OptionalOf("FORM", FORMS),
        help: "The form of OUT: one of these, or packed pgroups alone; without it, that of its \
            ending, which may also be .raw",
    },
    Word {
        name: "nth",
        usage: Usage::Default("N", U64, "0"),
        help: "Which picture of a stream is taken, 0 for the first",
    },
    Word {
        name: "rate",
        usage: Usage::Default("N/D", ValueParser::String, "25/1"),
        help: "The pictures a second of which a pixmap's is one, which it doesn't say",
    },
    Word {
        name: "input",
        usage: Usage::File("IN"),
        help: "The file that is read; - is standard input",
    },
    Word {
        name: "out",
        usage: Usage::File("OUT"),
        help: "The file that is written; - is standard output",
    },
];

/// Whether it is told how far a command is that reads long files.
const PROGRESS: &[Word] = &[Word {
    name: "progress",
    usage: Usage::Flag,
    help: "Tell standard error once a second how much was read, how fast, and how long the rest \
        takes; at a terminal that comes by itself, unless --quiet is given",
}];

/// The command line of `st2110`, as clap reads it; or that there is no memory for it.
pub fn program<'a>(alloc: Global) -> Result<Command<'a>, AllocError> {
    let mut program = named(alloc)?;
    for place in 0..COMMANDS {
        program = program.subcommand(command(alloc, &nth_command(place))?)?;
    }
    Ok(program)
}

/// The program's name and version, and the words that every command takes.
fn named<'a>(alloc: Global) -> Result<Command<'a>, AllocError> {
    Command::new(alloc, "st2110")
        .version(VERSION)
        .about("Uncompressed studio video over redundant paths")
        .bin_name("st2110")?
        .arg(verbose(alloc))?
        .arg(quiet(alloc))
}

/// `--verbose`, which every command takes.
fn verbose<'a>(alloc: Global) -> Arg<'a> {
    Arg::new(alloc, "verbose")
        .long("verbose")
        .short('v')
        .action(ArgAction::SetTrue)
        .global(true)
        .help("Behind the line of a fault, also say where it is and what was wanted there")
}

/// `--quiet`, which every command takes.
fn quiet<'a>(alloc: Global) -> Arg<'a> {
    Arg::new(alloc, "quiet")
        .long("quiet")
        .short('q')
        .action(ArgAction::SetTrue)
        .global(true)
        .help("Leave that out also where standard error is a terminal")
}

fn command<'a>(alloc: Global, said: &Said) -> Result<Command<'a>, AllocError> {
    let mut command = Command::new(alloc, said.name).about(said.about);
    for words in said.words {
        command = with_words(alloc, command, words)?;
    }
    Ok(command)
}

/// A command that takes these words too.
fn with_words<'a>(
    alloc: Global,
    command: Command<'a>,
    words: &[Word],
) -> Result<Command<'a>, AllocError> {
    let mut command = command;
    for word in words {
        command = command.arg(argument(alloc, word)?)?;
    }
    Ok(command)
}

/// A word of a command, with its help, and with what has to be given beside it or may not be.
fn argument<'a>(alloc: Global, word: &Word) -> Result<Arg<'a>, AllocError> {
    let argument = Arg::new(alloc, word.name).help(word.help);
    let formed = formed(argument, word.name, word.usage);
    match word.usage {
        Usage::Beside(_, other) | Usage::DefaultBeside(_, _, _, other) => {
            formed.requires_arg(other)
        }
        Usage::FileUnless(_, other) | Usage::OptionalUnless(_, other) => {
            formed.conflicts_with(other)
        }
        Usage::Type(..) => formed.requires_if("sdp", "sdp"),
        _ => Ok(formed),
    }
}

/// How a word is given: as a flag, as an option with a value, or by its place.
fn formed<'a>(word: Arg<'a>, name: &'static str, form: Usage) -> Arg<'a> {
    match form {
        Usage::Flag => word.long(name).action(ArgAction::SetTrue),
        Usage::Optional(value) => option(word, name, value),
        Usage::OptionalOf(value, kind) => option(word, name, value).value_parser(kind),
        Usage::Beside(value, _) | Usage::OptionalUnless(value, _) => option(word, name, value),
        Usage::Required(value) => option(word, name, value).required(true),
        Usage::Number(value, kind) => option(word, name, value).required(true).value_parser(kind),
        Usage::Default(value, kind, text) => with_default(option(word, name, value), kind, text),
        Usage::DefaultBeside(value, kind, text, _) => {
            with_default(option(word, name, value), kind, text)
        }
        Usage::Type(value, text) => {
            with_default(option(word, name, value), ValueParser::String, text)
        }
        Usage::File(value) => file(word, value),
        Usage::FileUnless(value, _) => word.value_name(value),
        Usage::Files(value) => file(word, value).num_args(1..),
        Usage::More(value) => word.value_name(value).num_args(1..),
    }
}

/// An option by its long name; `value` is what help calls its value.
fn option<'a>(word: Arg<'a>, name: &'static str, value: &'static str) -> Arg<'a> {
    word.long(name).value_name(value)
}

/// An option of a kind of value that is this text where it isn't given.
fn with_default<'a>(word: Arg<'a>, kind: ValueParser<'static>, text: &'static str) -> Arg<'a> {
    word.value_parser(kind).default_value(text)
}

/// A word that is no option, and has to be given.
fn file<'a>(word: Arg<'a>, value: &'static str) -> Arg<'a> {
    word.value_name(value).required(true)
}
