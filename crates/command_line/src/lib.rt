//! The words of the command line: what the program's commands take, with help for a person, and
//! what is asked for. They stand on no format: numbers are as they were read, files are names.
#![tactic(auto)]

mod commands;
mod fault;
mod numbers;
mod words;

pub use fault::{BadValue, WordsFault};
pub use words::{
    ConvertWords, ExportWords, FollowWords, FormatWords, Given, ImportWords, InspectWords,
    LoopWords, MergeWords, MigrateWords, NamedPaths, PictureWords, ProcessWords, ReceiveWords,
    SdpWords, SendWords, StampWords, StartWords, Words, WriteWords, given_words, read_words,
};
