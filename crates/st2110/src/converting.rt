//! `convert`, and its rate.
use command_end::run_command;
use command_line::{BadValue, ConvertWords};
use picture_runs::ConvertCommand;
use program_entry::refuse_value;
use st_format::Rate;

/// Writes a picture in another form, and answers the exit status.
pub fn convert(rt: &HostRuntime, words: &ConvertWords<'_>, explains: bool) -> u8 {
    match words.rate.parse::<Rate>() {
        Ok(rate) => run_command(rt, explains, ConvertCommand::new(rt, words, rate)).status,
        Err(_) => refuse_value(
            rt,
            BadValue {
                option: "--rate <N/D>",
                value: words.rate,
                wanted: "a rate from 1 to 300 pictures a second, as 60 or 60000/1001",
            },
        ),
    }
}
