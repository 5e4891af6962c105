//! What was counted, as text.
ghost use Rattle.std.specs.Prelude.{◌≡◌, ◌≤◌, ◌++◌, List, IfOk, OnOk, length};
ghost use Rattle.media_file.specs.Records.{Entry};
ghost use Rattle.stream_inspection.specs.Inspected.{IsInspected};
ghost use Rattle.stream_inspection.specs.Lines.{counted_line};
ghost use Rattle.stream_inspection.specs.Told.{IsText, refusals_text, window_line};

use crate::columns::column_window_of;
use crate::inspection::Inspection;
use crate::json::json_window_of;
use crate::rows::Row;
use crate::skews::{put_skews, skews_of};
use crate::streams::put_streams;
use crate::target::Target;
use crate::text::{Form, put_line, put_row};
use crate::timestamps::{put_timestamps, window_of};
use path_receiver::{REFUSAL_COUNT, refusal_at};
use std::alloc::{AllocError, Allocator};

/// What was counted, as text. It fails only where memory that it asks for isn't there: each line
/// has room.
pub(crate) fn text_of<A: Allocator + Copy>(
    alloc: A,
    form: Form,
    target: &Target,
    inspection: &Inspection<A>,
) -> Result<Vec<u8, A>, AllocError>
    ensures { IfOk result (λ text. (entries : List Entry)
        → IsInspected target.now inspection.now entries
        → IsText form target.now entries text.items) }
{
    let counts = inspection.timestamps.timestamps();
    let skews = skews_of(alloc, counts, &inspection.probes)?;
    let window = window_of(alloc, counts)?;
    let mut text = Vec::new(alloc);
    put_streams(&mut text, form, &inspection.streams)?;
    put_timestamps(
        alloc,
        &mut text,
        form,
        target.payload_type,
        counts,
        &inspection.probes,
    )?;
    put_skews(&mut text, form, &skews)?;
    put_refusals(&mut text, form, &inspection.tally.refused)?;
    put_counted(
        &mut text,
        form,
        Row::Control(inspection.controls),
        inspection.controls,
    )?;
    put_window(&mut text, form, target.payload_type, &window)?;
    Ok(text)
}

/// Puts how often each refusal came that came, of the counts of all.
fn put_refusals<A: Allocator>(
    text: &mut Vec<u8, A>,
    form: Form,
    refused: &[u64; REFUSAL_COUNT],
) -> Result<(), AllocError>
    ensures { OnOk result (text.new.items ≡ text.old.items
        ++ refusals_text form refused.now) }
{
    for place in 0..REFUSAL_COUNT {
        let count = refused[place];
        put_counted(text, form, Row::Refused(refusal_at(place), count), count)?;
    }
    Ok(())
}

/// Puts a row where what it counts came at all.
fn put_counted<A: Allocator>(
    text: &mut Vec<u8, A>,
    form: Form,
    row: Row,
    count: u64,
) -> Result<(), AllocError>
    ensures { OnOk result (text.new.items ≡ text.old.items ++ counted_line form row count) }
{
    if count == 0 {
        return Ok(());
    }
    put_row(text, form, row)
}

/// Puts the window of timestamps, or that there is none.
fn put_window<A: Allocator>(
    text: &mut Vec<u8, A>,
    form: Form,
    payload_type: u8,
    window: &[u32],
) -> Result<(), AllocError>
    requires { length window.now ≤ 16 }
    ensures { OnOk result (text.new.items ≡ text.old.items
        ++ window_line form payload_type window.now) }
{
    if window.is_empty() {
        return put_row(text, form, Row::Nothing(payload_type));
    }
    match form {
        Form::Columns => put_line(text, column_window_of(window)),
        Form::Json => put_line(text, json_window_of(window)),
    }
}
