//! A text that is gathered line by line.
ghost use Rattle.std.specs.Prelude.{◌≡◌, ◌<◌, ◌+◌, ◌++◌, ◌∷◌, [], OnErr, OnOk, length};
ghost use Rattle.std.specs.Prelude.{vec_capacity, vec_len};
ghost use Rattle.arrayvec.specs.ArrayString.{array_string_len};
ghost use Rattle.stream_inspection.specs.Lines.{heading_lines, row_line};

use crate::columns::columns_of;
use crate::json::json_of;
use crate::rows::Row;
use arrayvec::ArrayString;
use std::alloc::{AllocError, Allocator};
use text_line::add;

/// Room for any line, in octets: a window of sixteen timestamps as JSON is given 370 of them, and
/// no line is given more.
pub(crate) const LINE: usize = 512;

/// How rows are told.
#[derive(Clone, Copy)]
pub enum Form {
    /// For a person: numbers in columns, and what is wrong in words.
    Columns,
    /// For a program: a JSON object a line (RFC 8259).
    Json,
}

/// Puts a line behind a text, and an end of line. It fails only where the text has no room for
/// these, so that more memory was asked for.
pub(crate) fn put_line<A: Allocator>(
    text: &mut Vec<u8, A>,
    mut line: ArrayString<LINE>,
) -> Result<(), AllocError>
    requires { array_string_len line < LINE }
    ensures put { OnOk result (text.new.items ≡ text.old.items ++ (line.bytes ++ 10 ∷ [])) }
    ensures full { OnErr result
        (vec_capacity text.old < vec_len text.old + (array_string_len line + 1)) }
{
    add(&mut line, "\n");
    text.extend_from_slice(line.as_bytes())?;
    Ok(())
}

/// Puts a row behind a text. It fails only where the text has no room for it, so that more memory
/// was asked for.
pub(crate) fn put_row<A: Allocator>(
    text: &mut Vec<u8, A>,
    form: Form,
    row: Row,
) -> Result<(), AllocError>
    ensures put { OnOk result (text.new.items ≡ text.old.items ++ row_line form row) }
    ensures full { OnErr result
        (vec_capacity text.old < vec_len text.old + length (row_line form row)) }
{
    match form {
        Form::Columns => put_line(text, columns_of(row)),
        Form::Json => put_line(text, json_of(row)),
    }
}

/// Puts a heading behind a text of columns, and nothing behind one of JSON. It fails only where the
/// text has no room for it, so that more memory was asked for.
pub(crate) fn put_heading<A: Allocator>(
    text: &mut Vec<u8, A>,
    form: Form,
    heading: ArrayString<LINE>,
) -> Result<(), AllocError>
    requires { array_string_len heading < LINE }
    ensures put { OnOk result
        (text.new.items ≡ text.old.items ++ heading_lines form heading.bytes) }
    ensures full { OnErr result
        (vec_capacity text.old < vec_len text.old + length (heading_lines form heading.bytes)) }
{
    match form {
        Form::Columns => put_line(text, heading),
        Form::Json => Ok(()),
    }
}
