//! The form that words ask for.
ghost use Rattle.std.specs.Prelude.{◌≡◌};
ghost use Rattle.std.specs.Option.{option_copied};
ghost use Rattle.form_files.specs.Form.{form_named};
ghost use Rattle.picture_runs.specs.Asked.{form_asked, form_or_ending};

use form_files::Form;

/// The form that a word names, where there is one, or else that of a file's name.
pub(crate) fn form_of(word: Option<&str>, name: &str) -> Form
    ensures { result ≡ form_asked (option_copied word.entry) name.now }
{
    match word {
        Some(word) => named_form(word, name),
        None => Form::of_name(name),
    }
}

/// The form that a word names, or else that of a file's name.
fn named_form(word: &str, name: &str) -> Form
    ensures { result ≡ form_or_ending (form_named word.now) name.now }
{
    match Form::of_word(word.as_bytes()) {
        Some(form) => form,
        // clap lets the words of forms through, and nothing else.
        None => Form::of_name(name),
    }
}
