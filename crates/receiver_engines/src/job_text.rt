//! The text of a job.
ghost use Rattle.std.specs.Prelude.{◌≡◌, ℕ, codes, IfNone, IfSome};
ghost use Rattle.receiver_engines.specs.JobText.{IsJobText, IsPlainJob, IsWipeText};
ghost use Rattle.receiver_engines.specs.JobText.{IsWordAndNumber};
ghost use Rattle.receiver_engines.specs.JobText.{axis_word};

use bt709_fixed::RangeKind;
use key_mix::{Axis, Job, WipeShape};
use run_outcome::after_word;
use st_format::{read_number, split_once};

/// The job that a text says: `limit:nominal`, `limit:video`, `gain:G`, `ycc444`, `ycc422`,
/// `wipe:columns:P:S`, `wipe:rows:P:S` or `key`. Any other text is none.
pub fn read_job(text: &[u8]) -> Option<Job>
    ensures is { IfSome result (λ job. IsJobText text.now job) }
    ensures none { IfNone result ((job : Job) → IsJobText text.now job → ⊥) }
{
    if let Some(job) = read_plain(text) {
        return Some(job);
    }
    if let Some(gain) = read_gain(text) {
        return Some(Job::Gain(gain));
    }
    if let Some(shape) = read_wipe(text, b"wipe:columns:", Axis::Columns) {
        return Some(Job::Wipe(shape));
    }
    match read_wipe(text, b"wipe:rows:", Axis::Rows) {
        Some(shape) => Some(Job::Wipe(shape)),
        None => None,
    }
}

/// A job whose text has no numbers, and so is one of a few.
fn read_plain(text: &[u8]) -> Option<Job>
    ensures is { IfSome result (λ job. IsJobText text.now job) }
    ensures none { IfNone result ((job : Job) → IsPlainJob job → IsJobText text.now job → ⊥) }
{
    if text == b"limit:nominal".as_slice() {
        return Some(Job::Limit(RangeKind::Nominal));
    }
    if text == b"limit:video".as_slice() {
        return Some(Job::Limit(RangeKind::VideoData));
    }
    if text == b"ycc444".as_slice() {
        return Some(Job::ToYcc444);
    }
    if text == b"ycc422".as_slice() {
        return Some(Job::ToYcc422);
    }
    if text == b"key".as_slice() {
        return Some(Job::Key);
    }
    None
}

fn read_gain(text: &[u8]) -> Option<u32>
    ensures is { IfSome result (λ g. IsWordAndNumber text.now (codes "gain:") g) }
    ensures none { IfNone result ((g : ℕ) → IsWordAndNumber text.now (codes "gain:") g → ⊥) }
{
    let digits = after_word(text, b"gain:")?;
    read_number(digits)
}

/// A wipe along an axis, which these words say.
fn read_wipe(text: &[u8], words: &[u8], axis: Axis) -> Option<WipeShape>
    requires { words.now ≡ axis_word axis }
    ensures is { IfSome result (λ shape. IsWipeText text.now shape) }
    ensures none { IfNone result ((shape : WipeShape) → shape.axis ≡ axis
        → IsWipeText text.now shape → ⊥) }
{
    let rest = after_word(text, words)?;
    let (position, soft) = split_once(rest, b':')?;
    Some(WipeShape {
        axis,
        position: read_number(position)?,
        soft: read_number(soft)?,
    })
}
