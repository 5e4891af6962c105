//! Which files are captures, and files that are read again.
ghost use Rattle.std.specs.Prelude.{◌≡◌, ◌+◌, ◌++◌, ◌∷◌, [], All, IfErr, IfOk, OnOk, length};
ghost use Rattle.std.specs.Prelude.{false, true, vec_len};
ghost use Rattle.std.specs.Str.{bytes_eq};
ghost use Rattle.capture_runs.specs.Looked.{HaveCapture, IsLooked, ReadNone};
ghost use Rattle.media_file.specs.Fronts.{capture_name};
ghost use Rattle.run_outcome.specs.Fault.{IfRefused};

use crate::replayed::Replayed;
use devices::Meter;
use run_outcome::Fault;
use st_format::read_whole;

/// What a capture begins with, of whatever version.
const CAPTURE: &[u8] = b"S20CAP";

/// The files that are named, of which those up to the first capture were looked at.
#[derive(Drop)]
pub struct Looked<'a> {
    pub files: Vec<Replayed<'a>>,
    /// Whether one of them begins as a capture.
    pub have_capture: bool,
}

/// The files of these names, none of which is looked at yet. They may be to be read twice.
pub fn files_of<'a>(
    rt: &'a HostRuntime,
    names: &[&'a str],
    is_twice: bool,
    meter: &Meter,
) -> Result<Vec<Replayed<'a>>, Fault>
    ensures fresh { IfOk result (λ files. All ReadNone files.items) }
    ensures each { IfOk result (λ files. vec_len files ≡ length names.now) }
    ensures unrefused { IfErr result (λ f. IfRefused f ⊥) }
{
    let mut files = Vec::new(rt.alloc());
    for name in names {
        push_file(&mut files, file_of(rt, name, is_twice, meter))?;
    }
    Ok(files)
}

/// The file of this name. What it gives is kept where it may be to be read twice.
fn file_of<'a>(rt: &'a HostRuntime, name: &'a str, is_twice: bool, meter: &Meter) -> Replayed<'a>
    ensures { ReadNone result }
{
    if is_twice {
        Replayed::first(rt, name, meter)
    } else {
        Replayed::once(rt, name, meter)
    }
}

/// Looks at the files of these names for one that begins as a capture, up to the first that does.
pub fn look_at<'a>(
    rt: &'a HostRuntime,
    names: &[&'a str],
    meter: &Meter,
) -> Result<Looked<'a>, Fault>
    ensures looked { IfOk result (λ l. HaveCapture l.have_capture l.files.items) }
    ensures each { IfOk result (λ l. vec_len l.files ≡ length names.now) }
    ensures unrefused { IfErr result (λ f. IfRefused f ⊥) }
{
    let mut looked = Looked {
        files: Vec::new(rt.alloc()),
        have_capture: false,
    };
    meter.expect_again();
    for name in names {
        looked.add(Replayed::first(rt, name, meter))?;
    }
    meter.begin_again();
    Ok(looked)
}

impl<'a> Looked<'a> {
    /// Puts one more file behind, and looks at it where none before it begins as a capture.
    fn add(&mut self, file: Replayed<'a>) -> Result<(), Fault>
        requires looked { HaveCapture self.old.have_capture self.old.files.items }
        requires fresh { ReadNone file }
        ensures looked { OnOk result (HaveCapture self.new.have_capture self.new.files.items) }
        ensures each { OnOk result (vec_len self.new.files ≡ vec_len self.old.files + 1) }
        ensures unrefused { IfErr result (λ f. IfRefused f ⊥) }
    {
        let mut file = file;
        let have_capture = look(self.have_capture, &mut file);
        push_file(&mut self.files, file)?;
        self.have_capture = have_capture;
        Ok(())
    }
}

/// Whether a file begins as a capture, or one before it does: then it isn't looked at.
fn look(have_capture: bool, file: &mut Replayed<'_>) -> bool
    requires { ReadNone file.old }
    ensures kept { have_capture ≡ true → result ≡ true }
    ensures looked { have_capture ≡ false → IsLooked result file.new }
{
    if have_capture {
        return true;
    }
    begins_capture(file)
}

/// Whether a file begins as a capture. Of one that can't be read that isn't said.
fn begins_capture(file: &mut Replayed<'_>) -> bool
    requires { ReadNone file.old }
    ensures { IsLooked result file.new }
{
    let mut front = [0u8; 6];
    match read_whole(file, &mut front) {
        Ok(count) => is_name(&front[..count]),
        Err(_) => false,
    }
}

fn is_name(octets: &[u8]) -> bool
    ensures { result ≡ bytes_eq octets.now capture_name }
{
    octets == CAPTURE
}

fn push_file<'a>(files: &mut Vec<Replayed<'a>>, file: Replayed<'a>) -> Result<(), Fault>
    ensures pushed { OnOk result (files.new.items ≡ files.old.items ++ file.entry ∷ []) }
    ensures each { OnOk result (vec_len files.new ≡ vec_len files.old + 1) }
    ensures unrefused { IfErr result (λ f. IfRefused f ⊥) }
{
    if files.push(file).is_err() {
        return Err(Fault::Memory);
    }
    Ok(())
}

/// Files, to be read from their fronts.
pub fn fresh_files<'a>(
    rt: &HostRuntime,
    files: Vec<Replayed<'a>>,
) -> Result<Vec<Replayed<'a>>, Fault>
    ensures fresh { IfOk result (λ fresh. All ReadNone fresh.items) }
    ensures each { IfOk result (λ fresh. vec_len fresh ≡ vec_len files.entry) }
    ensures unrefused { IfErr result (λ f. IfRefused f ⊥) }
{
    let mut files = files;
    let mut fresh = Vec::new(rt.alloc());
    for _ in 0..files.len() {
        let file = files.remove(0).again()?;
        push_file(&mut fresh, file)?;
    }
    Ok(fresh)
}
