//! What a run writes beside its journal: the sections of its units, and by when entries were written.

ghost use Rattle.std.specs.Prelude.{◌≡◌, ◌<◌, ◌^◌, ◌++◌, ◌∷◌, [], IfOk, OnOk, length, string_bytes};
ghost use Rattle.std.specs.Io.KnownBytes.{Appends};
ghost use Rattle.rv_attend.specs.Filing.{ended, is_kept, is_open, kept_section, kept_text, loaded_text, section_text};
ghost use Rattle.rv_script.specs.Openings.{opening_of};
ghost use Rattle.rv_script.specs.Prefixes.{WritesPrefix};
ghost use Rattle.rv_text.specs.Sections.{sections_of};

use rv_input::Input;
use rv_script::{Opening, opening_of, write_whole};
use rv_shell::Order;
use rv_stamp::stamp_line;
use rv_step::reading::StepError;
use rv_text::{Section, open_script};
use std::alloc::{AllocError, Global};
use std::io;
use std::io::{ErrorKind, Write};
use std::time::{Clock, Duration, Instant, SystemTime, UNIX_EPOCH};

// How long it is from one line of the times to the next, in seconds, where no command comes.
const SECONDS: u64 = 1;

/// A file beside the journal.
#[derive(Clone, Copy, Debug, PartialEq, Eq, Drop)]
pub enum Beside {
    /// That of the units.
    Units,
    /// That of the times.
    Times,
}

/// What a run writes beside its journal.
#[derive(Drop)]
pub struct Filed<F> {
    /// The file of its units, where they are kept.
    pub units: Option<F>,
    /// The file that says by when entries were written, where there is one.
    pub times: Option<F>,
    /// The file whose write failed, if one did.
    pub failed: Option<Beside>,
    // The unit text of the last command `load`, until its unit is kept.
    loading: Option<String>,
    // How many units there were when the last was kept.
    loaded: usize,
    // The entries up to this one have their time.
    stamped: usize,
    stamped_at: Option<Instant>,
    // Whether a command came since then.
    is_commanded: bool,
}

impl<F> Filed<F> {
    /// Nothing.
    pub fn none() -> Filed<F> {
        Filed {
            units: None,
            times: None,
            failed: None,
            loading: None,
            loaded: 0,
            stamped: 0,
            stamped_at: None,
            is_commanded: false,
        }
    }

    /// Hears of a command that was read so, behind which these bytes come of the input.
    pub(crate) fn hear(&mut self, alloc: Global, read: &Result<Order, StepError>, behind: &[u8]) {
        self.is_commanded = true;
        self.loading = None;
        if self.units.is_none() {
            return;
        }
        if let Ok(Order::Load) = read {
            let mut bytes = behind;
            self.loading = Input::new(alloc).unit_text(&mut bytes).unwrap_or(None);
        }
    }
}

// Writes a text whole, and syncs the file.
fn put<F: Write>(file: &mut F, text: &[u8]) -> io::Result<()>
    ensures whole { OnOk result (Appends (F.contents file.old) (F.contents file.new) text.now) }
    ensures prefix { WritesPrefix (F.contents file.old) (F.contents file.new) text.now }
{
    match write_whole(file, text) {
        Ok(()) => file.flush(),
        Err(e) => Err(e),
    }
}

// The same of a text that memory is taken for.
fn put_made<F: Write>(file: &mut F, text: Result<String, AllocError>) -> io::Result<()> {
    match text {
        Ok(text) => put(file, text.as_bytes()),
        Err(_) => Err(io::Error::from(ErrorKind::OutOfMemory)),
    }
}

// Whether a section with this opening is kept.
fn is_kept(opening: Option<Opening>) -> bool
    ensures { result ≡ is_kept opening }
{
    matches!(opening, Some(Opening::Settings | Opening::UnitText))
}

// Whether a text has a line without its line feed.
fn is_open(text: &[u8]) -> bool
    ensures { result ≡ is_open text.now }
{
    0 < text.len() && text[text.len() - 1] != b'\n'
}

// Puts a section behind others.
fn push_section(all: &mut String, section: &Section<'_>) -> Result<(), AllocError>
    ensures { OnOk result (string_bytes all.new ≡ string_bytes all.old ++ section_text (record { line = section.now.line; opening = section.now.opening.now; text = section.now.text.now })) }
{
    all.push_str(section.opening)?;
    all.push_str("\n")?;
    all.push_str(section.text)?;
    all.push_str(if is_open(section.text.as_bytes()) {
        "\n"
    } else {
        ""
    })
}

// Pushes a section behind others, where it is kept.
fn push_kept(all: &mut String, section: &Section<'_>) -> Result<(), AllocError>
    ensures { OnOk result (string_bytes all.new ≡ string_bytes all.old ++ kept_section (record { line = section.now.line; opening = section.now.opening.now; text = section.now.text.now })) }
{
    if is_kept(opening_of(section.opening)) {
        push_section(all, section)
    } else {
        Ok(())
    }
}

// The sections of a script that are kept: settings and units.
fn kept_text(alloc: Global, script: &str) -> Result<String, AllocError>
    requires { length script.now < 2 ^ 63 }
    ensures { IfOk result (λ text. string_bytes text ≡ kept_text (sections_of script.now)) }
{
    let (_, mut sections) = open_script(script);
    let mut all = String::new(alloc);
    'each: while let Some(section) = sections.next_section() {
        push_kept(&mut all, &section)?;
    }
    Ok(all)
}

// The section of a unit that a command brought.
fn loaded_text(alloc: Global, text: &str) -> Result<String, AllocError>
    ensures { IfOk result (λ section. string_bytes section ≡ loaded_text text.now) }
{
    format!(in alloc; "@unit\n{text}")
}

/// Before the first thread: keeps the settings and the units of what stands before the commands, of which so many units came.
pub(crate) fn keep_sections<F: Write>(
    alloc: Global,
    filed: &mut Filed<F>,
    bytes: &[u8],
    units: usize,
) -> io::Result<()> {
    filed.loaded = units;
    let Some(file) = &mut filed.units else {
        return Ok(());
    };
    let Ok(script) = str::from_utf8(bytes) else {
        return Err(io::Error::from(ErrorKind::InvalidData));
    };
    let kept = put_made(file, kept_text(alloc, script));
    if kept.is_err() {
        filed.failed = Some(Beside::Units);
    }
    kept
}

// Writes the unit text of the last command `load`. It wasn't read only where memory for it was refused.
fn put_loaded<F: Write>(alloc: Global, filed: &mut Filed<F>) -> io::Result<()> {
    let Some(file) = &mut filed.units else {
        return Ok(());
    };
    match &filed.loading {
        Some(text) => put_made(file, loaded_text(alloc, text.as_str())),
        None => Err(io::Error::from(ErrorKind::OutOfMemory)),
    }
}

/// Keeps the unit of the last command `load`, where it was loaded: there are more units than before.
pub(crate) fn keep_loaded<F: Write>(
    alloc: Global,
    filed: &mut Filed<F>,
    units: usize,
) -> io::Result<()> {
    if units <= filed.loaded {
        return Ok(());
    }
    filed.loaded = units;
    let kept = put_loaded(alloc, filed);
    if kept.is_err() {
        filed.failed = Some(Beside::Units);
    }
    kept
}

// Whether a second went by since entries had their time.
fn is_late<R: Clock>(rt: &R, at: Option<Instant>) -> bool {
    let Some(at) = at else {
        return true;
    };
    match at.elapsed(rt) {
        Ok(passed) => passed >= Duration::from_secs(SECONDS),
        Err(_) => true,
    }
}

// The milliseconds since 1970.
fn millis_now<R: Clock>(rt: &R) -> Option<u64> {
    let now = SystemTime::now(rt).ok()?;
    let since = now.duration_since(UNIX_EPOCH).ok()?;
    u64::try_from(since.as_millis()).ok()
}

// Writes that the entries up to one were written by now. Where the clock can't be read, nothing is written.
fn stamp<R: Clock, F: Write>(
    rt: &R,
    alloc: Global,
    filed: &mut Filed<F>,
    entries: usize,
) -> io::Result<()> {
    let (Some(file), Some(millis)) = (&mut filed.times, millis_now(rt)) else {
        return Ok(());
    };
    filed.stamped = entries;
    filed.stamped_at = Instant::now(rt).ok();
    filed.is_commanded = false;
    match stamp_line(alloc, entries as u64, millis) {
        Ok(Some(line)) => put(file, line.as_bytes()),
        Ok(None) => Ok(()),
        Err(_) => Err(io::Error::from(ErrorKind::OutOfMemory)),
    }
}

/// Writes, where it is time for that, at a command and once a second, by when the entries up to one were written.
pub(crate) fn keep_times<R: Clock, F: Write>(
    rt: &R,
    alloc: Global,
    filed: &mut Filed<F>,
    entries: usize,
) -> io::Result<()> {
    if entries <= filed.stamped || !(filed.is_commanded || is_late(rt, filed.stamped_at)) {
        return Ok(());
    }
    let stamped = stamp(rt, alloc, filed, entries);
    if stamped.is_err() {
        filed.failed = Some(Beside::Times);
    }
    stamped
}

/// At the end the last entries have their time, if that can be written.
pub(crate) fn stamp_last<R: Clock, F: Write>(
    rt: &R,
    alloc: Global,
    filed: &mut Filed<F>,
    entries: usize,
) {
    if entries > filed.stamped {
        let _ = stamp(rt, alloc, filed, entries);
    }
}
