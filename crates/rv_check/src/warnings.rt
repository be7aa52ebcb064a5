//! What is told of a script, for whoever writes it: names in lists that name nothing loaded, lines that decide nothing, and what
//! can never work.

ghost use Rattle.std.specs.Prelude.{◌≤◌, ◌^◌, ◌+◌, length, IfErr};
ghost use Rattle.rv_fault.specs.Written.{IsNoFault};

use crate::carriage_returns::return_lines;
use crate::goes::go_line;
use crate::purpose::{Purpose, purpose_in};
use rv_access::{AccessList, Change};
use rv_event::entry::Request;
use rv_fault::{Failure, Part, Parts, device_unit, list_of, settings_of, shape_of, unit_of};
use rv_misfit::{is_tick, misfit_of, misfit_text};
use rv_never::{Never, UnitCalls, ceiling_notes, denial_notes, notes_text, unit_calls};
use rv_notes::{Note, Scene, changed, denies, line_changed, new_ones, notes, words_of};
use rv_script::{Opening, open, text_of};
use rv_settings::{Device, Settings};
use rv_shape::catalogue::Catalogue;
use rv_shape::fault::ShapeFault;
use rv_shape::shape::UnitShape;
use rv_step::reading::{StepError, step_of};
use rv_step::step::{Asked, Asker, Step};
use rv_text::{has_words, next_line};
use std::alloc::{AllocError, Global};
use std::mem;

/// What is told of a script, a line each.
#[derive(Drop)]
pub struct Warnings {
    /// Of the sections before the first step, or the first thread.
    pub first: String,
    /// Of those behind it, and of the steps.
    pub later: String,
}

// The list of a section, which waits for the units that it is judged over.
#[derive(Drop)]
struct Waiting {
    list: AccessList,
    // On which line of the section each of its lines stands.
    lines: Vec<usize>,
}

// Where a script stands that is judged.
#[derive(Drop)]
struct Review {
    alloc: Global,
    // Whether the script is for `run`, else for `play`.
    runs: bool,
    // The units that the script loads up to its first fault, and what the tasks of each call in their own bodies.
    all: Catalogue,
    calls: Vec<UnitCalls>,
    // Those of them that are loaded so far.
    catalogue: Catalogue,
    waiting: Vec<Waiting>,
    // Whether there was a list, the one in force, and the notes on it, unless the clock has moved since they were found.
    has_list: bool,
    list: AccessList,
    notes: Option<Vec<Note>>,
    clock: u64,
    // Whether a step came, and whether the host is halted.
    is_under_way: bool,
    is_halted: bool,
    warnings: Warnings,
}

// Whether a line of a section is a line of its list.
fn is_meant(line: &str) -> bool {
    match line.as_bytes() {
        [b'#', ..] => false,
        _ => has_words(line),
    }
}

// The numbers of the lines of a section on which the lines of its list stand, in order. Err where memory was refused.
fn lines_of(alloc: Global, text: &str) -> Result<Vec<usize>, AllocError> {
    let mut lines = Vec::new(alloc);
    let mut rest = text;
    let mut number: usize = 0;
    while let Some((line, after)) = next_line(rest) {
        number = number.saturating_add(1);
        if is_meant(line) {
            lines.push(number)?;
        }
        rest = after;
    }
    Ok(lines)
}

// The number at the place of a line of a list.
fn number_at(lines: &[usize], line: usize) -> usize {
    match lines.get(line.saturating_sub(1)) {
        Some(number) => *number,
        None => 0,
    }
}

// Where a failure leads: a fault of the script isn't told here, and to false; memory that was refused ends all.
fn untold(failure: Failure) -> Result<bool, Failure>
    ensures { IfErr result IsNoFault }
{
    match failure {
        Failure::Refused(_) => Ok(false),
        Failure::Memory => Err(Failure::Memory),
        Failure::Io(error) => Err(Failure::Io(error)),
    }
}

impl Review {
    // Nothing so far.
    fn new(alloc: Global, runs: bool) -> Review {
        Review {
            alloc,
            runs,
            all: Catalogue::new(alloc),
            calls: Vec::new(alloc),
            catalogue: Catalogue::new(alloc),
            waiting: Vec::new(alloc),
            has_list: false,
            list: AccessList::new(alloc),
            notes: None,
            clock: 0,
            is_under_way: false,
            is_halted: false,
            warnings: Warnings {
                first: String::new(alloc),
                later: String::new(alloc),
            },
        }
    }

    // The notes on a list, over all units of the script. In a run others may come.
    fn notes_on(&self, list: &AccessList) -> Result<Vec<Note>, AllocError> {
        let scene = Scene::new(&self.all, !self.runs, self.clock);
        notes(self.alloc, &scene, list)
    }

    // The notes on the list in force.
    fn notes_before(&mut self) -> Result<Vec<Note>, AllocError> {
        match mem::replace(&mut self.notes, None) {
            Some(notes) => Ok(notes),
            None => self.notes_on(&self.list),
        }
    }

    // Adds lines to what is told.
    fn put(&mut self, line: &str) -> Result<(), AllocError> {
        if self.is_under_way {
            self.warnings.later.push_str(line)
        } else {
            self.warnings.first.push_str(line)
        }
    }

    // Tells a note on a list, whose line stands at a place.
    fn tell(&mut self, place: &str, list: &AccessList, note: Note) -> Result<(), AllocError> {
        let alloc = self.alloc;
        let number = note.line();
        let words = words_of(alloc, &self.all, list, note)?;
        let words = words.as_str();
        let line = format!(in alloc; "warning: {place}, list line {number}, {words}\n")?;
        self.put(line.as_str())
    }

    // Tells a note on the list of a section.
    fn tell_in_section(
        &mut self,
        lines: &[usize],
        list: &AccessList,
        note: Note,
    ) -> Result<(), AllocError> {
        let alloc = self.alloc;
        let line = number_at(lines, note.line());
        let place = format!(in alloc; "line {line} of the section")?;
        self.tell(place.as_str(), list, note)
    }

    // Tells the notes on the list of a section, which is in force from now on.
    fn judge_section(&mut self, section: Waiting) -> Result<(), AllocError> {
        let Waiting { list, lines } = section;
        let found = self.notes_on(&list)?;
        for note in found.as_slice() {
            self.tell_in_section(lines.as_slice(), &list, *note)?;
        }
        self.has_list = true;
        self.list = list;
        self.notes = Some(found);
        Ok(())
    }

    // Tells the notes on the lists that wait.
    fn judge(&mut self) -> Result<(), AllocError> {
        let empty = Vec::new(self.alloc);
        let waiting = mem::replace(&mut self.waiting, empty);
        for section in waiting {
            self.judge_section(section)?;
        }
        Ok(())
    }

    // Tells lines of notes on what can never work.
    fn tell_nevers(&mut self, notes: &[Never]) -> Result<(), AllocError> {
        let text = notes_text(self.alloc, &self.catalogue, &self.list, self.clock, notes)?;
        self.put(text.as_str())
    }

    // What the tasks of the units that are loaded call in their own bodies.
    fn calls_loaded(&self) -> &[UnitCalls] {
        let calls = self.calls.as_slice();
        let loaded = self.catalogue.shapes().len();
        if loaded > calls.len() {
            return calls;
        }
        let (calls, _) = calls.split_at(loaded);
        calls
    }

    // What ceilings forbid of the units that are loaded.
    fn too_high(&self) -> Result<Vec<Never>, AllocError> {
        let alloc = self.alloc;
        let before = Catalogue::new(alloc);
        ceiling_notes(alloc, &before, &self.catalogue, self.calls_loaded())
    }

    // What the list in force denies them; where there was no list, nothing is told of that.
    fn denied(&self) -> Result<Vec<Never>, AllocError> {
        let alloc = self.alloc;
        if !self.has_list {
            return Ok(Vec::new(alloc));
        }
        let before = Catalogue::new(alloc);
        let calls = self.calls_loaded();
        denial_notes(
            alloc,
            &before,
            &self.catalogue,
            calls,
            &self.list,
            self.clock,
        )
    }

    // Tells what can never work of the units that are loaded.
    fn judge_nevers(&mut self) -> Result<(), AllocError> {
        let high = self.too_high()?;
        self.tell_nevers(high.as_slice())?;
        let denied = self.denied()?;
        self.tell_nevers(denied.as_slice())
    }

    // Tells what is to be told before the first step, or the first thread: the notes on lists that wait, and what can never work.
    fn judge_first(&mut self) -> Result<(), AllocError> {
        self.judge()?;
        if self.is_under_way {
            return Ok(());
        }
        self.judge_nevers()?;
        self.is_under_way = true;
        Ok(())
    }

    // Another list, by the change of one line in the step of a line: tells the notes on the line of the list that changed, and
    // those that weren't there before.
    fn judge_change(&mut self, line: usize, change: &Change) -> Result<(), AllocError> {
        let alloc = self.alloc;
        let Some(list) = changed(&self.list, change)? else {
            return Ok(());
        };
        let before = self.notes_before()?;
        let found = self.notes_on(&list)?;
        let number = line_changed(&list, change);
        let told = new_ones(
            alloc,
            before.as_slice(),
            found.as_slice(),
            number,
            denies(change),
        )?;
        let place = format!(in alloc; "script line {line}")?;
        for note in told.as_slice() {
            self.tell(place.as_str(), &list, *note)?;
        }
        self.list = list;
        self.notes = Some(found);
        Ok(())
    }

    // The list without the line of a number, of which nothing is told.
    fn remove(&mut self, number: usize) -> Result<(), AllocError> {
        if number < 1 || number > self.list.len() {
            return Ok(());
        }
        self.list = self.list.removed(number)?;
        self.notes = None;
        Ok(())
    }

    // A change of the list by the step of a line.
    fn change(&mut self, line: usize, change: &Change) -> Result<(), AllocError> {
        if self.is_halted {
            return Ok(());
        }
        match change {
            Change::Remove(number) => self.remove(*number),
            change => self.judge_change(line, change),
        }
    }

    // A halt, which is misuse where others than the operator ask for it.
    fn halt(&mut self, asker: &Asker) {
        if let Asker::Operator = asker {
            self.is_halted = true;
        }
    }

    // So many ticks of the clock, where the operator may ask for them.
    fn tick(&mut self, asker: &Asker, ticks: i64) {
        if self.is_halted || !is_tick(ticks) {
            return;
        }
        if let Asker::Operator = asker {
            self.clock = self.clock.saturating_add(ticks.unsigned_abs());
            self.notes = None;
        }
    }

    // Tells why a step of a line never fits, if it doesn't.
    fn tell_misfit(&mut self, line: usize, step: &Step) -> Result<(), AllocError> {
        let alloc = self.alloc;
        if self.is_halted {
            return Ok(());
        }
        let Some(misfit) = misfit_of(alloc, &self.catalogue, self.list.len(), step)? else {
            return Ok(());
        };
        let words = misfit_text(alloc, &self.catalogue, misfit)?;
        let words = words.as_str();
        let told = format!(in alloc; "warning: script line {line}, {words}\n")?;
        self.put(told.as_str())
    }

    // Tells of a `go` that goes on behind all that its text may ask.
    fn tell_go(&mut self, line: usize, count: usize) -> Result<(), AllocError> {
        if self.is_halted {
            return Ok(());
        }
        let told = go_line(self.alloc, line, count)?;
        self.put(told.as_str())
    }

    // What the step of a line asks. False where it can't.
    fn ask(&mut self, line: usize, step: &Step) -> Result<bool, AllocError> {
        self.judge_first()?;
        self.tell_misfit(line, step)?;
        match &step.asked {
            Asked::Go(count) => self.tell_go(line, *count)?,
            Asked::Plain(Request::Halt) => self.halt(&step.asker),
            Asked::Plain(Request::Tick(ticks)) => self.tick(&step.asker, *ticks),
            Asked::Change(Ok(change), _) => self.change(line, change)?,
            Asked::Change(Err(_), _) => return Ok(false),
            _ => {}
        }
        Ok(true)
    }

    // The step of a line. False where it is none.
    fn step(&mut self, line: usize, text: &str) -> Result<bool, Failure> {
        if !has_words(text) {
            return Ok(true);
        }
        match step_of(self.alloc, text) {
            Ok(step) => Ok(self.ask(line, &step)?),
            Err(StepError::BadStep) => Ok(false),
            Err(StepError::NoMemory) => Err(Failure::Memory),
        }
    }

    // The steps of a section that opens at a line, up to one that is none. False where there is one.
    fn steps(&mut self, opening: usize, text: &str) -> Result<bool, Failure> {
        let mut rest = text;
        let mut number = opening;
        while let Some((line, after)) = next_line(rest) {
            number = number.saturating_add(1);
            if !self.step(number, line)? {
                return Ok(false);
            }
            rest = after;
        }
        Ok(true)
    }

    // What the tasks of one unit more call.
    fn keep(&mut self, calls: UnitCalls) -> Result<(), AllocError> {
        self.calls.push(calls)?;
        Ok(())
    }

    // A unit more of all. False where it doesn't fit.
    fn find(&mut self, shape: &UnitShape, calls: UnitCalls) -> Result<bool, Failure>
        ensures { IfErr result IsNoFault }
    {
        match self.all.add(shape) {
            Ok(()) => {
                self.keep(calls)?;
                Ok(true)
            }
            Err(ShapeFault::NoMemory) => Err(Failure::Memory),
            Err(_) => Ok(false),
        }
    }

    // A unit more of all, none of whose tasks has a body.
    fn find_shape(&mut self, shape: &UnitShape) -> Result<bool, Failure>
        ensures { IfErr result IsNoFault }
    {
        let unit = self.all.shapes().len().saturating_add(1);
        let tasks = Vec::new(self.alloc);
        self.find(shape, UnitCalls { unit, tasks })
    }

    // A unit of a text more of all.
    fn find_unit(&mut self, part: &Part<'_>) -> Result<bool, Failure> {
        let unit = unit_of(self.alloc, &self.all, part.line, part.text)?;
        let calls = unit_calls(self.alloc, &self.all, &unit.bodies)?;
        self.find(&unit.shape, calls)
    }

    // The unit of a part, if it is one. False where it doesn't fit.
    fn find_part(&mut self, part: &Part<'_>) -> Result<bool, Failure> {
        match part.opening {
            Some(Opening::UnitText) => self.find_unit(part),
            Some(Opening::Shape) => {
                let shape = shape_of(self.alloc, part.line, part.text)?;
                self.find_shape(&shape)
            }
            _ => Ok(true),
        }
    }

    // All units of parts, up to the commands of a run, or to the first that is none. What stands against that isn't told here.
    fn find_all(&mut self, mut parts: Parts<'_>) -> Result<(), Failure>
        ensures { IfErr result IsNoFault }
    {
        'each: while let Some(part) = parts.next_part() {
            if self.ends_at(part.opening) {
                return Ok(());
            }
            match self.find_part(&part) {
                Ok(true) => {}
                Ok(false) => return Ok(()),
                Err(failure) => {
                    untold(failure)?;
                    return Ok(());
                }
            }
        }
        Ok(())
    }

    // The next of all units is loaded. False where there is none, since it didn't fit.
    fn load(&mut self) -> Result<bool, Failure>
        ensures { IfErr result IsNoFault }
    {
        let place = self.catalogue.shapes().len();
        let Some(shape) = self.all.shapes().get(place) else {
            return Ok(false);
        };
        match self.catalogue.add(shape) {
            Ok(()) => Ok(true),
            Err(ShapeFault::NoMemory) => Err(Failure::Memory),
            Err(_) => Ok(false),
        }
    }

    // The list of a section, which waits for the units that it is judged over.
    fn wait(&mut self, list: AccessList, text: &str) -> Result<(), AllocError> {
        let returns = return_lines(self.alloc, text)?;
        self.put(returns.as_str())?;
        let lines = lines_of(self.alloc, text)?;
        self.waiting.push(Waiting { list, lines })?;
        Ok(())
    }

    // A part that `play` takes and `run` doesn't. False where it is none, or a step of it is none.
    fn played(&mut self, part: &Part<'_>) -> Result<bool, Failure> {
        if self.runs {
            return Ok(false);
        }
        match part.opening {
            Some(Opening::Shape) => self.load(),
            Some(Opening::Steps) => self.steps(part.line, part.text),
            _ => Ok(false),
        }
    }

    // A part. False where it isn't one that is carried out, or a step of it is none.
    fn part(&mut self, part: &Part<'_>) -> Result<bool, Failure> {
        match part.opening {
            Some(Opening::UnitText) => self.load(),
            Some(Opening::AccessList) => {
                let list = list_of(self.alloc, part.line, part.text)?;
                self.wait(list, part.text)?;
                Ok(true)
            }
            _ => self.played(part),
        }
    }

    // Whether the commands of a run follow an opening.
    fn ends_at(&self, opening: Option<Opening>) -> bool {
        match opening {
            Some(Opening::Run) => self.runs,
            _ => false,
        }
    }

    // Parts, up to the commands of a run, or the first fault, which isn't told here. False where there is one.
    fn parts(&mut self, mut parts: Parts<'_>) -> Result<bool, Failure>
        ensures { IfErr result IsNoFault }
    {
        'each: while let Some(part) = parts.next_part() {
            if self.ends_at(part.opening) {
                return Ok(true);
            }
            match self.part(&part) {
                Ok(true) => {}
                Ok(false) => return Ok(false),
                Err(failure) => return untold(failure),
            }
        }
        Ok(true)
    }

    // The units that devices are. False where one doesn't fit.
    fn devices(&mut self, devices: &[Device]) -> Result<bool, Failure>
        ensures { IfErr result IsNoFault }
    {
        'each: for device in devices {
            let shape = device_unit(self.alloc, device)?;
            if !self.find_shape(&shape)? || !self.load()? {
                return Ok(false);
            }
        }
        Ok(true)
    }

    // Parts, behind which a run loads its devices. Lists that still wait are judged then.
    fn settled(&mut self, settings: &Settings, parts: Parts<'_>) -> Result<(), Failure>
        ensures { IfErr result IsNoFault }
    {
        if !self.parts(parts)? {
            return Ok(());
        }
        if self.runs && !self.devices(settings.devices())? {
            return Ok(());
        }
        self.judge_first()?;
        Ok(())
    }

    // All units of a script.
    fn find_in(&mut self, text: &str) -> Result<(), Failure>
        requires { length text.now + 1 ≤ 2 ^ 63 }
        ensures { IfErr result IsNoFault }
    {
        match open(text) {
            Ok(script) => self.find_all(Parts::of(script.sections)),
            Err(_) => Ok(()),
        }
    }

    // The parts of a script; nothing where its settings have a fault.
    fn script(&mut self, text: &str) -> Result<(), Failure>
        requires { length text.now + 1 ≤ 2 ^ 63 }
        ensures { IfErr result IsNoFault }
    {
        let Ok(script) = open(text) else {
            return Ok(());
        };
        match settings_of(self.alloc, &script.settings) {
            Ok(settings) => {
                self.find_in(text)?;
                self.settled(&settings, Parts::of(script.sections))
            }
            Err(failure) => {
                untold(failure)?;
                Ok(())
            }
        }
    }

    // What was told.
    fn into_warnings(self) -> Warnings {
        let Review { warnings, .. } = self;
        warnings
    }
}

/// What is told of a script, which `play` would carry out. The list of a section is judged when the next step comes, or at the
/// end; one that a step makes, at that step; each over all units of the script, and at the clock of the step. Before the first step,
/// or at the end, what can never work of the units that are loaded is told by the list then in force. Of steps those that can't fit
/// are told. Behind a fault of the script nothing is told: the fault is to be mended first. Each load, and each change of the list but
/// one behind `halt`, is taken as accepted. Err where memory was refused.
pub fn warnings_of(alloc: Global, script: &[u8]) -> Result<Warnings, Failure>
    ensures { IfErr result IsNoFault }
{
    review_of(alloc, false, script)
}

/// What is told of the sections that stand before the commands of a run. Lists are judged over all its units, devices too, before
/// the first thread; of units that there aren't is told where a line denies, or the name is near to one that there is. Else as
/// `warnings_of`.
pub fn run_warnings_of(alloc: Global, before: &[u8]) -> Result<Warnings, Failure>
    ensures { IfErr result IsNoFault }
{
    review_of(alloc, true, before)
}

/// What is told of a whole script, as the command carries it out that it is for.
pub fn whole_warnings_of(alloc: Global, script: &[u8]) -> Result<Warnings, Failure>
    ensures { IfErr result IsNoFault }
{
    let runs = match text_of(script) {
        Ok(text) => match purpose_in(text) {
            Purpose::Run => true,
            _ => false,
        },
        Err(_) => false,
    };
    review_of(alloc, runs, script)
}

// What is told of a script for `run`, or else for `play`.
fn review_of(alloc: Global, runs: bool, script: &[u8]) -> Result<Warnings, Failure>
    ensures { IfErr result IsNoFault }
{
    let mut review = Review::new(alloc, runs);
    if let Ok(text) = text_of(script) {
        review.script(text)?;
    }
    Ok(review.into_warnings())
}
