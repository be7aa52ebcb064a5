//! What is told of a line of a list.

ghost use Rattle.std.specs.Prelude.{◌≡◌};
ghost use Rattle.rv_notes.specs.Changes.{is_of_cover};
ghost use Rattle.rv_notes.specs.Notes.{number_of};

/// What is told of a line of an access list, by the line's number, from 1.
#[derive(Clone, Copy, Debug, Drop, PartialEq, Eq)]
pub enum Note {
    /// The unit that calls isn't one of those that there are. Told of a line that denies and where no other units can come,
    /// else where the name is near to that of one that there is, or to `Interrupts`.
    Caller(usize),
    /// The unit of the object isn't one of those that there are. Told as `Caller` is.
    Home(usize),
    /// The unit of the object is loaded, and has no object of this name.
    Object(usize),
    /// The object is loaded, and has no operation of this name; or the object is `*`, and of those that are loaded none
    /// has it.
    Operation(usize),
    /// Its window has ended: it decides no call any more.
    Past(usize),
    /// It decides no call: wherever it matches a later line does.
    Covered(usize),
}

impl Note {
    /// The number of the line, from 1.
    pub fn line(&self) -> usize
        ensures { result ≡ number_of self.now }
    {
        match self {
            Note::Caller(line)
            | Note::Home(line)
            | Note::Object(line)
            | Note::Operation(line)
            | Note::Past(line)
            | Note::Covered(line) => *line,
        }
    }

    /// Whether it tells that later lines cover its line.
    pub fn is_of_cover(&self) -> bool
        ensures { result ≡ is_of_cover self.now }
    {
        match self {
            Note::Covered(_) => true,
            _ => false,
        }
    }
}
