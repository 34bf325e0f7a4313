// An entry of a page table, and the number that stands for it in the lent table. The segment table is coded the same way.
ghost use Rattle.std.specs.Prelude.{◌≡◌, ℕ, ◌<◌, false};
ghost use Rattle.tables.specs.Cells.{cell, decoded, encoded, index_of, marked, ReadAgain, Within};

// What an entry names.
#[derive(Clone, Copy, PartialEq, Eq)]
pub enum Target {
    Absent,
    Zero,
    Frame(usize),
    Place(usize),
    Segment(usize),
}

// An entry is what it names, and the mark that a store has to look whether to copy.
#[derive(Clone, Copy, PartialEq, Eq)]
pub struct Entry {
    pub target: Target,
    pub copy: bool,
}

// How many frames, places and segments there are.
#[derive(Clone, Copy)]
pub struct Limits {
    pub frames: usize,
    pub places: usize,
    pub segments: usize,
}

impl Entry {
    pub fn absent() -> Entry
        ensures { result ≡ record { target = Target.Absent; copy = false } }
    {
        Entry {
            target: Target::Absent,
            copy: false,
        }
    }

    // The entry once two processes have it: an own page with a frame or a place gets the mark.
    pub fn marked(self) -> Entry
        ensures value { (frames : ℕ) → cell frames result ≡ marked (cell frames self) }
        ensures same { result.target ≡ self.target }
    {
        match self.target {
            Target::Frame(_) | Target::Place(_) => Entry { copy: true, ..self },
            _ => self,
        }
    }

    // Ten times the index, and twice the kind, and the mark. No `From`: an index may be too large for a number, and a number is read by the limits.
    pub fn encode(self) -> u16
        requires { index_of self.target < 1024 }
        ensures { result ≡ encoded self }
    {
        let (kind, index) = match self.target {
            Target::Absent => (0, 0),
            Target::Zero => (1, 0),
            Target::Frame(frame) => (2, frame),
            Target::Place(place) => (3, place),
            Target::Segment(segment) => (4, segment),
        };
        (index * 10 + kind * 2 + usize::from(self.copy)) as u16
    }

    // What is no code, or names what is not there, reads as absent.
    pub fn decode(code: u16, limits: Limits) -> Entry
        ensures value { cell limits.frames result ≡ decoded limits code }
        ensures within { Within limits result.target }
    {
        let index = usize::from(code / 10);
        let target = match code % 10 / 2 {
            0 if index == 0 => Target::Absent,
            1 if index == 0 => Target::Zero,
            2 if index < limits.frames => Target::Frame(index),
            3 if index < limits.places => Target::Place(index),
            4 if index < limits.segments => Target::Segment(index),
            _ => return Entry::absent(),
        };
        Entry {
            target,
            copy: code % 2 == 1,
        }
    }
}

// An entry that names what is there is read again as it was written.
pub fn codes_are_read_again()
    ensures { ReadAgain }
{}
