// What a call is answered, and why an opening or a row is refused.
ghost use Rattle.std.specs.Prelude.{◌≡◌, Some};
ghost use Rattle.requests.specs.Refusals.{refusal_number, refusal_place};
ghost use Rattle.requests.specs.Text.{answer_text, refusal_text};

use std::fmt;

// No `Result`: fault and full are answers that the rules give, as done is, and the record and memory come with each.
#[derive(Clone, Copy, PartialEq, Eq, Debug)]
pub enum Answer {
    Done(u64),
    Fault,
    Full,
}

// The five sizes of a machine, in the order in which they are looked at.
#[derive(Clone, Copy, PartialEq, Eq, Debug)]
pub enum Size {
    Processes,
    Pages,
    Segments,
    Frames,
    Places,
}

// The parts of lent memory, in the order in which they are looked at.
#[derive(Clone, Copy, PartialEq, Eq, Debug)]
pub enum Part {
    Frames,
    Disk,
    Tables,
}

// Each with what is refused: which size or part, how long the row is, or which call.
#[derive(Clone, Copy, PartialEq, Eq, Debug)]
pub enum Refusal {
    // a size out of range
    Size(Size),
    // lent memory too short
    Lent(Part),
    // a row whose length, given here, is no multiple of eight
    Length(usize),
    // a kind that is 0 or above 9: the call's number, from 0
    Kind(usize),
}

impl Refusal {
    pub fn number(self) -> usize
        ensures { result ≡ refusal_number self }
    {
        match self {
            Refusal::Size(_) => 1,
            Refusal::Lent(_) => 2,
            Refusal::Length(_) => 3,
            Refusal::Kind(_) => 4,
        }
    }

    pub fn place(self) -> usize
        ensures { result ≡ refusal_place self }
    {
        match self {
            Refusal::Size(size) => size as usize,
            Refusal::Lent(part) => part as usize,
            Refusal::Length(place) | Refusal::Kind(place) => place,
        }
    }
}

impl fmt::Display for Answer {
    ghost output = { λ a. Some (answer_text a) };

    fn fmt<W: fmt::Write>(&self, f: &mut fmt::Formatter<W>) -> fmt::Result {
        match *self {
            Answer::Done(n) => write!(f, "done {n}"),
            Answer::Fault => f.write_str("fault"),
            Answer::Full => f.write_str("full"),
        }
    }
}

impl fmt::Display for Refusal {
    ghost output = { λ e. Some (refusal_text e) };

    fn fmt<W: fmt::Write>(&self, f: &mut fmt::Formatter<W>) -> fmt::Result {
        let number = self.number();
        let place = self.place();
        write!(f, "refused {number} {place}")
    }
}
