// Where the two machines answer otherwise, and how that is told.
use crate::pair::Answers;
use crate::row::Row;
use requests::request::Call;
use std::fmt;

#[derive(Clone, Copy)]
pub struct Difference {
    pub row: Row,
    pub number: usize,
    pub call: Call,
    pub answers: Answers,
}

impl fmt::Display for Difference {
    fn fmt<W: fmt::Write>(&self, f: &mut fmt::Formatter<W>) -> fmt::Result {
        let row = self.row;
        let number = self.number;
        let call = self.call;
        let manager = self.answers.manager;
        let private = self.answers.private;
        writeln!(f, "{row}")?;
        write!(
            f,
            "call {number}, {call}: the manager answers {manager}, private memories {private}"
        )
    }
}
