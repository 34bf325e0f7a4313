// What all rows together came to.
use crate::pair::Disk;
use requests::answer::Answer;
use requests::request::Call;
use std::fmt;

#[derive(Clone, Copy, Default)]
pub struct Totals {
    rows: u64,
    calls: u64,
    done: u64,
    full: u64,
    fault: u64,
    forks: u64,
    copies: u64,
    reads: u64,
    writes: u64,
}

impl Totals {
    // `grew` says whether a frame or place more is in use after the call.
    pub fn add_call(&mut self, call: Call, answer: Answer, grew: bool) {
        add(&mut self.calls, 1);
        match answer {
            Answer::Done(_) => self.add_done(call, grew),
            Answer::Full => add(&mut self.full, 1),
            Answer::Fault => add(&mut self.fault, 1),
        }
    }

    fn add_done(&mut self, call: Call, grew: bool) {
        add(&mut self.done, 1);
        match call {
            Call::Fork { .. } => add(&mut self.forks, 1),
            Call::Store { .. } if grew => add(&mut self.copies, 1),
            _ => {}
        }
    }

    // A row has ended.
    pub fn add_row(&mut self, disk: Disk) {
        add(&mut self.rows, 1);
        add(&mut self.reads, disk.reads);
        add(&mut self.writes, disk.writes);
    }
}

fn add(sum: &mut u64, more: u64) {
    *sum = sum.saturating_add(more);
}

impl fmt::Display for Totals {
    fn fmt<W: fmt::Write>(&self, f: &mut fmt::Formatter<W>) -> fmt::Result {
        let Totals {
            rows,
            calls,
            done,
            full,
            fault,
            forks,
            copies,
            reads,
            writes,
        } = *self;
        writeln!(f, "{rows} rows, {calls} calls")?;
        writeln!(f, "{done} done, {full} full, {fault} fault")?;
        writeln!(f, "{forks} forks, {copies} stores that copied")?;
        write!(f, "{reads} reads, {writes} writes of the disk")
    }
}
