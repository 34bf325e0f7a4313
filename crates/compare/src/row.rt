// A row: its number says all of it.
ghost use Rattle.std.specs.Prelude.{◌≡◌, ◌≤◌};
ghost use Rattle.requests.specs.Ranges.{InRange, ranged};

use crate::draws::Draws;
use crate::mix::Mix;
use requests::sizes::Sizes;
use std::fmt;

// Rows of one level are of about the same sizes, and the lowest level comes first.
pub const LEVELS: usize = 16;

pub const ROWS_OF_LEVEL: usize = 4000;

// Processes times pages times calls of a row come to about so much at most, since the machine of private memories is slow.
const WORK: usize = 400_000;

#[derive(Clone, Copy)]
pub struct Row {
    pub number: usize,
    pub seed: u64,
    pub mix: Mix,
    pub sizes: Sizes,
    pub calls: usize,
}

impl Row {
    pub fn new(number: usize) -> Row
        ensures numbered { result.number ≡ number }
        ensures fits { InRange (ranged result.sizes) }
    {
        let seed = number as u64;
        let mut draws = Draws::new(seed);
        let sizes = draw_sizes(&mut draws, number / ROWS_OF_LEVEL);
        let calls = draw_calls(&mut draws, sizes);
        Row {
            number,
            seed,
            mix: Mix::of_row(number),
            sizes,
            calls,
        }
    }
}

fn draw_sizes(draws: &mut Draws, level: usize) -> Sizes
    ensures { InRange (ranged result) }
{
    let level = level.min(LEVELS - 1);
    Sizes {
        processes: draws.between(1, 1 + level),
        pages: draws.between(1, 4 + 4 * level),
        segments: draws.between(0, 1 + level),
        frames: draw_hold(draws, 1),
        places: draw_hold(draws, 0),
    }
}

// Few, so that rows fill them, and now and then as many as there may be.
fn draw_hold(draws: &mut Draws, least: usize) -> usize
    requires { least ≤ 1 }
    ensures low { least ≤ result }
    ensures high { result ≤ 512 }
{
    let most = if draws.one_in(32) { 512 } else { 8 };
    draws.between(least, most)
}

fn draw_calls(draws: &mut Draws, sizes: Sizes) -> usize
    requires { InRange (ranged sizes) }
    ensures low { 30 ≤ result }
    ensures high { result ≤ 600 }
{
    let most = WORK / sizes.processes / sizes.pages;
    draws.between(30, 30 + most.min(570))
}

impl fmt::Display for Row {
    fn fmt<W: fmt::Write>(&self, f: &mut fmt::Formatter<W>) -> fmt::Result {
        let number = self.number;
        let seed = self.seed;
        let mix = self.mix;
        let processes = self.sizes.processes;
        let pages = self.sizes.pages;
        let segments = self.sizes.segments;
        let frames = self.sizes.frames;
        let places = self.sizes.places;
        write!(
            f,
            "row {number}, seed {seed}, mix {mix}: {processes} processes, {pages} pages, {segments} segments, {frames} frames, {places} places"
        )
    }
}
