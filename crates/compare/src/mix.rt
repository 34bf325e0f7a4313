// What a row is made of: which kinds of calls, on how many pages, and how often one goes astray.
ghost use Rattle.std.specs.Prelude.{◌≡◌, ◌%◌, ◌<◌, ◌≤◌, IfSome, slice_get};
ghost use Rattle.requests.specs.Ranges.{InRange, ranged};

use requests::request::Kind;
use requests::sizes::Sizes;
use std::fmt;

#[derive(Clone, Copy)]
pub enum Mix {
    // stores to many pages, until no more can be held
    Fill,
    // loads and stores of more pages than there are frames
    Thrash,
    // forks and leaves, with stores between that have to copy
    Copies,
    // segments made, looked at, stored to and dropped
    Segments,
    // all kinds alike, with numbers out of range now and then
    Wild,
    // a bit of everything, with no number out of range
    Valid,
}

const MIXES: [Mix; 6] = [
    Mix::Fill,
    Mix::Thrash,
    Mix::Copies,
    Mix::Segments,
    Mix::Wild,
    Mix::Valid,
];

// How many calls in sixteen are of each kind, in each mix.
const WEIGHTS: [(Kind, [usize; 6]); 8] = [
    (Kind::Fork, [1, 1, 3, 1, 2, 1]),
    (Kind::Leave, [0, 0, 2, 1, 2, 1]),
    (Kind::Map, [4, 2, 2, 1, 2, 2]),
    (Kind::Drop, [0, 0, 1, 2, 2, 1]),
    (Kind::Make, [1, 1, 0, 2, 2, 1]),
    (Kind::Look, [0, 0, 0, 3, 2, 1]),
    (Kind::Load, [2, 6, 3, 3, 2, 4]),
    (Kind::Store, [8, 6, 5, 3, 2, 5]),
];

impl Mix {
    pub fn of_row(number: usize) -> Mix
        ensures { slice_get MIXES (number % 6) ≡ Some result }
    {
        MIXES[number % MIXES.len()]
    }

    // The kind of a call, by a number below sixteen.
    pub fn kind(self, drawn: usize) -> Kind {
        let mut left = drawn;
        for (kind, weights) in &WEIGHTS {
            match left.checked_sub(weights[self as usize]) {
                Some(rest) => left = rest,
                None => return *kind,
            }
        }
        Kind::Store
    }

    // How many pages of each process the row works on.
    pub fn span(self, sizes: Sizes) -> usize
        requires { InRange (ranged sizes) }
        ensures some { 0 < result }
        ensures within { result ≤ sizes.pages }
    {
        match self {
            Mix::Fill | Mix::Segments | Mix::Wild => sizes.pages,
            Mix::Thrash => sizes.pages.min(sizes.frames + sizes.places),
            Mix::Copies => sizes.pages.min(4),
            Mix::Valid => sizes.pages.min(16),
        }
    }

    // One number in so many is out of range, if any.
    pub fn astray(self) -> Option<usize>
        ensures { IfSome result (λ often. 0 < often) }
    {
        match self {
            Mix::Valid => None,
            Mix::Wild => Some(12),
            Mix::Fill | Mix::Thrash | Mix::Copies | Mix::Segments => Some(400),
        }
    }
}

impl fmt::Display for Mix {
    fn fmt<W: fmt::Write>(&self, f: &mut fmt::Formatter<W>) -> fmt::Result {
        f.write_str(match *self {
            Mix::Fill => "fill",
            Mix::Thrash => "thrash",
            Mix::Copies => "copies",
            Mix::Segments => "segments",
            Mix::Wild => "wild",
            Mix::Valid => "valid",
        })
    }
}
