// One call, and how bytes say it.
ghost use Rattle.std.specs.Prelude.{◌≡◌, Some, if◌then◌else◌, nat_le};
ghost use Rattle.requests.specs.Kinds.{Decodes};
ghost use Rattle.requests.specs.Row.{call_of, call_of_numbers};
ghost use Rattle.requests.specs.Text.{call_text};

use std::fmt;

// What a call asks for. A row has the number.
#[derive(Clone, Copy, PartialEq, Eq, Debug)]
pub enum Kind {
    Fork = 1,
    Leave,
    Map,
    Drop,
    Make,
    Look,
    Load,
    Store,
    Counts,
}

// A number that no kind has.
#[derive(Clone, Copy, PartialEq, Eq, Debug)]
pub struct UnknownKind;

impl TryFrom<usize> for Kind {
    type Error = UnknownKind;

    ghost try_from_gives = { Decodes };

    fn try_from(number: usize) -> Result<Kind, UnknownKind> {
        match number {
            1 => Ok(Kind::Fork),
            2 => Ok(Kind::Leave),
            3 => Ok(Kind::Map),
            4 => Ok(Kind::Drop),
            5 => Ok(Kind::Make),
            6 => Ok(Kind::Look),
            7 => Ok(Kind::Load),
            8 => Ok(Kind::Store),
            9 => Ok(Kind::Counts),
            _ => Err(UnknownKind),
        }
    }
}

// A number that names no process, page or byte of the machine is allowed here, and answered as a fault.
#[derive(Clone, Copy, PartialEq, Eq, Debug)]
pub enum Call {
    Fork {
        process: usize,
    },
    Leave {
        process: usize,
    },
    Map {
        process: usize,
        page: usize,
    },
    Drop {
        process: usize,
        page: usize,
    },
    Make {
        process: usize,
        page: usize,
    },
    Look {
        process: usize,
        page: usize,
        from_process: usize,
        from_page: usize,
    },
    Load {
        process: usize,
        page: usize,
        offset: usize,
    },
    Store {
        process: usize,
        page: usize,
        offset: usize,
        byte: u8,
    },
    Counts,
}

impl Call {
    // The call that a kind and four numbers say. third and fourth are the page that is looked at, or the offset and the byte of a load or a store. What is
    // stored has to be a byte: another number is a store past the end of the page, which is a fault.
    pub fn from_numbers(
        kind: usize,
        process: usize,
        page: usize,
        third: usize,
        fourth: usize,
    ) -> Option<Call>
        ensures { result ≡ call_of_numbers kind process page third fourth }
    {
        Some(match Kind::try_from(kind).ok()? {
            Kind::Fork => Call::Fork { process },
            Kind::Leave => Call::Leave { process },
            Kind::Map => Call::Map { process, page },
            Kind::Drop => Call::Drop { process, page },
            Kind::Make => Call::Make { process, page },
            Kind::Look => Call::Look {
                process,
                page,
                from_process: third,
                from_page: fourth,
            },
            Kind::Load => Call::Load {
                process,
                page,
                offset: third,
            },
            Kind::Store => Call::store(process, page, third, fourth),
            Kind::Counts => Call::Counts,
        })
    }

    fn store(process: usize, page: usize, offset: usize, byte: usize) -> Call
        ensures { result ≡ (if nat_le 256 byte then Call.Store process page 256 0 else Call.Store process page offset byte) }
    {
        match u8::try_from(byte) {
            Ok(byte) => Call::Store {
                process,
                page,
                offset,
                byte,
            },
            Err(_) => Call::Store {
                process,
                page,
                offset: 256,
                byte: 0,
            },
        }
    }

    pub(crate) fn from_bytes(kind: u8, process: u8, page: u8, third: u8, fourth: u8) -> Option<Call>
        ensures { result ≡ call_of kind process page third fourth }
    {
        Call::from_numbers(
            usize::from(kind),
            usize::from(process),
            usize::from(page),
            usize::from(third),
            usize::from(fourth),
        )
    }
}

// As the table of calls writes it.
impl fmt::Display for Call {
    ghost output = { λ c. Some (call_text c) };

    fn fmt<W: fmt::Write>(&self, f: &mut fmt::Formatter<W>) -> fmt::Result {
        match *self {
            Call::Fork { process } => write!(f, "fork {process}"),
            Call::Leave { process } => write!(f, "leave {process}"),
            Call::Map { process, page } => write!(f, "map {process} {page}"),
            Call::Drop { process, page } => write!(f, "drop {process} {page}"),
            Call::Make { process, page } => write!(f, "make {process} {page}"),
            Call::Look {
                process,
                page,
                from_process,
                from_page,
            } => write!(f, "look {process} {page} {from_process} {from_page}"),
            Call::Load {
                process,
                page,
                offset,
            } => write!(f, "load {process} {page} {offset}"),
            Call::Store {
                process,
                page,
                offset,
                byte,
            } => write!(f, "store {process} {page} {offset} {byte}"),
            Call::Counts => f.write_str("counts"),
        }
    }
}
