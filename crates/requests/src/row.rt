// A row of calls as bytes, eight to a call.
ghost use Rattle.std.specs.Prelude.{◌≡◌, ◌/◌, length, position};
ghost use Rattle.requests.specs.Refusals.{unless_refused};
ghost use Rattle.requests.specs.Kinds.{is_kind, unknown};
ghost use Rattle.requests.specs.Row.{RowRefusesFirst, RowSays, RowStores, call_at, row_refusal};

use crate::answer::Refusal;
use crate::request::{Call, Kind};

const CALL_BYTES: usize = 8;

// How many calls the row has. It is refused as a whole, before any of its calls is made.
pub fn count(row: &[u8]) -> Result<usize, Refusal>
    ensures { result ≡ unless_refused (row_refusal row.now) (length row.now / 8) }
{
    let (calls, rest) = row.as_chunks::<CALL_BYTES>();
    if !rest.is_empty() {
        return Err(Refusal::Length(row.len()));
    }
    match first_unknown(calls) {
        Some(i) => Err(Refusal::Kind(i)),
        None => Ok(calls.len()),
    }
}

// The first call with a kind that is none.
fn first_unknown(calls: &[[u8; CALL_BYTES]]) -> Option<usize>
    ensures { result ≡ position unknown calls.now }
{
    calls.iter().position(|call| !is_kind(call[0]))
}

// Call i of the row, if there is such a call and its kind is one. The last three of its bytes are not read.
pub fn call_at(row: &[u8], i: usize) -> Option<Call>
    ensures { result ≡ call_at row.now i }
{
    let (calls, _) = row.as_chunks::<CALL_BYTES>();
    let &[kind, process, page, third, fourth, ..] = calls.get(i)?;
    Call::from_bytes(kind, process, page, third, fourth)
}

fn is_kind(kind: u8) -> bool
    ensures { result ≡ is_kind kind }
{
    Kind::try_from(usize::from(kind)).is_ok()
}

// What holds of every row, for whoever reads one: the calls of the row as a list are those that `call_at` answers.
pub fn row_laws()
    ensures says { RowSays }
    ensures first { RowRefusesFirst }
    ensures stores { RowStores }
{}
