// What is seen: the machine of private memories is in specs/. The functions here carry what is proved of it: the contract of
// each is one statement, so the crate is refused where its proof is missing.
#![tactic(auto)]

ghost use Rattle.std.specs.Prelude.{◌≡◌, min, length};
ghost use Rattle.fold.specs.Fold.{more_than_one};
ghost use Rattle.fold.specs.Promise.{Apart, ByHold, Child, LoadAfterStore, NothingLeft, OneLabel, RefusedUnchanged, Splits, WithinHold};
ghost use Rattle.fold.specs.Rows.{rows, RowsStand};

// Whether a store has to copy, by how many pages share the label.
pub fn copies(shared: u32) -> bool
    ensures { result ≡ more_than_one shared }
{
    1 < shared
}

// The table of rows stands. Answers how many rows it has.
pub fn rows_stand() -> usize
    ensures stand { RowsStand }
    ensures count { result ≡ length rows }
{
    7
}

// A store to an own page is seen in no other page, of another process or the same.
pub fn apart()
    ensures { Apart }
{}

// Right after a fork the child's loads are the parent's.
pub fn child()
    ensures { Child }
{}

// Pages of one label hold the same bytes.
pub fn one_label()
    ensures { OneLabel }
{}

// No more is ever held than there is.
pub fn within_hold()
    ensures { WithinHold }
{}

// When all have left, nothing is held.
pub fn nothing_left()
    ensures { NothingLeft }
{}

// A store that is done makes the next load of that byte answer what was stored.
pub fn load_after_store()
    ensures { LoadAfterStore }
{}

// A call that is refused leaves the world as it was.
pub fn refused_unchanged()
    ensures { RefusedUnchanged }
{}

// The main promise, stated for every split of what is held into frames and places, gives the form that names the hold alone,
// for every rule that splits a hold; and there is such a rule: frames first, up to 512.
pub fn by_hold<Manager>()
    ensures form { ByHold Manager }
    ensures rule { Splits (min 512) }
{}
