// What is promised of the manager: each function carries one statement, its contract, so the crate is refused where a proof is missing. The statements are
// in specs/, and speak of the manager's written definition, which the code of the manager is proved to follow.
#![tactic(auto)]

ghost use Rattle.fold.specs.Promise.{SameAnswers};
ghost use Rattle.calls.specs.Machine.{Machine, first};
ghost use Rattle.calls.specs.Calls.{calls};
ghost use Rattle.promise.specs.Copies.{ForkChild, ForkCopiesNothing, RoomExact, StoresCopy};
ghost use Rattle.promise.specs.Counts.{CountsRight, CountsSmall};
ghost use Rattle.promise.specs.Disk.{DiskKeepsBytes, HandGoes};
ghost use Rattle.promise.specs.Lost.{NothingLost};
ghost use Rattle.promise.specs.Refused.{RefusedUnchanged};
ghost use Rattle.promise.specs.Walks.{WalksRight};

// THE MAIN PROMISE: every row of calls is answered as the machine of private memories answers it, refusals included, however what can be held is split into
// frames and places on the disk.
pub fn same_answers()
    ensures { SameAnswers Machine first calls }
{}

// A call that is refused leaves the manager as it was.
pub fn refused_unchanged()
    ensures { RefusedUnchanged }
{}

// Every count is the number of names that it counts.
pub fn counts_right()
    ensures { CountsRight }
{}

// No count comes to the largest number that a table can hold.
pub fn counts_small()
    ensures { CountsSmall }
{}

// Every page lies where it is found, with its bytes, and no location is lost.
pub fn nothing_lost()
    ensures { NothingLost }
{}

// A walk finds what the private machine has, and so does the look-aside table.
pub fn walks_right()
    ensures { WalksRight }
{}

// Pages that go to the disk and come back change no byte, whichever frames are chosen.
pub fn disk_keeps_bytes()
    ensures { DiskKeepsBytes }
{}

// A store copies exactly when it must, and no other page changes.
pub fn stores_copy()
    ensures { StoresCopy }
{}

// A fork copies no byte, and the child's loads are then the parent's.
pub fn fork_copies_nothing()
    ensures memory { ForkCopiesNothing }
    ensures child { ForkChild }
{}

// Full is answered exactly where all that can be held is held.
pub fn room_exact()
    ensures { RoomExact }
{}

// The hand goes round, once at most and one frame more, and its frame is the one that is emptied.
pub fn hand_goes()
    ensures { HandGoes }
{}
