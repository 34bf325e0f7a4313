// A table of counts: how many name each frame, place or segment. Count 0 is free.
ghost use Rattle.std.specs.Prelude.{◌≡◌, ◌<◌, length, IfSome};
ghost use Rattle.frames.specs.Counts.{CountsOne, LowestIsFree, counted_down, counted_up, lowest_free};

// The lowest index of count 0.
pub fn lowest_free(counts: &[u16]) -> Option<usize>
    ensures value { result ≡ lowest_free counts.now }
    ensures bound { IfSome result (λ i. i < length counts.now) }
{
    // In a line of its own, so that a wrong index can be written there and is refused for what it is.
    let lowest = counts.iter().position(|count| *count == 0)?;
    Some(lowest)
}

// One more, but never more than the table can hold.
pub fn count_up(counts: &mut [u16], i: usize)
    requires { i < length counts.old }
    ensures { counts.new ≡ counted_up counts.old i }
{
    counts[i] = counts[i].saturating_add(1);
}

// One less, but never less than 0.
pub fn count_down(counts: &mut [u16], i: usize)
    requires { i < length counts.old }
    ensures { counts.new ≡ counted_down counts.old i }
{
    counts[i] = counts[i].saturating_sub(1);
}

// What the definitions of these tables say of every index.
pub fn count_laws()
    ensures lowest { LowestIsFree }
    ensures one { CountsOne }
{}
