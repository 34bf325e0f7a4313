// The hand that goes round over the frames and chooses the one whose page goes to the disk.
ghost use Rattle.std.specs.Prelude.{◌≡◌, ◌+◌, ◌^◌, ◌<◌, ◌≤◌, length, slice_set};
ghost use Rattle.frames.specs.Turn.{HandGoesRound, Turned, next_frame, start, turn};

// Where the hand rests.
#[derive(Clone, Copy, PartialEq, Eq, Debug)]
pub struct Hand {
    pub at: usize,
}

// The frame that the hand took, where it rests now, and how many frames it looked at.
#[derive(Clone, Copy, PartialEq, Eq, Debug)]
pub struct Turn {
    pub frame: usize,
    pub hand: Hand,
    pub looks: usize,
}

// Sets the used mark of a frame that a load or a store has reached.
pub fn mark(used: &mut [u16], frame: usize)
    requires { frame < length used.old }
    ensures { used.new ≡ slice_set used.old frame 1 }
{
    used[frame] = 1;
}

// The frame after this one, round and round.
fn next_frame(frames: usize, frame: usize) -> usize
    requires { frame < frames }
    ensures value { result ≡ next_frame frames frame }
    ensures bound { result < frames }
{
    if frame + 1 < frames { frame + 1 } else { 0 }
}

// A hand that rests at no frame of the machine starts at frame 0.
fn first_look(frames: usize, at: usize) -> usize
    requires { 0 < frames }
    ensures value { result ≡ start frames at }
    ensures bound { result < frames }
{
    if at < frames { at } else { 0 }
}

// The hand takes this frame, having passed so many.
fn take(frames: usize, frame: usize, passed: usize) -> Turn
    requires frame_within { frame < frames }
    requires passed_within { passed ≤ frames }
    requires few { frames < 2 ^ 63 }
    ensures taken { result.frame ≡ frame }
    ensures rests { result.hand.at ≡ next_frame frames frame }
    ensures looked { result.looks ≡ passed + 1 }
{
    Turn {
        frame,
        hand: Hand {
            at: next_frame(frames, frame),
        },
        looks: passed + 1,
    }
}

// What a turn does, for whoever wants to know more than its definition: it looks at most once at each frame and once more at the first.
pub fn hand_goes_round()
    ensures { HandGoesRound }
{}

impl Hand {
    // At the start the hand rests at frame 0.
    pub fn new() -> Hand
        ensures { result.at ≡ 0 }
    {
        Hand { at: 0 }
    }

    // Goes round from where the hand rests: passes each frame that was used and clears its mark, and takes the first other one.
    // There is a mark in used for each frame.
    pub fn turn(self, used: &mut [u16]) -> Turn
        requires { 0 < length used.old }
        ensures value { turn (length used.old) self.at used.old ≡ record { frame = result.frame; rest = result.hand.at; looks = result.looks; used = used.new } }
        ensures bound { result.frame < length used.old }
    {
        // No `find`: marks are cleared on the way, and a proof learns nothing of a closure that writes what it captures.
        let frames = used.len();
        let mut frame = first_look(frames, self.at);
        for passed in 0..frames {
            if used[frame] == 0 {
                return take(frames, frame, passed);
            }
            used[frame] = 0;
            frame = next_frame(frames, frame);
        }
        take(frames, frame, frames)
    }
}
