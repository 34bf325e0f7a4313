// Numbers that look random, and are the same for the same seed.
ghost use Rattle.std.specs.Prelude.{◌≡◌, ◌<◌, ◌≤◌};

#[derive(Drop)]
pub struct Draws {
    state: u64,
}

impl Draws {
    pub fn new(seed: u64) -> Draws
        ensures { result.state ≡ seed }
    {
        Draws { state: seed }
    }

    // The state goes on by a fixed odd step, and what is drawn is that state with its bits mixed.
    fn draw(&mut self) -> u64 {
        self.state = self.state.wrapping_add(0x9e37_79b9_7f4a_7c15);
        let half = (self.state ^ (self.state >> 30)).wrapping_mul(0xbf58_476d_1ce4_e5b9);
        let mixed = (half ^ (half >> 27)).wrapping_mul(0x94d0_49bb_1331_11eb);
        mixed ^ (mixed >> 31)
    }

    pub fn below(&mut self, n: usize) -> usize
        requires { 0 < n }
        ensures { result < n }
    {
        (self.draw() % n as u64) as usize
    }

    pub fn between(&mut self, least: usize, most: usize) -> usize
        requires order { least ≤ most }
        requires small { most < 65536 }
        ensures low { least ≤ result }
        ensures high { result ≤ most }
    {
        least + self.below(most - least + 1)
    }

    pub fn one_in(&mut self, n: usize) -> bool
        requires { 0 < n }
    {
        self.below(n) == 0
    }

    pub fn byte(&mut self) -> u8 {
        self.below(256) as u8
    }
}
