ghost use Rattle.std.specs.Prelude.{◌≡◌, ◌≤◌, length};
ghost use Rattle.encoder.specs.Lines.{used};

use super::Line;

impl Line {
    // how many bytes are used
    #[tactic(auto, unfolding(crate::specs::Lines::used))]
    pub fn len(&self) -> u8
        ensures value { result ≡ length (used self.now) }
        ensures bound { result ≤ 31 }
    {
        self.count
    }

    // the bytes used
    #[tactic(auto, unfolding(crate::specs::Lines::used))]
    pub fn bytes(&self) -> &[u8]
        ensures { result.now ≡ used self.now }
    {
        &self.bytes[..self.count as usize]
    }
}
