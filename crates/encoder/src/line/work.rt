ghost use Rattle.std.specs.Prelude.{◌≡◌, ◌+◌, ◌<◌, ◌≤◌, [], ◌∷◌, ◌++◌, length};
ghost use Rattle.encoder.specs.Lines.{used, opt};

use super::Line;

impl Line {
    #[tactic(auto, unfolding(crate::specs::Lines::used))]
    pub(crate) fn empty() -> Line
        ensures bytes { used result ≡ [] }
        ensures count { result.count ≡ 0 }
    {
        Line {
            bytes: [0; 31],
            count: 0,
        }
    }

    #[tactic(auto, using(std::proofs::lemmas::List::take_more_set), unfolding(crate::specs::Lines::used))]
    pub(crate) fn push(&mut self, b: u8)
        requires { self.old.count < 31 }
        ensures bytes { used self.new ≡ used self.old ++ (b ∷ []) }
        ensures count { self.new.count ≡ self.old.count + 1 }
    {
        self.bytes[self.count as usize] = b;
        self.count += 1;
    }

    // a byte that is there or not
    pub(crate) fn push_if(&mut self, there: bool, b: u8)
        requires { self.old.count < 31 }
        ensures bytes { used self.new ≡ used self.old ++ opt there b }
        ensures count { self.new.count ≤ self.old.count + 1 }
    {
        if there {
            self.push(b);
        }
    }

    pub(crate) fn push_all(&mut self, bytes: &[u8])
        requires { self.old.count + length bytes.now ≤ 31 }
        ensures bytes { used self.new ≡ used self.old ++ bytes.now }
        ensures count { self.new.count ≡ self.old.count + length bytes.now }
    {
        let start = self.count as usize;
        let end = start + bytes.len();
        self.bytes[start..end].copy_from_slice(bytes);
        self.count = end as u8;
    }
}
