ghost use Rattle.std.specs.Prelude.{◌≡◌, ℕ, Some, Option};

// A type whose values have numbers: the number of a value and the value of a number, each the other's way back. A trait
// of its own, since From and TryFrom have no law that joins the two. Each has its table: a search through a list of
// the values would ask for that list of every type that is a Code.
pub trait Code {
    ghost code: { Self → ℕ };

    ghost named: { ℕ → Option Self };

    fn number(self) -> u8
        ensures { result ≡ code self };

    fn from_number(number: u8) -> Option<Self>
        ensures { result ≡ named number };

    ghost back: { (x : Self) → named (code x) ≡ Some x };

    ghost there: { (n : ℕ) (x : Self) → named n ≡ Some x → code x ≡ n };
}
