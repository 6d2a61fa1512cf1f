// Worked examples of the built-in table, proved by computation.
#![tactic(auto)]

ghost use Rattle.std.specs.Prelude.{◌≡◌};
ghost use Rattle.worked.specs.Examples.{ExamplesComeOut};

// how many examples there are, each of which comes out as stated
pub fn worked_examples() -> u8
    ensures count { result ≡ 14 }
    ensures stand { ExamplesComeOut }
{
    14
}
