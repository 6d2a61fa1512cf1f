ghost use Rattle.std.specs.Prelude.{◌≡◌, ℕ, Option};
ghost use Rattle.record.specs.declared.sound.Record.{Record};

use record::Record;

// A catalogue means, for each number 0 to 65535, no record or one sound record. Asking alters nothing.
pub trait Catalogue {
    ghost means: { Self → ℕ → Option Record };

    fn get(&self, number: u16) -> Option<Record>
        ensures { result ≡ means self.now number };
}
