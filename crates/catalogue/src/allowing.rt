ghost use Rattle.std.specs.Prelude.{◌≡◌, ◌==◌, min, take};
ghost use Rattle.std.specs.List.{list_any};
ghost use Rattle.catalogue.specs.Meaning.{allowed_of};

use super::allow_list::AllowList;
use super::catalogue::Catalogue;
use record::Record;

impl<C: Catalogue> AllowList<C> {
    // lets the first `count` of the numbers through, at most 32
    pub fn new(numbers: [u16; 32], count: u8, inner: C) -> AllowList<C>
        ensures numbers { result.numbers ≡ numbers }
        ensures count { result.count ≡ min count 32 }
        ensures inner { result.inner ≡ inner }
    {
        let count = count.min(32);
        AllowList {
            numbers,
            count,
            inner,
        }
    }
}

fn same(a: u16, b: u16) -> bool
    ensures { result ≡ (a == b) }
{
    a == b
}

fn lists(numbers: &[u16], number: u16) -> bool
    ensures { result ≡ list_any (λ x. x == number) numbers.now }
{
    numbers.iter().any(|allowed| same(*allowed, number))
}

impl<C: Catalogue> Catalogue for AllowList<C> {
    ghost means = { λ s n. allowed_of (take s.count s.numbers) n (C.Catalogue.means s.inner n) };

    fn get(&self, number: u16) -> Option<Record> {
        if lists(&self.numbers[..self.count as usize], number) {
            self.inner.get(number)
        } else {
            None
        }
    }
}
