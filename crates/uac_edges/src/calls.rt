// Which calls of an object in memory fail.
ghost use Rattle.std.specs.Prelude.{◌≤◌, ◌↔◌, Contains, IsTrue};

use uac_descriptor::WordList;

// The call of this number is one of those listed.
pub fn is_failing(failing: &WordList, number: u64) -> bool
    ensures listed { IsTrue result ↔ Contains failing.now number }
    ensures late { IsTrue result → number ≤ 4294967295 }
{
    failing
        .as_slice()
        .iter()
        .any(|call| u64::from(*call) == number)
}
