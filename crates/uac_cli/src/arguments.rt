// The words after the program's name.
ghost use Rattle.std.specs.Prelude.{◌≡◌, ◌≢◌, [], drop, IfErr, IfOk, IsErr, IsOk};
ghost use Rattle.std.specs.IoError.{error_kind};
ghost use Rattle.std.specs.Vec.Iter.{into_iter_items};

use std::alloc::{AllocError, Global};
use std::env::Args;
use std::io::{self, ErrorKind};
use uac_descriptor::NoMemory;

/// The words after the program's name. Where one of the arguments isn't UTF-8 there are none, which is refused as that word would be.
pub(crate) fn words(alloc: Global, args: io::Result<Args>) -> Result<Vec<String>, NoMemory>
    // All arguments but the first, in their order; none where they couldn't be read.
    ensures given { IfOk args (λ all. IfOk result (λ words. words.items ≡ drop 1 (into_iter_items all))) }
    ensures none { IfErr args (λ _. IfOk result (λ words. words.items ≡ [])) }

    // That is answered where one isn't UTF-8, and every other failure to read them is want of memory.
    ensures misread { IfErr args (λ error. error_kind error ≡ ErrorKind.InvalidData → IsOk result) }
    ensures unread { IfErr args (λ error. error_kind error ≢ ErrorKind.InvalidData → IsErr result) }
{
    match args {
        Ok(args) => Ok(words_after_the_first(alloc, args)?),
        Err(error) if error.kind() == ErrorKind::InvalidData => Ok(Vec::new(alloc)),
        Err(_) => Err(NoMemory),
    }
}

/// All arguments but the first, in their order.
fn words_after_the_first(alloc: Global, args: Args) -> Result<Vec<String>, AllocError>
    ensures { IfOk result (λ words. words.items ≡ drop 1 (into_iter_items args)) }
{
    args.skip(1).collect(alloc)
}
