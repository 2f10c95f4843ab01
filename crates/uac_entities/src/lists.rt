// Lists of bytes and words, made and copied.
ghost use Rattle.std.specs.Prelude.{◌≡◌, [], ◌∷◌, ◌++◌, IfOk, OnOk};
ghost use Rattle.std.specs.Option.{option_to_list};

use std::alloc::Global;
use uac_descriptor::{ByteList, NoMemory, WordList};

/// No bytes. It takes no memory.
pub(crate) fn no_bytes(alloc: Global) -> ByteList
    ensures { result ≡ [] }
{
    ByteList::from_vec(Vec::new(alloc))
}

/// A list of these words.
pub(crate) fn word_list_of(alloc: Global, words: &[u32]) -> Result<WordList, NoMemory>
    ensures { IfOk result (λ list. list ≡ words.now) }
{
    Ok(WordList::from_vec(Vec::from_slice(alloc, words)?))
}

/// Puts the item after the others, if there is one.
pub(crate) fn keep<T: Drop>(items: &mut Vec<T>, item: Option<T>) -> Result<(), NoMemory>
    ensures { OnOk result (items.new.items ≡ items.old.items ++ option_to_list item) }
{
    let Some(item) = item else {
        return Ok(());
    };
    items.push(item)?;
    Ok(())
}
