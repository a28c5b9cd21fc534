//! A text is read into a tree over the text, of which nothing is copied.

ghost use Rattle.std.specs.Prelude.{◌≡◌, None, IfNone, IfOk, IfSome};
ghost use Rattle.json.specs.Value.{value_view};
ghost use Rattle.serde_json.specs.Read.{of_json, read};

use json::{Error, Reader, Scratch, Value as Tree};
use kl_base::Memory;
use std::alloc::Global;

/// How deep arrays and objects may nest.
const MAX_DEPTH: usize = 127;

/// The tree of a text, whose value is the text's: as [`parse`](crate::parse) has it, but for numbers, which stay text. `None` where
/// the text is no JSON or nests deeper.
///
/// # Errors
/// [`Memory`] where there is none for the tree.
pub fn tree_of<'a>(
    alloc: Global,
    text: &'a str,
    scratch: &'a mut Scratch,
) -> Result<Option<Tree<'a>>, Memory>
    ensures tree { IfOk result (λ o. IfSome o (λ tree. read text.now ≡ of_json (value_view tree))) }
    ensures none { IfOk result (λ o. IfNone o (read text.now ≡ None)) }
{
    let Ok(mut reader) = Reader::new(text, scratch) else {
        return Err(Memory);
    };
    let tree = match Tree::read(alloc, &mut reader, MAX_DEPTH) {
        Ok(tree) => tree,
        Err(Error::Invalid) => return Ok(None),
        Err(_) => return Err(Memory),
    };
    match reader.next() {
        None => Ok(Some(tree)),
        Some(_) => Ok(None),
    }
}
