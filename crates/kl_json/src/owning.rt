//! A tree is copied into a value.

ghost use Rattle.std.specs.Prelude.{◌≡◌, None, Some, IfNone, IfOk, IfSome};
ghost use Rattle.json.specs.Value.{value_view, items_view as tree_items, members_view as tree_members};
ghost use Rattle.serde_json.specs.Data.{no_members};
ghost use Rattle.serde_json.specs.Read.{of_json, of_items, of_members};
ghost use Rattle.serde_json.specs.View.{view, items_view, members_view};

use crate::number::number_of;
use json::Value as Tree;
use kl_base::Memory;
use serde_json::{Map, Value};
use std::alloc::Global;

/// The value of a tree, of copies of its texts. `None` where a number in it is out of range.
///
/// # Errors
/// [`Memory`] where there is none for the value.
#[cycle(owned)]
pub fn owned(alloc: Global, tree: &Tree<'_>) -> Result<Option<Value>, Memory>
    ensures value { IfOk result (λ o. IfSome o (λ value. of_json (value_view tree.now) ≡ Some (view value))) }
    ensures none { IfOk result (λ o. IfNone o (of_json (value_view tree.now) ≡ None)) }
{
    match tree {
        Tree::Null => Ok(Some(Value::Null)),
        Tree::Bool(truth) => Ok(Some(Value::Bool(*truth))),
        Tree::Number(text) => match number_of(text) {
            Some(number) => Ok(Some(Value::Number(number))),
            None => Ok(None),
        },
        Tree::String(text) => {
            let copy = String::from_str(alloc, text)?;
            Ok(Some(Value::String(copy)))
        }
        Tree::Array(items) => match owned_items(alloc, items)? {
            Some(items) => Ok(Some(Value::Array(items))),
            None => Ok(None),
        },
        Tree::Object(members) => match owned_members(alloc, members)? {
            Some(members) => Ok(Some(Value::Object(members))),
            None => Ok(None),
        },
    }
}

#[cycle(owned)]
fn owned_items(alloc: Global, items: &Vec<Tree<'_>>) -> Result<Option<Vec<Value>>, Memory>
    ensures values { IfOk result (λ o. IfSome o (λ values. of_items (tree_items items.now.items) ≡ Some (items_view values.items))) }
    ensures none { IfOk result (λ o. IfNone o (of_items (tree_items items.now.items) ≡ None)) }
{
    let mut values = Vec::with_capacity(alloc, items.len())?;
    for item in items {
        let Some(value) = owned(alloc, item)? else {
            return Ok(None);
        };
        values.push(value)?;
    }
    Ok(Some(values))
}

#[cycle(owned)]
fn owned_members(
    alloc: Global,
    members: &Vec<(&str, Tree<'_>)>,
) -> Result<Option<Map<String, Value>>, Memory>
    ensures map { IfOk result (λ o. IfSome o (λ map. of_members (tree_members members.now.items) no_members ≡ Some (members_view map.entries))) }
    ensures none { IfOk result (λ o. IfNone o (of_members (tree_members members.now.items) no_members ≡ None)) }
{
    let mut map = Map::new(alloc);
    for member in members {
        let Some(value) = owned(alloc, &member.1)? else {
            return Ok(None);
        };
        let name = String::from_str(alloc, member.0)?;
        drop(map.insert(name, value)?);
    }
    Ok(Some(map))
}
