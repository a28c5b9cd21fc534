//! What is kept of open polls and of releases that are not settled, by their numbers, changed at one of them.

ghost use Rattle.std.specs.Prelude.{◌≡◌, ◌+◌, Some, None, IsSome, OnOk, OnErr};
ghost use Rattle.std.specs.Ordering.{nat_cmp};
ghost use Rattle.std.specs.BTreeMap.{get, btree_map_len, Updates, IsUnchanged};

use kl_base::Memory;
use std::collections::BTreeMap;

/// Keeps one more, whose number is not kept yet.
///
/// # Errors
/// `Memory` where memory runs out, and then nothing changes.
pub fn put_one<V: Copy>(kept: &mut BTreeMap<u64, V>, number: u64, one: V) -> Result<(), Memory>
    requires { get nat_cmp kept.old number ≡ None }
    ensures updates { OnOk result (Updates nat_cmp kept.old kept.new number (Some one)) }
    ensures len { OnOk result (btree_map_len kept.new ≡ btree_map_len kept.old + 1) }
    ensures same { OnErr result (IsUnchanged kept.old kept.new) }
{
    kept.insert(number, one)?;
    Ok(())
}

/// Keeps one no longer.
pub fn take_one<V: Copy>(kept: &mut BTreeMap<u64, V>, number: u64)
    requires { IsSome (get nat_cmp kept.old number) }
    ensures updates { Updates nat_cmp kept.old kept.new number None }
    ensures len { btree_map_len kept.new + 1 ≡ btree_map_len kept.old }
{
    let _ended = kept.remove(&number);
}
