//! Entries, digests and faults may go from one thread to another and be shared by several.

use crate::entry::Entry;
use crate::fault::LineFault;
use crate::file_digest::FileDigest;

fn shared<T: Send + Sync>(_value: &T) {}

/// Is proved only where each of these types is Send and Sync.
pub(crate) fn all_shared(entry: &Entry<'_>, digest: &FileDigest, fault: &LineFault) {
    shared(entry);
    shared(digest);
    shared(fault);
}
