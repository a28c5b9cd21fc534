//! Records may go from one thread to another and be shared by several.

use crate::record::Record;

fn shared<T: Sync + Send>(_value: &T) {}

/// Is proved only where a record is Send and Sync.
pub(crate) fn records_are_shared(record: &Record) {
    shared(record);
}
