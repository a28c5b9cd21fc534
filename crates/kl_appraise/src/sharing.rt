//! Terms and what an appraisal finds may go from one thread to another and be shared by several.

use crate::fault::{AppraiseError, TermsFault};
use crate::judged::Judged;
use crate::kept::Found;
use crate::shared_terms::SharedTerms;

fn shared<T: Sync + Send>(_value: &T) {}

/// Is proved only where each of these types is Send and Sync.
pub(crate) fn all_shared(
    terms: &SharedTerms,
    judged: &Judged,
    found: &Found,
    fault: &TermsFault,
    error: &AppraiseError,
) {
    shared(terms);
    shared(terms.terms());
    shared(judged);
    shared(found);
    shared(fault);
    shared(error);
}
