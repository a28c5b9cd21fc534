//! Why a quote could not be read.

/// What is wrong with the bytes: the first fault from left to right.
#[derive(Clone, Copy, Debug, PartialEq, Eq)]
pub enum AttestFault {
    /// The field that begins at this byte passes the end. A size and the bytes that it counts are
    /// two fields.
    Short(usize),
    /// The first number is not TPM_GENERATED_VALUE, so no TPM made this structure.
    Magic,
    /// The structure is not TPM_ST_ATTEST_QUOTE.
    AttestType,
    /// The byte for safe is neither 0 nor 1.
    Safe,
    /// Bytes stand behind the structure, which ends at this byte.
    Tail(usize),
}
