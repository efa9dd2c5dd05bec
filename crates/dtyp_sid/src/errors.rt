// Refusals.
use thiserror::Error;

/// Why an authority and sub-authorities are no SID.
#[derive(Clone, Copy, Debug, PartialEq, Eq, Error)]
pub enum SidError {
    /// There are more than 15 sub-authorities.
    #[error("there are more than 15 sub-authorities")]
    TooMany,
    /// The authority is 2^48 or more.
    #[error("the authority has more than 48 bits")]
    AuthorityRange,
}

/// A text that is no SID's.
#[derive(Clone, Copy, Debug, PartialEq, Eq, Error)]
#[error("no text of a SID goes on as this one does from byte {place} on")]
pub struct BadText {
    /// The length of the longest prefix of the text that begins the text of some SID.
    pub place: usize,
}

/// Why bytes begin with no SID.
#[derive(Clone, Copy, Debug, PartialEq, Eq, Error)]
pub enum BytesError {
    /// Fewer bytes are there than a SID has.
    #[error("there are fewer bytes than the SID has")]
    Short,
    /// The revision isn't 1.
    #[error("the revision of the SID isn't 1")]
    Revision,
    /// There are more than 15 sub-authorities.
    #[error("there are more than 15 sub-authorities")]
    Count,
}
