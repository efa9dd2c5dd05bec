//! Laws of SIDs, their texts and bytes, each the contract of a function that does nothing.
ghost use Rattle.std.specs.Prelude.{◌≡◌};
ghost use Rattle.dtyp_sid.specs.Sids.{sid_max_sub_authorities, sid_revision, WrittenBytesAreRead};
ghost use Rattle.dtyp_sid.specs.Sids.{WrittenBytesHaveLengths, ReadBytesAreWritten, EqualSidsAreOne};
ghost use Rattle.dtyp_sid.specs.Text.{TextsAreOfOne, WrittenTextsAreTexts, WrittenTextsDiffer};
ghost use Rattle.dtyp_sid.specs.Reading.{ReadTextsAreTexts};

use crate::{SID_MAX_SUB_AUTHORITIES, SID_REVISION};

/// A SID has as many sub-authorities as the standard lets it have, and the standard's revision.
pub fn limit_is_set()
    ensures most { SID_MAX_SUB_AUTHORITIES ≡ sid_max_sub_authorities }
    ensures revision { SID_REVISION ≡ sid_revision }
{}

/// No text is that of two SIDs.
pub fn texts_are_of_one()
    ensures { TextsAreOfOne }
{}

/// The written text of a SID is one of its texts.
pub fn written_texts_are_texts()
    ensures { WrittenTextsAreTexts }
{}

/// Two SIDs with one written text are one SID.
pub fn written_texts_differ()
    ensures { WrittenTextsDiffer }
{}

/// The function from texts to SIDs gives a SID exactly for its texts.
pub fn read_texts_are_texts()
    ensures { ReadTextsAreTexts }
{}

/// What is written is read as the same SID, whatever bytes follow.
pub fn written_bytes_are_read()
    ensures { WrittenBytesAreRead }
{}

/// A SID has eight written bytes, and four for each sub-authority.
pub fn written_bytes_have_lengths()
    ensures { WrittenBytesHaveLengths }
{}

/// What is read at the beginning of bytes is a SID, and the bytes begin with its written ones.
pub fn read_bytes_are_written()
    ensures { ReadBytesAreWritten }
{}

/// `==` holds, and the order answers `Equal`, exactly where two SIDs are one.
pub fn equal_sids_are_one()
    ensures { EqualSidsAreOne }
{}
