//! Laws of the access check and of descriptors, each the contract of a function that does nothing.
ghost use Rattle.dtyp_access.specs.Laws.{MoreSidsGetNoLess, GrantsAreValid, MaximumGrantsAll, NothingIsGranted};
ghost use Rattle.dtyp_access.specs.Spelled.{ReadPartsSpell, ReadBytesSpell, WrittenBytesSpell, WrittenPartsAreRead};
ghost use Rattle.dtyp_access.specs.Spelled.{WrittenBytesAreRead, ReadPartsAreParts, WrittenAreBytes};

/// A token with more SIDs is granted no less where no entry denies.
pub fn more_sids_get_no_less()
    ensures { MoreSidsGetNoLess }
{}

/// What an opening grants lies within the rights of the kind.
pub fn grants_are_valid()
    ensures { GrantsAreValid }
{}

/// An opening that asks for the maximum grants all that any other opening would.
pub fn maximum_grants_all()
    ensures { MaximumGrantsAll }
{}

/// An opening that asks for nothing grants nothing, and is never refused.
pub fn nothing_is_granted()
    ensures { NothingIsGranted }
{}

/// Parts are read exactly from the bytes that spell them.
pub fn read_parts_spell()
    ensures { ReadPartsSpell }
{
    dtyp_sid::laws::written_bytes_are_read();
    dtyp_sid::laws::read_bytes_are_written();
}

/// Parts that are read keep the limits of their parts, where their list has at most 800 entries.
pub fn read_parts_are_parts()
    ensures { ReadPartsAreParts }
{
    read_parts_spell();
}

/// What is written are bytes, fewer than 2^16.
pub fn written_are_bytes()
    ensures { WrittenAreBytes }
{
    dtyp_sid::laws::written_bytes_have_lengths();
}

/// A descriptor is read exactly from the bytes that spell it.
pub fn read_bytes_spell()
    ensures { ReadBytesSpell }
{
    dtyp_sid::laws::written_bytes_are_read();
    dtyp_sid::laws::read_bytes_are_written();
}

/// The written bytes spell the parts, those of a descriptor among them, whatever bytes follow.
pub fn written_bytes_spell()
    ensures { WrittenBytesSpell }
{
    dtyp_sid::laws::written_bytes_have_lengths();
}

/// What is written is read as the same parts, whatever bytes follow.
pub fn written_parts_are_read()
    ensures { WrittenPartsAreRead }
{
    written_bytes_spell();
    dtyp_sid::laws::written_bytes_are_read();
}

/// What is written is read as the same descriptor, whatever bytes follow.
pub fn written_bytes_are_read()
    ensures { WrittenBytesAreRead }
{
    written_bytes_spell();
    dtyp_sid::laws::written_bytes_are_read();
}
