// The laws of the shapes, which callers cite by this function.
ghost use Rattle.std.specs.Prelude.{ℕ};
ghost use Rattle.ndr_core.specs.Parts.{whole};
ghost use Rattle.dtyp_sid.specs.Sids.{IsSid};
ghost use Rattle.ndr_types.specs.Listed.{any, rid_names, descriptor, descriptor_pointer, display_rows, privilege_names};
ghost use Rattle.acct_layouts.specs.Values.{IfThere, IsAccount, IsDomain, IsHandle, IsLong, IsPrivilegeSet, IsText};
ghost use Rattle.acct_layouts.specs.Values.{IsDisplayedGroup, IsDisplayedUser, IsSidRef, IsSmall, IsTranslatedName};
ghost use Rattle.acct_layouts.specs.Values.{IsTranslatedSid};
ghost use Rattle.ndr_types.specs.Translations.{referenced, flagged_names, flagged_sids, sid_refs, translated_names};
ghost use Rattle.ndr_types.specs.Translations.{translated_sids};
ghost use Rattle.ndr_types.specs.Values.{handle, rid_list, sid_list, text_list, privilege_set_pointer, text_pointer};
ghost use Rattle.ndr_types.specs.Values.{privilege_set, sid, text};
ghost use Rattle.acct_layouts.specs.declared.classes.DisplayArm.TheVariants as display;
ghost use Rattle.ndr_types.specs.Laws.{IsLawfulShape, IsListOf};

/// Of each shape all laws, with the kind of its values: a value is read exactly where it is spelled, with any padding
/// and any referents but 0; what is written is read again, whatever stands before and after it; no stub has two
/// readings; what some stub spells can be written; and reading goes onward.
pub fn shapes_are_lawful()
    ensures handles { IsLawfulShape handle IsHandle }
    ensures texts { IsLawfulShape (whole text) IsText }
    ensures sids { IsLawfulShape sid IsSid }
    ensures sid_lists { (most : ℕ) → IsLawfulShape (sid_list most) (IsListOf most IsSid) }
    ensures rid_lists { (most : ℕ) → IsLawfulShape (rid_list most) (IsListOf most IsLong) }
    ensures text_lists { (most : ℕ) → IsLawfulShape (text_list most) (IsListOf most IsText) }
    ensures privileges { IsLawfulShape privilege_set IsPrivilegeSet }
    ensures accounts { IsLawfulShape rid_names (IfThere (IsListOf any IsAccount)) }
    ensures domains { IsLawfulShape referenced (IfThere (IsListOf any IsDomain)) }
    ensures translated_sids { (most : ℕ) → IsLawfulShape (translated_sids most) (IsListOf most IsTranslatedSid) }
    ensures translated_names { (most : ℕ) → IsLawfulShape (translated_names most) (IsListOf most IsTranslatedName) }
    ensures flagged_sids { (most : ℕ) → IsLawfulShape (flagged_sids most) (IsListOf most IsTranslatedSid) }
    ensures flagged_names { (most : ℕ) → IsLawfulShape (flagged_names most) (IsListOf most IsTranslatedName) }
    ensures sid_refs { (most : ℕ) → IsLawfulShape (sid_refs most) (IsListOf most IsSidRef) }
    ensures displayed_users { IsLawfulShape (display_rows display.User) (IsListOf any IsDisplayedUser) }
    ensures displayed_groups { IsLawfulShape (display_rows display.Group) (IsListOf any IsDisplayedGroup) }
    ensures privilege_names { IsLawfulShape privilege_names (IsListOf any IsAccount) }
    ensures text_pointers { IsLawfulShape text_pointer (IfThere IsText) }
    ensures descriptors { (most : ℕ) → IsLawfulShape (descriptor most) (IsListOf most IsSmall) }
    ensures descriptor_pointers { IsLawfulShape descriptor_pointer (IfThere (IsListOf any IsSmall)) }
    ensures privilege_pointers { IsLawfulShape privilege_set_pointer (IfThere IsPrivilegeSet) }
{}
