//! Operation numbers of the account database, by the methods' names (MS-SAMR 3.1.5).
ghost use Rattle.std.specs.Prelude.{◌≡◌};
ghost use Rattle.acct_codes.specs.Opnums.{samr_close_handle, samr_lookup_domain_in_sam_server};
ghost use Rattle.acct_codes.specs.Opnums.{samr_enumerate_domains_in_sam_server, samr_open_domain};
ghost use Rattle.acct_codes.specs.Opnums.{samr_query_information_domain, samr_set_information_domain};
ghost use Rattle.acct_codes.specs.Opnums.{samr_create_group_in_domain, samr_enumerate_groups_in_domain};
ghost use Rattle.acct_codes.specs.Opnums.{samr_create_user_in_domain, samr_enumerate_users_in_domain};
ghost use Rattle.acct_codes.specs.Opnums.{samr_create_alias_in_domain, samr_enumerate_aliases_in_domain};
ghost use Rattle.acct_codes.specs.Opnums.{samr_get_alias_membership, samr_lookup_names_in_domain};
ghost use Rattle.acct_codes.specs.Opnums.{samr_lookup_ids_in_domain, samr_open_group, samr_query_information_group};
ghost use Rattle.acct_codes.specs.Opnums.{samr_set_information_group, samr_add_member_to_group, samr_delete_group};
ghost use Rattle.acct_codes.specs.Opnums.{samr_remove_member_from_group, samr_get_members_in_group, samr_open_alias};
ghost use Rattle.acct_codes.specs.Opnums.{samr_query_information_alias, samr_set_information_alias};
ghost use Rattle.acct_codes.specs.Opnums.{samr_delete_alias, samr_add_member_to_alias, samr_remove_member_from_alias};
ghost use Rattle.acct_codes.specs.Opnums.{samr_get_members_in_alias, samr_open_user, samr_delete_user};
ghost use Rattle.acct_codes.specs.Opnums.{samr_query_information_user, samr_set_information_user};
ghost use Rattle.acct_codes.specs.Opnums.{samr_get_groups_for_user, samr_query_information_domain2};
ghost use Rattle.acct_codes.specs.Opnums.{samr_query_information_user2, samr_create_user2_in_domain, samr_connect2};
ghost use Rattle.acct_codes.specs.Opnums.{samr_set_information_user2, samr_connect4, samr_connect5, samr_rid_to_sid};
ghost use Rattle.acct_codes.specs.Opnums.{samr_query_display_information, samr_set_security_object};
ghost use Rattle.acct_codes.specs.Opnums.{samr_query_security_object};

/// SamrCloseHandle.
pub const SAMR_CLOSE_HANDLE: u16 = 1;
/// SamrSetSecurityObject.
pub const SAMR_SET_SECURITY_OBJECT: u16 = 2;
/// SamrQuerySecurityObject.
pub const SAMR_QUERY_SECURITY_OBJECT: u16 = 3;
/// SamrLookupDomainInSamServer.
pub const SAMR_LOOKUP_DOMAIN_IN_SAM_SERVER: u16 = 5;
/// SamrEnumerateDomainsInSamServer.
pub const SAMR_ENUMERATE_DOMAINS_IN_SAM_SERVER: u16 = 6;
/// SamrOpenDomain.
pub const SAMR_OPEN_DOMAIN: u16 = 7;
/// SamrQueryInformationDomain.
pub const SAMR_QUERY_INFORMATION_DOMAIN: u16 = 8;
/// SamrSetInformationDomain.
pub const SAMR_SET_INFORMATION_DOMAIN: u16 = 9;
/// SamrCreateGroupInDomain.
pub const SAMR_CREATE_GROUP_IN_DOMAIN: u16 = 10;
/// SamrEnumerateGroupsInDomain.
pub const SAMR_ENUMERATE_GROUPS_IN_DOMAIN: u16 = 11;
/// SamrCreateUserInDomain.
pub const SAMR_CREATE_USER_IN_DOMAIN: u16 = 12;
/// SamrEnumerateUsersInDomain.
pub const SAMR_ENUMERATE_USERS_IN_DOMAIN: u16 = 13;
/// SamrCreateAliasInDomain.
pub const SAMR_CREATE_ALIAS_IN_DOMAIN: u16 = 14;
/// SamrEnumerateAliasesInDomain.
pub const SAMR_ENUMERATE_ALIASES_IN_DOMAIN: u16 = 15;
/// SamrGetAliasMembership.
pub const SAMR_GET_ALIAS_MEMBERSHIP: u16 = 16;
/// SamrLookupNamesInDomain.
pub const SAMR_LOOKUP_NAMES_IN_DOMAIN: u16 = 17;
/// SamrLookupIdsInDomain.
pub const SAMR_LOOKUP_IDS_IN_DOMAIN: u16 = 18;
/// SamrOpenGroup.
pub const SAMR_OPEN_GROUP: u16 = 19;
/// SamrQueryInformationGroup.
pub const SAMR_QUERY_INFORMATION_GROUP: u16 = 20;
/// SamrSetInformationGroup.
pub const SAMR_SET_INFORMATION_GROUP: u16 = 21;
/// SamrAddMemberToGroup.
pub const SAMR_ADD_MEMBER_TO_GROUP: u16 = 22;
/// SamrDeleteGroup.
pub const SAMR_DELETE_GROUP: u16 = 23;
/// SamrRemoveMemberFromGroup.
pub const SAMR_REMOVE_MEMBER_FROM_GROUP: u16 = 24;
/// SamrGetMembersInGroup.
pub const SAMR_GET_MEMBERS_IN_GROUP: u16 = 25;
/// SamrOpenAlias.
pub const SAMR_OPEN_ALIAS: u16 = 27;
/// SamrQueryInformationAlias.
pub const SAMR_QUERY_INFORMATION_ALIAS: u16 = 28;
/// SamrSetInformationAlias.
pub const SAMR_SET_INFORMATION_ALIAS: u16 = 29;
/// SamrDeleteAlias.
pub const SAMR_DELETE_ALIAS: u16 = 30;
/// SamrAddMemberToAlias.
pub const SAMR_ADD_MEMBER_TO_ALIAS: u16 = 31;
/// SamrRemoveMemberFromAlias.
pub const SAMR_REMOVE_MEMBER_FROM_ALIAS: u16 = 32;
/// SamrGetMembersInAlias.
pub const SAMR_GET_MEMBERS_IN_ALIAS: u16 = 33;
/// SamrOpenUser.
pub const SAMR_OPEN_USER: u16 = 34;
/// SamrDeleteUser.
pub const SAMR_DELETE_USER: u16 = 35;
/// SamrQueryInformationUser.
pub const SAMR_QUERY_INFORMATION_USER: u16 = 36;
/// SamrSetInformationUser.
pub const SAMR_SET_INFORMATION_USER: u16 = 37;
/// SamrGetGroupsForUser.
pub const SAMR_GET_GROUPS_FOR_USER: u16 = 39;
/// SamrQueryDisplayInformation.
pub const SAMR_QUERY_DISPLAY_INFORMATION: u16 = 40;
/// SamrQueryInformationDomain2.
pub const SAMR_QUERY_INFORMATION_DOMAIN2: u16 = 46;
/// SamrQueryInformationUser2.
pub const SAMR_QUERY_INFORMATION_USER2: u16 = 47;
/// SamrCreateUser2InDomain.
pub const SAMR_CREATE_USER2_IN_DOMAIN: u16 = 50;
/// SamrConnect2.
pub const SAMR_CONNECT2: u16 = 57;
/// SamrSetInformationUser2.
pub const SAMR_SET_INFORMATION_USER2: u16 = 58;
/// SamrConnect4.
pub const SAMR_CONNECT4: u16 = 62;
/// SamrConnect5.
pub const SAMR_CONNECT5: u16 = 64;
/// SamrRidToSid.
pub const SAMR_RID_TO_SID: u16 = 65;

/// Each operation number of the account database is the one of the standard (MS-SAMR 3.1.5).
pub fn samr_opnums_are_the_standards()
    ensures close_handle { SAMR_CLOSE_HANDLE ≡ samr_close_handle }
    ensures set_security_object { SAMR_SET_SECURITY_OBJECT ≡ samr_set_security_object }
    ensures query_security_object { SAMR_QUERY_SECURITY_OBJECT ≡ samr_query_security_object }
    ensures lookup_domain { SAMR_LOOKUP_DOMAIN_IN_SAM_SERVER ≡ samr_lookup_domain_in_sam_server }
    ensures enumerate_domains { SAMR_ENUMERATE_DOMAINS_IN_SAM_SERVER ≡ samr_enumerate_domains_in_sam_server }
    ensures open_domain { SAMR_OPEN_DOMAIN ≡ samr_open_domain }
    ensures query_information_domain { SAMR_QUERY_INFORMATION_DOMAIN ≡ samr_query_information_domain }
    ensures set_information_domain { SAMR_SET_INFORMATION_DOMAIN ≡ samr_set_information_domain }
    ensures create_group_in_domain { SAMR_CREATE_GROUP_IN_DOMAIN ≡ samr_create_group_in_domain }
    ensures enumerate_groups_in_domain { SAMR_ENUMERATE_GROUPS_IN_DOMAIN ≡ samr_enumerate_groups_in_domain }
    ensures create_user_in_domain { SAMR_CREATE_USER_IN_DOMAIN ≡ samr_create_user_in_domain }
    ensures enumerate_users_in_domain { SAMR_ENUMERATE_USERS_IN_DOMAIN ≡ samr_enumerate_users_in_domain }
    ensures create_alias_in_domain { SAMR_CREATE_ALIAS_IN_DOMAIN ≡ samr_create_alias_in_domain }
    ensures enumerate_aliases_in_domain { SAMR_ENUMERATE_ALIASES_IN_DOMAIN ≡ samr_enumerate_aliases_in_domain }
    ensures get_alias_membership { SAMR_GET_ALIAS_MEMBERSHIP ≡ samr_get_alias_membership }
    ensures lookup_names_in_domain { SAMR_LOOKUP_NAMES_IN_DOMAIN ≡ samr_lookup_names_in_domain }
    ensures lookup_ids_in_domain { SAMR_LOOKUP_IDS_IN_DOMAIN ≡ samr_lookup_ids_in_domain }
    ensures open_group { SAMR_OPEN_GROUP ≡ samr_open_group }
    ensures query_information_group { SAMR_QUERY_INFORMATION_GROUP ≡ samr_query_information_group }
    ensures set_information_group { SAMR_SET_INFORMATION_GROUP ≡ samr_set_information_group }
    ensures add_member_to_group { SAMR_ADD_MEMBER_TO_GROUP ≡ samr_add_member_to_group }
    ensures delete_group { SAMR_DELETE_GROUP ≡ samr_delete_group }
    ensures remove_member_from_group { SAMR_REMOVE_MEMBER_FROM_GROUP ≡ samr_remove_member_from_group }
    ensures get_members_in_group { SAMR_GET_MEMBERS_IN_GROUP ≡ samr_get_members_in_group }
    ensures open_alias { SAMR_OPEN_ALIAS ≡ samr_open_alias }
    ensures query_information_alias { SAMR_QUERY_INFORMATION_ALIAS ≡ samr_query_information_alias }
    ensures set_information_alias { SAMR_SET_INFORMATION_ALIAS ≡ samr_set_information_alias }
    ensures delete_alias { SAMR_DELETE_ALIAS ≡ samr_delete_alias }
    ensures add_member_to_alias { SAMR_ADD_MEMBER_TO_ALIAS ≡ samr_add_member_to_alias }
    ensures remove_member_from_alias { SAMR_REMOVE_MEMBER_FROM_ALIAS ≡ samr_remove_member_from_alias }
    ensures get_members_in_alias { SAMR_GET_MEMBERS_IN_ALIAS ≡ samr_get_members_in_alias }
    ensures open_user { SAMR_OPEN_USER ≡ samr_open_user }
    ensures delete_user { SAMR_DELETE_USER ≡ samr_delete_user }
    ensures query_information_user { SAMR_QUERY_INFORMATION_USER ≡ samr_query_information_user }
    ensures set_information_user { SAMR_SET_INFORMATION_USER ≡ samr_set_information_user }
    ensures get_groups_for_user { SAMR_GET_GROUPS_FOR_USER ≡ samr_get_groups_for_user }
    ensures query_display_information { SAMR_QUERY_DISPLAY_INFORMATION ≡ samr_query_display_information }
    ensures query_information_domain2 { SAMR_QUERY_INFORMATION_DOMAIN2 ≡ samr_query_information_domain2 }
    ensures query_information_user2 { SAMR_QUERY_INFORMATION_USER2 ≡ samr_query_information_user2 }
    ensures create_user2_in_domain { SAMR_CREATE_USER2_IN_DOMAIN ≡ samr_create_user2_in_domain }
    ensures connect2 { SAMR_CONNECT2 ≡ samr_connect2 }
    ensures set_information_user2 { SAMR_SET_INFORMATION_USER2 ≡ samr_set_information_user2 }
    ensures connect4 { SAMR_CONNECT4 ≡ samr_connect4 }
    ensures connect5 { SAMR_CONNECT5 ≡ samr_connect5 }
    ensures rid_to_sid { SAMR_RID_TO_SID ≡ samr_rid_to_sid }
{}
