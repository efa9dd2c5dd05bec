//! Operation numbers of the policy, by the methods' names (MS-LSAD 3.1.4, MS-LSAT 3.1.4).
ghost use Rattle.std.specs.Prelude.{◌≡◌};
ghost use Rattle.acct_codes.specs.Opnums.{lsar_close, lsar_enumerate_privileges, lsar_query_information_policy};
ghost use Rattle.acct_codes.specs.Opnums.{lsar_create_account, lsar_enumerate_accounts, lsar_lookup_names};
ghost use Rattle.acct_codes.specs.Opnums.{lsar_lookup_sids, lsar_open_account, lsar_enumerate_privileges_account};
ghost use Rattle.acct_codes.specs.Opnums.{lsar_add_privileges_to_account, lsar_remove_privileges_from_account};
ghost use Rattle.acct_codes.specs.Opnums.{lsar_get_system_access_account, lsar_set_system_access_account};
ghost use Rattle.acct_codes.specs.Opnums.{lsar_lookup_privilege_value, lsar_lookup_privilege_name};
ghost use Rattle.acct_codes.specs.Opnums.{lsar_delete_object, lsar_enumerate_accounts_with_user_right};
ghost use Rattle.acct_codes.specs.Opnums.{lsar_enumerate_account_rights, lsar_add_account_rights};
ghost use Rattle.acct_codes.specs.Opnums.{lsar_remove_account_rights, lsar_open_policy2};
ghost use Rattle.acct_codes.specs.Opnums.{lsar_query_information_policy2, lsar_lookup_sids2, lsar_lookup_names2};
ghost use Rattle.acct_codes.specs.Opnums.{lsar_lookup_names3, lsar_query_security_object, lsar_set_security_object};

/// LsarClose.
pub const LSAR_CLOSE: u16 = 0;
/// LsarEnumeratePrivileges.
pub const LSAR_ENUMERATE_PRIVILEGES: u16 = 2;
/// LsarQuerySecurityObject.
pub const LSAR_QUERY_SECURITY_OBJECT: u16 = 3;
/// LsarSetSecurityObject.
pub const LSAR_SET_SECURITY_OBJECT: u16 = 4;
/// LsarQueryInformationPolicy.
pub const LSAR_QUERY_INFORMATION_POLICY: u16 = 7;
/// LsarCreateAccount.
pub const LSAR_CREATE_ACCOUNT: u16 = 10;
/// LsarEnumerateAccounts.
pub const LSAR_ENUMERATE_ACCOUNTS: u16 = 11;
/// LsarLookupNames.
pub const LSAR_LOOKUP_NAMES: u16 = 14;
/// LsarLookupSids.
pub const LSAR_LOOKUP_SIDS: u16 = 15;
/// LsarOpenAccount.
pub const LSAR_OPEN_ACCOUNT: u16 = 17;
/// LsarEnumeratePrivilegesAccount.
pub const LSAR_ENUMERATE_PRIVILEGES_ACCOUNT: u16 = 18;
/// LsarAddPrivilegesToAccount.
pub const LSAR_ADD_PRIVILEGES_TO_ACCOUNT: u16 = 19;
/// LsarRemovePrivilegesFromAccount.
pub const LSAR_REMOVE_PRIVILEGES_FROM_ACCOUNT: u16 = 20;
/// LsarGetSystemAccessAccount.
pub const LSAR_GET_SYSTEM_ACCESS_ACCOUNT: u16 = 23;
/// LsarSetSystemAccessAccount.
pub const LSAR_SET_SYSTEM_ACCESS_ACCOUNT: u16 = 24;
/// LsarLookupPrivilegeValue.
pub const LSAR_LOOKUP_PRIVILEGE_VALUE: u16 = 31;
/// LsarLookupPrivilegeName.
pub const LSAR_LOOKUP_PRIVILEGE_NAME: u16 = 32;
/// LsarDeleteObject.
pub const LSAR_DELETE_OBJECT: u16 = 34;
/// LsarEnumerateAccountsWithUserRight.
pub const LSAR_ENUMERATE_ACCOUNTS_WITH_USER_RIGHT: u16 = 35;
/// LsarEnumerateAccountRights.
pub const LSAR_ENUMERATE_ACCOUNT_RIGHTS: u16 = 36;
/// LsarAddAccountRights.
pub const LSAR_ADD_ACCOUNT_RIGHTS: u16 = 37;
/// LsarRemoveAccountRights.
pub const LSAR_REMOVE_ACCOUNT_RIGHTS: u16 = 38;
/// LsarOpenPolicy2.
pub const LSAR_OPEN_POLICY2: u16 = 44;
/// LsarQueryInformationPolicy2.
pub const LSAR_QUERY_INFORMATION_POLICY2: u16 = 46;
/// LsarLookupSids2.
pub const LSAR_LOOKUP_SIDS2: u16 = 57;
/// LsarLookupNames2.
pub const LSAR_LOOKUP_NAMES2: u16 = 58;
/// LsarLookupNames3.
pub const LSAR_LOOKUP_NAMES3: u16 = 68;

/// Each operation number of the policy is the one of the standards (MS-LSAD 3.1.4, MS-LSAT 3.1.4).
pub fn lsa_opnums_are_the_standards()
    ensures close { LSAR_CLOSE ≡ lsar_close }
    ensures enumerate_privileges { LSAR_ENUMERATE_PRIVILEGES ≡ lsar_enumerate_privileges }
    ensures query_security_object { LSAR_QUERY_SECURITY_OBJECT ≡ lsar_query_security_object }
    ensures set_security_object { LSAR_SET_SECURITY_OBJECT ≡ lsar_set_security_object }
    ensures query_information_policy { LSAR_QUERY_INFORMATION_POLICY ≡ lsar_query_information_policy }
    ensures create_account { LSAR_CREATE_ACCOUNT ≡ lsar_create_account }
    ensures enumerate_accounts { LSAR_ENUMERATE_ACCOUNTS ≡ lsar_enumerate_accounts }
    ensures lookup_names { LSAR_LOOKUP_NAMES ≡ lsar_lookup_names }
    ensures lookup_sids { LSAR_LOOKUP_SIDS ≡ lsar_lookup_sids }
    ensures open_account { LSAR_OPEN_ACCOUNT ≡ lsar_open_account }
    ensures enumerate_privileges_account { LSAR_ENUMERATE_PRIVILEGES_ACCOUNT ≡ lsar_enumerate_privileges_account }
    ensures add_privileges_to_account { LSAR_ADD_PRIVILEGES_TO_ACCOUNT ≡ lsar_add_privileges_to_account }
    ensures remove_privileges { LSAR_REMOVE_PRIVILEGES_FROM_ACCOUNT ≡ lsar_remove_privileges_from_account }
    ensures get_system_access_account { LSAR_GET_SYSTEM_ACCESS_ACCOUNT ≡ lsar_get_system_access_account }
    ensures set_system_access_account { LSAR_SET_SYSTEM_ACCESS_ACCOUNT ≡ lsar_set_system_access_account }
    ensures lookup_privilege_value { LSAR_LOOKUP_PRIVILEGE_VALUE ≡ lsar_lookup_privilege_value }
    ensures lookup_privilege_name { LSAR_LOOKUP_PRIVILEGE_NAME ≡ lsar_lookup_privilege_name }
    ensures delete_object { LSAR_DELETE_OBJECT ≡ lsar_delete_object }
    ensures accounts_with_right { LSAR_ENUMERATE_ACCOUNTS_WITH_USER_RIGHT ≡ lsar_enumerate_accounts_with_user_right }
    ensures enumerate_account_rights { LSAR_ENUMERATE_ACCOUNT_RIGHTS ≡ lsar_enumerate_account_rights }
    ensures add_account_rights { LSAR_ADD_ACCOUNT_RIGHTS ≡ lsar_add_account_rights }
    ensures remove_account_rights { LSAR_REMOVE_ACCOUNT_RIGHTS ≡ lsar_remove_account_rights }
    ensures open_policy2 { LSAR_OPEN_POLICY2 ≡ lsar_open_policy2 }
    ensures query_information_policy2 { LSAR_QUERY_INFORMATION_POLICY2 ≡ lsar_query_information_policy2 }
    ensures lookup_sids2 { LSAR_LOOKUP_SIDS2 ≡ lsar_lookup_sids2 }
    ensures lookup_names2 { LSAR_LOOKUP_NAMES2 ≡ lsar_lookup_names2 }
    ensures lookup_names3 { LSAR_LOOKUP_NAMES3 ≡ lsar_lookup_names3 }
{}
