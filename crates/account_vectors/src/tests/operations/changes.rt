// Accounts of the policy that are created, opened, changed and deleted: what is refused, and what is planned.
/// An account has a SID, its system access, and its privileges with their attributes. Privileges as arguments have the
/// two parts of their LUID and their attributes.
pub const ACCOUNTS: &str = "\
|LsarCreateAccount|policy|AccessSid,16,S-1-5-18\
    |0 Handle Handle 0 puts [ Lsa S-1-5-18 0 [ ] ] removes [ ] Opens Account S-1-5-18 16
lsa,S-1-1-0,1,2/0|LsarCreateAccount|policy|AccessSid,0,S-1-5-18\
    |0 Handle Handle 0 puts [ Lsa S-1-5-18 0 [ ] ] removes [ ] Opens Account S-1-5-18 0
lsa,S-1-5-18,1,2/0|LsarCreateAccount|policy|AccessSid,16,S-1-5-18|c0000035 Nothing
lsa,S-1-5-18,1,2/0|LsarOpenAccount|policy|AccessSid,1,S-1-5-18\
    |0 Handle Handle 0 puts [ ] removes [ ] Opens Account S-1-5-18 1
lsa,S-1-5-18,1,2/0|LsarOpenAccount|policy|AccessSid,1,S-1-1-0|c0000034 Nothing
|LsarOpenAccount|policy|AccessSid,1,S-1-5-21-1-2-3-500|c0000034 Nothing
lsa,S-1-5-18,1,2/0;lsa,S-1-1-0,1|LsarDeleteObject|account,S-1-5-18|Nothing\
    |0 Handle Handle 0 puts [ ] removes [ Desc Account S-1-5-18 Lsa S-1-5-18 ] Deletes Account S-1-5-18
lsa,S-1-5-18,1,5/1|LsarSetSystemAccessAccount|account,S-1-5-18|Bits,4055\
    |0 Nothing puts [ Lsa S-1-5-18 4055 [ 5 1 ] ] removes [ ] Nothing
lsa,S-1-5-18,1,5/1|LsarSetSystemAccessAccount|account,S-1-5-18|Bits,16\
    |0 Nothing puts [ Lsa S-1-5-18 16 [ 5 1 ] ] removes [ ] Nothing
lsa,S-1-5-18,1,5/1|LsarSetSystemAccessAccount|account,S-1-5-18|Bits,0\
    |0 Nothing puts [ Lsa S-1-5-18 0 [ 5 1 ] ] removes [ ] Nothing
lsa,S-1-5-18,1,5/1|LsarSetSystemAccessAccount|account,S-1-5-18|Bits,8|c000000d Nothing
lsa,S-1-5-18,1,5/1|LsarSetSystemAccessAccount|account,S-1-5-18|Bits,32|c000000d Nothing
lsa,S-1-5-18,1,5/1|LsarSetSystemAccessAccount|account,S-1-5-18|Bits,4096|c000000d Nothing
lsa,S-1-5-18,1,5/1|LsarSetSystemAccessAccount|account,S-1-5-18|Bits,17\
    |0 Nothing puts [ Lsa S-1-5-18 17 [ 5 1 ] ] removes [ ] Nothing
lsa,S-1-5-18,1,5/1|LsarSetSystemAccessAccount|account,S-1-5-18|Bits,25|c000000d Nothing
lsa,S-1-5-18,1,5/1|LsarSetSystemAccessAccount|account,S-1-5-18|Bits,2147483649|c000000d Nothing
lsa,S-1-5-18,1,5/1|LsarSetSystemAccessAccount|account,S-1-5-18|Bits,4294967295|c000000d Nothing
+|LsarGetSystemAccessAccount|account,S-1-5-18|Nothing|0 Bits 1";

/// Privileges that are added and taken away by their LUIDs.
pub const PRIVILEGES: &str = "\
lsa,S-1-5-18,0|LsarAddPrivilegesToAccount|account,S-1-5-18|Privileges,set,17/0/3\
    |0 Nothing puts [ Lsa S-1-5-18 0 [ 17 3 ] ] removes [ ] Nothing
lsa,S-1-5-18,1,5/1,17/2|LsarAddPrivilegesToAccount|account,S-1-5-18|Privileges,set,9/0/0,17/0/3,9/0/4\
    |0 Nothing puts [ Lsa S-1-5-18 1 [ 5 1 9 4 17 3 ] ] removes [ ] Nothing
lsa,S-1-5-18,1,5/1,17/2|LsarAddPrivilegesToAccount|account,S-1-5-18|Privileges,set,30/0/0,2/0/4294967295\
    |0 Nothing puts [ Lsa S-1-5-18 1 [ 2 4294967295 5 1 17 2 30 0 ] ] removes [ ] Nothing
lsa,S-1-5-18,1,5/1,17/2|LsarAddPrivilegesToAccount|account,S-1-5-18|Privileges,set\
    |0 Nothing puts [ Lsa S-1-5-18 1 [ 5 1 17 2 ] ] removes [ ] Nothing
lsa,S-1-5-18,1,5/1|LsarAddPrivilegesToAccount|account,S-1-5-18|Privileges,set,17/1/0|c0000060 Nothing
+|LsarAddPrivilegesToAccount|account,S-1-5-18|Privileges,set,0/0/0|c0000060 Nothing
+|LsarAddPrivilegesToAccount|account,S-1-5-18|Privileges,set,1/0/0|c0000060 Nothing
+|LsarAddPrivilegesToAccount|account,S-1-5-18|Privileges,set,31/0/0|c0000060 Nothing
+|LsarAddPrivilegesToAccount|account,S-1-5-18|Privileges,set,9/0/0,31/0/0|c0000060 Nothing
+|LsarAddPrivilegesToAccount|account,S-1-5-18|Privileges,set,31/0/0,9/0/0|c0000060 Nothing
+|LsarAddPrivilegesToAccount|account,S-1-5-18|Privileges,set,5/0/7,5/4294967295/0|c0000060 Nothing
+|LsarEnumeratePrivilegesAccount|account,S-1-5-18|Nothing|0 Privileges Some [ 5 0 1 ]
lsa,S-1-5-18,1,5/1,17/2|LsarRemovePrivilegesFromAccount|account,S-1-5-18|Privileges,all\
    |0 Nothing puts [ Lsa S-1-5-18 1 [ ] ] removes [ ] Nothing
lsa,S-1-5-18,1,5/1,17/2|LsarRemovePrivilegesFromAccount|account,S-1-5-18|Privileges,set,5/0/0,9/0/0\
    |0 Nothing puts [ Lsa S-1-5-18 1 [ 17 2 ] ] removes [ ] Nothing
lsa,S-1-5-18,1,5/1,17/2|LsarRemovePrivilegesFromAccount|account,S-1-5-18|Privileges,set,17/0/0,5/0/9,17/0/0\
    |0 Nothing puts [ Lsa S-1-5-18 1 [ ] ] removes [ ] Nothing
lsa,S-1-5-18,1,5/1,17/2|LsarRemovePrivilegesFromAccount|account,S-1-5-18|Privileges,set,9/0/0\
    |0 Nothing puts [ Lsa S-1-5-18 1 [ 5 1 17 2 ] ] removes [ ] Nothing
lsa,S-1-5-18,1,5/1,17/2|LsarRemovePrivilegesFromAccount|account,S-1-5-18|Privileges,set\
    |0 Nothing puts [ Lsa S-1-5-18 1 [ 5 1 17 2 ] ] removes [ ] Nothing
lsa,S-1-5-18,1|LsarRemovePrivilegesFromAccount|account,S-1-5-18|Privileges,all\
    |0 Nothing puts [ Lsa S-1-5-18 1 [ ] ] removes [ ] Nothing
lsa,S-1-5-18,1,5/1|LsarRemovePrivilegesFromAccount|account,S-1-5-18|Privileges,both|c000000d Nothing
+|LsarRemovePrivilegesFromAccount|account,S-1-5-18|Privileges,both,5/0/0|c000000d Nothing
+|LsarRemovePrivilegesFromAccount|account,S-1-5-18|Privileges,both,31/0/0|c000000d Nothing
+|LsarRemovePrivilegesFromAccount|account,S-1-5-18|Privileges,neither|c000000d Nothing
+|LsarRemovePrivilegesFromAccount|account,S-1-5-18|Privileges,set,5/0/0,31/0/0|c0000060 Nothing
+|LsarRemovePrivilegesFromAccount|account,S-1-5-18|Privileges,set,1/0/0,5/0/0|c0000060 Nothing
+|LsarRemovePrivilegesFromAccount|account,S-1-5-18|Privileges,set,5/1/0|c0000060 Nothing
+|LsarEnumeratePrivilegesAccount|account,S-1-5-18|Nothing|0 Privileges Some [ 5 0 1 ]";

/// Rights that are added and taken away by their names; both ask for an opening with ACCOUNT_ADJUST_PRIVILEGES and
/// ACCOUNT_ADJUST_SYSTEM_ACCESS, 10.
pub const RIGHTS: &str = "\
|LsarAddAccountRights|policy|Rights,some,S-1-5-21-1-2-3-1000,SeServiceLogonRight,SeBackupPrivilege\
    |0 Nothing puts [ Lsa S-1-5-21-1-2-3-1000 16 [ 17 0 ] ] removes [ ] Checks Account S-1-5-21-1-2-3-1000 10
+|LsarEnumerateAccountRights|policy|OneSid,S-1-5-21-1-2-3-1000\
    |0 NameList [ 'SeBackupPrivilege' 'SeServiceLogonRight' ] puts [ ] removes [ ] Checks Account S-1-5-21-1-2-3-1000 1
+|LsarGetSystemAccessAccount|account,S-1-5-21-1-2-3-1000|Nothing|0 Bits 16
lsa,S-1-5-18,1,5/1,17/2|LsarAddAccountRights|policy|Rights,some,S-1-5-18,SeBackupPrivilege,seBATCHlogonright\
    |0 Nothing puts [ Lsa S-1-5-18 5 [ 5 1 17 2 ] ] removes [ ] Checks Account S-1-5-18 10
lsa,S-1-1-0,2|LsarAddAccountRights|policy|Rights,some,S-1-5-18,\u{17F}eTCBprivilege,SeTcbPrivilege\
    |0 Nothing puts [ Lsa S-1-5-18 0 [ 7 0 ] ] removes [ ] Checks Account S-1-5-18 10
lsa,S-1-5-18,4055,17/2|LsarAddAccountRights|policy\
    |Rights,some,S-1-5-18,SeDenyBatchLogonRight,SeAuditPrivilege,SeTcbPrivilege\
    |0 Nothing puts [ Lsa S-1-5-18 4055 [ 7 0 17 2 21 0 ] ] removes [ ] Checks Account S-1-5-18 10
|LsarAddAccountRights|policy|Rights,some,S-1-5-18\
    |0 Nothing puts [ Lsa S-1-5-18 0 [ ] ] removes [ ] Checks Account S-1-5-18 10
|LsarAddAccountRights|policy|Rights,some,S-1-5-18,SeNoPrivilege|c0000060 Nothing
+|LsarAddAccountRights|policy|Rights,some,S-1-5-18,SeBackupPrivilege,SeNoPrivilege|c0000060 Nothing
+|LsarAddAccountRights|policy|Rights,some,S-1-5-18,SeNoPrivilege,SeBatchLogonRight|c0000060 Nothing
+|LsarAddAccountRights|policy|Rights,some,S-1-5-18,|c0000060 Nothing
+|LsarEnumerateAccounts|policy|Page,0,0,65536|8000001a SidPage 0 [ ]
lsa,S-1-5-18,1,17/2|LsarAddAccountRights|policy|Rights,some,S-1-5-18,SeTcbPrivilege,SeBackup|c0000060 Nothing
+|LsarEnumerateAccountRights|policy|OneSid,S-1-5-18|0 NameList [ 'SeBackupPrivilege' 'SeInteractiveLogonRight' ] \
    puts [ ] removes [ ] Checks Account S-1-5-18 1
+|LsarEnumeratePrivilegesAccount|account,S-1-5-18|Nothing|0 Privileges Some [ 17 0 2 ]
lsa,S-1-5-18,21,5/1,17/2|LsarRemoveAccountRights|policy|Rights,some,S-1-5-18,SeBackupPrivilege,SeServiceLogonRight\
    |0 Nothing puts [ Lsa S-1-5-18 5 [ 5 1 ] ] removes [ ] Checks Account S-1-5-18 10
lsa,S-1-5-18,21,5/1|LsarRemoveAccountRights|policy|Rights,some,S-1-5-18,SeNetworkLogonRight,SeTcbPrivilege\
    |0 Nothing puts [ Lsa S-1-5-18 21 [ 5 1 ] ] removes [ ] Checks Account S-1-5-18 10
lsa,S-1-5-18,21,5/1|LsarRemoveAccountRights|policy|Rights,some,S-1-5-18\
    |0 Nothing puts [ Lsa S-1-5-18 21 [ 5 1 ] ] removes [ ] Checks Account S-1-5-18 10
lsa,S-1-5-18,21,5/1|LsarRemoveAccountRights|policy\
    |Rights,some,S-1-5-18,SEINCREASEQUOTAPRIVILEGE,seInteractiveLogonRight\
    |0 Nothing puts [ Lsa S-1-5-18 20 [ ] ] removes [ ] Checks Account S-1-5-18 10
lsa,S-1-5-18,21,5/1,17/2|LsarRemoveAccountRights|policy|Rights,all,S-1-5-18\
    |0 Nothing puts [ Lsa S-1-5-18 0 [ ] ] removes [ ] Checks Account S-1-5-18 10
lsa,S-1-5-18,21,5/1,17/2|LsarRemoveAccountRights|policy|Rights,all,S-1-5-18,SeBackupPrivilege\
    |0 Nothing puts [ Lsa S-1-5-18 0 [ ] ] removes [ ] Checks Account S-1-5-18 10
lsa,S-1-5-18,21,5/1|LsarRemoveAccountRights|policy|Rights,all,S-1-5-18,SeNoPrivilege|c0000060 Nothing
+|LsarRemoveAccountRights|policy|Rights,some,S-1-5-18,SeNoPrivilege|c0000060 Nothing
+|LsarRemoveAccountRights|policy|Rights,some,S-1-5-18,SeIncreaseQuotaPrivilege,SeNoPrivilege|c0000060 Nothing
+|LsarRemoveAccountRights|policy|Rights,some,S-1-1-0,SeIncreaseQuotaPrivilege|c0000034 Nothing
+|LsarRemoveAccountRights|policy|Rights,some,S-1-1-0,SeNoPrivilege|c0000034 Nothing
+|LsarRemoveAccountRights|policy|Rights,all,S-1-1-0|c0000034 Nothing
+|LsarEnumerateAccountRights|policy|OneSid,S-1-5-18|0 NameList [ 'SeIncreaseQuotaPrivilege' 'SeInteractiveLogonRight' \
    'SeBatchLogonRight' 'SeServiceLogonRight' ] puts [ ] removes [ ] Checks Account S-1-5-18 1";

/// The life of an account, from none to none, beside another one.
pub const LIFE: &str = "\
|LsarCreateAccount|policy|AccessSid,15,S-1-5-18\
    |0 Handle Handle 0 puts [ Lsa S-1-5-18 0 [ ] ] removes [ ] Opens Account S-1-5-18 15
+|LsarCreateAccount|policy|AccessSid,15,S-1-5-18|c0000035 Nothing
+|LsarEnumerateAccountRights|policy|OneSid,S-1-5-18|0 NameList [ ] puts [ ] removes [ ] Checks Account S-1-5-18 1
+|LsarAddAccountRights|policy|Rights,some,S-1-5-18,SeTcbPrivilege,SeBatchLogonRight\
    |0 Nothing puts [ Lsa S-1-5-18 4 [ 7 0 ] ] removes [ ] Checks Account S-1-5-18 10
+|LsarAddPrivilegesToAccount|account,S-1-5-18|Privileges,set,7/0/3,2/0/1\
    |0 Nothing puts [ Lsa S-1-5-18 4 [ 2 1 7 3 ] ] removes [ ] Nothing
+|LsarAddAccountRights|policy|Rights,some,S-1-5-18,SeTcbPrivilege\
    |0 Nothing puts [ Lsa S-1-5-18 4 [ 2 1 7 3 ] ] removes [ ] Checks Account S-1-5-18 10
+|LsarSetSystemAccessAccount|account,S-1-5-18|Bits,17|0 Nothing puts [ Lsa S-1-5-18 17 [ 2 1 7 3 ] ] removes [ ] Nothing
+|LsarAddAccountRights|policy|Rights,some,S-1-1-0,SeAuditPrivilege\
    |0 Nothing puts [ Lsa S-1-1-0 0 [ 21 0 ] ] removes [ ] Checks Account S-1-1-0 10
+|LsarEnumerateAccounts|policy|Page,0,0,65536|0 SidPage 2 [ S-1-1-0 S-1-5-18 ]
+|LsarEnumerateAccountsWithUserRight|policy|OneName,SeTcbPrivilege|0 SidList [ S-1-5-18 ]
+|LsarRemoveAccountRights|policy|Rights,some,S-1-5-18,SeServiceLogonRight\
    |0 Nothing puts [ Lsa S-1-5-18 1 [ 2 1 7 3 ] ] removes [ ] Checks Account S-1-5-18 10
+|LsarRemovePrivilegesFromAccount|account,S-1-5-18|Privileges,set,2/0/0\
    |0 Nothing puts [ Lsa S-1-5-18 1 [ 7 3 ] ] removes [ ] Nothing
+|LsarEnumerateAccountRights|policy|OneSid,S-1-5-18|0 NameList [ 'SeTcbPrivilege' 'SeInteractiveLogonRight' ] \
    puts [ ] removes [ ] Checks Account S-1-5-18 1
+|LsarRemoveAccountRights|policy|Rights,all,S-1-5-18\
    |0 Nothing puts [ Lsa S-1-5-18 0 [ ] ] removes [ ] Checks Account S-1-5-18 10
+|LsarOpenAccount|policy|AccessSid,33554432,S-1-5-18\
    |0 Handle Handle 0 puts [ ] removes [ ] Opens Account S-1-5-18 33554432
+|LsarDeleteObject|account,S-1-5-18|Nothing\
    |0 Handle Handle 0 puts [ ] removes [ Desc Account S-1-5-18 Lsa S-1-5-18 ] Deletes Account S-1-5-18
+|LsarOpenAccount|policy|AccessSid,0,S-1-5-18|c0000034 Nothing
+|LsarEnumerateAccountRights|policy|OneSid,S-1-5-18|c0000034 Nothing
+|LsarRemoveAccountRights|policy|Rights,some,S-1-5-18,SeTcbPrivilege|c0000034 Nothing
+|LsarEnumerateAccounts|policy|Page,0,0,65536|0 SidPage 1 [ S-1-1-0 ]
+|LsarDeleteObject|account,S-1-1-0|Nothing\
    |0 Handle Handle 0 puts [ ] removes [ Desc Account S-1-1-0 Lsa S-1-1-0 ] Deletes Account S-1-1-0
+|LsarEnumerateAccounts|policy|Page,0,0,65536|8000001a SidPage 0 [ ]
+|LsarCreateAccount|policy|AccessSid,0,S-1-5-18\
    |0 Handle Handle 0 puts [ Lsa S-1-5-18 0 [ ] ] removes [ ] Opens Account S-1-5-18 0";

/// A right is added, told and taken away: `RIGHT` is its name, and `HELD` what an account has that has it alone.
pub const ONE_RIGHT: &str = "\
|LsarAddAccountRights|policy|Rights,some,S-1-5-18,RIGHT\
    |0 Nothing puts [ Lsa S-1-5-18 HELD ] removes [ ] Checks Account S-1-5-18 10
+|LsarEnumerateAccountRights|policy|OneSid,S-1-5-18\
    |0 NameList [ 'RIGHT' ] puts [ ] removes [ ] Checks Account S-1-5-18 1
+|LsarEnumerateAccountsWithUserRight|policy|OneName,RIGHT|0 SidList [ S-1-5-18 ]
+|LsarRemoveAccountRights|policy|Rights,some,S-1-5-18,RIGHT\
    |0 Nothing puts [ Lsa S-1-5-18 0 [ ] ] removes [ ] Checks Account S-1-5-18 10
+|LsarEnumerateAccountsWithUserRight|policy|OneName,RIGHT|8000001a SidList [ ]";

/// Each privilege and each right to log on, with what an account has that has it alone: its system access, and the
/// low part of the LUID with no attributes.
pub const EACH_RIGHT: &str = "\
SeCreateTokenPrivilege,0 [ 2 0 ]
SeAssignPrimaryTokenPrivilege,0 [ 3 0 ]
SeLockMemoryPrivilege,0 [ 4 0 ]
SeIncreaseQuotaPrivilege,0 [ 5 0 ]
SeMachineAccountPrivilege,0 [ 6 0 ]
SeTcbPrivilege,0 [ 7 0 ]
SeSecurityPrivilege,0 [ 8 0 ]
SeTakeOwnershipPrivilege,0 [ 9 0 ]
SeLoadDriverPrivilege,0 [ 10 0 ]
SeSystemProfilePrivilege,0 [ 11 0 ]
SeSystemtimePrivilege,0 [ 12 0 ]
SeProfileSingleProcessPrivilege,0 [ 13 0 ]
SeIncreaseBasePriorityPrivilege,0 [ 14 0 ]
SeCreatePagefilePrivilege,0 [ 15 0 ]
SeCreatePermanentPrivilege,0 [ 16 0 ]
SeBackupPrivilege,0 [ 17 0 ]
SeRestorePrivilege,0 [ 18 0 ]
SeShutdownPrivilege,0 [ 19 0 ]
SeDebugPrivilege,0 [ 20 0 ]
SeAuditPrivilege,0 [ 21 0 ]
SeSystemEnvironmentPrivilege,0 [ 22 0 ]
SeChangeNotifyPrivilege,0 [ 23 0 ]
SeRemoteShutdownPrivilege,0 [ 24 0 ]
SeUndockPrivilege,0 [ 25 0 ]
SeSyncAgentPrivilege,0 [ 26 0 ]
SeEnableDelegationPrivilege,0 [ 27 0 ]
SeManageVolumePrivilege,0 [ 28 0 ]
SeImpersonatePrivilege,0 [ 29 0 ]
SeCreateGlobalPrivilege,0 [ 30 0 ]
SeInteractiveLogonRight,1 [ ]
SeNetworkLogonRight,2 [ ]
SeBatchLogonRight,4 [ ]
SeServiceLogonRight,16 [ ]
SeDenyInteractiveLogonRight,64 [ ]
SeDenyNetworkLogonRight,128 [ ]
SeDenyBatchLogonRight,256 [ ]
SeDenyServiceLogonRight,512 [ ]
SeRemoteInteractiveLogonRight,1024 [ ]
SeDenyRemoteInteractiveLogonRight,2048 [ ]";
