// The policy's privileges and rights, and its accounts: what is looked up, shown and listed.
/// Some rows add accounts of the policy. Pages end where the costs of their entries would pass the preferred length.
pub const LOOKUPS: &str = "\
|LsarLookupPrivilegeValue|policy|OneName,SeBackupPrivilege|0 Luid 17 0
|LsarLookupPrivilegeValue|policy|OneName,SeCreateTokenPrivilege|0 Luid 2 0
|LsarLookupPrivilegeValue|policy|OneName,SeCreateGlobalPrivilege|0 Luid 30 0
|LsarLookupPrivilegeValue|policy|OneName,seTCBprivilege|0 Luid 7 0
|LsarLookupPrivilegeValue|policy|OneName,SeBackup|c0000060 Nothing
|LsarLookupPrivilegeValue|policy|OneName,SeServiceLogonRight|c0000060 Nothing
|LsarLookupPrivilegeName|policy|Luid,17,0|0 OneName Some 'SeBackupPrivilege'
|LsarLookupPrivilegeName|policy|Luid,2,0|0 OneName Some 'SeCreateTokenPrivilege'
|LsarLookupPrivilegeName|policy|Luid,30,0|0 OneName Some 'SeCreateGlobalPrivilege'
|LsarLookupPrivilegeName|policy|Luid,1,0|c0000060 Nothing
|LsarLookupPrivilegeName|policy|Luid,31,0|c0000060 Nothing
|LsarLookupPrivilegeName|policy|Luid,17,1|c0000060 Nothing
|LsarEnumeratePrivileges|policy|Page,0,0,0|105 PrivilegePage 2 [ 2 'SeCreateTokenPrivilege' ]
|LsarEnumeratePrivileges|policy|Page,0,0,125|105 PrivilegePage 2 [ 2 'SeCreateTokenPrivilege' ]
|LsarEnumeratePrivileges|policy|Page,0,0,126\
    |105 PrivilegePage 3 [ 2 'SeCreateTokenPrivilege' 3 'SeAssignPrimaryTokenPrivilege' ]
|LsarEnumeratePrivileges|policy|Page,28,0,65535\
    |0 PrivilegePage 30 [ 29 'SeImpersonatePrivilege' 30 'SeCreateGlobalPrivilege' ]
|LsarEnumeratePrivileges|policy|Page,28,0,0|105 PrivilegePage 29 [ 29 'SeImpersonatePrivilege' ]
|LsarEnumeratePrivileges|policy|Page,29,0,0|0 PrivilegePage 30 [ 30 'SeCreateGlobalPrivilege' ]
|LsarEnumeratePrivileges|policy|Page,30,0,100|8000001a PrivilegePage 30 [ ]
|LsarEnumeratePrivileges|policy|Page,4294967295,0,100|8000001a PrivilegePage 4294967295 [ ]
|LsarEnumerateAccounts|policy|Page,0,0,100|8000001a SidPage 0 [ ]
lsa,S-1-5-21-1-2-3-500,0;lsa,S-1-1-0,0;lsa,S-1-5-18,0|LsarEnumerateAccounts|policy|Page,0,0,0|105 SidPage 1 [ S-1-1-0 ]
+|LsarEnumerateAccounts|policy|Page,0,0,47|105 SidPage 1 [ S-1-1-0 ]
+|LsarEnumerateAccounts|policy|Page,0,0,48|105 SidPage 2 [ S-1-1-0 S-1-5-18 ]
+|LsarEnumerateAccounts|policy|Page,1,0,64|0 SidPage 3 [ S-1-5-18 S-1-5-21-1-2-3-500 ]
+|LsarEnumerateAccounts|policy|Page,1,0,63|105 SidPage 2 [ S-1-5-18 ]
+|LsarEnumerateAccounts|policy|Page,2,0,1|0 SidPage 3 [ S-1-5-21-1-2-3-500 ]
+|LsarEnumerateAccounts|policy|Page,3,0,100|8000001a SidPage 3 [ ]
+|LsarEnumerateAccounts|policy|Page,9,0,100|8000001a SidPage 9 [ ]
|LsarQueryInformationPolicy|policy|Class,3|0 Shown 3 Some Place 'CORP' S-1-5-21-1-2-3
|LsarQueryInformationPolicy|policy|Class,5|0 Shown 5 Some Place 'CORP' S-1-5-21-1-2-3
|LsarQueryInformationPolicy|policy|Class,4|c0000003 Nothing
|LsarQueryInformationPolicy|policy|Class,0|c0000003 Nothing
|LsarQueryInformationPolicy|policy|Class,12|c0000003 Nothing
lsa,S-1-5-18,16,17/0,23/3|LsarEnumeratePrivilegesAccount|account,S-1-5-18|Nothing|0 Privileges Some [ 17 0 0 23 0 3 ]
lsa,S-1-5-18,16|LsarEnumeratePrivilegesAccount|account,S-1-5-18|Nothing|0 Privileges Some [ ]
lsa,S-1-5-18,16,17/0;lsa,S-1-1-0,2,23/3|LsarEnumeratePrivilegesAccount|account,S-1-1-0|Nothing\
    |0 Privileges Some [ 23 0 3 ]
lsa,S-1-5-18,16,17/0|LsarGetSystemAccessAccount|account,S-1-5-18|Nothing|0 Bits 16
lsa,S-1-5-18,16;lsa,S-1-1-0,4055|LsarGetSystemAccessAccount|account,S-1-1-0|Nothing|0 Bits 4055
|LsarEnumerateAccountsWithUserRight|policy|NoName|8000001a SidList [ ]
lsa,S-1-5-18,0;lsa,S-1-1-0,0|LsarEnumerateAccountsWithUserRight|policy|NoName|0 SidList [ S-1-1-0 S-1-5-18 ]
lsa,S-1-5-18,16,17/0;lsa,S-1-1-0,2,23/3|LsarEnumerateAccountsWithUserRight|policy|OneName,SeBackupPrivilege\
    |0 SidList [ S-1-5-18 ]
lsa,S-1-5-18,16,17/0;lsa,S-1-1-0,2,17/3|LsarEnumerateAccountsWithUserRight|policy|OneName,SEBACKUPPRIVILEGE\
    |0 SidList [ S-1-1-0 S-1-5-18 ]
lsa,S-1-5-18,16,17/0;lsa,S-1-1-0,2,23/3|LsarEnumerateAccountsWithUserRight|policy|OneName,SeNetworkLogonRight\
    |0 SidList [ S-1-1-0 ]
+|LsarEnumerateAccountsWithUserRight|policy|OneName,SeTcbPrivilege|8000001a SidList [ ]
+|LsarEnumerateAccountsWithUserRight|policy|OneName,SeBatchLogonRight|8000001a SidList [ ]
+|LsarEnumerateAccountsWithUserRight|policy|OneName,SeNoPrivilege|c0000060 Nothing
lsa,S-1-5-18,16,17/0|LsarEnumerateAccountRights|policy|OneSid,S-1-5-18\
    |0 NameList [ 'SeBackupPrivilege' 'SeServiceLogonRight' ] puts [ ] removes [ ] Checks Account S-1-5-18 1
lsa,S-1-1-0,2049,30/0|LsarEnumerateAccountRights|policy|OneSid,S-1-1-0\
    |0 NameList [ 'SeCreateGlobalPrivilege' 'SeInteractiveLogonRight' 'SeDenyRemoteInteractiveLogonRight' ] \
    puts [ ] removes [ ] Checks Account S-1-1-0 1
lsa,S-1-1-0,0|LsarEnumerateAccountRights|policy|OneSid,S-1-1-0\
    |0 NameList [ ] puts [ ] removes [ ] Checks Account S-1-1-0 1
+|LsarEnumerateAccountRights|policy|OneSid,S-1-5-18|c0000034 Nothing";
