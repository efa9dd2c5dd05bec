// Long lists, with repeat signs: as many names and RIDs as a look-up may bring, what is listed in one page or at once,
// and pages that end at the limit.
/// The users after 1000, the groups and the aliases cost 20 each of a page, in all 6,000.
pub const LISTS: &str = "\
|SamrLookupNamesInDomain|domain,0|NameList<1-499:,Guest,domain USERS>,nobody,Guest\
    |107 RidUses [ <1-499:501 513 >0 501 ] [ <1-499:1 2 >8 1 ]
|SamrLookupIdsInDomain|domain,0|RidList,513<1002-1999:,#>,501\
    |107 NameUses [ 'Domain Users' <1002-1999:'' >'Guest' ] [ 2 <1002-1999:8 >1 ]
<1001-1300:user,0,#,#,,,16,513;>|SamrEnumerateUsersInDomain|domain,0|Page,1000,0,6000\
    |0 Page 1300 Some [ <1001-1300:# '#' >]
<1001-1300:group,0,#,#,,,7,0;>|SamrEnumerateGroupsInDomain|domain,0|Page,1000,0,6000\
    |0 Page 1300 Some [ <1001-1300:# '#' >]
<1001-1300:alias,1,#,#;>|SamrEnumerateAliasesInDomain|domain,1|Page,1000,0,6000\
    |0 Page 1300 Some [ <1001-1300:# '#' >]
<1001-1300:member,512,#,7;>|SamrGetMembersInGroup|group,512|Nothing|0 Pairs Some [ 500 7 <1001-1300:# 7 >]
<1001-1300:member,#,500,5;>|SamrGetGroupsForUser|user,500|Nothing|0 Pairs Some [ 512 7 513 7 <1001-1300:# 5 >]
<1001-1300:sid,0,#,S-1-5-18;>|SamrGetAliasMembership|domain,0|SidList,S-1-5-18|0 RidList [ <1001-1300:# >]
|LsarAddAccountRights|policy|Rights,some,S-1-5-18<1-128:,SeBackupPrivilege,SeNetworkLogonRight>\
    |0 Nothing puts [ Lsa S-1-5-18 2 [ 17 0 ] ] removes [ ] Checks Account S-1-5-18 10
+|LsarAddPrivilegesToAccount|account,S-1-5-18|Privileges,set<1-1000:,17/0/#>\
    |0 Nothing puts [ Lsa S-1-5-18 2 [ 17 1000 ] ] removes [ ] Nothing
+|LsarRemoveAccountRights|policy|Rights,some,S-1-5-18<1-128:,SeNetworkLogonRight,SeTcbPrivilege>\
    |0 Nothing puts [ Lsa S-1-5-18 0 [ 17 1000 ] ] removes [ ] Checks Account S-1-5-18 10
user,0,1001,1*61,,,16,513;user,0,1002,32762*61,,,16,513|SamrEnumerateUsersInDomain|domain,0|Page,501,0,65550\
    |105 Page 1001 Some [ 1001 'a' ]
+|SamrEnumerateUsersInDomain|domain,0|Page,501,0,4294967295|105 Page 1001 Some [ 1001 'a' ]
group,0,1001,a,,,7,0;group,0,1002,32762*61,,,7,0|SamrEnumerateGroupsInDomain|domain,0|Page,514,0,4294967295\
    |105 Page 1001 Some [ 1001 'a' ]
alias,0,1001,a;alias,0,1002,32762*61|SamrEnumerateAliasesInDomain|domain,0|Page,0,0,4294967295\
    |105 Page 1001 Some [ 1001 'a' ]
domain,0,S-1-5-21-1-2-3,a,,1000;domain,1,S-1-5-32,32762*61,,1000|SamrEnumerateDomainsInSamServer|server\
    |Page,0,0,4294967295|105 Page 1 Some [ 0 'a' ]";

/// Of these are told how many SIDs there are, the first and the last one, and the context of a page. An account of the
/// policy costs 40, so that 1,638 cost 65,520, and one more would pass the limit.
pub const SIDS: &str = "\
<1001-2640:lsa,S-1-5-21-1-2-3-#,2;>|LsarEnumerateAccounts|policy|Page,0,0,4294967295\
    |105 [ ] 1638 [ S-1-5-21-1-2-3-1001 ] [ S-1-5-21-1-2-3-2638 ] 1638
<1001-1300:lsa,S-1-5-21-1-2-3-#,2;>|LsarEnumerateAccountsWithUserRight|policy|OneName,SeNetworkLogonRight\
    |0 [ ] 300 [ S-1-5-21-1-2-3-1001 ] [ S-1-5-21-1-2-3-1300 ] 0
<1001-1300:lsa,S-1-5-21-1-2-3-#,2;>|LsarEnumerateAccountsWithUserRight|policy|NoName\
    |0 [ ] 300 [ S-1-5-21-1-2-3-1001 ] [ S-1-5-21-1-2-3-1300 ] 0
<1001-1300:sid,1,545,S-1-5-21-1-2-3-#;>|SamrGetMembersInAlias|alias,1,545|Nothing\
    |0 [ ] 301 [ S-1-5-21-1-2-3-513 ] [ S-1-5-21-1-2-3-1300 ] 0";
