// Enumerations of accounts: pages cut at each sum of costs, continued from each RID, with filters.
/// A page is asked for by its context, its filter and its preferred length. The users cost 38, 22, 22, 18 and 18 of a
/// page, in all 38, 60, 82, 100 and 118; the groups 38, 36 and 38, in all 38, 74 and 112; the aliases of BUILTIN 40, 22
/// and 24, in all 40, 62 and 86.
pub const PAGES: &str = "\
user,0,1000,alice,,,21,513;user,0,1001,bob,,,16,513;user,0,1002,ws$,,,129,513|SamrEnumerateUsersInDomain|domain,0\
    |Page,0,0,0|105 Page 500 Some [ 500 'Administrator' ]
+|SamrEnumerateUsersInDomain|domain,0|Page,0,0,59|105 Page 500 Some [ 500 'Administrator' ]
+|SamrEnumerateUsersInDomain|domain,0|Page,0,0,60|105 Page 501 Some [ 500 'Administrator' 501 'Guest' ]
+|SamrEnumerateUsersInDomain|domain,0|Page,0,0,81|105 Page 501 Some [ 500 'Administrator' 501 'Guest' ]
+|SamrEnumerateUsersInDomain|domain,0|Page,0,0,82|105 Page 1000 Some [ 500 'Administrator' 501 'Guest' 1000 'alice' ]
+|SamrEnumerateUsersInDomain|domain,0|Page,0,0,99|105 Page 1000 Some [ 500 'Administrator' 501 'Guest' 1000 'alice' ]
+|SamrEnumerateUsersInDomain|domain,0|Page,0,0,100\
    |105 Page 1001 Some [ 500 'Administrator' 501 'Guest' 1000 'alice' 1001 'bob' ]
+|SamrEnumerateUsersInDomain|domain,0|Page,0,0,117\
    |105 Page 1001 Some [ 500 'Administrator' 501 'Guest' 1000 'alice' 1001 'bob' ]
+|SamrEnumerateUsersInDomain|domain,0|Page,0,0,118\
    |0 Page 1002 Some [ 500 'Administrator' 501 'Guest' 1000 'alice' 1001 'bob' 1002 'ws$' ]
+|SamrEnumerateUsersInDomain|domain,0|Page,0,0,65536\
    |0 Page 1002 Some [ 500 'Administrator' 501 'Guest' 1000 'alice' 1001 'bob' 1002 'ws$' ]
+|SamrEnumerateUsersInDomain|domain,0|Page,0,0,4294967295\
    |0 Page 1002 Some [ 500 'Administrator' 501 'Guest' 1000 'alice' 1001 'bob' 1002 'ws$' ]
+|SamrEnumerateUsersInDomain|domain,0|Page,499,0,0|105 Page 500 Some [ 500 'Administrator' ]
+|SamrEnumerateUsersInDomain|domain,0|Page,500,0,0|105 Page 501 Some [ 501 'Guest' ]
+|SamrEnumerateUsersInDomain|domain,0|Page,500,0,43|105 Page 501 Some [ 501 'Guest' ]
+|SamrEnumerateUsersInDomain|domain,0|Page,500,0,44|105 Page 1000 Some [ 501 'Guest' 1000 'alice' ]
+|SamrEnumerateUsersInDomain|domain,0|Page,501,0,0|105 Page 1000 Some [ 1000 'alice' ]
+|SamrEnumerateUsersInDomain|domain,0|Page,999,0,0|105 Page 1000 Some [ 1000 'alice' ]
+|SamrEnumerateUsersInDomain|domain,0|Page,1000,0,35|105 Page 1001 Some [ 1001 'bob' ]
+|SamrEnumerateUsersInDomain|domain,0|Page,1000,0,36|0 Page 1002 Some [ 1001 'bob' 1002 'ws$' ]
+|SamrEnumerateUsersInDomain|domain,0|Page,1001,0,0|0 Page 1002 Some [ 1002 'ws$' ]
+|SamrEnumerateUsersInDomain|domain,0|Page,1002,0,65536|0 Page 1002 Some [ ]
+|SamrEnumerateUsersInDomain|domain,0|Page,1003,0,0|0 Page 1003 Some [ ]
+|SamrEnumerateUsersInDomain|domain,0|Page,4294967295,0,65536|0 Page 4294967295 Some [ ]
+|SamrEnumerateUsersInDomain|domain,0|Page,0,16,65536\
    |0 Page 1001 Some [ 500 'Administrator' 501 'Guest' 1000 'alice' 1001 'bob' ]
+|SamrEnumerateUsersInDomain|domain,0|Page,0,1,65536|0 Page 1002 Some [ 501 'Guest' 1000 'alice' 1002 'ws$' ]
+|SamrEnumerateUsersInDomain|domain,0|Page,0,4,65536|0 Page 1000 Some [ 501 'Guest' 1000 'alice' ]
+|SamrEnumerateUsersInDomain|domain,0|Page,0,5,65536|0 Page 1002 Some [ 501 'Guest' 1000 'alice' 1002 'ws$' ]
+|SamrEnumerateUsersInDomain|domain,0|Page,0,128,0|0 Page 1002 Some [ 1002 'ws$' ]
+|SamrEnumerateUsersInDomain|domain,0|Page,0,384,0|0 Page 1002 Some [ 1002 'ws$' ]
+|SamrEnumerateUsersInDomain|domain,0|Page,0,256,0|0 Page 0 Some [ ]
+|SamrEnumerateUsersInDomain|domain,0|Page,7,256,65536|0 Page 7 Some [ ]
+|SamrEnumerateUsersInDomain|domain,0|Page,0,4294967294,61|105 Page 501 Some [ 500 'Administrator' 501 'Guest' ]
+|SamrEnumerateUsersInDomain|domain,0|Page,1000,4,65536|0 Page 1000 Some [ ]
+|SamrEnumerateUsersInDomain|domain,0|Page,0,4,0|105 Page 501 Some [ 501 'Guest' ]
+|SamrEnumerateUsersInDomain|domain,0|Page,501,4,0|0 Page 1000 Some [ 1000 'alice' ]
+|SamrEnumerateUsersInDomain|domain,1|Page,0,0,65536|0 Page 0 Some [ ]
+|SamrEnumerateGroupsInDomain|domain,0|Page,0,0,0|105 Page 512 Some [ 512 'Domain Admins' ]
+|SamrEnumerateGroupsInDomain|domain,0|Page,0,0,73|105 Page 512 Some [ 512 'Domain Admins' ]
+|SamrEnumerateGroupsInDomain|domain,0|Page,0,0,74|105 Page 513 Some [ 512 'Domain Admins' 513 'Domain Users' ]
+|SamrEnumerateGroupsInDomain|domain,0|Page,0,0,111|105 Page 513 Some [ 512 'Domain Admins' 513 'Domain Users' ]
+|SamrEnumerateGroupsInDomain|domain,0|Page,0,0,112\
    |0 Page 514 Some [ 512 'Domain Admins' 513 'Domain Users' 514 'Domain Guests' ]
+|SamrEnumerateGroupsInDomain|domain,0|Page,513,0,0|0 Page 514 Some [ 514 'Domain Guests' ]
+|SamrEnumerateGroupsInDomain|domain,0|Page,514,0,0|0 Page 514 Some [ ]
+|SamrEnumerateGroupsInDomain|domain,1|Page,0,0,65536|0 Page 0 Some [ ]
+|SamrEnumerateAliasesInDomain|domain,1|Page,0,0,0|105 Page 544 Some [ 544 'Administrators' ]
+|SamrEnumerateAliasesInDomain|domain,1|Page,0,0,61|105 Page 544 Some [ 544 'Administrators' ]
+|SamrEnumerateAliasesInDomain|domain,1|Page,0,0,62|105 Page 545 Some [ 544 'Administrators' 545 'Users' ]
+|SamrEnumerateAliasesInDomain|domain,1|Page,0,0,86|0 Page 546 Some [ 544 'Administrators' 545 'Users' 546 'Guests' ]
+|SamrEnumerateAliasesInDomain|domain,1|Page,545,0,0|0 Page 546 Some [ 546 'Guests' ]
+|SamrEnumerateAliasesInDomain|domain,0|Page,0,0,65536|0 Page 0 Some [ ]";

/// An account that is deleted between two pages is left out, and no other.
pub const BETWEEN_PAGES: &str = "\
user,0,1000,alice,,,21,513;user,0,1001,bob,,,16,513;user,0,1002,ws$,,,129,513|SamrEnumerateUsersInDomain|domain,0\
    |Page,0,0,60|105 Page 501 Some [ 500 'Administrator' 501 'Guest' ]
+|SamrDeleteUser|user,1000|Nothing|0 Handle Handle 0 puts [ ] removes [ Desc User 1000 Account 0 1000 ] Deletes User \
    1000
+|SamrEnumerateUsersInDomain|domain,0|Page,501,0,0|105 Page 1001 Some [ 1001 'bob' ]";

/// Two users whose entries cost 32,768 each and as many as 65,536 together, or a little more.
pub const LARGEST_PAGES: &str = "\
user,0,1000,16378*61,,,16,513;user,0,1001,16378*61,,,16,513;user,0,1002,1*61,,,16,513|SamrEnumerateUsersInDomain\
    |domain,0|Page,501,0,4294967295|105 Page 1001 Some [ 1000 '16378*61' 1001 '16378*61' ]
user,0,1000,16378*61,,,16,513;user,0,1001,16379*61,,,16,513;user,0,1002,1*61,,,16,513|SamrEnumerateUsersInDomain\
    |domain,0|Page,501,0,4294967295|105 Page 1000 Some [ 1000 '16378*61' ]";
