// Accounts are created one after the other, on the rows that a database begins with.
/// A creation puts the domain with its next RID, the account and, of a user, its row as a member of Domain Users, and
/// opens the account for MAXIMUM_ALLOWED, 33,554,432. Before the last eight, and the last one, a domain's next RID is
/// raised.
pub const CREATIONS: &str = "\
|SamrCreateUser2InDomain|domain,0|Make,alice,16,33554432\
    |0 Created Handle 0 0 1000 puts [ Domain 0 S-1-5-21-1-2-3 'CORP' '' 1001 Account 0 1000 User 'alice' '' '' 21 \
    513 Member 513 1000 7 ] removes [ ] Opens User 1000 33554432
+|SamrCreateUser2InDomain|domain,0|Make,ALICE,16,33554432|c0000063 Nothing
+|SamrCreateGroupInDomain|domain,0|Make,Alice,0,33554432|c0000063 Nothing
+|SamrCreateAliasInDomain|domain,0|Make,aLICE,0,33554432|c0000063 Nothing
+|SamrCreateUser2InDomain|domain,0|Make,12345678901234567890,16,33554432\
    |0 Created Handle 0 0 1001 puts [ Domain 0 S-1-5-21-1-2-3 'CORP' '' 1002 Account 0 1001 User \
    '12345678901234567890' '' '' 21 513 Member 513 1001 7 ] removes [ ] Opens User 1001 33554432
+|SamrCreateUser2InDomain|domain,0|Make,123456789012345678901,16,33554432|c0000062 Nothing
+|SamrCreateUser2InDomain|domain,0|Make,,16,33554432|c0000062 Nothing
+|SamrCreateUser2InDomain|domain,0|Make,1*d800,16,33554432|c0000062 Nothing
+|SamrCreateUser2InDomain|domain,0|Make,a/b,16,33554432|c0000062 Nothing
+|SamrCreateUser2InDomain|domain,0|Make,. .,16,33554432|c0000062 Nothing
+|SamrCreateUser2InDomain|domain,0|Make,client$,128,33554432\
    |0 Created Handle 0 0 1002 puts [ Domain 0 S-1-5-21-1-2-3 'CORP' '' 1003 Account 0 1002 User 'client$' '' '' 129 \
    513 Member 513 1002 7 ] removes [ ] Opens User 1002 33554432
+|SamrCreateUser2InDomain|domain,0|Make,server$,256,33554432\
    |0 Created Handle 0 0 1003 puts [ Domain 0 S-1-5-21-1-2-3 'CORP' '' 1004 Account 0 1003 User 'server$' '' '' 257 \
    513 Member 513 1003 7 ] removes [ ] Opens User 1003 33554432
+|SamrCreateUser2InDomain|domain,0|Make,bob,17,33554432|c000000d Nothing
+|SamrCreateUser2InDomain|domain,0|Make,bob,0,33554432|c000000d Nothing
+|SamrCreateUser2InDomain|domain,0|Make,bob,144,33554432|c000000d Nothing
+|SamrCreateUser2InDomain|domain,0|Make,,17,33554432|c000000d Nothing
+|SamrCreateUser2InDomain|domain,1|Make,bob,16,33554432|c00000bb Nothing
+|SamrCreateUser2InDomain|domain,1|Make,bob,17,33554432|c00000bb Nothing
+|SamrCreateGroupInDomain|domain,1|Make,staff,0,33554432|c00000bb Nothing
+|SamrCreateGroupInDomain|domain,1|Make,,0,33554432|c00000bb Nothing
+|SamrCreateGroupInDomain|domain,0|Make,staff,0,33554432\
    |0 Created Handle 0 0 1004 puts [ Domain 0 S-1-5-21-1-2-3 'CORP' '' 1005 Account 0 1004 Group 'staff' '' '' 7 0 \
    ] removes [ ] Opens Group 1004 33554432
+|SamrCreateUser2InDomain|domain,0|Make,Staff,16,33554432|c0000065 Nothing
+|SamrCreateGroupInDomain|domain,0|Make,domain users,0,33554432|c0000065 Nothing
+|SamrCreateGroupInDomain|domain,0|Make,,0,33554432|c0000062 Nothing
+|SamrCreateAliasInDomain|domain,0|Make,local,0,33554432\
    |0 Created Handle 0 0 1005 puts [ Domain 0 S-1-5-21-1-2-3 'CORP' '' 1006 Account 0 1005 Alias 'local' '' '' 0 0 \
    ] removes [ ] Opens Alias 0 1005 33554432
+|SamrCreateAliasInDomain|domain,0|Make,LOCAL,0,33554432|c0000154 Nothing
+|SamrCreateUser2InDomain|domain,0|Make,Local,16,33554432|c0000154 Nothing
+|SamrCreateGroupInDomain|domain,0|Make,local,0,33554432|c0000154 Nothing
+|SamrCreateAliasInDomain|domain,1|Make,local,0,33554432\
    |0 Created Handle 0 0 1000 puts [ Domain 1 S-1-5-32 'BUILTIN' '' 1001 Account 1 1000 Alias 'local' '' '' 0 0 ] \
    removes [ ] Opens Alias 1 1000 33554432
+|SamrCreateAliasInDomain|domain,1|Make,users,0,33554432|c0000154 Nothing
+|SamrCreateAliasInDomain|domain,1|Make,alice,0,33554432\
    |0 Created Handle 0 0 1001 puts [ Domain 1 S-1-5-32 'BUILTIN' '' 1002 Account 1 1001 Alias 'alice' '' '' 0 0 ] \
    removes [ ] Opens Alias 1 1001 33554432
+|SamrCreateAliasInDomain|domain,1|Make,1*dc00,0,33554432|c0000062 Nothing
+;domain,0,S-1-5-21-1-2-3,CORP,,1073741822|SamrCreateUser2InDomain|domain,0|Make,carol,16,33554432\
    |0 Created Handle 0 0 1073741822 puts [ Domain 0 S-1-5-21-1-2-3 'CORP' '' 1073741823 Account 0 1073741822 User \
    'carol' '' '' 21 513 Member 513 1073741822 7 ] removes [ ] Opens User 1073741822 33554432
+|SamrCreateUser2InDomain|domain,0|Make,dave,16,33554432|c000009a Nothing
+|SamrCreateGroupInDomain|domain,0|Make,dave,0,33554432|c000009a Nothing
+|SamrCreateAliasInDomain|domain,0|Make,dave,0,33554432|c000009a Nothing
+|SamrCreateUser2InDomain|domain,0|Make,CAROL,16,33554432|c0000063 Nothing
+|SamrCreateUser2InDomain|domain,0|Make,,16,33554432|c0000062 Nothing
+|SamrCreateAliasInDomain|domain,1|Make,dave,0,33554432\
    |0 Created Handle 0 0 1002 puts [ Domain 1 S-1-5-32 'BUILTIN' '' 1003 Account 1 1002 Alias 'dave' '' '' 0 0 ] \
    removes [ ] Opens Alias 1 1002 33554432
+;domain,1,S-1-5-32,BUILTIN,,1073741823|SamrCreateAliasInDomain|domain,1|Make,erin,0,33554432|c000009a Nothing";
