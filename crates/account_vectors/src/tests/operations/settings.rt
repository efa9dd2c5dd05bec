// Sets on the first rows: which are refused, and what is put.
/// What is set is a class with its value.
pub const SETS: &str = "\
|SamrSetInformationDomain|domain,0|Put,4,Text,OEM\
    |0 Nothing puts [ Domain 0 S-1-5-21-1-2-3 'CORP' 'OEM' 1000 ] removes [ ] Nothing
|SamrSetInformationDomain|domain,1|Put,4,Text,OEM\
    |0 Nothing puts [ Domain 1 S-1-5-32 'BUILTIN' 'OEM' 1000 ] removes [ ] Nothing
|SamrSetInformationDomain|domain,0|Put,4,Text,\
    |0 Nothing puts [ Domain 0 S-1-5-21-1-2-3 'CORP' '' 1000 ] removes [ ] Nothing
|SamrSetInformationDomain|domain,0|Put,5,Unserved|c0000003 Nothing
|SamrSetInformationDomain|domain,0|Put,0,Unserved|c0000003 Nothing
|SamrSetInformationDomain|domain,0|Put,13,Unserved|c0000003 Nothing
|SamrSetInformationGroup|group,512|Put,2,Text,Admins\
    |0 Nothing puts [ Account 0 512 Group 'Admins' '' '' 7 0 ] removes [ ] Nothing
|SamrSetInformationGroup|group,512|Put,2,Text,DOMAIN ADMINS\
    |0 Nothing puts [ Account 0 512 Group 'DOMAIN ADMINS' '' '' 7 0 ] removes [ ] Nothing
|SamrSetInformationGroup|group,512|Put,2,Text,domain users|c0000065 Nothing
|SamrSetInformationGroup|group,512|Put,2,Text,GUEST|c0000063 Nothing
|SamrSetInformationGroup|group,512|Put,2,Text,|c0000062 Nothing
|SamrSetInformationGroup|group,512|Put,2,Text,A+B|c0000062 Nothing
|SamrSetInformationGroup|group,512|Put,2,Text,...|c0000062 Nothing
|SamrSetInformationGroup|group,512|Put,3,Number,0\
    |0 Nothing puts [ Account 0 512 Group 'Domain Admins' '' '' 0 0 ] removes [ ] Nothing
|SamrSetInformationGroup|group,512|Put,3,Number,4294967295\
    |0 Nothing puts [ Account 0 512 Group 'Domain Admins' '' '' 4294967295 0 ] removes [ ] Nothing
|SamrSetInformationGroup|group,512|Put,4,Text,All of them\
    |0 Nothing puts [ Account 0 512 Group 'Domain Admins' '' 'All of them' 7 0 ] removes [ ] Nothing
|SamrSetInformationGroup|group,512|Put,1,Unserved|c0000003 Nothing
|SamrSetInformationGroup|group,512|Put,5,Unserved|c0000003 Nothing
|SamrSetInformationAlias|alias,1,544|Put,2,Text,Chiefs\
    |0 Nothing puts [ Account 1 544 Alias 'Chiefs' '' '' 0 0 ] removes [ ] Nothing
|SamrSetInformationAlias|alias,1,544|Put,2,Text,USERS|c0000154 Nothing
|SamrSetInformationAlias|alias,1,544|Put,2,Text,administrators\
    |0 Nothing puts [ Account 1 544 Alias 'administrators' '' '' 0 0 ] removes [ ] Nothing
|SamrSetInformationAlias|alias,1,544|Put,2,Text,Domain Users\
    |0 Nothing puts [ Account 1 544 Alias 'Domain Users' '' '' 0 0 ] removes [ ] Nothing
|SamrSetInformationAlias|alias,1,544|Put,2,Text,|c0000062 Nothing
|SamrSetInformationAlias|alias,1,544|Put,3,Text,All of them\
    |0 Nothing puts [ Account 1 544 Alias 'Administrators' '' 'All of them' 0 0 ] removes [ ] Nothing
|SamrSetInformationAlias|alias,1,544|Put,1,Unserved|c0000003 Nothing
|SamrSetInformationAlias|alias,1,544|Put,4,Unserved|c0000003 Nothing
|SamrSetInformationUser|user,501|Put,7,Text,Visitor\
    |0 Nothing puts [ Account 0 501 User 'Visitor' '' '' 21 514 ] removes [ ] Nothing
|SamrSetInformationUser|user,501|Put,7,Text,guest\
    |0 Nothing puts [ Account 0 501 User 'guest' '' '' 21 514 ] removes [ ] Nothing
|SamrSetInformationUser|user,501|Put,7,Text,administrator|c0000063 Nothing
|SamrSetInformationUser|user,501|Put,7,Text,DOMAIN GUESTS|c0000065 Nothing
|SamrSetInformationUser|user,501|Put,7,Text,Administrators\
    |0 Nothing puts [ Account 0 501 User 'Administrators' '' '' 21 514 ] removes [ ] Nothing
|SamrSetInformationUser|user,501|Put,7,Text,a\\b|c0000062 Nothing
|SamrSetInformationUser|user,501|Put,8,Text,Ann Other\
    |0 Nothing puts [ Account 0 501 User 'Guest' 'Ann Other' '' 21 514 ] removes [ ] Nothing
|SamrSetInformationUser|user,501|Put,13,Text,A guest\
    |0 Nothing puts [ Account 0 501 User 'Guest' '' 'A guest' 21 514 ] removes [ ] Nothing
|SamrSetInformationUser|user,500|Put,9,Number,512\
    |0 Nothing puts [ Account 0 500 User 'Administrator' '' '' 16 512 ] removes [ ] Nothing
|SamrSetInformationUser|user,500|Put,9,Number,513\
    |0 Nothing puts [ Account 0 500 User 'Administrator' '' '' 16 513 ] removes [ ] Nothing
|SamrSetInformationUser|user,500|Put,9,Number,514|c0000068 Nothing
|SamrSetInformationUser|user,500|Put,9,Number,500|c0000066 Nothing
|SamrSetInformationUser|user,500|Put,9,Number,544|c0000066 Nothing
|SamrSetInformationUser|user,500|Put,9,Number,0|c0000066 Nothing
|SamrSetInformationUser|user,501|Put,16,Number,16\
    |0 Nothing puts [ Account 0 501 User 'Guest' '' '' 16 514 ] removes [ ] Nothing
|SamrSetInformationUser|user,501|Put,16,Number,17\
    |0 Nothing puts [ Account 0 501 User 'Guest' '' '' 17 514 ] removes [ ] Nothing
|SamrSetInformationUser|user,501|Put,16,Number,20\
    |0 Nothing puts [ Account 0 501 User 'Guest' '' '' 20 514 ] removes [ ] Nothing
|SamrSetInformationUser|user,501|Put,16,Number,21\
    |0 Nothing puts [ Account 0 501 User 'Guest' '' '' 21 514 ] removes [ ] Nothing
|SamrSetInformationUser|user,501|Put,16,Number,128\
    |0 Nothing puts [ Account 0 501 User 'Guest' '' '' 128 514 ] removes [ ] Nothing
|SamrSetInformationUser|user,501|Put,16,Number,256\
    |0 Nothing puts [ Account 0 501 User 'Guest' '' '' 256 514 ] removes [ ] Nothing
|SamrSetInformationUser|user,501|Put,16,Number,261\
    |0 Nothing puts [ Account 0 501 User 'Guest' '' '' 261 514 ] removes [ ] Nothing
|SamrSetInformationUser|user,501|Put,16,Number,0|c000000d Nothing
|SamrSetInformationUser|user,501|Put,16,Number,1|c000000d Nothing
|SamrSetInformationUser|user,501|Put,16,Number,4|c000000d Nothing
|SamrSetInformationUser|user,501|Put,16,Number,18|c000000d Nothing
|SamrSetInformationUser|user,501|Put,16,Number,24|c000000d Nothing
|SamrSetInformationUser|user,501|Put,16,Number,48|c000000d Nothing
|SamrSetInformationUser|user,501|Put,16,Number,80|c000000d Nothing
|SamrSetInformationUser|user,501|Put,16,Number,144|c000000d Nothing
|SamrSetInformationUser|user,501|Put,16,Number,272|c000000d Nothing
|SamrSetInformationUser|user,501|Put,16,Number,384|c000000d Nothing
|SamrSetInformationUser|user,501|Put,16,Number,528|c000000d Nothing
|SamrSetInformationUser|user,501|Put,16,Number,2147483664|c000000d Nothing
|SamrSetInformationUser|user,501|Put,1,Unserved|c0000003 Nothing
|SamrSetInformationUser|user,501|Put,6,Unserved|c0000003 Nothing
|SamrSetInformationUser|user,501|Put,20,Unserved|c0000003 Nothing";

/// Texts of the most units, and of one more.
pub const LIMITS: &str = "\
|SamrSetInformationDomain|domain,0|Put,4,Text,256*61\
    |0 Nothing puts [ Domain 0 S-1-5-21-1-2-3 'CORP' '256*61' 1000 ] removes [ ] Nothing
|SamrSetInformationDomain|domain,0|Put,4,Text,257*61|c000000d Nothing
|SamrSetInformationGroup|group,512|Put,2,Text,256*61\
    |0 Nothing puts [ Account 0 512 Group '256*61' '' '' 7 0 ] removes [ ] Nothing
|SamrSetInformationGroup|group,512|Put,2,Text,257*61|c0000062 Nothing
|SamrSetInformationGroup|group,512|Put,4,Text,256*61\
    |0 Nothing puts [ Account 0 512 Group 'Domain Admins' '' '256*61' 7 0 ] removes [ ] Nothing
|SamrSetInformationGroup|group,512|Put,4,Text,257*61|c000000d Nothing
|SamrSetInformationAlias|alias,1,544|Put,2,Text,256*61\
    |0 Nothing puts [ Account 1 544 Alias '256*61' '' '' 0 0 ] removes [ ] Nothing
|SamrSetInformationAlias|alias,1,544|Put,2,Text,257*61|c0000062 Nothing
|SamrSetInformationAlias|alias,1,544|Put,3,Text,256*61\
    |0 Nothing puts [ Account 1 544 Alias 'Administrators' '' '256*61' 0 0 ] removes [ ] Nothing
|SamrSetInformationAlias|alias,1,544|Put,3,Text,257*61|c000000d Nothing
|SamrSetInformationUser|user,501|Put,7,Text,20*61\
    |0 Nothing puts [ Account 0 501 User '20*61' '' '' 21 514 ] removes [ ] Nothing
|SamrSetInformationUser|user,501|Put,7,Text,21*61|c0000062 Nothing
|SamrSetInformationUser|user,501|Put,8,Text,256*61\
    |0 Nothing puts [ Account 0 501 User 'Guest' '256*61' '' 21 514 ] removes [ ] Nothing
|SamrSetInformationUser|user,501|Put,8,Text,257*61|c000000d Nothing
|SamrSetInformationUser|user,501|Put,13,Text,256*61\
    |0 Nothing puts [ Account 0 501 User 'Guest' '' '256*61' 21 514 ] removes [ ] Nothing
|SamrSetInformationUser|user,501|Put,13,Text,257*61|c000000d Nothing";
