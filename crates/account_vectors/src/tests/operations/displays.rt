// What is displayed of a domain: pages cut by how many are asked for and by each sum of costs, from each index.
/// A page is asked for by its class, its index, how many entries it may have and its preferred length. An entry is told
/// by its index, its RID, its bits, its name, its comment and its full name. The first users cost 38 and 22, in all 60;
/// the first groups 38, 36 and 38, in all 38, 74 and 112.
pub const FIRST_ROWS: &str = "\
|SamrQueryDisplayInformation|domain,0|Display,1,0,10,65535\
    |0 Display 1 60 60 [ 1 500 16 'Administrator' '' '' 2 501 21 'Guest' '' '' ]
+|SamrQueryDisplayInformation|domain,0|Display,1,0,10,38|105 Display 1 60 38 [ 1 500 16 'Administrator' '' '' ]
+|SamrQueryDisplayInformation|domain,0|Display,1,0,10,59|105 Display 1 60 38 [ 1 500 16 'Administrator' '' '' ]
+|SamrQueryDisplayInformation|domain,0|Display,1,0,10,60\
    |0 Display 1 60 60 [ 1 500 16 'Administrator' '' '' 2 501 21 'Guest' '' '' ]
+|SamrQueryDisplayInformation|domain,0|Display,1,0,2,60\
    |0 Display 1 60 60 [ 1 500 16 'Administrator' '' '' 2 501 21 'Guest' '' '' ]
+|SamrQueryDisplayInformation|domain,0|Display,1,0,4294967295,4294967295\
    |0 Display 1 60 60 [ 1 500 16 'Administrator' '' '' 2 501 21 'Guest' '' '' ]
+|SamrQueryDisplayInformation|domain,0|Display,1,0,10,0|105 Display 1 60 38 [ 1 500 16 'Administrator' '' '' ]
+|SamrQueryDisplayInformation|domain,0|Display,1,0,10,37|105 Display 1 60 38 [ 1 500 16 'Administrator' '' '' ]
+|SamrQueryDisplayInformation|domain,0|Display,1,0,1,65535|105 Display 1 60 38 [ 1 500 16 'Administrator' '' '' ]
+|SamrQueryDisplayInformation|domain,0|Display,1,0,0,65535|105 Display 1 60 0 [ ]
+|SamrQueryDisplayInformation|domain,0|Display,1,1,10,65535|0 Display 1 22 22 [ 2 501 21 'Guest' '' '' ]
+|SamrQueryDisplayInformation|domain,0|Display,1,1,1,0|0 Display 1 22 22 [ 2 501 21 'Guest' '' '' ]
+|SamrQueryDisplayInformation|domain,0|Display,1,1,0,0|105 Display 1 22 0 [ ]
+|SamrQueryDisplayInformation|domain,0|Display,1,2,10,65535|0 Display 1 0 0 [ ]
+|SamrQueryDisplayInformation|domain,0|Display,1,2,0,0|0 Display 1 0 0 [ ]
+|SamrQueryDisplayInformation|domain,0|Display,1,3,10,65535|0 Display 1 0 0 [ ]
+|SamrQueryDisplayInformation|domain,0|Display,1,4294967295,10,65535|0 Display 1 0 0 [ ]
+|SamrQueryDisplayInformation|domain,0|Display,3,0,10,65535\
    |0 Display 3 112 112 [ 1 512 7 'Domain Admins' '' '' 2 513 7 'Domain Users' '' '' 3 514 7 'Domain Guests' '' '' ]
+|SamrQueryDisplayInformation|domain,0|Display,3,0,10,111\
    |105 Display 3 112 74 [ 1 512 7 'Domain Admins' '' '' 2 513 7 'Domain Users' '' '' ]
+|SamrQueryDisplayInformation|domain,0|Display,3,0,10,74\
    |105 Display 3 112 74 [ 1 512 7 'Domain Admins' '' '' 2 513 7 'Domain Users' '' '' ]
+|SamrQueryDisplayInformation|domain,0|Display,3,0,10,73|105 Display 3 112 38 [ 1 512 7 'Domain Admins' '' '' ]
+|SamrQueryDisplayInformation|domain,0|Display,3,0,2,65535\
    |105 Display 3 112 74 [ 1 512 7 'Domain Admins' '' '' 2 513 7 'Domain Users' '' '' ]
+|SamrQueryDisplayInformation|domain,0|Display,3,1,1,65535|105 Display 3 74 36 [ 2 513 7 'Domain Users' '' '' ]
+|SamrQueryDisplayInformation|domain,0|Display,3,2,1,65535|0 Display 3 38 38 [ 3 514 7 'Domain Guests' '' '' ]
+|SamrQueryDisplayInformation|domain,0|Display,3,3,1,65535|0 Display 3 0 0 [ ]
+|SamrQueryDisplayInformation|domain,1|Display,1,0,10,65535|0 Display 1 0 0 [ ]
+|SamrQueryDisplayInformation|domain,1|Display,3,0,10,65535|0 Display 3 0 0 [ ]
+|SamrQueryDisplayInformation|domain,0|Display,2,0,10,65535|c0000003 Nothing
+|SamrQueryDisplayInformation|domain,0|Display,0,0,10,65535|c0000003 Nothing
+|SamrQueryDisplayInformation|domain,0|Display,4,0,10,65535|c0000003 Nothing
+|SamrQueryDisplayInformation|domain,0|Display,5,0,10,65535|c0000003 Nothing
+|SamrQueryDisplayInformation|domain,1|Display,65535,7,0,0|c0000003 Nothing";

/// Users that aren't normal, groups and aliases are no users that are displayed, and a group has no full name. The
/// users alice, bob and eve cost 30, 18 and 28, in all with the first ones 136; the group g costs 22.
pub const KINDS: &str = "\
user,0,1000,alice,Al,cc,16,513;user,0,1001,ws$,,,129,513;user,0,1002,bob,,,17,513;user,0,1003,dc$,,,256,513;\
    group,0,1004,g,Full,note,7,0;alias,0,1005,al;user,0,1006,eve,Eve E,,20,513\
    |SamrQueryDisplayInformation|domain,0|Display,1,0,1,0|105 Display 1 136 38 [ 1 500 16 'Administrator' '' '' ]
+|SamrQueryDisplayInformation|domain,0|Display,1,1,1,0|105 Display 1 98 22 [ 2 501 21 'Guest' '' '' ]
+|SamrQueryDisplayInformation|domain,0|Display,1,2,1,0|105 Display 1 76 30 [ 3 1000 16 'alice' 'cc' 'Al' ]
+|SamrQueryDisplayInformation|domain,0|Display,1,3,1,0|105 Display 1 46 18 [ 4 1002 17 'bob' '' '' ]
+|SamrQueryDisplayInformation|domain,0|Display,1,4,1,0|0 Display 1 28 28 [ 5 1006 20 'eve' '' 'Eve E' ]
+|SamrQueryDisplayInformation|domain,0|Display,1,5,1,0|0 Display 1 0 0 [ ]
+|SamrQueryDisplayInformation|domain,0|Display,1,2,9,48\
    |105 Display 1 76 48 [ 3 1000 16 'alice' 'cc' 'Al' 4 1002 17 'bob' '' '' ]
+|SamrQueryDisplayInformation|domain,0|Display,1,2,9,75\
    |105 Display 1 76 48 [ 3 1000 16 'alice' 'cc' 'Al' 4 1002 17 'bob' '' '' ]
+|SamrQueryDisplayInformation|domain,0|Display,1,2,9,76\
    |0 Display 1 76 76 [ 3 1000 16 'alice' 'cc' 'Al' 4 1002 17 'bob' '' '' 5 1006 20 'eve' '' 'Eve E' ]
+|SamrQueryDisplayInformation|domain,0|Display,3,2,9,65535\
    |0 Display 3 60 60 [ 3 514 7 'Domain Guests' '' '' 4 1004 7 'g' 'note' '' ]
+|SamrQueryDisplayInformation|domain,0|Display,3,3,1,0|0 Display 3 22 22 [ 4 1004 7 'g' 'note' '' ]
+|SamrDeleteUser|user,1000|Nothing|0 Handle Handle 0 puts [ ] removes [ Desc User 1000 Account 0 1000 ] \
    Deletes User 1000
+|SamrQueryDisplayInformation|domain,0|Display,1,2,9,65535\
    |0 Display 1 46 46 [ 3 1002 17 'bob' '' '' 4 1006 20 'eve' '' 'Eve E' ]";

/// Users whose entries cost 32,768 each and as many as 65,536 together, or a little more; and one that costs 65,538.
pub const LARGEST_PAGES: &str = "\
user,0,1000,16378*61,,,16,513;user,0,1001,1*61,,16377*61,16,513;user,0,1002,1*61,,,16,513|SamrQueryDisplayInformation\
    |domain,0|Display,1,2,9,4294967295\
    |105 Display 1 65550 65536 [ 3 1000 16 '16378*61' '' '' 4 1001 16 'a' '16377*61' '' ]
user,0,1000,16378*61,,,16,513;user,0,1001,1*61,16378*61,,16,513;user,0,1002,1*61,,,16,513|SamrQueryDisplayInformation\
    |domain,0|Display,1,2,9,4294967295|105 Display 1 65552 32768 [ 3 1000 16 '16378*61' '' '' ]
user,0,1000,32763*61,,,16,513|SamrQueryDisplayInformation|domain,0|Display,1,2,9,4294967295\
    |0 Display 1 65538 65538 [ 3 1000 16 '32763*61' '' '' ]
user,0,1000,32763*61,,,16,513|SamrQueryDisplayInformation|domain,0|Display,1,1,9,4294967295\
    |105 Display 1 65560 22 [ 2 501 21 'Guest' '' '' ]";
