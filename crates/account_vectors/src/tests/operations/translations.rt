// Names and SIDs of the first rows, to which some are added: what each is translated to, and the domains that are
// referred to.
/// A name's entry is its use, its RID and the index of its domain; -1 stands where it isn't mapped. The first row is
/// that of a new user. An account with a backslash in its name shows where a name is split.
pub const NAMES: &str = "\
user,0,1000,alice|LsarLookupNames|policy|LookNames,1,CORP\\alice,BUILTIN\\Users,Everyone,x@y,corp\
    |107 Sids [ 'CORP' S-1-5-21-1-2-3 'BUILTIN' S-1-5-32 '' S-1-1 ] [ 1 1000 0 4 545 1 5 0 2 8 0 -1 3 4294967295 0 ] 4
|LsarLookupNames|policy|LookNames,1,Everyone,ANONYMOUS LOGON,Authenticated Users,SYSTEM\
    |0 Sids [ '' S-1-1 'NT AUTHORITY' S-1-5 ] [ 5 0 0 5 7 1 5 11 1 5 18 1 ] 4
|LsarLookupNames|policy|LookNames,1,SYSTEM,Everyone,SYSTEM\
    |0 Sids [ 'NT AUTHORITY' S-1-5 '' S-1-1 ] [ 5 18 0 5 0 1 5 18 0 ] 3
|LsarLookupNames|policy\
    |LookNames,1,NT AUTHORITY\\ANONYMOUS LOGON,NT AUTHORITY\\Authenticated Users,NT AUTHORITY\\SYSTEM\
    |0 Sids [ 'NT AUTHORITY' S-1-5 ] [ 5 7 0 5 11 0 5 18 0 ] 3
|LsarLookupNames|policy|LookNames,1,NT AUTHORITY\\Everyone,NT AUTHORITY\\SYSTEM\
    |107 Sids [ 'NT AUTHORITY' S-1-5 ] [ 8 0 -1 5 18 0 ] 1
|LsarLookupNames|policy|LookNames,1,NT AUTHORITY\\Everyone|c0000073 Sids [ ] [ 8 0 -1 ] 0
|LsarLookupNames|policy|LookNames,1,NT AUTHORITY\\Administrator,NT AUTHORITY\\Users\
    |c0000073 Sids [ ] [ 8 0 -1 8 0 -1 ] 0
|LsarLookupNames|policy|LookNames,1,CORP\\Everyone,CORP\\SYSTEM,BUILTIN\\Everyone,BUILTIN\\SYSTEM\
    |c0000073 Sids [ ] [ 8 0 -1 8 0 -1 8 0 -1 8 0 -1 ] 0
|LsarLookupNames|policy|LookNames,1,eVERYONE,anonymous logon,AUTHENTICATED users,System\
    |0 Sids [ '' S-1-1 'NT AUTHORITY' S-1-5 ] [ 5 0 0 5 7 1 5 11 1 5 18 1 ] 4
|LsarLookupNames|policy|LookNames,1,nt authority\\system,corp\\ADMINISTRATOR,builtin\\users,domain USERS,aDMINISTRATORS\
    |0 Sids [ 'NT AUTHORITY' S-1-5 'CORP' S-1-5-21-1-2-3 'BUILTIN' S-1-5-32 ] \
    [ 5 18 0 1 500 1 4 545 2 2 513 1 4 544 2 ] 5
|LsarLookupNames|policy|LookNames,1,\u{17F}y\u{17F}tem,BUILTIN\\U\u{17F}er\u{17F},\u{17F}y\u{17F}te\
    |107 Sids [ 'NT AUTHORITY' S-1-5 'BUILTIN' S-1-5-32 ] [ 5 18 0 4 545 1 8 0 -1 ] 2
user,0,1000,\u{10400}\u{C4};alias,1,1000,stra\u{DF}e|LsarLookupNames|policy\
    |LookNames,1,\u{10428}\u{E4},CORP\\\u{10428}\u{C4},STRA\u{1E9E}E,strasse\
    |107 Sids [ 'CORP' S-1-5-21-1-2-3 'BUILTIN' S-1-5-32 ] [ 1 1000 0 1 1000 0 4 1000 1 8 0 -1 ] 3
|LsarLookupNames|policy|LookNames,1,x@y,Administrator@CORP,CORP\\x@y,CORP\\Administrator@,@CORP\\Administrator,@\
    |c0000073 Sids [ ] [ 8 0 -1 8 0 -1 8 0 -1 8 0 -1 8 0 -1 8 0 -1 ] 0
user,0,1000,x@y|LsarLookupNames|policy|LookNames,1,x@y,CORP\\x@y|c0000073 Sids [ ] [ 8 0 -1 8 0 -1 ] 0
|LsarLookupNames|policy|LookNames,1,\\Administrator,\\,\\\\,\\CORP,\\Everyone\
    |c0000073 Sids [ ] [ 8 0 -1 8 0 -1 8 0 -1 8 0 -1 8 0 -1 ] 0
|LsarLookupNames|policy|LookNames,1,CORP\\\\Administrator,CORP\\BUILTIN\\Users,NT AUTHORITY\\SYSTEM\\\
    |c0000073 Sids [ ] [ 8 0 -1 8 0 -1 8 0 -1 ] 0
user,0,1000,a\\b|LsarLookupNames|policy|LookNames,1,CORP\\a\\b,a\\b\
    |107 Sids [ 'CORP' S-1-5-21-1-2-3 ] [ 1 1000 0 8 0 -1 ] 1
|LsarLookupNames|policy|LookNames,1,CORP\\Users,BUILTIN\\Administrator,CORP\\CORP,BUILTIN\\BUILTIN,other\\Guest,nobody\
    |c0000073 Sids [ ] [ 8 0 -1 8 0 -1 8 0 -1 8 0 -1 8 0 -1 8 0 -1 ] 0
|LsarLookupNames|policy|LookNames,1,|c0000073 Sids [ ] [ 8 0 -1 ] 0
|LsarLookupNames|policy|LookNames,1,,Guest,|107 Sids [ 'CORP' S-1-5-21-1-2-3 ] [ 8 0 -1 1 501 0 8 0 -1 ] 1
|LsarLookupNames|policy|LookNames,1|0 Sids [ ] [ ] 0
|LsarLookupNames|policy|LookNames,1,NT AUTHORITY,builtin,CORP\
    |0 Sids [ 'NT AUTHORITY' S-1-5 'BUILTIN' S-1-5-32 'CORP' S-1-5-21-1-2-3 ] \
    [ 3 4294967295 0 3 4294967295 1 3 4294967295 2 ] 3
|LsarLookupNames|policy|LookNames,1,corp\\,BUILTIN\\,NT AUTHORITY\\\
    |0 Sids [ 'CORP' S-1-5-21-1-2-3 'BUILTIN' S-1-5-32 'NT AUTHORITY' S-1-5 ] \
    [ 3 4294967295 0 3 4294967295 1 3 4294967295 2 ] 3
|LsarLookupNames|policy|LookNames,1,nobody,Users,BUILTIN,nobody,Guest,BUILTIN\\Guests,CORP\
    |107 Sids [ 'BUILTIN' S-1-5-32 'CORP' S-1-5-21-1-2-3 ] \
    [ 8 0 -1 4 545 0 3 4294967295 0 8 0 -1 1 501 1 4 546 0 3 4294967295 1 ] 5
|LsarLookupNames|policy\
    |LookNames,1,Administrator,Guest,Domain Admins,Domain Users,Domain Guests,Administrators,Users,Guests\
    |0 Sids [ 'CORP' S-1-5-21-1-2-3 'BUILTIN' S-1-5-32 ] \
    [ 1 500 0 1 501 0 2 512 0 2 513 0 2 514 0 4 544 1 4 545 1 4 546 1 ] 8
alias,0,1000,Users|LsarLookupNames|policy|LookNames,1,Users,CORP\\Users,BUILTIN\\Users\
    |0 Sids [ 'CORP' S-1-5-21-1-2-3 'BUILTIN' S-1-5-32 ] [ 4 1000 0 4 1000 0 4 545 1 ] 3
user,0,1000,Everyone;alias,1,1000,SYSTEM|LsarLookupNames|policy\
    |LookNames,1,Everyone,CORP\\Everyone,SYSTEM,BUILTIN\\SYSTEM\
    |0 Sids [ '' S-1-1 'CORP' S-1-5-21-1-2-3 'NT AUTHORITY' S-1-5 'BUILTIN' S-1-5-32 ] \
    [ 5 0 0 1 1000 1 5 18 2 4 1000 3 ] 4
group,0,1000,BUILTIN;alias,1,1000,corp|LsarLookupNames|policy|LookNames,1,BUILTIN,CORP\\BUILTIN,CORP,BUILTIN\\CORP\
    |0 Sids [ 'BUILTIN' S-1-5-32 'CORP' S-1-5-21-1-2-3 ] [ 3 4294967295 0 2 1000 1 3 4294967295 1 4 1000 0 ] 4
domain,0,S-1-5-21-7-8-9,SYSTEM,,1000|LsarLookupNames|policy|LookNames,1,SYSTEM,SYSTEM\\,system\\Guest,CORP\\Guest\
    |107 Sids [ 'NT AUTHORITY' S-1-5 'SYSTEM' S-1-5-21-7-8-9 ] [ 5 18 0 3 4294967295 1 1 501 1 8 0 -1 ] 3
|LsarLookupNames|policy|LookNames,0,CORP|c000000d Nothing
|LsarLookupNames|policy|LookNames,8,CORP|c000000d Nothing
|LsarLookupNames|policy|LookNames,65535|c000000d Nothing
|LsarLookupNames|policy|LookNames,2,CORP|0 Sids [ 'CORP' S-1-5-21-1-2-3 ] [ 3 4294967295 0 ] 1
|LsarLookupNames|policy|LookNames,3,nobody|c0000073 Sids [ ] [ 8 0 -1 ] 0
|LsarLookupNames|policy|LookNames,4,Users|0 Sids [ 'BUILTIN' S-1-5-32 ] [ 4 545 0 ] 1
|LsarLookupNames|policy|LookNames,5,SYSTEM|0 Sids [ 'NT AUTHORITY' S-1-5 ] [ 5 18 0 ] 1
|LsarLookupNames|policy|LookNames,6,Guest|0 Sids [ 'CORP' S-1-5-21-1-2-3 ] [ 1 501 0 ] 1
|LsarLookupNames|policy|LookNames,7,Everyone|0 Sids [ '' S-1-1 ] [ 5 0 0 ] 1";

/// A SID's entry is its use, its name and the index of its domain; where it isn't mapped, its text and -1.
pub const SIDS: &str = "\
user,0,1000,alice|LsarLookupSids|policy|LookSids,1,S-1-5-21-1-2-3-1000,S-1-5-32-544,S-1-5-18,S-1-5-21-9-9-9-5\
    |107 Names [ 'CORP' S-1-5-21-1-2-3 'BUILTIN' S-1-5-32 'NT AUTHORITY' S-1-5 ] \
    [ 1 'alice' 0 4 'Administrators' 1 5 'SYSTEM' 2 8 'S-1-5-21-9-9-9-5' -1 ] 3
|LsarLookupSids|policy|LookSids,1,S-1-1-0,S-1-5-7,S-1-5-11,S-1-5-18\
    |0 Names [ '' S-1-1 'NT AUTHORITY' S-1-5 ] \
    [ 5 'Everyone' 0 5 'ANONYMOUS LOGON' 1 5 'Authenticated Users' 1 5 'SYSTEM' 1 ] 4
|LsarLookupSids|policy|LookSids,1,S-1-5-32,S-1-5,S-1-5-21-1-2-3\
    |0 Names [ 'BUILTIN' S-1-5-32 'NT AUTHORITY' S-1-5 'CORP' S-1-5-21-1-2-3 ] \
    [ 3 'BUILTIN' 0 3 'NT AUTHORITY' 1 3 'CORP' 2 ] 3
|LsarLookupSids|policy|LookSids,1,S-1-1|c0000073 Names [ ] [ 8 'S-1-1' -1 ] 0
|LsarLookupSids|policy|LookSids,1,S-1-1-0,S-1-1,S-1-1-1\
    |107 Names [ '' S-1-1 ] [ 5 'Everyone' 0 8 'S-1-1' -1 8 'S-1-1-1' -1 ] 1
|LsarLookupSids|policy|LookSids,1,S-1-5-0,S-1-5-8,S-1-5-18-0,S-1-0,S-1-0-0,S-1-2-0\
    |c0000073 Names [ ] \
    [ 8 'S-1-5-0' -1 8 'S-1-5-8' -1 8 'S-1-5-18-0' -1 8 'S-1-0' -1 8 'S-1-0-0' -1 8 'S-1-2-0' -1 ] 0
|LsarLookupSids|policy|LookSids,1,S-1-0x000100000000-7,S-1-0x000100000005-18,S-1-0x000000000005-18\
    |107 Names [ 'NT AUTHORITY' S-1-5 ] \
    [ 8 'S-1-0x000100000000-7' -1 8 'S-1-0x000100000005-18' -1 5 'SYSTEM' 0 ] 1
|LsarLookupSids|policy|LookSids,1,S-1-5-21-1-2-3-544,S-1-5-32-500,S-1-5-21-1-2-3-1000,S-1-5-21-1-2-3-500-1,S-1-5-21-1-2\
    |c0000073 Names [ ] [ 8 'S-1-5-21-1-2-3-544' -1 8 'S-1-5-32-500' -1 8 'S-1-5-21-1-2-3-1000' -1 \
    8 'S-1-5-21-1-2-3-500-1' -1 8 'S-1-5-21-1-2' -1 ] 0
|LsarLookupSids|policy\
    |LookSids,1,S-1-5-21-1-2-3-500,S-1-5-21-1-2-3-501,S-1-5-21-1-2-3-512,S-1-5-21-1-2-3-513,S-1-5-21-1-2-3-514\
    |0 Names [ 'CORP' S-1-5-21-1-2-3 ] [ 1 'Administrator' 0 1 'Guest' 0 2 'Domain Admins' 0 2 'Domain Users' 0 \
    2 'Domain Guests' 0 ] 5
|LsarLookupSids|policy|LookSids,1,S-1-5-32-546,S-1-5-21-1-2-3-513,S-1-5-32-544,S-1-5-32,S-1-5-32-545,S-1-5-21-1-2-3-513\
    |0 Names [ 'BUILTIN' S-1-5-32 'CORP' S-1-5-21-1-2-3 ] \
    [ 4 'Guests' 0 2 'Domain Users' 1 4 'Administrators' 0 3 'BUILTIN' 0 4 'Users' 0 2 'Domain Users' 1 ] 6
alias,0,1000,site;alias,1,1000,site|LsarLookupSids|policy|LookSids,1,S-1-5-21-1-2-3-1000,S-1-5-32-1000\
    |0 Names [ 'CORP' S-1-5-21-1-2-3 'BUILTIN' S-1-5-32 ] [ 4 'site' 0 4 'site' 1 ] 2
user,0,4294967295,last|LsarLookupSids|policy|LookSids,1,S-1-5-21-1-2-3-4294967295,S-1-5-21-1-2-3-0\
    |107 Names [ 'CORP' S-1-5-21-1-2-3 ] [ 1 'last' 0 8 'S-1-5-21-1-2-3-0' -1 ] 1
domain,0,S-1-5-21-7-8-9,Other,,1000|LsarLookupSids|policy\
    |LookSids,1,S-1-5-21-7-8-9,S-1-5-21-7-8-9-501,S-1-5-21-1-2-3-501\
    |107 Names [ 'Other' S-1-5-21-7-8-9 ] [ 3 'Other' 0 1 'Guest' 0 8 'S-1-5-21-1-2-3-501' -1 ] 2
domain,0,S-1-5-18,CORP,,1000|LsarLookupSids|policy|LookSids,1,S-1-5-18,S-1-5-18-501\
    |0 Names [ 'NT AUTHORITY' S-1-5 'CORP' S-1-5-18 ] [ 5 'SYSTEM' 0 1 'Guest' 1 ] 2
domain,0,S-1-5-32-545,CORP,,1000|LsarLookupSids|policy|LookSids,1,S-1-5-32-545,S-1-5-32-546,S-1-5-32-545-501\
    |0 Names [ 'CORP' S-1-5-32-545 'BUILTIN' S-1-5-32 ] [ 3 'CORP' 0 4 'Guests' 1 1 'Guest' 0 ] 3
|LsarLookupSids|policy|LookSids,1|0 Names [ ] [ ] 0
|LsarLookupSids|policy|LookSids,0,S-1-5-32|c000000d Nothing
|LsarLookupSids|policy|LookSids,8,S-1-5-32|c000000d Nothing
|LsarLookupSids|policy|LookSids,65535|c000000d Nothing
|LsarLookupSids|policy|LookSids,2,S-1-5-32|0 Names [ 'BUILTIN' S-1-5-32 ] [ 3 'BUILTIN' 0 ] 1
|LsarLookupSids|policy|LookSids,3,S-1-1|c0000073 Names [ ] [ 8 'S-1-1' -1 ] 0
|LsarLookupSids|policy|LookSids,4,S-1-5-32-545|0 Names [ 'BUILTIN' S-1-5-32 ] [ 4 'Users' 0 ] 1
|LsarLookupSids|policy|LookSids,5,S-1-5-18|0 Names [ 'NT AUTHORITY' S-1-5 ] [ 5 'SYSTEM' 0 ] 1
|LsarLookupSids|policy|LookSids,6,S-1-5-21-1-2-3-501|0 Names [ 'CORP' S-1-5-21-1-2-3 ] [ 1 'Guest' 0 ] 1
|LsarLookupSids|policy|LookSids,7,S-1-1-0|0 Names [ '' S-1-1 ] [ 5 'Everyone' 0 ] 1";

/// The later operations, by the same matches. An entry of LsarLookupNames3 is the use, the SID and the index of the
/// domain. One row has an account domain whose SID has just room for a RID, the next one, whose rows aren't sound, one
/// without room.
pub const LATER: &str = "\
user,0,1000,alice|LsarLookupNames3|policy|LookNames,1,alice,nobody,Everyone\
    |107 SidRefs [ 'CORP' S-1-5-21-1-2-3 '' S-1-1 ] \
    [ 1 Some S-1-5-21-1-2-3-1000 0 8 None -1 5 Some S-1-1-0 1 ] 2
|LsarLookupNames3|policy|LookNames,1,CORP,builtin,NT AUTHORITY,corp\\\
    |0 SidRefs [ 'CORP' S-1-5-21-1-2-3 'BUILTIN' S-1-5-32 'NT AUTHORITY' S-1-5 ] \
    [ 3 Some S-1-5-21-1-2-3 0 3 Some S-1-5-32 1 3 Some S-1-5 2 3 Some S-1-5-21-1-2-3 0 ] 4
|LsarLookupNames3|policy\
    |LookNames,1,ANONYMOUS LOGON,Authenticated Users,SYSTEM,NT AUTHORITY\\system,eVERYONE\
    |0 SidRefs [ 'NT AUTHORITY' S-1-5 '' S-1-1 ] \
    [ 5 Some S-1-5-7 0 5 Some S-1-5-11 0 5 Some S-1-5-18 0 5 Some S-1-5-18 0 5 Some S-1-1-0 1 ] 5
|LsarLookupNames3|policy|LookNames,1,Administrator,Domain Admins,Administrators,BUILTIN\\Users,CORP\\Users\
    |107 SidRefs [ 'CORP' S-1-5-21-1-2-3 'BUILTIN' S-1-5-32 ] \
    [ 1 Some S-1-5-21-1-2-3-500 0 2 Some S-1-5-21-1-2-3-512 0 4 Some S-1-5-32-544 1 4 Some S-1-5-32-545 1 8 None -1 ] 4
alias,0,1000,Users|LsarLookupNames3|policy|LookNames,1,BUILTIN\\Users,Users,Users\
    |0 SidRefs [ 'BUILTIN' S-1-5-32 'CORP' S-1-5-21-1-2-3 ] \
    [ 4 Some S-1-5-32-545 0 4 Some S-1-5-21-1-2-3-1000 1 4 Some S-1-5-21-1-2-3-1000 1 ] 3
|LsarLookupNames3|policy|LookNames,1,nobody,x@y,|c0000073 SidRefs [ ] [ 8 None -1 8 None -1 8 None -1 ] 0
|LsarLookupNames3|policy|LookNames,1|0 SidRefs [ ] [ ] 0
domain,0,S-1-5-21-7-8-9,Other,,1000|LsarLookupNames3|policy|LookNames,1,Other\\Guest,other,CORP\\Guest\
    |107 SidRefs [ 'Other' S-1-5-21-7-8-9 ] [ 1 Some S-1-5-21-7-8-9-501 0 3 Some S-1-5-21-7-8-9 0 8 None -1 ] 2
domain,0,S-1-5-21-1-2-3-4-5-6-7-8-9-10-11-12-13,CORP,,1000|LsarLookupNames3|policy|LookNames,1,Guest\
    |0 SidRefs [ 'CORP' S-1-5-21-1-2-3-4-5-6-7-8-9-10-11-12-13 ] \
    [ 1 Some S-1-5-21-1-2-3-4-5-6-7-8-9-10-11-12-13-501 0 ] 1
domain,0,S-1-5-21-1-2-3-4-5-6-7-8-9-10-11-12-13-14,CORP,,1000|LsarLookupNames3|policy|LookNames,1,Guest\
    |0 SidRefs [ 'CORP' S-1-5-21-1-2-3-4-5-6-7-8-9-10-11-12-13-14 ] [ 1 None 0 ] 1
domain,0,S-1-5-18,CORP,,1000|LsarLookupNames3|policy|LookNames,1,SYSTEM,CORP,Guest\
    |0 SidRefs [ 'NT AUTHORITY' S-1-5 'CORP' S-1-5-18 ] \
    [ 5 Some S-1-5-18 0 3 Some S-1-5-18 1 1 Some S-1-5-18-501 1 ] 3
|LsarLookupNames3|policy|LookNames,0,CORP|c000000d Nothing
|LsarLookupNames3|policy|LookNames,8,CORP|c000000d Nothing
|LsarLookupNames3|policy|LookNames,7,SYSTEM|0 SidRefs [ 'NT AUTHORITY' S-1-5 ] [ 5 Some S-1-5-18 0 ] 1
user,0,1000,alice|LsarLookupNames2|policy|LookNames,1,alice,nobody,Everyone\
    |107 Sids [ 'CORP' S-1-5-21-1-2-3 '' S-1-1 ] [ 1 1000 0 8 0 -1 5 0 1 ] 2
|LsarLookupNames2|policy|LookNames,1,CORP,NT AUTHORITY\\SYSTEM,Administrators\
    |0 Sids [ 'CORP' S-1-5-21-1-2-3 'NT AUTHORITY' S-1-5 'BUILTIN' S-1-5-32 ] [ 3 4294967295 0 5 18 1 4 544 2 ] 3
|LsarLookupNames2|policy|LookNames,1,nobody|c0000073 Sids [ ] [ 8 0 -1 ] 0
|LsarLookupNames2|policy|LookNames,1|0 Sids [ ] [ ] 0
|LsarLookupNames2|policy|LookNames,0,CORP|c000000d Nothing
|LsarLookupNames2|policy|LookNames,8,CORP|c000000d Nothing
|LsarLookupNames2|policy|LookNames,7,Guest|0 Sids [ 'CORP' S-1-5-21-1-2-3 ] [ 1 501 0 ] 1
|LsarLookupSids2|policy|LookSids,1,S-1-5-21-1-2-3-500,S-1-5-32-544,S-1-5-18,S-1-5-21-9-9-9-5,S-1-5-32\
    |107 Names [ 'CORP' S-1-5-21-1-2-3 'BUILTIN' S-1-5-32 'NT AUTHORITY' S-1-5 ] \
    [ 1 'Administrator' 0 4 'Administrators' 1 5 'SYSTEM' 2 8 'S-1-5-21-9-9-9-5' -1 3 'BUILTIN' 1 ] 4
|LsarLookupSids2|policy|LookSids,1,S-1-1,S-1-1-0|107 Names [ '' S-1-1 ] [ 8 'S-1-1' -1 5 'Everyone' 0 ] 1
|LsarLookupSids2|policy|LookSids,1,S-1-1|c0000073 Names [ ] [ 8 'S-1-1' -1 ] 0
|LsarLookupSids2|policy|LookSids,1|0 Names [ ] [ ] 0
|LsarLookupSids2|policy|LookSids,0,S-1-5-32|c000000d Nothing
|LsarLookupSids2|policy|LookSids,8,S-1-5-32|c000000d Nothing
|LsarLookupSids2|policy|LookSids,7,S-1-5-32|0 Names [ 'BUILTIN' S-1-5-32 ] [ 3 'BUILTIN' 0 ] 1";

/// As many names and SIDs as one call may bring. Of the entries are told their number, the first and the last one.
pub const LARGEST: &str = "\
|LsarLookupNames|policy|LookNumbered,1,999,Guest\
    |107 [ 'CORP' S-1-5-21-1-2-3 ] 1000 [ 8 0 -1 ] [ 1 501 0 ] 1
|LsarLookupNames|policy|LookNumbered,1,999,nobody|c0000073 [ ] 1000 [ 8 0 -1 ] [ 8 0 -1 ] 0
|LsarLookupNames2|policy|LookNumbered,1,999,Guest\
    |107 [ 'CORP' S-1-5-21-1-2-3 ] 1000 [ 8 0 -1 ] [ 1 501 0 ] 1
|LsarLookupNames3|policy|LookNumbered,1,999,Guest\
    |107 [ 'CORP' S-1-5-21-1-2-3 ] 1000 [ 8 None -1 ] [ 1 Some S-1-5-21-1-2-3-501 0 ] 1
user,0,20480,last|LsarLookupSids2|policy|LookFirstSids,1,S-1-5-21-1-2-3,20480\
    |107 [ 'CORP' S-1-5-21-1-2-3 ] 20480 [ 8 'S-1-5-21-1-2-3-1' -1 ] [ 1 'last' 0 ] 6
user,0,20480,last|LsarLookupSids|policy|LookFirstSids,1,S-1-5-21-1-2-3,20480\
    |107 [ 'CORP' S-1-5-21-1-2-3 ] 20480 [ 8 'S-1-5-21-1-2-3-1' -1 ] [ 1 'last' 0 ] 6
|LsarLookupSids|policy|LookFirstSids,1,S-1-5-32,20480\
    |107 [ 'BUILTIN' S-1-5-32 ] 20480 [ 8 'S-1-5-32-1' -1 ] [ 8 'S-1-5-32-20480' -1 ] 3";
