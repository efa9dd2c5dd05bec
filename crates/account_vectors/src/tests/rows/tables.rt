// What is done to the rows of the account domain CORP, S-1-5-21-1-2-3; what is asked of them then; and the answer.

/// The accounts that Windows and Samba make in each domain (MS-SAMR 3.1.4.2): Guest is disabled and needs no password.
/// A domain is told by its SID, its name, its OEM information and its next RID; an account by its kind, its bits, its
/// primary group, its name, its full name and its comment.
pub const SEED: &str = "\
| domain 0 | S-1-5-21-1-2-3 CORP;;1000
| domain 1 | S-1-5-32 BUILTIN;;1000
| domain 2 |
| accounts | 0-500 0-501 0-512 0-513 0-514 1-544 1-545 1-546
| account 0 500 | User 16 513 Administrator;;;
| account 0 501 | User 21 514 Guest;;;
| account 0 512 | Group 7 0 Domain Admins;;;
| account 0 513 | Group 7 0 Domain Users;;;
| account 0 514 | Group 7 0 Domain Guests;;;
| account 1 544 | Alias 0 0 Administrators;;;
| account 1 545 | Alias 0 0 Users;;;
| account 1 546 | Alias 0 0 Guests;;;
| account 0 544 |
| account 1 500 |
| members | 512-500-7 513-500-7 514-501-7
| aliases | 1-544-S-1-5-21-1-2-3-500 1-544-S-1-5-21-1-2-3-512 1-545-S-1-5-21-1-2-3-513 \
1-546-S-1-5-21-1-2-3-501 1-546-S-1-5-21-1-2-3-514
| policies |";

/// A name is found in any case by simple folding, in its own domain.
pub const NAMES: &str = "\
| named 0 administrator | 500
| named 0 DOMAIN users | 513
| named 0 Administrators |
| named 1 ADMINISTRATORS | 544
| named 1 administrator |
put group 1000 Kelvin | named 0 \u{212A}ELVIN | 1000
put group 1000 Kelvin | named 0 Kelvi |
put group 1000 STRA\u{1E9E}E | named 0 stra\u{DF}e | 1000
put group 1000 STRA\u{1E9E}E | named 0 strasse |
put group 1000 \u{1E9E}x | named 0 \u{DF}X | 1000
put group 1001 Two; put group 1000 TWO | named 0 two | 1000";

/// A row that is put stands in its place, in place of the one with its key; one that is removed is gone.
pub const CHANGES: &str = "\
put group 513 Users | account 0 513 | Group 7 0 Users;;;
put group 513 Users | accounts | 0-500 0-501 0-512 0-513 0-514 1-544 1-545 1-546
put group 1000 A; put group 600 B | accounts | 0-500 0-501 0-512 0-513 0-514 0-600 0-1000 1-544 1-545 1-546
remove account 501 | accounts | 0-500 0-512 0-513 0-514 1-544 1-545 1-546
remove account 1000 | accounts | 0-500 0-501 0-512 0-513 0-514 1-544 1-545 1-546
remove domain 0 | domain 0 |
remove domain 0 | domain 1 | S-1-5-32 BUILTIN;;1000
put member 513 501; remove member 513 500 | members | 512-500-7 513-501-7 514-501-7
put member 513 501 | member 513 501 | Some(MemberRow { group: 513, user: 501, attributes: 7 })
put member 513 501 | member 501 513 | None
put alias 545 S-1-1-0 | having 1 S-1-1-0 | [545]
put alias 545 S-1-1-0; remove alias 545 S-1-1-0 | having 1 S-1-1-0 | []
put policy S-1-1-0 | policy S-1-1-0 | 1 5-3
put policy S-1-1-0 | policy S-1-1-1 |
put policy S-1-1-0; remove policy S-1-1-0 | policies |
put policy S-1-5-32-544; put policy S-1-16-0; put policy S-1-5-32; put policy S-1-5-4294967295; put policy S-1-1-0 \
| policies | S-1-1-0 S-1-5-32 S-1-5-32-544 S-1-5-4294967295 S-1-16-0";

/// The members of a group, and the aliases that have some SIDs as members, each once.
pub const MEMBERS: &str = "\
| of 513 | 513-500-7
| of 515 |
put member 513 501; put member 0 7; put member 4294967295 8 | of 513 | 513-500-7 513-501-7
put member 513 501; put member 0 7; put member 4294967295 8 | of 0 | 0-7-7
put member 513 501; put member 0 7; put member 4294967295 8 | of 4294967295 | 4294967295-8-7
| having 1 S-1-5-21-1-2-3-512 S-1-5-21-1-2-3-500 | [544]
| having 1 S-1-5-21-1-2-3-501 S-1-5-21-1-2-3-500 | [544, 546]
| having 1 S-1-5-21-1-2-3-500 S-1-5-21-1-2-3-513 S-1-5-21-1-2-3-500 S-1-5-18 | [544, 545]
| having 0 S-1-5-21-1-2-3-501 S-1-5-21-1-2-3-500 | []
| having 1 S-1-5-21-1-2-3-544 S-1-5-21-1-2-3-1000 | []
| having 1 | []";

/// A group is a primary one while it is that of a user; other accounts have none, and the number 0.
pub const PRIMARIES: &str = "\
| primary 513 | true
| primary 514 | true
| primary 512 | false
| primary 0 | false
put user 1000 0 | primary 0 | true
put user 1000 512 | primary 512 | true
put user 1000 512 | primary 511 | false
put user 1000 512; copy | primary 512 | true
put user 1000 512; put user 1000 513 | primary 512 | false
put user 1000 512; put group 1000 A | primary 512 | false
put user 1000 512; remove account 1000 | primary 512 | false
put user 1000 512; put user 1001 512; remove account 1000 | primary 512 | true
put user 1000 4294967295 | primary 4294967295 | true
remove account 500 | primary 513 | false";

/// The member rows that have an account as a group or a user, and the alias rows that are of it or have its SID, each
/// once: below those of the group or the alias, those of it, and above them.
pub const NAMING: &str = "\
| naming 0 513 S-1-5-21-1-2-3-513 | 513-500 1-545-S-1-5-21-1-2-3-513
| naming 0 500 S-1-5-21-1-2-3-500 | 512-500 513-500 1-544-S-1-5-21-1-2-3-500
| naming 1 544 S-1-5-32-544 | 1-544-S-1-5-21-1-2-3-500 1-544-S-1-5-21-1-2-3-512
| naming 1 513 S-1-5-32-513 |
| naming 0 515 S-1-5-21-1-2-3-515 |
put member 513 501; remove member 514 501 | naming 0 501 S-1-5-21-1-2-3-501 | 513-501 1-546-S-1-5-21-1-2-3-501
put member 512 513; put member 513 501; put member 513 513; put member 514 513 | naming 0 513 S-1-1-0 \
| 512-513 513-500 513-501 513-513 514-513
put alias 544 S-1-5-32-545; put alias 545 S-1-5-32-545; put alias 545 S-1-1-0; put alias 546 S-1-5-32-545 \
| naming 1 545 S-1-5-32-545 | 1-544-S-1-5-32-545 1-545-S-1-1-0 1-545-S-1-5-21-1-2-3-513 1-545-S-1-5-32-545 \
1-546-S-1-5-32-545
put alias 544 S-1-5-32-545; put alias 546 S-1-5-32-545; put alias 546 S-1-5-32-544 | naming 0 545 S-1-5-32-545 \
| 1-544-S-1-5-32-545 1-546-S-1-5-32-545";

/// An object has its own descriptor, of which the owner is told; those of all objects ascend by kind, domain and RID.
pub const DESCRIPTORS: &str = "\
| descriptors |
| described server |
put desc server S-1-1-0 | described server | S-1-1-0
put desc server S-1-1-0 | described policy |
put desc server S-1-1-0; put desc server S-1-5-18 | described server | S-1-5-18
put desc server S-1-1-0; put desc server S-1-5-18 | descriptors | Server-0-0
put desc group,500 S-1-1-0 | described user,500 |
put desc alias,0,544 S-1-1-0 | described alias,1,544 |
put desc account,S-1-5-18 S-1-1-0 | described account,S-1-5-18 | S-1-1-0
put desc account,S-1-5-18 S-1-1-0 | described account,S-1-5-19 |
put desc account,S-1-1-0 S-1-1-0; put desc policy S-1-1-0; put desc user,500 S-1-1-0; put desc alias,1,544 S-1-1-0; \
put desc alias,0,1000 S-1-1-0; put desc group,513 S-1-1-0; put desc group,512 S-1-1-0; put desc domain,1 S-1-1-0; \
put desc domain,0 S-1-1-0; put desc server S-1-1-0 | descriptors | Server-0-0 Domain-0-0 Domain-1-0 Group-0-512 \
Group-0-513 Alias-0-1000 Alias-1-544 User-0-500 Policy-0-0 Account-0-0
put desc server S-1-1-0; put desc policy S-1-5-18; remove desc server | descriptors | Policy-0-0
put desc server S-1-1-0; remove desc policy | described server | S-1-1-0
put desc user,500 S-1-1-0; remove account 500 | described user,500 | S-1-1-0
put desc user,500 S-1-1-0; copy | described user,500 | S-1-1-0";

/// Each change of an account takes the next number; one that is taken out gives none back.
pub const OUTS: &str = "\
| outs |
| next | 1
| out 1 |
put out alice 1000 | outs | 1-1-0-1000-User-alice;
put out alice 1000; put out bob 1001 | outs | 1-1-0-1000-User-alice;2-1-0-1001-User-bob;
put out alice 1000; put out bob 1001 | out 2 | 2-1-0-1001-User-bob;
put out alice 1000; put out bob 1001 | next | 3
put out alice 1000; put out bob 1001; remove out 1 | outs | 2-1-0-1001-User-bob;
put out alice 1000; remove out 1 | next | 2
put out alice 1000; remove out 1; put out bob 1001 | outs | 2-1-0-1001-User-bob;
put out alice 1000; remove out 2 | outs | 1-1-0-1000-User-alice;
put out alice 1000; put group 1000 A | next | 2
put out alice 1000; copy; put out bob 1001 | outs | 1-1-0-1000-User-alice;2-1-0-1001-User-bob;";

/// A copy is told as what it was copied from, and a plan removes before it puts.
pub const PLANS: &str = "\
copy | members | 512-500-7 513-500-7 514-501-7
put policy S-1-1-0; copy | policy S-1-1-0 | 1 5-3
put group 1000 Kelvin; copy; put group 1001 B | named 0 kelvin | 1000
copy; remove account 501 | accounts | 0-500 0-512 0-513 0-514 1-544 1-545 1-546
plan | accounts | 0-500 0-512 0-513 0-514 1-544 1-545 1-546
plan | account 0 513 | Group 7 0 Users;;;";
