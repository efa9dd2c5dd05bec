// Deletions from the first rows, to which some are added: which are refused, and which keys go.
/// Its descriptor goes, what names the account, and every handle to it.
pub const DELETIONS: &str = "\
|SamrDeleteUser|user,500|Nothing|c0000124 Nothing
|SamrDeleteUser|user,501|Nothing|c0000124 Nothing
|SamrDeleteGroup|group,512|Nothing|c0000124 Nothing
|SamrDeleteGroup|group,513|Nothing|c0000124 Nothing
|SamrDeleteGroup|group,514|Nothing|c0000124 Nothing
|SamrDeleteAlias|alias,1,544|Nothing|c0000124 Nothing
group,0,999,999|SamrDeleteGroup|group,999|Nothing|c0000124 Nothing
group,0,1000,1000|SamrDeleteGroup|group,1000|Nothing\
    |0 Handle Handle 0 puts [ ] removes [ Desc Group 1000 Account 0 1000 ] Deletes Group 1000
group,0,1000,1000;user,0,1001,1001,,,0,1000;member,1000,1001,7|SamrDeleteGroup|group,1000|Nothing|c0000127 Nothing
group,0,1000,1000;user,0,1001,1001,,,0,513;member,1000,1001,7|SamrDeleteGroup|group,1000|Nothing\
    |0 Handle Handle 0 puts [ ] removes [ Desc Group 1000 Member 1000 1001 Account 0 1000 ] Deletes Group 1000
group,0,1000,1000;member,1000,500,7;member,1000,501,7|SamrDeleteGroup|group,1000|Nothing\
    |0 Handle Handle 0 puts [ ] removes [ Desc Group 1000 Member 1000 500 Member 1000 501 Account 0 1000 ] \
    Deletes Group 1000
group,0,1000,1000;sid,1,544,S-1-5-21-1-2-3-1000|SamrDeleteGroup|group,1000|Nothing\
    |0 Handle Handle 0 puts [ ] removes [ Desc Group 1000 Alias 1 544 S-1-5-21-1-2-3-1000 Account 0 1000 ] \
    Deletes Group 1000
user,0,1000,1000,,,0,513;member,513,1000,7|SamrDeleteUser|user,1000|Nothing\
    |0 Handle Handle 0 puts [ ] removes [ Desc User 1000 Member 513 1000 Account 0 1000 ] Deletes User 1000
user,0,1000,1000,,,0,513;member,512,1000,7;member,513,1000,7|SamrDeleteUser|user,1000|Nothing\
    |0 Handle Handle 0 puts [ ] removes [ Desc User 1000 Member 512 1000 Member 513 1000 Account 0 1000 ] \
    Deletes User 1000
user,0,1000,1000,,,0,513;user,0,1001,1001,,,0,513;member,513,1000,7;member,513,1001,7|SamrDeleteUser|user,1001|Nothing\
    |0 Handle Handle 0 puts [ ] removes [ Desc User 1001 Member 513 1001 Account 0 1001 ] Deletes User 1001
user,0,1000,1000,,,0,513;sid,1,545,S-1-5-21-1-2-3-1000|SamrDeleteUser|user,1000|Nothing\
    |0 Handle Handle 0 puts [ ] removes [ Desc User 1000 Alias 1 545 S-1-5-21-1-2-3-1000 Account 0 1000 ] \
    Deletes User 1000
user,0,1000,1000,,,0,513;alias,0,1001,1001;sid,0,1001,S-1-5-21-1-2-3-1000;sid,1,544,S-1-5-21-1-2-3-1000|SamrDeleteUser\
    |user,1000|Nothing|0 Handle Handle 0 puts [ ] removes [ Desc User 1000 Alias 0 1001 S-1-5-21-1-2-3-1000 \
    Alias 1 544 S-1-5-21-1-2-3-1000 Account 0 1000 ] Deletes User 1000
user,0,1000,1000,,,0,513;sid,1,544,S-1-5-21-1-2-4-1000;sid,1,544,S-1-5-21-1-2-3-1001|SamrDeleteUser|user,1000|Nothing\
    |0 Handle Handle 0 puts [ ] removes [ Desc User 1000 Account 0 1000 ] Deletes User 1000
alias,0,1001,1001;sid,0,1001,S-1-1-0;sid,0,1001,S-1-5-18|SamrDeleteAlias|alias,0,1001|Nothing\
    |0 Handle Handle 0 puts [ ] removes [ Desc Alias 0 1001 Alias 0 1001 S-1-1-0 Alias 0 1001 S-1-5-18 \
    Account 0 1001 ] Deletes Alias 0 1001
alias,0,1001,1001;alias,0,1002,1002;sid,0,1002,S-1-1-0;sid,0,1002,S-1-5-21-1-2-3-1001|SamrDeleteAlias|alias,0,1001\
    |Nothing|0 Handle Handle 0 puts [ ] removes [ Desc Alias 0 1001 Alias 0 1002 S-1-5-21-1-2-3-1001 Account 0 1001 ] \
    Deletes Alias 0 1001
user,0,1000,1000,,,0,513;member,513,1000,7;alias,1,1000,1000;sid,1,544,S-1-5-32-1000;sid,1,544,S-1-5-21-1-2-3-1000\
    |SamrDeleteAlias|alias,1,1000|Nothing\
    |0 Handle Handle 0 puts [ ] removes [ Desc Alias 1 1000 Alias 1 544 S-1-5-32-1000 Account 1 1000 ] \
    Deletes Alias 1 1000
alias,0,1000,1000;alias,1,1000,1000;sid,0,1000,S-1-1-0;sid,1,1000,S-1-1-0|SamrDeleteAlias|alias,1,1000|Nothing\
    |0 Handle Handle 0 puts [ ] removes [ Desc Alias 1 1000 Alias 1 1000 S-1-1-0 Account 1 1000 ] Deletes Alias 1 1000";
