// Members of the first rows' groups and aliases, to which some are added: what is refused, what changes and what is
// listed.
/// Members of groups are users of the account domain with their attributes, members of aliases are SIDs. The last row
/// asks for the aliases of 1,024 SIDs.
pub const MEMBERS: &str = "\
|SamrAddMemberToGroup|group,512|RidBits,501,7|0 Nothing puts [ Member 512 501 7 ] removes [ ] Nothing
|SamrAddMemberToGroup|group,512|RidBits,501,4294967295|0 Nothing puts [ Member 512 501 4294967295 ] removes [ ] Nothing
|SamrAddMemberToGroup|group,514|RidBits,500,0|0 Nothing puts [ Member 514 500 0 ] removes [ ] Nothing
|SamrAddMemberToGroup|group,512|RidBits,500,7|c0000067 Nothing
|SamrAddMemberToGroup|group,512|RidBits,502,7|c0000064 Nothing
|SamrAddMemberToGroup|group,512|RidBits,513,7|c0000064 Nothing
|SamrAddMemberToGroup|group,512|RidBits,544,7|c0000064 Nothing
alias,1,1000,1000|SamrAddMemberToGroup|group,512|RidBits,1000,7|c0000064 Nothing
alias,0,1000,1000|SamrAddMemberToGroup|group,512|RidBits,1000,7|c0000064 Nothing
|SamrRemoveMemberFromGroup|group,512|Rid,500|0 Nothing puts [ ] removes [ Member 512 500 ] Nothing
|SamrRemoveMemberFromGroup|group,513|Rid,500|c0000127 Nothing
|SamrRemoveMemberFromGroup|group,514|Rid,500|c0000068 Nothing
|SamrRemoveMemberFromGroup|group,512|Rid,502|c0000064 Nothing
|SamrRemoveMemberFromGroup|group,512|Rid,512|c0000064 Nothing
|SamrGetMembersInGroup|group,512|Nothing|0 Pairs Some [ 500 7 ]
|SamrGetMembersInGroup|group,514|Nothing|0 Pairs Some [ 501 7 ]
|SamrGetMembersInGroup|group,515|Nothing|0 Pairs Some [ ]
member,512,501,5|SamrGetMembersInGroup|group,512|Nothing|0 Pairs Some [ 500 7 501 5 ]
member,512,499,0;member,512,501,5|SamrGetMembersInGroup|group,512|Nothing|0 Pairs Some [ 499 0 500 7 501 5 ]
|SamrGetGroupsForUser|user,500|Nothing|0 Pairs Some [ 512 7 513 7 ]
|SamrGetGroupsForUser|user,501|Nothing|0 Pairs Some [ 514 7 ]
|SamrGetGroupsForUser|user,512|Nothing|0 Pairs Some [ ]
member,512,501,5|SamrGetGroupsForUser|user,501|Nothing|0 Pairs Some [ 512 5 514 7 ]
|SamrAddMemberToAlias|alias,1,544|OneSid,S-1-5-18|0 Nothing puts [ Alias 1 544 S-1-5-18 ] removes [ ] Nothing
|SamrAddMemberToAlias|alias,1,545|OneSid,S-1-5-21-1-2-3-500\
    |0 Nothing puts [ Alias 1 545 S-1-5-21-1-2-3-500 ] removes [ ] Nothing
|SamrAddMemberToAlias|alias,0,544|OneSid,S-1-5-21-1-2-3-500\
    |0 Nothing puts [ Alias 0 544 S-1-5-21-1-2-3-500 ] removes [ ] Nothing
|SamrAddMemberToAlias|alias,1,544|OneSid,S-1-5-21-1-2-3-500|c0000153 Nothing
sid,1,544,S-1-5-18|SamrAddMemberToAlias|alias,1,544|OneSid,S-1-5-18|c0000153 Nothing
|SamrRemoveMemberFromAlias|alias,1,544|OneSid,S-1-5-21-1-2-3-500\
    |0 Nothing puts [ ] removes [ Alias 1 544 S-1-5-21-1-2-3-500 ] Nothing
|SamrRemoveMemberFromAlias|alias,1,545|OneSid,S-1-5-21-1-2-3-500|c0000152 Nothing
|SamrRemoveMemberFromAlias|alias,0,544|OneSid,S-1-5-21-1-2-3-500|c0000152 Nothing
|SamrRemoveMemberFromAlias|alias,1,544|OneSid,S-1-5-18|c0000152 Nothing
sid,1,544,S-1-5-18|SamrRemoveMemberFromAlias|alias,1,544|OneSid,S-1-5-18\
    |0 Nothing puts [ ] removes [ Alias 1 544 S-1-5-18 ] Nothing
|SamrGetMembersInAlias|alias,1,545|Nothing|0 SidList [ S-1-5-21-1-2-3-513 ]
|SamrGetMembersInAlias|alias,1,544|Nothing|0 SidList [ S-1-5-21-1-2-3-500 S-1-5-21-1-2-3-512 ]
|SamrGetMembersInAlias|alias,0,544|Nothing|0 SidList [ ]
sid,1,545,S-1-5-18;sid,1,545,S-1-1-0;sid,0,545,S-1-5-32|SamrGetMembersInAlias|alias,1,545|Nothing\
    |0 SidList [ S-1-1-0 S-1-5-18 S-1-5-21-1-2-3-513 ]
|SamrGetAliasMembership|domain,1|SidList,S-1-5-21-1-2-3-500,S-1-5-21-1-2-3-513,S-1-5-21-1-2-3-500,S-1-5-18\
    |0 RidList [ 544 545 ]
|SamrGetAliasMembership|domain,1|SidList,S-1-5-21-1-2-3-512,S-1-5-21-1-2-3-500|0 RidList [ 544 ]
|SamrGetAliasMembership|domain,1|SidList,S-1-5-21-1-2-3-501,S-1-5-21-1-2-3-500|0 RidList [ 544 546 ]
|SamrGetAliasMembership|domain,1|SidList,|0 RidList [ ]
|SamrGetAliasMembership|domain,1|SidList,S-1-5-18|0 RidList [ ]
|SamrGetAliasMembership|domain,0|SidList,S-1-5-21-1-2-3-500|0 RidList [ ]
sid,0,1000,S-1-5-18;sid,1,546,S-1-5-18|SamrGetAliasMembership|domain,0|SidList,S-1-5-18|0 RidList [ 1000 ]
|SamrGetAliasMembership|domain,1|FirstSids,S-1-5-21-1-2-3,1024|0 RidList [ 544 545 546 ]";
