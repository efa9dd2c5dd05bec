// The domains and accounts that Windows and Samba make (MS-SAMR 3.1.4.2): looked for, listed and opened.
/// On the first rows alone. CORP costs 20 of a page, BUILTIN 26.
pub const FIRST_ROWS: &str = "\
|SamrLookupDomainInSamServer|server|OneName,CORP|0 OneSid Some S-1-5-21-1-2-3
|SamrLookupDomainInSamServer|server|OneName,corp|0 OneSid Some S-1-5-21-1-2-3
|SamrLookupDomainInSamServer|server|OneName,Builtin|0 OneSid Some S-1-5-32
|SamrLookupDomainInSamServer|server|OneName,NT AUTHORITY|c00000df Nothing
|SamrLookupDomainInSamServer|server|OneName,|c00000df Nothing
|SamrEnumerateDomainsInSamServer|server|Page,0,0,0|105 Page 1 Some [ 0 'CORP' ]
|SamrEnumerateDomainsInSamServer|server|Page,0,0,45|105 Page 1 Some [ 0 'CORP' ]
|SamrEnumerateDomainsInSamServer|server|Page,0,0,46|0 Page 2 Some [ 0 'CORP' 0 'BUILTIN' ]
|SamrEnumerateDomainsInSamServer|server|Page,0,0,65535|0 Page 2 Some [ 0 'CORP' 0 'BUILTIN' ]
|SamrEnumerateDomainsInSamServer|server|Page,0,0,4294967295|0 Page 2 Some [ 0 'CORP' 0 'BUILTIN' ]
|SamrEnumerateDomainsInSamServer|server|Page,1,0,0|0 Page 2 Some [ 0 'BUILTIN' ]
|SamrEnumerateDomainsInSamServer|server|Page,2,0,46|0 Page 2 Some [ ]
|SamrEnumerateDomainsInSamServer|server|Page,3,0,46|0 Page 3 Some [ ]
|SamrEnumerateDomainsInSamServer|server|Page,4294967295,0,46|0 Page 4294967295 Some [ ]
|SamrOpenDomain|server|AccessSid,31,S-1-5-21-1-2-3|0 Handle Handle 0 puts [ ] removes [ ] Opens Domain 0 31
|SamrOpenDomain|server|AccessSid,31,S-1-5-32|0 Handle Handle 0 puts [ ] removes [ ] Opens Domain 1 31
|SamrOpenDomain|server|AccessSid,31,S-1-5-21-1-2-4|c00000df Nothing
|SamrLookupNamesInDomain|domain,0|NameList,Administrator,nobody,GUEST|107 RidUses [ 500 0 501 ] [ 1 8 1 ]
|SamrLookupNamesInDomain|domain,0|NameList,nobody|c0000073 RidUses [ 0 ] [ 8 ]
|SamrLookupNamesInDomain|domain,0|NameList,|0 RidUses [ ] [ ]
|SamrLookupNamesInDomain|domain,0|NameList,Domain Users,domain users|0 RidUses [ 513 513 ] [ 2 2 ]
|SamrLookupNamesInDomain|domain,1|NameList,Administrators,Administrator|107 RidUses [ 544 0 ] [ 4 8 ]
|SamrLookupNamesInDomain|domain,1|NameList,Domain Users|c0000073 RidUses [ 0 ] [ 8 ]
|SamrLookupIdsInDomain|domain,0|RidList,512,999,500|107 NameUses [ 'Domain Admins' '' 'Administrator' ] [ 2 8 1 ]
|SamrLookupIdsInDomain|domain,0|RidList,544|c0000073 NameUses [ '' ] [ 8 ]
|SamrLookupIdsInDomain|domain,0|RidList,|0 NameUses [ ] [ ]
|SamrLookupIdsInDomain|domain,1|RidList,546,545|0 NameUses [ 'Guests' 'Users' ] [ 4 4 ]
|SamrOpenUser|domain,0|AccessRid,31,500|0 Handle Handle 0 puts [ ] removes [ ] Opens User 500 31
|SamrOpenUser|domain,0|AccessRid,31,512|c0000064 Nothing
|SamrOpenUser|domain,1|AccessRid,31,500|c0000064 Nothing
|SamrOpenUser|domain,1|AccessRid,31,544|c0000064 Nothing
|SamrOpenGroup|domain,0|AccessRid,31,512|0 Handle Handle 0 puts [ ] removes [ ] Opens Group 512 31
|SamrOpenGroup|domain,0|AccessRid,31,500|c0000066 Nothing
|SamrOpenGroup|domain,1|AccessRid,31,512|c0000066 Nothing
|SamrOpenGroup|domain,1|AccessRid,31,544|c0000066 Nothing
|SamrOpenAlias|domain,1|AccessRid,31,544|0 Handle Handle 0 puts [ ] removes [ ] Opens Alias 1 544 31
|SamrOpenAlias|domain,0|AccessRid,31,544|c0000151 Nothing
|SamrOpenAlias|domain,1|AccessRid,31,500|c0000151 Nothing
|SamrRidToSid|domain,0|Rid,4000|0 OneSid Some S-1-5-21-1-2-3-4000
|SamrRidToSid|user,500|Rid,4000|0 OneSid Some S-1-5-21-1-2-3-4000
|SamrRidToSid|alias,1,544|Rid,4000|0 OneSid Some S-1-5-32-4000";
