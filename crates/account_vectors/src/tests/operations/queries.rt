// What domains and accounts show, class by class.
/// The first rows have no full names, comments and OEM information; the user alice, the group staff and the alias site
/// have all texts. A group shows its name, its attributes, the number of its members and its comment.
pub const CLASSES: &str = "\
user,0,1000,alice,Alice A,first,21,513;member,513,1000,7;group,0,1001,staff,,everyone,3;alias,0,1002,site,,this one;\
    sid,0,1002,S-1-5-21-1-2-3-500|SamrQueryInformationDomain|domain,0|Class,4|0 Shown 4 Some Text ''
+|SamrQueryInformationDomain|domain,0|Class,5|0 Shown 5 Some Text 'CORP'
+|SamrQueryInformationDomain|domain,1|Class,4|0 Shown 4 Some Text ''
+|SamrQueryInformationDomain|domain,1|Class,5|0 Shown 5 Some Text 'BUILTIN'
+|SamrQueryInformationDomain|domain,0|Class,0|c0000003 Nothing
+|SamrQueryInformationDomain|domain,0|Class,1|c0000003 Nothing
+|SamrQueryInformationDomain|domain,0|Class,2|c0000003 Nothing
+|SamrQueryInformationDomain|domain,0|Class,3|c0000003 Nothing
+|SamrQueryInformationDomain|domain,0|Class,6|c0000003 Nothing
+|SamrQueryInformationDomain|domain,0|Class,65535|c0000003 Nothing
+|SamrQueryInformationGroup|group,512|Class,1|0 Shown 1 Some Group 'Domain Admins' 7 1 ''
+|SamrQueryInformationGroup|group,513|Class,1|0 Shown 1 Some Group 'Domain Users' 7 2 ''
+|SamrQueryInformationGroup|group,514|Class,1|0 Shown 1 Some Group 'Domain Guests' 7 1 ''
+|SamrQueryInformationGroup|group,514|Class,2|0 Shown 2 Some Text 'Domain Guests'
+|SamrQueryInformationGroup|group,514|Class,3|0 Shown 3 Some Number 7
+|SamrQueryInformationGroup|group,514|Class,4|0 Shown 4 Some Text ''
+|SamrQueryInformationGroup|group,1001|Class,1|0 Shown 1 Some Group 'staff' 3 0 'everyone'
+|SamrQueryInformationGroup|group,1001|Class,2|0 Shown 2 Some Text 'staff'
+|SamrQueryInformationGroup|group,1001|Class,3|0 Shown 3 Some Number 3
+|SamrQueryInformationGroup|group,1001|Class,4|0 Shown 4 Some Text 'everyone'
+|SamrQueryInformationGroup|group,512|Class,0|c0000003 Nothing
+|SamrQueryInformationGroup|group,512|Class,5|c0000003 Nothing
+|SamrQueryInformationGroup|group,512|Class,16|c0000003 Nothing
+|SamrQueryInformationAlias|alias,1,544|Class,1|0 Shown 1 Some Alias 'Administrators' 2 ''
+|SamrQueryInformationAlias|alias,1,545|Class,1|0 Shown 1 Some Alias 'Users' 1 ''
+|SamrQueryInformationAlias|alias,1,546|Class,1|0 Shown 1 Some Alias 'Guests' 2 ''
+|SamrQueryInformationAlias|alias,1,546|Class,2|0 Shown 2 Some Text 'Guests'
+|SamrQueryInformationAlias|alias,1,546|Class,3|0 Shown 3 Some Text ''
+|SamrQueryInformationAlias|alias,0,1002|Class,1|0 Shown 1 Some Alias 'site' 1 'this one'
+|SamrQueryInformationAlias|alias,0,1002|Class,2|0 Shown 2 Some Text 'site'
+|SamrQueryInformationAlias|alias,0,1002|Class,3|0 Shown 3 Some Text 'this one'
+|SamrQueryInformationAlias|alias,1,544|Class,0|c0000003 Nothing
+|SamrQueryInformationAlias|alias,1,544|Class,4|c0000003 Nothing
+|SamrQueryInformationAlias|alias,1,544|Class,65535|c0000003 Nothing
+|SamrQueryInformationUser|user,500|Class,1|0 Shown 1 Some User 'Administrator' '' 513 ''
+|SamrQueryInformationUser|user,500|Class,6|0 Shown 6 Some TwoTexts 'Administrator' ''
+|SamrQueryInformationUser|user,500|Class,9|0 Shown 9 Some Number 513
+|SamrQueryInformationUser|user,500|Class,16|0 Shown 16 Some Number 16
+|SamrQueryInformationUser|user,501|Class,9|0 Shown 9 Some Number 514
+|SamrQueryInformationUser|user,501|Class,16|0 Shown 16 Some Number 21
+|SamrQueryInformationUser|user,1000|Class,1|0 Shown 1 Some User 'alice' 'Alice A' 513 'first'
+|SamrQueryInformationUser|user,1000|Class,6|0 Shown 6 Some TwoTexts 'alice' 'Alice A'
+|SamrQueryInformationUser|user,1000|Class,7|0 Shown 7 Some Text 'alice'
+|SamrQueryInformationUser|user,1000|Class,8|0 Shown 8 Some Text 'Alice A'
+|SamrQueryInformationUser|user,1000|Class,9|0 Shown 9 Some Number 513
+|SamrQueryInformationUser|user,1000|Class,13|0 Shown 13 Some Text 'first'
+|SamrQueryInformationUser|user,1000|Class,16|0 Shown 16 Some Number 21
+|SamrQueryInformationUser|user,1000|Class,0|c0000003 Nothing
+|SamrQueryInformationUser|user,1000|Class,2|c0000003 Nothing
+|SamrQueryInformationUser|user,1000|Class,5|c0000003 Nothing
+|SamrQueryInformationUser|user,1000|Class,10|c0000003 Nothing
+|SamrQueryInformationUser|user,1000|Class,12|c0000003 Nothing
+|SamrQueryInformationUser|user,1000|Class,14|c0000003 Nothing
+|SamrQueryInformationUser|user,1000|Class,17|c0000003 Nothing
+|SamrQueryInformationUser|user,1000|Class,65535|c0000003 Nothing";
