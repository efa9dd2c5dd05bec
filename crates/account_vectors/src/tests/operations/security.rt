// Security descriptors that are read and set: what is shown, what is put, and what is refused. The object's descriptor
// has the administrators as its owner, no group and no list.
/// Parts that are named, alone and together. What isn't there isn't shown.
pub const QUERIES: &str = "\
|SamrQuerySecurityObject|server|Bits,1|0 Security Some [ 1 0 0 128 20 0 0 0 0 0 0 0 0 0 0 0 0 0 0 0 1 2 0 0 0 0 \
    0 5 32 0 0 0 32 2 0 0 ]
|SamrQuerySecurityObject|server|Bits,2|0 Security Some [ 1 0 0 128 0 0 0 0 0 0 0 0 0 0 0 0 0 0 0 0 ]
|SamrQuerySecurityObject|server|Bits,3|0 Security Some [ 1 0 0 128 20 0 0 0 0 0 0 0 0 0 0 0 0 0 0 0 1 2 0 0 0 0 \
    0 5 32 0 0 0 32 2 0 0 ]
|SamrQuerySecurityObject|server|Bits,4|0 Security Some [ 1 0 0 128 0 0 0 0 0 0 0 0 0 0 0 0 0 0 0 0 ]
|SamrQuerySecurityObject|server|Bits,5|0 Security Some [ 1 0 0 128 20 0 0 0 0 0 0 0 0 0 0 0 0 0 0 0 1 2 0 0 0 0 \
    0 5 32 0 0 0 32 2 0 0 ]
|SamrQuerySecurityObject|server|Bits,6|0 Security Some [ 1 0 0 128 0 0 0 0 0 0 0 0 0 0 0 0 0 0 0 0 ]
|SamrQuerySecurityObject|server|Bits,7|0 Security Some [ 1 0 0 128 20 0 0 0 0 0 0 0 0 0 0 0 0 0 0 0 1 2 0 0 0 0 \
    0 5 32 0 0 0 32 2 0 0 ]
|SamrQuerySecurityObject|server|Bits,0|c000000d Nothing
|SamrQuerySecurityObject|server|Bits,8|c000000d Nothing
|SamrQuerySecurityObject|server|Bits,9|c000000d Nothing
|SamrQuerySecurityObject|server|Bits,15|c000000d Nothing
|SamrQuerySecurityObject|server|Bits,16|c000000d Nothing
|SamrQuerySecurityObject|server|Bits,2147483652|c000000d Nothing
|LsarQuerySecurityObject|policy|Bits,1|0 Security Some [ 1 0 0 128 20 0 0 0 0 0 0 0 0 0 0 0 0 0 0 0 1 2 0 0 0 0 \
    0 5 32 0 0 0 32 2 0 0 ]
|LsarQuerySecurityObject|policy|Bits,0|c000000d Nothing";

/// Parts that are set, by bytes of a descriptor: a list of one entry, that allows everyone 0x20; an owner; a group; and
/// all. What isn't named stays. Then an owner that is named and isn't there, bits that name no part or another, and
/// bytes that are none of a descriptor.
pub const SETS: &str = "\
|SamrSetSecurityObject|server|Security,4,010004800000000000000000000000001400000002001c0001000000000014002000000\
    0010100000000000100000000|0 Nothing puts [ Desc Server S-1-5-32-544 None Some [ Allow 0 32 S-1-1-0 ] ] removes \
    [ ] Nothing
|SamrSetSecurityObject|server|Security,1,0100008014000000000000000000000000000000010100000000000512000000|0 \
    Nothing puts [ Desc Server S-1-5-18 None None ] removes [ ] Nothing
|SamrSetSecurityObject|server|Security,2,01000080000000001400000000000000000000000102000000000005200000002102000\
    0|0 Nothing puts [ Desc Server S-1-5-32-544 Some S-1-5-32-545 None ] removes [ ] Nothing
|SamrSetSecurityObject|server|Security,3,01000080140000002000000000000000000000000101000000000005120000000102000\
    0000000052000000021020000|0 Nothing puts [ Desc Server S-1-5-18 Some S-1-5-32-545 None ] removes [ ] Nothing
|SamrSetSecurityObject|server|Security,7,01000480140000002000000000000000300000000101000000000005120000000102000\
    00000000520000000210200000200340002000000010018001000000001020000000000052000000021020000000814003f000f000101000\
    00000000100000000|0 Nothing puts [ Desc Server S-1-5-18 Some S-1-5-32-545 Some [ Deny 0 16 S-1-5-32-545 Allow 8 \
    983103 S-1-1-0 ] ] removes [ ] Nothing
|SamrSetSecurityObject|server|Security,4,01000480140000002000000000000000300000000101000000000005120000000102000\
    00000000520000000210200000200080000000000|0 Nothing puts [ Desc Server S-1-5-32-544 None Some [ ] ] removes [ ] \
    Nothing
|SamrSetSecurityObject|server|Security,2,0100008014000000000000000000000000000000010100000000000512000000|0 \
    Nothing puts [ Desc Server S-1-5-32-544 None None ] removes [ ] Nothing
|SamrSetSecurityObject|server|Security,4,0100008014000000000000000000000000000000010100000000000512000000|0 \
    Nothing puts [ Desc Server S-1-5-32-544 None None ] removes [ ] Nothing
|SamrSetSecurityObject|server|Security,1,010004800000000000000000000000001400000002001c0001000000000014002000000\
    0010100000000000100000000|c000000d Nothing
|SamrSetSecurityObject|server|Security,5,010004800000000000000000000000001400000002001c0001000000000014002000000\
    0010100000000000100000000|c000000d Nothing
|SamrSetSecurityObject|server|Security,3,01000080000000001400000000000000000000000102000000000005200000002102000\
    0|c000000d Nothing
|SamrSetSecurityObject|server|Security,0,010004800000000000000000000000001400000002001c0001000000000014002000000\
    0010100000000000100000000|c000000d Nothing
|SamrSetSecurityObject|server|Security,8,010004800000000000000000000000001400000002001c0001000000000014002000000\
    0010100000000000100000000|c000000d Nothing
|SamrSetSecurityObject|server|Security,12,010004800000000000000000000000001400000002001c000100000000001400200000\
    00010100000000000100000000|c000000d Nothing
|SamrSetSecurityObject|server|Security,2147483652,010004800000000000000000000000001400000002001c0001000000000014\
    0020000000010100000000000100000000|c000000d Nothing
|SamrSetSecurityObject|server|Security,4,|c000000d Nothing
|SamrSetSecurityObject|server|Security,4,01000480000000000000000000000000140000|c000000d Nothing
|SamrSetSecurityObject|server|Security,4,020004800000000000000000000000001400000002001c0001000000000014002000000\
    0010100000000000100000000|c000000d Nothing
|SamrSetSecurityObject|server|Security,4,010004800000000000000000000000001400000002001c0001000000000014002000000\
    00101000000000001000000|c000000d Nothing";

/// A descriptor of each kind of objects.
pub const KINDS: &str = "\
|SamrSetSecurityObject|domain|Security,4,010004800000000000000000000000001400000002001c0001000000000014002000000\
    0010100000000000100000000|0 Nothing puts [ Desc Domain 0 S-1-5-32-544 None Some [ Allow 0 32 S-1-1-0 ] ] \
    removes [ ] Nothing
+|SamrQuerySecurityObject|domain|Bits,1|0 Security Some [ 1 0 0 128 20 0 0 0 0 0 0 0 0 0 0 0 0 0 0 0 1 2 0 0 0 \
    0 0 5 32 0 0 0 32 2 0 0 ]
|SamrSetSecurityObject|domain,1|Security,4,010004800000000000000000000000001400000002001c00010000000000140020000\
    000010100000000000100000000|0 Nothing puts [ Desc Domain 1 S-1-5-32-544 None Some [ Allow 0 32 S-1-1-0 ] ] \
    removes [ ] Nothing
+|SamrQuerySecurityObject|domain,1|Bits,1|0 Security Some [ 1 0 0 128 20 0 0 0 0 0 0 0 0 0 0 0 0 0 0 0 1 2 0 0 \
    0 0 0 5 32 0 0 0 32 2 0 0 ]
|SamrSetSecurityObject|user,500|Security,4,010004800000000000000000000000001400000002001c00010000000000140020000\
    000010100000000000100000000|0 Nothing puts [ Desc User 500 S-1-5-32-544 None Some [ Allow 0 32 S-1-1-0 ] ] \
    removes [ ] Nothing
+|SamrQuerySecurityObject|user,500|Bits,1|0 Security Some [ 1 0 0 128 20 0 0 0 0 0 0 0 0 0 0 0 0 0 0 0 1 2 0 0 \
    0 0 0 5 32 0 0 0 32 2 0 0 ]
|SamrSetSecurityObject|group,512|Security,4,010004800000000000000000000000001400000002001c0001000000000014002000\
    0000010100000000000100000000|0 Nothing puts [ Desc Group 512 S-1-5-32-544 None Some [ Allow 0 32 S-1-1-0 ] ] \
    removes [ ] Nothing
+|SamrQuerySecurityObject|group,512|Bits,1|0 Security Some [ 1 0 0 128 20 0 0 0 0 0 0 0 0 0 0 0 0 0 0 0 1 2 0 0 \
    0 0 0 5 32 0 0 0 32 2 0 0 ]
|SamrSetSecurityObject|alias,1,544|Security,4,010004800000000000000000000000001400000002001c00010000000000140020\
    000000010100000000000100000000|0 Nothing puts [ Desc Alias 1 544 S-1-5-32-544 None Some [ Allow 0 32 S-1-1-0 ] \
    ] removes [ ] Nothing
+|SamrQuerySecurityObject|alias,1,544|Bits,1|0 Security Some [ 1 0 0 128 20 0 0 0 0 0 0 0 0 0 0 0 0 0 0 0 1 2 0 \
    0 0 0 0 5 32 0 0 0 32 2 0 0 ]
|LsarSetSecurityObject|policy|Security,4,010004800000000000000000000000001400000002001c0001000000000014002000000\
    0010100000000000100000000|0 Nothing puts [ Desc Policy S-1-5-32-544 None Some [ Allow 0 32 S-1-1-0 ] ] removes \
    [ ] Nothing
lsa,S-1-5-18,0|LsarSetSecurityObject|account,S-1-5-18|Security,4,010004800000000000000000000000001400000002001c0\
    0010000000000140020000000010100000000000100000000|0 Nothing puts [ Desc Account S-1-5-18 S-1-5-32-544 None Some \
    [ Allow 0 32 S-1-1-0 ] ] removes [ ] Nothing
+|LsarQuerySecurityObject|account,S-1-5-18|Bits,1|0 Security Some [ 1 0 0 128 20 0 0 0 0 0 0 0 0 0 0 0 0 0 0 0 \
    1 2 0 0 0 0 0 5 32 0 0 0 32 2 0 0 ]";

/// Lists of 800 and of 801 entries.
pub const LONG: &str = "\
|SamrSetSecurityObject|server|Security,4,01000480000000000000000000000000140000000200883e20030000\
    <1-800:0000140020000000010100000000000100000000>|0 Nothing puts [ Desc Server \
    S-1-5-32-544 None Some [ <1-800:Allow 0 32 S-1-1-0 >] ] removes [ ] Nothing
|SamrSetSecurityObject|server|Security,4,010004800000000000000000000000001400000002009c3e21030000\
    <1-801:0000140020000000010100000000000100000000>|c000000d Nothing";
