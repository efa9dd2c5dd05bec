// The mappings as the standards print them. The constants themselves are tied to the tables by laws.
use acct_codes::{Kind, mapping_of, valid_bits};

#[test]
fn mappings_are_those_of_the_standards(rt: HostRuntime) {
    assert!(rt; mapping_of(Kind::User).read == 0x0002_031A);
    assert!(rt; mapping_of(Kind::Domain).execute == 0x0002_0301);
    assert!(rt; mapping_of(Kind::Policy).write == 0x0002_07F8);
    assert!(rt; valid_bits(Kind::Server) == 0x000F_003F);
}
