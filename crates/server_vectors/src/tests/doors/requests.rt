// Requests of operations that are served, and of others.
use crate::tests::lines::column;
use acct_machine::{Call, Face};
use acct_stubs::WireError;
use link_sessions::read_request;
use std::alloc::Global;
use std::process::Abort;
use std::test::Fail;

/// Each row: the interface, the opnum, the stub, and its call or why it is none. The stubs of LsarOpenPolicy2 are
/// Samba's; the handle is the first of the first connection. The last rows are of stubs that are cut, of operations
/// that are never served, with stubs that aren't read, and of opnums that the other interface has.
const REQUESTS: &str = "samr|57|0000000031000000|0 Access(49)
samr|57|0000000001|BadStub(4)
samr|1|000000000000000000000100000000000000000109|18446744073709551617 Nothing
lsa|44|0000000018000000000000000000000000000000000000000000000000000002|0 Policy { rooted: false, access: 33554432 }
lsa|44|000000001800000000000200000000000000000000000000000000000000000000000002\
|0 Policy { rooted: true, access: 33554432 }
lsa|44|00000000180000000000000000000000000000000000000000000000|BadStub(28)
lsa|0|0000000000000000000001000000000000000001|18446744073709551617 Nothing
samr|8|00|BadStub(0)
samr|4|00|NotServed(4)
samr|44|0000000018000000000000000000000000000000000000000000000000000002|NotServed(44)
samr|0|0000000000000000000001000000000000000001|NotServed(0)
lsa|58|0000000031000000|BadStub(8)
lsa|62|0000000031000000|NotServed(62)
lsa|1|0000000000000000000001000000000000000001|NotServed(1)
lsa|15|00|BadStub(0)
lsa|6|00|NotServed(6)";

fn push_request(text: &mut String, request: &Result<Call, WireError>) -> Result<(), Fail> {
    match request {
        Ok(call) => write!(text, "{} {:?}", call.handle.number, call.args)?,
        Err(error) => write!(text, "{error:?}")?,
    }
    Ok(())
}

/// What a request is, in words.
pub fn told(alloc: Global, face: Face, opnum: u16, stub: &str) -> Result<String, Fail> {
    let bytes = hex::decode(alloc, stub.as_bytes())?;
    let request = read_request(alloc, face, opnum, &bytes);
    let mut text = String::new(alloc);
    let pushed = push_request(&mut text, &request);
    drop(request);
    pushed?;
    Ok(text)
}

pub fn opnum_of(digits: &str) -> u16 {
    digits.parse::<u16>().ok().unwrap_or(0)
}

fn tell(rt: &impl Abort, alloc: Global, row: &str) -> Result<(), Fail> {
    let (face, rest) = column(row);
    let (opnum, rest) = column(rest);
    let (stub, wanted) = column(rest);
    let face = if face == "lsa" { Face::Lsa } else { Face::Samr };
    let told = told(alloc, face, opnum_of(opnum), stub)?;
    assert_eq!(rt; told.as_str(), wanted, "{row}");
    Ok(())
}

#[test]
fn requests_of_both_interfaces(rt: HostRuntime) -> Result<(), Fail> {
    for row in REQUESTS.lines() {
        tell(&rt, rt.alloc(), row)?;
    }
    Ok(())
}
