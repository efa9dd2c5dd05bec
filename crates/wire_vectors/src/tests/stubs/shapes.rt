// The shapes of fields, each alone: what reading it answers, and what is written for the value that was read.
ghost use Rattle.std.specs.Prelude.{All, IsTrue};
ghost use Rattle.ndr_types.specs.Bounds.{HasShortName, IsShort, IsShortPlace};

use super::wires::{Heard, told};
use acct_calls::{
    Bytes, Name, Names, NoMemory, Places, PrivilegeSet, ReferencedDomain, RidName, RidNames, Rids,
    Sids,
};
use acct_codes::limit::MOST_DESCRIPTOR;
use dtyp_sid::Sid;
use ndr_core::{In, NdrError, Out};
use ndr_types::{
    read_descriptor, read_descriptor_pointer, read_privilege_set, read_referenced, read_rid_list,
    read_rid_names, read_sid, read_sid_list, read_text, read_text_list, write_descriptor,
    write_descriptor_pointer, write_privilege_set, write_referenced, write_rid_list,
    write_rid_names, write_sid, write_sid_list, write_text, write_text_list,
};
use std::alloc::Global;
use std::fmt::Debug;
use std::test::Fail;

fn broken(error: NdrError) -> Heard {
    match error {
        NdrError::Short(place) => Heard::Short(place),
        NdrError::Count(place) => Heard::Bad(place),
        NdrError::Memory => Heard::Memory,
    }
}

/// The limit of a list; the greatest number stands for none.
fn most_of(number: u16) -> u32 {
    if number == u16::MAX {
        return u32::MAX;
    }
    u32::from(number)
}

/// A value that ends where its stub ends. What writing it answered is looked at here, where no value is held.
fn whole<T: Debug>(
    alloc: Global,
    end: usize,
    stub: &[u8],
    value: &T,
    to: Out,
    written: Result<(), NoMemory>,
) -> Result<Heard, Fail> {
    written?;
    if end != stub.len() {
        return Ok(Heard::EndsAt(end));
    }
    told(alloc, 0, value, Ok(to.into_bytes()))
}

// ---- what the writers ask for, looked at before each call

fn are_short(names: &[Name]) -> bool
    ensures { IsTrue result → All IsShort names.now }
{
    names.iter().all(|name| name.units().len() <= 32767)
}

fn have_short_names(accounts: &[RidName]) -> bool
    ensures { IsTrue result → All HasShortName accounts.now }
{
    accounts
        .iter()
        .all(|account| account.name.units().len() <= 32767)
}

fn are_short_places(places: &[ReferencedDomain]) -> bool
    ensures { IsTrue result → All IsShortPlace places.now }
{
    places.iter().all(|place| place.name.units().len() <= 32767)
}

// ---- what is written for a value that ends at a place of its stub

fn text_written(alloc: Global, end: usize, stub: &[u8], name: &Name) -> Result<Heard, Fail> {
    if name.units().len() > 32767 {
        return Ok(Heard::Long);
    }
    let mut to = Out::new(alloc);
    let written = write_text(&mut to, name);
    whole(alloc, end, stub, name, to, written)
}

fn sid_written(alloc: Global, end: usize, stub: &[u8], sid: &Sid) -> Result<Heard, Fail> {
    let mut to = Out::new(alloc);
    let written = write_sid(&mut to, sid);
    whole(alloc, end, stub, sid, to, written)
}

fn sids_written(alloc: Global, end: usize, stub: &[u8], sids: &Sids) -> Result<Heard, Fail> {
    if sids.as_slice().len() > 1000 {
        return Ok(Heard::Long);
    }
    let mut to = Out::new(alloc);
    let written = write_sid_list(&mut to, sids);
    whole(alloc, end, stub, sids, to, written)
}

fn rids_written(alloc: Global, end: usize, stub: &[u8], rids: &Rids) -> Result<Heard, Fail> {
    if rids.as_slice().len() > 1000 {
        return Ok(Heard::Long);
    }
    let mut to = Out::new(alloc);
    let written = write_rid_list(&mut to, rids);
    whole(alloc, end, stub, rids, to, written)
}

fn texts_written(alloc: Global, end: usize, stub: &[u8], names: &Names) -> Result<Heard, Fail> {
    if names.as_slice().len() > 1000 || !are_short(names.as_slice()) {
        return Ok(Heard::Long);
    }
    let mut to = Out::new(alloc);
    let written = write_text_list(&mut to, names);
    whole(alloc, end, stub, names, to, written)
}

fn privileges_written(
    alloc: Global,
    end: usize,
    stub: &[u8],
    set: &PrivilegeSet,
) -> Result<Heard, Fail> {
    if set.as_slice().len() > 1000 {
        return Ok(Heard::Long);
    }
    let mut to = Out::new(alloc);
    let written = write_privilege_set(&mut to, set);
    whole(alloc, end, stub, set, to, written)
}

fn null_written(alloc: Global, end: usize, stub: &[u8]) -> Result<Heard, Fail> {
    let mut to = Out::new(alloc);
    let written = write_rid_names(&mut to, None);
    whole(alloc, end, stub, &None::<u32>, to, written)
}

fn accounts_written(
    alloc: Global,
    end: usize,
    stub: &[u8],
    list: &RidNames,
) -> Result<Heard, Fail> {
    if list.as_slice().len() > 1000 || !have_short_names(list.as_slice()) {
        return Ok(Heard::Long);
    }
    let mut to = Out::new(alloc);
    let written = write_rid_names(&mut to, Some(list));
    whole(alloc, end, stub, list, to, written)
}

fn descriptor_written(
    alloc: Global,
    end: usize,
    stub: &[u8],
    bytes: &Bytes,
) -> Result<Heard, Fail> {
    if bytes.as_slice().len() > 1_000_000 {
        return Ok(Heard::Long);
    }
    let mut to = Out::new(alloc);
    let written = write_descriptor(&mut to, bytes);
    whole(alloc, end, stub, bytes, to, written)
}

fn null_descriptor_written(alloc: Global, end: usize, stub: &[u8]) -> Result<Heard, Fail> {
    let mut to = Out::new(alloc);
    let written = write_descriptor_pointer(&mut to, None);
    whole(alloc, end, stub, &None::<u32>, to, written)
}

fn pointed_written(alloc: Global, end: usize, stub: &[u8], bytes: &Bytes) -> Result<Heard, Fail> {
    if bytes.as_slice().len() > 1_000_000 {
        return Ok(Heard::Long);
    }
    let mut to = Out::new(alloc);
    let written = write_descriptor_pointer(&mut to, Some(bytes));
    whole(alloc, end, stub, bytes, to, written)
}

fn domains_written(alloc: Global, end: usize, stub: &[u8], list: &Places) -> Result<Heard, Fail> {
    if list.as_slice().len() > 1000 || !are_short_places(list.as_slice()) {
        return Ok(Heard::Long);
    }
    let mut to = Out::new(alloc);
    let written = write_referenced(&mut to, Some(list));
    whole(alloc, end, stub, list, to, written)
}

// ---- the shapes

pub fn text(alloc: Global, stub: &[u8]) -> Result<Heard, Fail> {
    let mut from = In::new(stub);
    match read_text(alloc, &mut from) {
        Ok(name) => {
            let heard = text_written(alloc, from.place(), stub, &name);
            drop(name);
            heard
        }
        Err(error) => Ok(broken(error)),
    }
}

pub fn sid(alloc: Global, stub: &[u8]) -> Result<Heard, Fail> {
    let mut from = In::new(stub);
    match read_sid(&mut from) {
        Ok(sid) => sid_written(alloc, from.place(), stub, &sid),
        Err(error) => Ok(broken(error)),
    }
}

pub fn sids(alloc: Global, most: u16, stub: &[u8]) -> Result<Heard, Fail> {
    let mut from = In::new(stub);
    match read_sid_list(alloc, &mut from, most_of(most)) {
        Ok(sids) => {
            let heard = sids_written(alloc, from.place(), stub, &sids);
            drop(sids);
            heard
        }
        Err(error) => Ok(broken(error)),
    }
}

pub fn rids(alloc: Global, most: u16, stub: &[u8]) -> Result<Heard, Fail> {
    let mut from = In::new(stub);
    match read_rid_list(alloc, &mut from, most_of(most)) {
        Ok(rids) => {
            let heard = rids_written(alloc, from.place(), stub, &rids);
            drop(rids);
            heard
        }
        Err(error) => Ok(broken(error)),
    }
}

pub fn texts(alloc: Global, most: u16, stub: &[u8]) -> Result<Heard, Fail> {
    let mut from = In::new(stub);
    match read_text_list(alloc, &mut from, most_of(most)) {
        Ok(names) => {
            let heard = texts_written(alloc, from.place(), stub, &names);
            drop(names);
            heard
        }
        Err(error) => Ok(broken(error)),
    }
}

pub fn privileges(alloc: Global, stub: &[u8]) -> Result<Heard, Fail> {
    let mut from = In::new(stub);
    match read_privilege_set(alloc, &mut from) {
        Ok(set) => {
            let heard = privileges_written(alloc, from.place(), stub, &set);
            drop(set);
            heard
        }
        Err(error) => Ok(broken(error)),
    }
}

/// A pointer to a list, which may be null.
pub fn accounts(alloc: Global, stub: &[u8]) -> Result<Heard, Fail> {
    let mut from = In::new(stub);
    match read_rid_names(alloc, &mut from) {
        Ok(None) => null_written(alloc, from.place(), stub),
        Ok(Some(list)) => {
            let heard = accounts_written(alloc, from.place(), stub, &list);
            drop(list);
            heard
        }
        Err(error) => Ok(broken(error)),
    }
}

/// A descriptor that is set, of at most 262,144 bytes.
pub fn descriptor(alloc: Global, stub: &[u8]) -> Result<Heard, Fail> {
    let mut from = In::new(stub);
    match read_descriptor(alloc, &mut from, MOST_DESCRIPTOR) {
        Ok(bytes) => {
            let heard = descriptor_written(alloc, from.place(), stub, &bytes);
            drop(bytes);
            heard
        }
        Err(error) => Ok(broken(error)),
    }
}

/// A pointer to a descriptor, which may be null.
pub fn descriptor_pointer(alloc: Global, stub: &[u8]) -> Result<Heard, Fail> {
    let mut from = In::new(stub);
    match read_descriptor_pointer(alloc, &mut from) {
        Ok(None) => null_descriptor_written(alloc, from.place(), stub),
        Ok(Some(bytes)) => {
            let heard = pointed_written(alloc, from.place(), stub, &bytes);
            drop(bytes);
            heard
        }
        Err(error) => Ok(broken(error)),
    }
}

/// A list that is null is read as the empty one.
pub fn domains(alloc: Global, stub: &[u8]) -> Result<Heard, Fail> {
    let mut from = In::new(stub);
    match read_referenced(alloc, &mut from) {
        Ok(list) => {
            let heard = domains_written(alloc, from.place(), stub, &list);
            drop(list);
            heard
        }
        Err(error) => Ok(broken(error)),
    }
}
