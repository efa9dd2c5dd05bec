// Information classes.
ghost use Rattle.std.specs.Prelude.{◌≡◌, OnOk, false};
ghost use Rattle.ndr_core.specs.Cursor.{Reads};
ghost use Rattle.ndr_core.specs.Parts.{flat, join, whole};
ghost use Rattle.ndr_core.specs.Shapes.{u32};
ghost use Rattle.ndr_types.specs.Bounds.{IsShort};
ghost use Rattle.ndr_types.specs.Outcomes.{ReadsIfRoom};
ghost use Rattle.ndr_types.specs.Values.{sid_pointer, text};
ghost use Rattle.acct_layouts.specs.Values.{is_password_class, set_arm, shown_arm};
ghost use Rattle.acct_stubs.specs.Infos.{class_set, class_shown, empty_text, value_of};

use crate::NoMemory;
use acct_calls::{Info, Name};
use acct_layouts::{Arm, Subject, set_arm, shown_arm};
use dtyp_sid::Sid;
use ndr_core::{In, NdrError, Out};
use ndr_types::{Embedded, read_text, write_text};
use std::alloc::Global;

/// The heads of a name and a full name, a primary group, and the heads of a comment and a user's comment.
type UserHead = (
    (u16, bool),
    ((u16, bool), (u32, ((u16, bool), (u16, bool)))),
);

#[tactic(auto, unfolding(crate::specs::Infos::empty_text))]
fn read_empty_head(from: &mut In<'_>) -> Result<(u16, bool), NdrError>
    ensures { Reads result from.new (empty_text.head.read from.old) }
{
    let length = from.u16()?;
    if length != 0 {
        return Err(from.broken(2));
    }
    from.u16()?;
    let there = from.pointer()?;
    Ok((length, there))
}

#[tactic(auto, unfolding(crate::specs::Infos::empty_text, ndr_types::specs::Values::text))]
fn read_empty_tail(alloc: Global, from: &mut In<'_>, head: &(u16, bool)) -> Result<(), NdrError>
    ensures { ReadsIfRoom result from.new ((empty_text.tail head.now).read from.old) }
{
    Name::read_tail(alloc, from, head)?;
    Ok(())
}

#[tactic(auto, unfolding(crate::specs::Infos::empty_text))]
fn write_empty_head(to: &mut Out) -> Result<(), NoMemory>
    ensures { OnOk result (to.new ≡ empty_text.head.write (0, false) to.old) }
{
    to.u16(0)?;
    to.u16(0)?;
    to.pointer(false)
}

#[tactic(auto, unfolding(crate::specs::Infos::value_of))]
fn read_two_texts(alloc: Global, from: &mut In<'_>) -> Result<Info, NdrError>
    ensures { ReadsIfRoom result from.new ((value_of Arm.TwoTexts).read from.old) }
{
    let name = Name::read_head(from)?;
    let full_name = Name::read_head(from)?;
    let name = Name::read_tail(alloc, from, &name)?;
    let full_name = Name::read_tail(alloc, from, &full_name)?;
    Ok(Info::TwoTexts(name, full_name))
}

#[tactic(auto, unfolding(crate::specs::Infos::value_of))]
fn read_group(alloc: Global, from: &mut In<'_>) -> Result<Info, NdrError>
    ensures { ReadsIfRoom result from.new ((value_of Arm.Group).read from.old) }
{
    let name = Name::read_head(from)?;
    let attributes = from.u32()?;
    let members = from.u32()?;
    let comment = Name::read_head(from)?;
    let name = Name::read_tail(alloc, from, &name)?;
    let comment = Name::read_tail(alloc, from, &comment)?;
    Ok(Info::Group(name, attributes, members, comment))
}

#[tactic(auto, unfolding(crate::specs::Infos::value_of))]
fn read_alias(alloc: Global, from: &mut In<'_>) -> Result<Info, NdrError>
    ensures { ReadsIfRoom result from.new ((value_of Arm.Alias).read from.old) }
{
    let name = Name::read_head(from)?;
    let members = from.u32()?;
    let comment = Name::read_head(from)?;
    let name = Name::read_tail(alloc, from, &name)?;
    let comment = Name::read_tail(alloc, from, &comment)?;
    Ok(Info::Alias(name, members, comment))
}

/// What stands of a user in the structure: the heads of its texts, and its primary group.
fn read_user_head(from: &mut In<'_>) -> Result<UserHead, NdrError>
    ensures { Reads result from.new
        ((join text (join text (join (flat u32) (join text empty_text)))).head.read from.old) }
{
    let name = Name::read_head(from)?;
    let full_name = Name::read_head(from)?;
    let primary = from.u32()?;
    let comment = Name::read_head(from)?;
    let user_comment = read_empty_head(from)?;
    Ok((name, (full_name, (primary, (comment, user_comment)))))
}

#[tactic(auto, unfolding(crate::specs::Infos::value_of))]
fn read_user(alloc: Global, from: &mut In<'_>) -> Result<Info, NdrError>
    ensures { ReadsIfRoom result from.new ((value_of Arm.User).read from.old) }
{
    let (name, (full_name, (primary, (comment, user_comment)))) = read_user_head(from)?;
    let name = Name::read_tail(alloc, from, &name)?;
    let full_name = Name::read_tail(alloc, from, &full_name)?;
    let comment = Name::read_tail(alloc, from, &comment)?;
    read_empty_tail(alloc, from, &user_comment)?;
    Ok(Info::User(name, full_name, primary, comment))
}

#[tactic(auto, unfolding(crate::specs::Infos::value_of))]
fn read_place(alloc: Global, from: &mut In<'_>) -> Result<Info, NdrError>
    ensures { ReadsIfRoom result from.new ((value_of Arm.Place).read from.old) }
{
    let name = Name::read_head(from)?;
    let sid = Sid::read_head(from)?;
    let name = Name::read_tail(alloc, from, &name)?;
    let sid = Sid::read_tail(alloc, from, &sid)?;
    Ok(Info::Place(name, sid))
}

#[tactic(auto, unfolding(crate::specs::Infos::value_of))]
fn read_value(alloc: Global, from: &mut In<'_>, arm: Arm) -> Result<Info, NdrError>
    ensures { ReadsIfRoom result from.new ((value_of arm).read from.old) }
{
    match arm {
        Arm::Number => {
            let number = from.u32()?;
            Ok(Info::Number(number))
        }
        Arm::Text => {
            let text = read_text(alloc, from)?;
            Ok(Info::Text(text))
        }
        Arm::TwoTexts => read_two_texts(alloc, from),
        Arm::Group => read_group(alloc, from),
        Arm::Alias => read_alias(alloc, from),
        Arm::User => read_user(alloc, from),
        Arm::Place => read_place(alloc, from),
    }
}

fn write_two_texts(to: &mut Out, name: &Name, full_name: &Name) -> Result<(), NoMemory>
    requires short_name { IsShort name.now }
    requires short_full_name { IsShort full_name.now }
    ensures { OnOk result (to.new ≡ (whole (join text text)).write (name.now, full_name.now) to.old) }
{
    name.write_head(to)?;
    full_name.write_head(to)?;
    name.write_tail(to)?;
    full_name.write_tail(to)
}

fn write_group(
    to: &mut Out,
    name: &Name,
    attributes: u32,
    members: u32,
    comment: &Name,
) -> Result<(), NoMemory>
    requires short_name { IsShort name.now }
    requires short_comment { IsShort comment.now }
    ensures { OnOk result (to.new ≡ (whole (join text (join (flat u32) (join (flat u32) text)))).write
        (name.now, (attributes, (members, comment.now))) to.old) }
{
    name.write_head(to)?;
    to.u32(attributes)?;
    to.u32(members)?;
    comment.write_head(to)?;
    name.write_tail(to)?;
    comment.write_tail(to)
}

fn write_alias(to: &mut Out, name: &Name, members: u32, comment: &Name) -> Result<(), NoMemory>
    requires short_name { IsShort name.now }
    requires short_comment { IsShort comment.now }
    ensures { OnOk result (to.new ≡ (whole (join text (join (flat u32) text))).write
        (name.now, (members, comment.now)) to.old) }
{
    name.write_head(to)?;
    to.u32(members)?;
    comment.write_head(to)?;
    name.write_tail(to)?;
    comment.write_tail(to)
}

#[tactic(auto, unfolding(crate::specs::Infos::empty_text))]
fn write_user(
    to: &mut Out,
    name: &Name,
    full_name: &Name,
    primary: u32,
    comment: &Name,
) -> Result<(), NoMemory>
    requires short_name { IsShort name.now }
    requires short_full_name { IsShort full_name.now }
    requires short_comment { IsShort comment.now }
    ensures { OnOk result (to.new ≡ (whole (join text (join text (join (flat u32) (join text empty_text))))).write
        (name.now, (full_name.now, (primary, (comment.now, tt)))) to.old) }
{
    name.write_head(to)?;
    full_name.write_head(to)?;
    to.u32(primary)?;
    comment.write_head(to)?;
    write_empty_head(to)?;
    name.write_tail(to)?;
    full_name.write_tail(to)?;
    comment.write_tail(to)
}

fn write_place(to: &mut Out, name: &Name, sid: &Sid) -> Result<(), NoMemory>
    requires { IsShort name.now }
    ensures { OnOk result (to.new ≡ (whole (join text sid_pointer)).write (name.now, sid.now) to.old) }
{
    name.write_head(to)?;
    sid.write_head(to)?;
    name.write_tail(to)?;
    sid.write_tail(to)
}

#[tactic(auto, using(crate::proofs::Asked::value_asked), unfolding(crate::specs::Infos::value_of))]
fn write_value(to: &mut Out, arm: Arm, value: &Info) -> Result<(), NoMemory>
    requires { (value_of arm).Fits value.now }
    ensures { OnOk result (to.new ≡ (value_of arm).write value.now to.old) }
{
    match (arm, value) {
        (Arm::Number, Info::Number(number)) => to.u32(*number),
        (Arm::Text, Info::Text(text)) => write_text(to, text),
        (Arm::TwoTexts, Info::TwoTexts(name, full_name)) => write_two_texts(to, name, full_name),
        (Arm::Group, Info::Group(name, attributes, members, comment)) => {
            write_group(to, name, *attributes, *members, comment)
        }
        (Arm::Alias, Info::Alias(name, members, comment)) => {
            write_alias(to, name, *members, comment)
        }
        (Arm::User, Info::User(name, full_name, primary, comment)) => {
            write_user(to, name, full_name, *primary, comment)
        }
        (Arm::Place, Info::Place(name, sid)) => write_place(to, name, sid),
        _ => unreachable!(),
    }
}

/// A class and what it is set to.
#[tactic(auto, unfolding(crate::specs::Infos::class_set))]
pub fn read_class_set(
    alloc: Global,
    from: &mut In<'_>,
    subject: Subject,
) -> Result<(u16, Info), NdrError>
    ensures { ReadsIfRoom result from.new ((class_set subject).read from.old) }
{
    let class = from.u16()?;
    let Some(arm) = set_arm(subject, class) else {
        return Ok((class, Info::Unserved));
    };
    if from.u16()? != class {
        return Err(from.broken(2));
    }
    from.align(4);
    let value = read_value(alloc, from, arm)?;
    Ok((class, value))
}

/// Writes a class and what it is set to.
#[tactic(auto, unfolding(crate::specs::Infos::class_set))]
pub fn write_class_set(
    to: &mut Out,
    subject: Subject,
    class: u16,
    value: &Info,
) -> Result<(), NoMemory>
    requires { (class_set subject).Fits (class, value.now) }
    ensures { OnOk result (to.new ≡ (class_set subject).write (class, value.now) to.old) }
{
    to.u16(class)?;
    let Some(arm) = set_arm(subject, class) else {
        return Ok(());
    };
    to.u16(class)?;
    to.align(4)?;
    write_value(to, arm, value)
}

/// A class and what it shows, or 0 and no value where the pointer is null.
#[tactic(auto, unfolding(crate::specs::Infos::class_shown))]
pub fn read_class_shown(
    alloc: Global,
    from: &mut In<'_>,
    subject: Subject,
) -> Result<(u16, Option<Info>), NdrError>
    ensures { ReadsIfRoom result from.new ((class_shown subject).read from.old) }
{
    if !from.pointer()? {
        return Ok((0, None));
    }
    let class = from.u16()?;
    let Some(arm) = shown_arm(subject, class) else {
        return Err(from.broken(2));
    };
    from.align(4);
    let value = read_value(alloc, from, arm)?;
    Ok((class, Some(value)))
}

/// Writes a class and what it shows, or a null pointer.
#[tactic(auto, unfolding(crate::specs::Infos::class_shown))]
pub fn write_class_shown(
    to: &mut Out,
    subject: Subject,
    class: u16,
    value: &Option<Info>,
) -> Result<(), NoMemory>
    requires { (class_shown subject).Fits (class, value.now) }
    ensures { OnOk result (to.new ≡ (class_shown subject).write (class, value.now) to.old) }
{
    let Some(value) = value else {
        return to.pointer(false);
    };
    let Some(arm) = shown_arm(subject, class) else {
        unreachable!()
    };
    to.pointer(true)?;
    to.u16(class)?;
    to.align(4)?;
    write_value(to, arm, value)
}
