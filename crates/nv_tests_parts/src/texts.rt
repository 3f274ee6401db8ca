//! The exact texts of faults.

use crate::compare::same;
use nv_base::{
    Fault, GeometryField as Field, ImageFault as Image, MismatchPart as Part,
    ScriptFaultKind as Kind,
};
use nv_scenes::want_of_memory;
use std::test::Fail;

/// Each fault but want of memory with its text, those with fields once for each word.
const TEXTS: [(Fault, &str); 53] = [
    (Fault::BadGeometry(Field::Blocks), "E2 BadGeometry(blocks)"),
    (Fault::BadGeometry(Field::Cpus), "E2 BadGeometry(cpus)"),
    (Fault::BadGeometry(Field::Block), "E2 BadGeometry(block)"),
    (Fault::BadGeometry(Field::Page), "E2 BadGeometry(page)"),
    (Fault::BadGeometry(Field::Inodes), "E2 BadGeometry(inodes)"),
    (Fault::BadGeometry(Field::Snaps), "E2 BadGeometry(snaps)"),
    (Fault::BadGeometry(Field::Actors), "E2 BadGeometry(actors)"),
    (Fault::BadGeometry(Field::Seats), "E2 BadGeometry(seats)"),
    (Fault::Stale, "E3 Stale"),
    (Fault::NotFile, "E4 NotFile"),
    (Fault::NotDirectory, "E5 NotDirectory"),
    (Fault::BadName, "E6 BadName"),
    (Fault::Missing, "E7 Missing"),
    (Fault::Exists, "E8 Exists"),
    (Fault::NotEmpty, "E9 NotEmpty"),
    (Fault::FileTooBig, "E10 FileTooBig"),
    (Fault::WriteTooBig, "E11 WriteTooBig"),
    (Fault::NoInode, "E12 NoInode"),
    (Fault::NoSpace, "E13 NoSpace"),
    (Fault::CommitLimit, "E14 CommitLimit"),
    (Fault::EpochLimit, "E15 EpochLimit"),
    (Fault::TooManySnapshots, "E16 TooManySnapshots"),
    (Fault::NoSnapshot, "E17 NoSnapshot"),
    (Fault::Pinned, "E18 Pinned"),
    (Fault::MoveDirectory, "E19 MoveDirectory"),
    (Fault::Contended, "E20 Contended"),
    (Fault::ActorBusy, "E21 ActorBusy"),
    (Fault::ActorIdle, "E22 ActorIdle"),
    (Fault::NoActor, "E23 NoActor"),
    (Fault::Mismatch(Part::Index), "E24 Mismatch(index)"),
    (Fault::Mismatch(Part::Names), "E24 Mismatch(names)"),
    (Fault::Mismatch(Part::Counts), "E24 Mismatch(counts)"),
    (Fault::Mismatch(Part::Records), "E24 Mismatch(records)"),
    (Fault::Mismatch(Part::Lists), "E24 Mismatch(lists)"),
    (Fault::SeatsOut, "E25 SeatsOut"),
    (Fault::BadImage(Image::Geometry), "E26 BadImage(geometry)"),
    (Fault::BadImage(Image::Block), "E26 BadImage(block)"),
    (Fault::BadImage(Image::Chain), "E26 BadImage(chain)"),
    (Fault::BadImage(Image::Entry), "E26 BadImage(entry)"),
    (Fault::BadImage(Image::Item), "E26 BadImage(item)"),
    (Fault::BadImage(Image::Run), "E26 BadImage(run)"),
    (Fault::BadImage(Image::Journal), "E26 BadImage(journal)"),
    (Fault::BadImage(Image::Snaps), "E26 BadImage(snaps)"),
    (
        Fault::ScriptFault(Kind::Lines, 1),
        "E27 ScriptFault(1, lines)",
    ),
    (
        Fault::ScriptFault(Kind::Long, 2),
        "E27 ScriptFault(2, long)",
    ),
    (
        Fault::ScriptFault(Kind::Unended, 3),
        "E27 ScriptFault(3, unended)",
    ),
    (
        Fault::ScriptFault(Kind::Word, 12),
        "E27 ScriptFault(12, word)",
    ),
    (
        Fault::ScriptFault(Kind::Order, 20),
        "E27 ScriptFault(20, order)",
    ),
    (
        Fault::ScriptFault(Kind::Count, 99),
        "E27 ScriptFault(99, count)",
    ),
    (
        Fault::ScriptFault(Kind::Number, 100),
        "E27 ScriptFault(100, number)",
    ),
    (
        Fault::ScriptFault(Kind::Text, 101),
        "E27 ScriptFault(101, text)",
    ),
    (Fault::Read, "E28 Read"),
    (Fault::Write, "E29 Write"),
];

/// Each fault shows by its number, its name and its fields, as they were worked out by hand.
#[test]
fn faults_are_shown_by_number_name_and_fields(rt: HostRuntime) -> Result<(), Fail> {
    let memory = want_of_memory(rt.alloc()).expect(&rt, "a refused growth");
    same(
        &rt,
        format!(in rt.alloc(); "{memory}")?.as_str(),
        "E1 OutOfMemory",
    );
    for (fault, text) in &TEXTS {
        same(&rt, format!(in rt.alloc(); "{fault}")?.as_str(), *text);
    }
    Ok(())
}
