// Lines of jobs and statuses, with expected values by hand. The digits are those of SHA-256 test vectors.
use crate::{JobAnswer, ReclaimFault, job_line, status_of};
use chunk_name::name_of;
use depot::{BackupFault, RestoreFault};
use job_script::{Job, JobKind, PathText};
use ss_base::StreamName;
use std::alloc::Global;
use std::test::Fail;
use store_core::{NameFault, PointFault};

// The kind of a job, without its names.
#[derive(Clone, Copy)]
enum Kind {
    Backup,
    Restore,
    Delete,
    Reclaim,
    Stat,
}

fn line(
    alloc: Global,
    number: u32,
    lane: u32,
    kind: Kind,
    answer: &JobAnswer,
) -> Result<String, Fail> {
    let name = StreamName::new(b"zeros").ok_or("a stream's name")?;
    let file = PathText::new(b"in").ok_or("a file's name")?;
    let kind = match kind {
        Kind::Backup => JobKind::Backup { input: file, name },
        Kind::Restore => JobKind::Restore { name, output: file },
        Kind::Delete => JobKind::Delete { name },
        Kind::Reclaim => JobKind::Reclaim,
        Kind::Stat => JobKind::Stat,
    };
    Ok(job_line(alloc, number, &Job { lane, kind }, answer)?)
}

// The kind of a job, what it answered, the words of both, and the status.
type Row = (Kind, JobAnswer, &'static str, u8);

fn backup(fault: BackupFault, words: &'static str, status: u8) -> Row {
    (Kind::Backup, JobAnswer::Backup(fault), words, status)
}

fn restore(fault: RestoreFault, words: &'static str, status: u8) -> Row {
    (Kind::Restore, JobAnswer::Restore(fault), words, status)
}

fn backups() -> [Row; 10] {
    let want = name_of(b"a");
    let got = name_of(b"b");
    let text = name_of(b"c");
    [
        (Kind::Backup, JobAnswer::Ok, "backup ok", 0),
        backup(BackupFault::Taken, "backup taken", 2),
        backup(BackupFault::NoInput, "backup noinput", 2),
        backup(BackupFault::InputFault, "backup inputfault", 3),
        backup(BackupFault::TooLong, "backup toolong", 7),
        backup(BackupFault::DepotFault, "backup depotfault", 4),
        backup(
            BackupFault::Damaged { want, got },
            "backup damaged ca978112ca1bbdcafac231b39a23dc4da786eff8147c4e72b9807785afee48bb 3e23e8160039594a33894f6564e1b1348bbd7a0088d42c4acb73eeaed59c009d",
            5,
        ),
        backup(
            BackupFault::Unlike { text },
            "backup unlike 2e7d2c03a9507ae265ecf5b5356885a53393a2029d241394997265a1a25aefc6",
            5,
        ),
        backup(BackupFault::Full, "backup full", 7),
        backup(BackupFault::Memory, "backup memory", 8),
    ]
}

fn restores() -> [Row; 9] {
    let want = name_of(b"b");
    let got = name_of(b"c");
    let text = name_of(b"abc");
    [
        (Kind::Restore, JobAnswer::Ok, "restore ok", 0),
        restore(RestoreFault::Exists, "restore exists", 2),
        restore(RestoreFault::NoStream, "restore nostream", 2),
        restore(RestoreFault::OutputFault, "restore outputfault", 3),
        restore(RestoreFault::DepotFault, "restore depotfault", 4),
        restore(
            RestoreFault::Damaged { want, got },
            "restore damaged 3e23e8160039594a33894f6564e1b1348bbd7a0088d42c4acb73eeaed59c009d 2e7d2c03a9507ae265ecf5b5356885a53393a2029d241394997265a1a25aefc6",
            5,
        ),
        restore(
            RestoreFault::Unlike { text },
            "restore unlike ba7816bf8f01cfea414140de5dae2223b00361a396177a9cb410ff61f20015ad",
            5,
        ),
        restore(RestoreFault::Full, "restore full", 7),
        restore(RestoreFault::Memory, "restore memory", 8),
    ]
}

fn others() -> [Row; 11] {
    [
        (Kind::Delete, JobAnswer::Ok, "delete ok", 0),
        (
            Kind::Delete,
            JobAnswer::Delete(NameFault::NoStream),
            "delete nostream",
            2,
        ),
        (
            Kind::Delete,
            JobAnswer::Delete(NameFault::Full),
            "delete full",
            7,
        ),
        (
            Kind::Delete,
            JobAnswer::Delete(NameFault::Memory),
            "delete memory",
            8,
        ),
        (Kind::Reclaim, JobAnswer::Ok, "reclaim ok", 0),
        (
            Kind::Reclaim,
            JobAnswer::Reclaim(ReclaimFault::DepotFault),
            "reclaim depotfault",
            4,
        ),
        (
            Kind::Reclaim,
            JobAnswer::Reclaim(ReclaimFault::Full),
            "reclaim full",
            7,
        ),
        (
            Kind::Reclaim,
            JobAnswer::Reclaim(ReclaimFault::Memory),
            "reclaim memory",
            8,
        ),
        (Kind::Stat, JobAnswer::Ok, "stat ok", 0),
        (
            Kind::Stat,
            JobAnswer::Stat(PointFault::Full),
            "stat full",
            7,
        ),
        (
            Kind::Stat,
            JobAnswer::Stat(PointFault::Memory),
            "stat memory",
            8,
        ),
    ]
}

#[test]
fn lines_and_statuses_of_answers(rt: HostRuntime) -> Result<(), Fail> {
    let alloc = rt.alloc();
    let tables: [&[Row]; 3] = [&backups(), &restores(), &others()];
    for rows in tables {
        for (kind, answer, words, status) in rows.iter() {
            let line = line(alloc, 1, 1, *kind, answer)?;
            let expected = format!(in alloc; "job 1 lane 1 {words}\n")?;
            assert_eq!(rt; line.as_str(), expected.as_str());
            assert_eq!(rt; status_of(answer), *status);
        }
    }
    Ok(())
}

#[test]
fn numbers_and_lanes(rt: HostRuntime) -> Result<(), Fail> {
    let rows = [
        (2, 2, "job 2 lane 2 stat ok\n"),
        (3, 8, "job 3 lane 8 stat ok\n"),
        (4096, 1, "job 4096 lane 1 stat ok\n"),
        (
            4_294_967_295,
            4_294_967_294,
            "job 4294967295 lane 4294967294 stat ok\n",
        ),
    ];
    for (number, lane, expected) in rows {
        let line = line(rt.alloc(), number, lane, Kind::Stat, &JobAnswer::Ok)?;
        assert_eq!(rt; line.as_str(), expected);
    }
    Ok(())
}

#[test]
fn an_answer_of_another_kind(rt: HostRuntime) -> Result<(), Fail> {
    let answer = JobAnswer::Backup(BackupFault::Taken);
    let line = line(rt.alloc(), 5, 3, Kind::Reclaim, &answer)?;
    assert_eq!(rt; line.as_str(), "job 5 lane 3 reclaim taken\n");
    assert_eq!(rt; status_of(&answer), 2);
    Ok(())
}
