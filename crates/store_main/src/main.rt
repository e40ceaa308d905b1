//! The program `sparsestore`: `store_run` over the words, the standard input and output and the files of a process.
#![tactic(auto)]

mod usage;

use crossbeam_channel::{Sender, bounded};
use outside::{ReadSource, WriteSink};
use ss_base::Memory;
use std::process::ExitCode;
use std::rt::Env;
use std::sync::Wait;
use std::{env, io, thread};
use store_edge::{
    AheadShelf, Bar, BarredShelf, Turn, WAITING, put_ahead, status_beside, take_turn,
};
use store_run::{Lane, run_solo};
use usage::use_of;

const FILES: &str = ".";

const DEPOT: &str = "ssdepot";

const JOURNAL: &str = "journal";

const FILES_FAULT: u8 = 3;

const DEPOT_FAULT: u8 = 4;

const OUT_OF_MEMORY: u8 = 8;

// Beside the run a thread puts its files on the disk early. It ends when the run has dropped the sender.
fn main(rt: HostRuntime) -> ExitCode {
    let Ok((sender, paths)) = bounded(rt.alloc(), WAITING) else {
        return ExitCode::from(OUT_OF_MEMORY);
    };
    let (_, status) = thread::join(
        &rt,
        || put_ahead(&rt, &paths),
        || run_told(&rt, &rt, sender),
    );
    ExitCode::from(status)
}

// The run, and then no path comes any more.
fn run_told<R: Wait>(host: &HostRuntime, rt: &R, paths: Sender<String>) -> u8 {
    run(host, rt, &paths).unwrap_or(OUT_OF_MEMORY)
}

// The lock is held until all is on the disk. Where another run holds it, each call on the depot fails, and the depot
// is not touched.
fn run<'a, R: Wait>(
    host: &'a HostRuntime,
    rt: &'a R,
    paths: &'a Sender<String>,
) -> Result<u8, Memory> {
    let words = words(host)?;
    let files = AheadShelf::new(host, rt, FILES, None, paths)?;
    let depot = AheadShelf::new(host, rt, DEPOT, Some(JOURNAL), paths)?;
    let turn = take_turn(host, FILES, DEPOT, use_of(&words));
    let barred = match &turn {
        Turn::Refused => Bar::All,
        Turn::Free | Turn::Locked(_) => Bar::Nothing,
    };
    let mut lane = Lane {
        files: BarredShelf::new(files, Bar::Folder(DEPOT)),
        depot: BarredShelf::new(depot, barred),
    };
    let mut script = ReadSource::new(host.stdin());
    let mut out = WriteSink::new(host.stdout());
    let status = run_solo(host.alloc(), &words, &mut script, &mut out, &mut lane);
    let status = status_beside(status, lane.depot.sync(), DEPOT_FAULT);
    let status = status_beside(status, lane.files.sync(), FILES_FAULT);
    drop(turn);
    Ok(status)
}

// The words after the program's name. Where one is no text, they are no command's, as no words are.
fn words<R: Env + AllocGlobal>(rt: &R) -> Result<Vec<String>, Memory> {
    match env::args(rt) {
        Ok(words) => Ok(words.skip(1).collect(rt.alloc())?),
        Err(e) if e.kind() == io::ErrorKind::InvalidData => Ok(Vec::new(rt.alloc())),
        Err(_) => Err(Memory),
    }
}
