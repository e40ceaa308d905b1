// A run of the program in one lane.
ghost use Rattle.std.specs.Prelude.{◌≡◌, ◌≢◌, ◌≤◌, [], false};
ghost use Rattle.outside.specs.Views.{source_view, sink_view, shelf_view};
ghost use Rattle.ss_base.specs.declared.profile.Profile.{Profile as AnyProfile};
ghost use Rattle.ss_base.specs.Profile.{numbers_of};
ghost use Rattle.store_run.specs.declared.command.Command.TheVariants.{Names as names, Segments as segments, Init as init, Journal as journal, Job as job};
ghost use Rattle.store_run.specs.Command.{texts, words_of, IsCommand, has_dash, IsUsage, IsNoJob};
ghost use Rattle.job_script.specs.declared.job.JobKind.{JobKind};
ghost use Rattle.store_run.specs.JobRun.{JobRun};
ghost use Rattle.store_run.specs.Listing.{JournalAnswer};
ghost use Rattle.store_run.specs.Output.{names_text, segments_text};
ghost use Rattle.store_run.specs.Run.{StreamAnswer, InitAnswer, UsageAnswer};
ghost use Rattle.store_run.specs.SoFar.{so_far, chunks_of};

use crate::chunk_lines::ChunkLines;
use crate::command::{Command, command_of};
use crate::fault_lines::refuse;
use crate::feed_source::feed;
use crate::jobs::run_on_store;
use crate::line_printer::LinePrinter;
use crate::listing::list_journal;
use crate::names::NameLines;
use crate::segments::SegmentLines;
use crate::stop::{Halt, Stop};
use journal_file::{CreateFault, create};
use outside::{Shelf, Sink, Source, Trouble};
use ss_base::Profile;
use std::alloc::Global;

const MAX_STREAM: usize = 1 << 40;

/// What one lane works on: the files of its user, and the objects of the store.
#[derive(Drop)]
pub struct Lane<F, K> {
    pub files: F,
    pub depot: K,
}

/// Runs one command in one lane, and answers its status: 0 where all was done and printed, 1 where no command has
/// the words, 4 where the depot failed, 6 where the journal is no store's, bad, illegal or unfinished, 7 where the
/// source gave more than 2^40 bytes, 9 where the sink failed, 11 where there is a store already, 12 where the source
/// failed. Of several the least stands. It is 8 for want of memory where no other stands, and also where memory kept a
/// line from being printed. A run that ends early prints its fault line behind the lines that were whole by then, at
/// want of memory behind whole lines of a front of them; all are whole but where the sink failed or a write wanted
/// memory. At status 0 no count of faults rose. At another a fault may stand behind want of memory: an erase of a
/// reclaim, or an append before a line that could not be made.
pub fn run_solo<S: Source, O: Sink, F: Shelf, K: Shelf>(
    alloc: Global,
    words: &[String],
    script: &mut S,
    out: &mut O,
    lane: &mut Lane<F, K>,
) -> u8
    ensures names { (profile : AnyProfile) → texts words.now ≡ words_of (names profile) → StreamAnswer (names_text profile)
        (source_view ⟦<S as Source>⟧ script.old) (source_view ⟦<S as Source>⟧ script.new)
        (sink_view ⟦<O as Sink>⟧ out.old) (sink_view ⟦<O as Sink>⟧ out.new) result }
    ensures segments { (profile : AnyProfile) → texts words.now ≡ words_of (segments profile) → StreamAnswer (segments_text profile)
        (source_view ⟦<S as Source>⟧ script.old) (source_view ⟦<S as Source>⟧ script.new)
        (sink_view ⟦<O as Sink>⟧ out.old) (sink_view ⟦<O as Sink>⟧ out.new) result }
    ensures init { (profile : AnyProfile) → texts words.now ≡ words_of (init profile) → InitAnswer profile
        (shelf_view ⟦<K as Shelf>⟧ lane.old.depot) (shelf_view ⟦<K as Shelf>⟧ lane.new.depot)
        (sink_view ⟦<O as Sink>⟧ out.old) (sink_view ⟦<O as Sink>⟧ out.new) result }
    ensures journal { texts words.now ≡ words_of journal → JournalAnswer
        (shelf_view ⟦<K as Shelf>⟧ lane.old.depot) (shelf_view ⟦<K as Shelf>⟧ lane.new.depot)
        (sink_view ⟦<O as Sink>⟧ out.old) (sink_view ⟦<O as Sink>⟧ out.new) result }
    ensures jobs { (kind : JobKind) → IsCommand (job kind) → texts words.now ≡ words_of (job kind) → has_dash (texts words.now) ≡ false → JobRun kind
        (record { files = shelf_view ⟦<F as Shelf>⟧ lane.old.files; depot = shelf_view ⟦<K as Shelf>⟧ lane.old.depot })
        (record { files = shelf_view ⟦<F as Shelf>⟧ lane.new.files; depot = shelf_view ⟦<K as Shelf>⟧ lane.new.depot })
        (sink_view ⟦<O as Sink>⟧ out.old) (sink_view ⟦<O as Sink>⟧ out.new) result }
    ensures usage { IsUsage words.now → UsageAnswer (sink_view ⟦<O as Sink>⟧ out.old) (sink_view ⟦<O as Sink>⟧ out.new) result }

    // What a command has no part in stays as it was.
    ensures files { IsNoJob (texts words.now) → lane.new.files ≡ lane.old.files }
    ensures depot { IsNoJob (texts words.now) → ((profile : AnyProfile) → texts words.now ≢ words_of (init profile)) →
        texts words.now ≢ words_of journal → lane.new.depot ≡ lane.old.depot }
    ensures unread { IsUsage words.now → script.new ≡ script.old }
    ensures init_unread { (profile : AnyProfile) → texts words.now ≡ words_of (init profile) → script.new ≡ script.old }
    ensures job_unread { (kind : JobKind) → IsCommand (job kind) → texts words.now ≡ words_of (job kind) → script.new ≡ script.old }
    ensures journal_unread { texts words.now ≡ words_of journal → script.new ≡ script.old }
{
    match command_of(words) {
        Some(Command::Names(profile)) => print_names(alloc, profile, script, out),
        Some(Command::Segments(profile)) => print_segments(alloc, profile, script, out),
        Some(Command::Init(profile)) => make_store(alloc, profile, &mut lane.depot, out),
        Some(Command::Journal) => list_journal(alloc, &mut lane.depot, out),
        Some(Command::Job(kind)) => {
            run_on_store(alloc, kind, &mut lane.files, &mut lane.depot, out)
        }
        None => refuse(alloc, out, &[], Stop::Usage),
    }
}

fn print_names<S: Source, O: Sink>(
    alloc: Global,
    profile: Profile,
    script: &mut S,
    out: &mut O,
) -> u8
    ensures answer { StreamAnswer (names_text profile)
        (source_view ⟦<S as Source>⟧ script.old) (source_view ⟦<S as Source>⟧ script.new)
        (sink_view ⟦<O as Sink>⟧ out.old) (sink_view ⟦<O as Sink>⟧ out.new) result }
{
    print_stream(alloc, profile, NameLines, script, out)
}

fn print_segments<S: Source, O: Sink>(
    alloc: Global,
    profile: Profile,
    script: &mut S,
    out: &mut O,
) -> u8
    ensures answer { StreamAnswer (segments_text profile)
        (source_view ⟦<S as Source>⟧ script.old) (source_view ⟦<S as Source>⟧ script.new)
        (sink_view ⟦<O as Sink>⟧ out.old) (sink_view ⟦<O as Sink>⟧ out.new) result }
{
    print_stream(
        alloc,
        profile,
        SegmentLines::new(alloc, profile),
        script,
        out,
    )
}

// Makes the journal of a store.
fn make_store<O: Sink, K: Shelf>(alloc: Global, profile: Profile, depot: &mut K, out: &mut O) -> u8
    ensures answer { InitAnswer profile
        (shelf_view ⟦<K as Shelf>⟧ depot.old) (shelf_view ⟦<K as Shelf>⟧ depot.new)
        (sink_view ⟦<O as Sink>⟧ out.old) (sink_view ⟦<O as Sink>⟧ out.new) result }
{
    match create(depot, profile) {
        Ok(()) => 0,
        Err(CreateFault::AlreadyStore) => refuse(alloc, out, &[], Stop::AlreadyStore),
        Err(CreateFault::Shelf) => refuse(alloc, out, &[], Stop::DepotFault),
        Err(CreateFault::Memory) => refuse(alloc, out, &[], Stop::Memory),
    }
}

// Prints the lines of the source's chunks.
fn print_stream<L: ChunkLines, S: Source, O: Sink>(
    alloc: Global,
    profile: Profile,
    lines: L,
    script: &mut S,
    out: &mut O,
) -> u8
    requires fits { (numbers_of profile).tmax ≤ L.most lines }
    requires none_whole { L.text so_far lines [] ≡ [] }
    ensures answer { StreamAnswer (λ stage bytes. L.text stage lines (chunks_of stage (numbers_of profile) bytes))
        (source_view ⟦<S as Source>⟧ script.old) (source_view ⟦<S as Source>⟧ script.new)
        (sink_view ⟦<O as Sink>⟧ out.old) (sink_view ⟦<O as Sink>⟧ out.new) result }
{
    let Ok(mut printer) = LinePrinter::new(alloc, profile, lines) else {
        return refuse(alloc, out, &[], Stop::Memory);
    };
    match feed(alloc, script, MAX_STREAM, &mut printer, out) {
        Ok(()) => 0,
        Err(Halt::Early(why)) => refuse(alloc, out, printer.waiting(), why),
        Err(Halt::Unprinted(Trouble::Memory)) => 8,
        Err(Halt::Unprinted(Trouble::Fault)) => 9,
    }
}
