//! What changed between two files.
ghost use Rattle.std.specs.Prelude.{◌≡◌, ◌+◌, ◌<◌, ◌^◌, ◌⊎◌, ℕ, List, Option, Some, None, true, false, length, get_or, slice_get, min, [], ◌∷◌, ◌++◌, ◌-◌, IfOk, IfSome, IfNone, OnOk, IsSomeAnd, unwrap_or};
ghost use Rattle.std.specs.Io.KnownBytes.{Keeps};
ghost use Rattle.std.specs.Option.{ForSome};
ghost use Rattle.mmdb_reader.specs.Found.{section_asked};
ghost use Rattle.mmdb_reader.specs.File.{Database, data_section};
ghost use Rattle.mmdb_compare.specs.Agreeing.{IsFoundAsAnswered};
ghost use Rattle.mmdb_compare.specs.Coming.{Coming};
ghost use Rattle.mmdb_compare.specs.Found.{numbered_ip, IsFoundAt};
ghost use Rattle.mmdb_compare.specs.Same.{Sections};
ghost use Rattle.mmdb_compare.specs.Sides.{place_of};
ghost use Rattle.mmdb_cmd_diff.specs.Alike.{AreFoundIn, AreKeptAlike, IsOfAlike, IsNoMemory};
ghost use Rattle.mmdb_cmd_diff.specs.Comparing.{AreMarked, AreSoFar, GoesOn, IsLeftOut, IsReady, IsTaken, IsTakenPart, IsWaiting, ShowTheSame, TellsAll, has_record, untold, untold_by, with_part};
ghost use Rattle.mmdb_cmd_diff.specs.Lines.{Both, HasThere, Tells, shows_records, waiting_in, with_stretch};
ghost use Rattle.mmdb_cmd_diff.specs.Showing.{offset_at, offset_in};
ghost use Rattle.mmdb_cmd_diff.specs.Walked.{AreCompared, IsShownAt, both_of};

use crate::changes::{Changes, kind_of, network_of};
use crate::counts::{ChangeCounts, Presence};
use crate::differences::{FoundInBoth, Pairs, UnreadableValue, put_names};
use crate::same::are_all_readable;
use crate::two_databases::{TwoDatabases, open_two};
use mmdb_arguments::{DiffArguments, NoRequest};
use mmdb_blocks::{BlockKind, Kinds};
use mmdb_compare::laws::found_as_answered;
use mmdb_compare::{
    AskedDatabase, Offsets, Side, Together, TogetherPart, TogetherStretch, UnreadLeaf,
};
use mmdb_console::{
    Console, DIFFERENT, DONE, FAILED, Pace, Passed, ProgramError, Where, note_range, range_of,
};
use mmdb_layout::{
    Database, FieldsMet, Found, Layout, Networks, can_be_walked, layout_of, networks_in,
    range_asked,
};
use mmdb_reader::{IpNetwork, MaxMindDbError};
use std::alloc::{AllocError, Global};
use std::collections::HashSet;
use std::env::Env;
use std::io::{self, Write};
use std::net::{IpAddr, Ipv4Addr, Ipv6Addr};
use std::rt::Files;

/// How many networks are named that can't be read. The others are counted.
const MOST_NAMED: u64 = 10;

/// How many stretches are compared together.
const MOST_WAITING: usize = 64;

/// After this many times of comparing them it is shown how many were.
const STEP: u64 = 1_024;

// What `diff` is asked for.
#[derive(Drop)]
struct DiffTask<'a> {
    old: &'a str,
    new: &'a str,
    range: Option<IpNetwork>,
    kinds: Kinds,
    layout: Layout<'a>,
    exit_code: bool,
}

// What the arguments of `diff` ask for. An `Err` where one is not what is wanted in its place.
fn diff_task<'a>(
    alloc: Global,
    arguments: &'a DiffArguments<'a>,
) -> Result<DiffTask<'a>, NoRequest> {
    Ok(DiffTask {
        old: arguments.old,
        new: arguments.new,
        range: range_of(alloc, arguments.range)?,
        kinds: Kinds::asked(arguments.ipv4, arguments.ipv6),
        layout: layout_of(alloc, arguments.is_csv, arguments.fields.as_slice(), &[])?,
        exit_code: arguments.exit_code,
    })
}

// A stretch of both databases, and which of them have a record there.
#[derive(Clone, Copy)]
struct Stretch {
    part: TogetherStretch,
    presence: Presence,
}

// Stretches that wait to be compared, and where the records of each are. What is kept of them is looked for side by side,
// since each look waits for memory.
#[derive(Drop)]
struct Waiting {
    stretches: Vec<Stretch>,
    offsets: Vec<Option<Offsets>>,
}

impl Waiting {
    fn new(alloc: Global) -> Result<Waiting, AllocError>
        ensures stretches { IfOk result (λ waiting. waiting.stretches.items ≡ []) }
        ensures offsets { IfOk result (λ waiting. waiting.offsets.items ≡ []) }
    {
        Ok(Waiting {
            stretches: Vec::with_capacity(alloc, MOST_WAITING)?,
            offsets: Vec::with_capacity(alloc, MOST_WAITING)?,
        })
    }

    // Adds a stretch. Whether as many wait as are compared together.
    #[inline(always)]
    fn add(&mut self, stretch: Stretch, offsets: Option<Offsets>) -> Result<bool, AllocError>
        ensures stretches { OnOk result
            (self.new.stretches.items ≡ self.old.stretches.items ++ stretch ∷ []) }
        ensures offsets { OnOk result
            (self.new.offsets.items ≡ self.old.offsets.items ++ offsets ∷ []) }
        ensures full { IfOk result
            (λ is_full. is_full ≡ false → length self.new.stretches.items < 64) }
    {
        self.stretches.push(stretch)?;
        self.offsets.push(offsets)?;
        Ok(self.stretches.len() >= MOST_WAITING)
    }

    // A stretch, and where its records are.
    #[inline(always)]
    fn at(&self, index: usize) -> Option<(Stretch, Option<Offsets>)>
        ensures stretch { IfSome result
            (λ both. slice_get self.now.stretches.items index ≡ Some both.0) }
        ensures offsets { IfSome result
            (λ both. slice_get self.now.offsets.items index ≡ Some both.1) }
        ensures none { IfNone result ((slice_get self.now.stretches.items index ≡ None)
            ⊎ (slice_get self.now.offsets.items index ≡ None)) }
    {
        Some((*self.stretches.get(index)?, *self.offsets.get(index)?))
    }

    fn clear(&mut self)
        ensures stretches { self.new.stretches.items ≡ [] }
        ensures offsets { self.new.offsets.items ≡ [] }
    {
        self.stretches.clear();
        self.offsets.clear();
    }
}

// The pairs that were compared, what waits to be, what differs, and how many networks could not be read.
#[derive(Drop)]
struct SoFar<'a, 'r> {
    /// Which kinds of addresses are wanted.
    kinds: Kinds,
    pairs: Pairs<'a, 'r>,
    waiting: Waiting,
    changes: Changes<'r>,
    faults: u64,
    /// The network of the old database that was the last one whose record could not be read.
    faulty_old: Option<IpNetwork>,
    /// That of the new one.
    faulty_new: Option<IpNetwork>,
    /// How often stretches that waited were compared.
    times: u64,
}

impl<'a, 'r> SoFar<'a, 'r> {
    // Nothing was compared yet.
    fn new(
        alloc: Global,
        task: &'a DiffTask<'a>,
        databases: &'r TwoDatabases,
    ) -> Result<SoFar<'a, 'r>, AllocError>
        // Whatever comes of both databases.
        ensures so_far { (left : List Coming) → IfOk result (AreSoFar left) }
        ensures none { IfOk result (λ s. s.waiting.stretches.items ≡ []) }
        ensures kinds { IfOk result (λ s. s.kinds ≡ task.now.kinds) }
        ensures layout { IfOk result (λ s. s.pairs.layout.now ≡ task.now.layout) }
        ensures whole { IfOk result
            (λ s. s.pairs.shown.are_whole ≡ shows_records task.now.layout) }
        ensures old { IfOk result
            (λ s. s.pairs.shown.sections.in_old ≡ data_section databases.now.old) }
        ensures new { let newer = unwrap_or databases.now.other databases.now.old in
            IfOk result (λ s. s.pairs.shown.sections.in_new ≡ data_section newer) }
    {
        Ok(SoFar {
            kinds: task.kinds,
            pairs: Pairs::new(alloc, &task.layout, databases.old(), databases.newer())?,
            waiting: Waiting::new(alloc)?,
            changes: Changes::new(alloc)?,
            faults: 0,
            faulty_old: None,
            faulty_new: None,
            times: 0,
        })
    }

    // Marks the waiting pair as the last one found equal.
    fn keep_last(&mut self, index: usize)
        ensures kept { AreKeptAlike self.old.pairs.shown self.old.pairs.kept
            → IfSome (slice_get self.old.waiting.offsets.items index)
            (λ pair. ForSome pair (IsOfAlike self.old.pairs.shown))
            → AreKeptAlike self.old.pairs.shown self.new.pairs.kept }
        ensures same { ShowTheSame self.old self.new }
        ensures waiting { self.new.waiting ≡ self.old.waiting }
        ensures changes { self.new.changes ≡ self.old.changes }
    {
        if let Some((_, offsets)) = self.waiting.at(index) {
            self.pairs.keep_last(offsets);
        }
    }

    // Whether the records of a pair are seen to be shown the same, before they are looked up.
    fn sees_same(&mut self, offsets: Option<Offsets>) -> bool
        ensures alike { AreKeptAlike self.old.pairs.shown self.old.pairs.kept → result ≡ true
            → IsSomeAnd offsets (IsOfAlike self.old.pairs.shown) }
        ensures kept { AreKeptAlike self.old.pairs.shown self.old.pairs.kept
            → AreKeptAlike self.old.pairs.shown self.new.pairs.kept }
        ensures same { ShowTheSame self.old self.new }
        ensures waiting { self.new.waiting ≡ self.old.waiting }
        ensures changes { self.new.changes ≡ self.old.changes }
    {
        match offsets {
            Some(offsets) => self.pairs.is_seen_same(offsets),
            None => false,
        }
    }

    // Counts what can't be read, before which what waits is written. Whether it is named: as long as not enough were.
    fn begin_fault<O: Write>(&mut self, out: &mut O) -> Result<bool, ProgramError>
        ensures told { (both : Both) → IsReady both self.old
            → OnOk result (Tells self.old.pairs.layout.now self.old.pairs.shown both
            (waiting_in self.old.changes) (waiting_in self.new.changes)
            (O.contents out.old) (O.contents out.new)) }
        ensures ready { (both : Both) → IsReady both self.old
            → OnOk result (IsReady both self.new) }
        ensures same { ShowTheSame self.old self.new }
        ensures waiting { self.new.waiting ≡ self.old.waiting }
        ensures counted { self.new.faults ≡ min (self.old.faults + 1) (2 ^ 64 - 1) }
    {
        self.faults = self.faults.saturating_add(1);
        if self.faults > MOST_NAMED {
            return Ok(false);
        }
        self.changes.finish(&mut self.pairs, out)?;
        Ok(true)
    }

    // Whether the network of a side is another one than the last of it whose record could not be read, which is noted: one of a
    // file is in as many stretches as the other one has networks there.
    fn is_new_fault(&mut self, side: Side, network: IpNetwork) -> bool
        ensures same { ShowTheSame self.old self.new }
        ensures waiting { self.new.waiting ≡ self.old.waiting }
        ensures changes { self.new.changes ≡ self.old.changes }
        ensures pairs { self.new.pairs ≡ self.old.pairs }
        ensures faults { self.new.faults ≡ self.old.faults }
    {
        let last = match side {
            Side::Old => self.faulty_old.replace(network),
            Side::New => self.faulty_new.replace(network),
        };
        last != Some(network)
    }
}

// The file of a side.
fn file_of<'a>(task: &DiffTask<'a>, side: Side) -> &'a str {
    match side {
        Side::Old => task.old,
        Side::New => task.new,
    }
}

// Writes out what is buffered.
fn flush<O: Write>(out: &mut O) -> Result<(), ProgramError>
    ensures { Keeps (O.contents out.old) (O.contents out.new) }
{
    match out.flush() {
        Ok(()) => Ok(()),
        Err(error) => Err(ProgramError::Write(error)),
    }
}

// Where it is reported what can't be read. The output of its console is nowhere.
#[derive(Drop)]
struct Reports<'t, 'c, E: Pace> {
    task: &'t DiffTask<'t>,
    console: Console<'c, io::Sink, E>,
}

// The output of a console, and one for its errors alone, whose own output is nowhere.
fn apart<'c, O: Write, E: Pace>(
    console: &'c mut Console<'_, O, E>,
    nowhere: &'c mut io::Sink,
) -> (&'c mut O, Console<'c, io::Sink, E>) {
    let Console {
        alloc,
        terminals,
        out,
        errors,
        ..
    } = console;
    (
        &mut **out,
        Console::new(*alloc, *terminals, nowhere, &mut **errors),
    )
}

impl<E: Pace> Reports<'_, '_, E> {
    // Reports an error at a place of the file of a side, after what was written.
    fn report_at<O: Write>(
        &mut self,
        side: Side,
        place: Where,
        error: &MaxMindDbError,
        out: &mut O,
    ) -> Result<(), ProgramError>
        ensures { Keeps (O.contents out.old) (O.contents out.new) }
    {
        let alloc = self.console.alloc;
        let file = file_of(self.task, side);
        let name = place.name(alloc)?;
        flush(out)?;
        self.console
            .report_behind(format!(in alloc; "{file}: {name}"), error)
    }

    // The same. Where there is no memory, all that is kept as text is let go, and it is tried once more: nothing was reported.
    fn report_in<O: Write>(
        &mut self,
        side: Side,
        place: Where,
        error: &MaxMindDbError,
        pairs: &mut Pairs<'_, '_>,
        out: &mut O,
    ) -> Result<(), ProgramError>
        ensures output { Keeps (O.contents out.old) (O.contents out.new) }
        ensures kept { pairs.exit.now.kept ≡ pairs.entry.now.kept }
        ensures shown { pairs.exit.now.shown ≡ pairs.entry.now.shown }
        ensures layout { pairs.exit.now.layout ≡ pairs.entry.now.layout }
    {
        match self.report_at(side, place, error, out) {
            Err(problem) if problem.is_memory() => {
                drop(problem);
                pairs.let_go();
                self.report_at(side, place, error, out)
            }
            done => done,
        }
    }
}

// Reports an error at a place of the file of a side, after what waits, unless enough were named.
#[inline(never)]
fn report_fault<O: Write, E: Pace>(
    side: Side,
    place: Where,
    error: &MaxMindDbError,
    so_far: &mut SoFar<'_, '_>,
    out: &mut O,
    reports: &mut Reports<'_, '_, E>,
) -> Result<(), ProgramError>
    ensures told { (both : Both) → IsReady both so_far.old
        → OnOk result (Tells so_far.old.pairs.layout.now so_far.old.pairs.shown both
        (waiting_in so_far.old.changes) (waiting_in so_far.new.changes)
        (O.contents out.old) (O.contents out.new)) }
    ensures ready { (both : Both) → IsReady both so_far.old
        → OnOk result (IsReady both so_far.new) }
    ensures same { ShowTheSame so_far.old so_far.new }
    ensures waiting { so_far.new.waiting ≡ so_far.old.waiting }
    ensures counted { so_far.new.faults ≡ min (so_far.old.faults + 1) (2 ^ 64 - 1) }
{
    if !so_far.begin_fault(out)? {
        return Ok(());
    }
    reports.report_in(side, place, error, &mut so_far.pairs, out)
}

// Reports a leaf that can't be read, after what waits.
#[inline(never)]
fn report_leaf<O: Write, E: Pace>(
    side: Side,
    leaf: &UnreadLeaf,
    so_far: &mut SoFar<'_, '_>,
    out: &mut O,
    reports: &mut Reports<'_, '_, E>,
) -> Result<(), ProgramError>
    ensures told { (both : Both) → IsReady both so_far.old
        → OnOk result (Tells so_far.old.pairs.layout.now so_far.old.pairs.shown both
        (waiting_in so_far.old.changes) (waiting_in so_far.new.changes)
        (O.contents out.old) (O.contents out.new)) }
    ensures ready { (both : Both) → IsReady both so_far.old
        → OnOk result (IsReady both so_far.new) }
    ensures same { ShowTheSame so_far.old so_far.new }
    ensures waiting { so_far.new.waiting ≡ so_far.old.waiting }
    ensures counted { so_far.new.faults ≡ min (so_far.old.faults + 1) (2 ^ 64 - 1) }
{
    let place = match leaf.behind {
        Some(network) => Where::Behind(network),
        None => Where::First,
    };
    report_fault(side, place, &leaf.error, so_far, out, reports)
}

// The network whose value can't be read, as its file has it.
fn network_of_fault(
    stretch: TogetherStretch,
    side: Side,
    answers: FoundInBoth<'_, '_>,
) -> Result<IpNetwork, ProgramError> {
    let found = match side {
        Side::Old => answers.old,
        Side::New => answers.new,
    };
    match found {
        Some(found) => Ok(found.network()?),
        None => network_of(stretch.block, stretch.is_ipv4),
    }
}

// Reports a value that can't be read, unless memory is out, after what waits: once for each network of its file.
#[inline(never)]
fn report_value<O: Write, E: Pace>(
    stretch: TogetherStretch,
    answers: FoundInBoth<'_, '_>,
    unreadable: &UnreadableValue,
    so_far: &mut SoFar<'_, '_>,
    out: &mut O,
    reports: &mut Reports<'_, '_, E>,
) -> Result<(), ProgramError>
    ensures told { (both : Both) → IsReady both so_far.old
        → OnOk result (Tells so_far.old.pairs.layout.now so_far.old.pairs.shown both
        (waiting_in so_far.old.changes) (waiting_in so_far.new.changes)
        (O.contents out.old) (O.contents out.new)) }
    ensures ready { (both : Both) → IsReady both so_far.old
        → OnOk result (IsReady both so_far.new) }
    ensures read { OnOk result (IsNoMemory unreadable.now.error) }
    ensures same { ShowTheSame so_far.old so_far.new }
    ensures waiting { so_far.new.waiting ≡ so_far.old.waiting }
{
    if let MaxMindDbError::Memory = unreadable.error {
        so_far.begin_fault(out)?;
        return Err(ProgramError::Memory);
    }
    let side = unreadable.side;
    let network = network_of_fault(stretch, side, answers)?;
    if !so_far.is_new_fault(side, network) {
        return Ok(());
    }
    let place = Where::At(network);
    report_fault(side, place, &unreadable.error, so_far, out, reports)
}

// Compares what was found in a stretch, and takes or reports it where there is something to say.
fn compare_answers<'r, O: Write, E: Pace>(
    stretch: TogetherStretch,
    answers: FoundInBoth<'_, 'r>,
    so_far: &mut SoFar<'_, 'r>,
    out: &mut O,
    reports: &mut Reports<'_, '_, E>,
) -> Result<(), ProgramError>
    ensures told { (both : Both) → IsReady both so_far.old
        → AreFoundIn so_far.old.pairs.shown.sections answers.entry.old answers.entry.new
        → HasThere both stretch (offset_at answers.entry.old) (offset_at answers.entry.new)
        → OnOk result (Tells so_far.old.pairs.layout.now so_far.old.pairs.shown both
        (with_stretch stretch (waiting_in so_far.old.changes))
        (untold so_far.old.kinds so_far.old.pairs.shown both so_far.new.changes [])
        (O.contents out.old) (O.contents out.new)) }
    ensures ready { (both : Both) → IsReady both so_far.old
        → AreFoundIn so_far.old.pairs.shown.sections answers.entry.old answers.entry.new
        → HasThere both stretch (offset_at answers.entry.old) (offset_at answers.entry.new)
        → OnOk result (IsReady both so_far.new) }
    ensures same { ShowTheSame so_far.old so_far.new }
    ensures waiting { so_far.new.waiting ≡ so_far.old.waiting }
{
    match so_far.pairs.is_same(reports.console.alloc, answers) {
        Ok(true) => Ok(()),
        Ok(false) => {
            let pairs = &mut so_far.pairs;
            so_far.changes.push(stretch, answers, pairs, out)
        }
        Err(unreadable) => {
            let reported = report_value(stretch, answers, &unreadable, so_far, out, reports);
            drop(unreadable);
            reported
        }
    }
}

// What the database of a side has in a stretch, if it has a record there.
fn found_in<'r>(together: &Together<'r, Vec<u8>>, side: Side, stretch: Stretch) -> Option<Found<'r>>
    ensures found { has_record stretch.presence side ≡ true → (db : Database)
        → place_of side < length together.now.databases → IsFoundAt
        (get_or together.now.databases (place_of side) db) (numbered_ip stretch.part.block.first)
        result }
    ensures none { has_record stretch.presence side ≡ false → result ≡ None }
    ensures law { IsFoundAsAnswered result }
{
    let has_record = match side {
        Side::Old => stretch.presence.in_old,
        Side::New => stretch.presence.in_new,
    };
    let found = if has_record {
        together.found(side.place(), stretch.part)
    } else {
        None
    };
    found_as_answered(&found);
    found
}

// What two databases have, as it was found.
fn found_in_both<'f, 'r>(
    old: &'f Option<Found<'r>>,
    new: &'f Option<Found<'r>>,
) -> FoundInBoth<'f, 'r>
    ensures old { offset_at result.old ≡ offset_in old.now }
    ensures new { offset_at result.new ≡ offset_in new.now }
    ensures found { (s : Sections) → IfSome old.now (λ r. section_asked r ≡ s.in_old)
        → IfSome new.now (λ r. section_asked r ≡ s.in_new) → AreFoundIn s result.old result.new }
{
    FoundInBoth {
        old: old.as_ref(),
        new: new.as_ref(),
    }
}

// Compares a stretch of which it was not kept that both databases have the same. Most records have not changed, which is
// seen of them where they are.
#[inline(never)]
fn compare_stretch<'r, O: Write, E: Pace>(
    together: &Together<'r, Vec<u8>>,
    stretch: Stretch,
    offsets: Option<Offsets>,
    so_far: &mut SoFar<'_, 'r>,
    out: &mut O,
    reports: &mut Reports<'_, '_, E>,
) -> Result<(), ProgramError>
    ensures told { (left : List Coming)
        → AreCompared so_far.old.pairs.shown.sections together.now.databases left
        → IsWaiting left stretch offsets
        → IsReady (both_of left) so_far.old
        → OnOk result (Tells so_far.old.pairs.layout.now so_far.old.pairs.shown (both_of left)
        (with_stretch stretch.part (waiting_in so_far.old.changes))
        (untold so_far.old.kinds so_far.old.pairs.shown (both_of left) so_far.new.changes [])
        (O.contents out.old) (O.contents out.new)) }
    ensures ready { (left : List Coming)
        → AreCompared so_far.old.pairs.shown.sections together.now.databases left
        → IsWaiting left stretch offsets
        → IsReady (both_of left) so_far.old
        → OnOk result (IsReady (both_of left) so_far.new) }
    ensures same { ShowTheSame so_far.old so_far.new }
    ensures waiting { so_far.new.waiting ≡ so_far.old.waiting }
{
    if !so_far.kinds.has(kind_of(stretch.part.is_ipv4)) {
        return Ok(());
    }
    if so_far.sees_same(offsets) {
        return Ok(());
    }
    let old = found_in(together, Side::Old, stretch);
    let new = found_in(together, Side::New, stretch);
    let answers = found_in_both(&old, &new);
    compare_answers(stretch.part, answers, so_far, out, reports)
}

// None is.
fn none_known() -> [bool; MOST_WAITING]
    ensures { (index : ℕ) → get_or result index false ≡ false }
{
    [false; MOST_WAITING]
}

// Which of the stretches that wait have the same in both databases, as far as that is kept.
#[inline(never)]
fn known_of(so_far: &SoFar<'_, '_>) -> [bool; MOST_WAITING]
    ensures { AreMarked so_far.now.pairs.kept so_far.now.waiting.offsets.items result }
{
    let mut known = none_known();
    let offsets = so_far.waiting.offsets.as_slice();
    for index in 0..offsets.len().min(MOST_WAITING) {
        known[index] = so_far.pairs.kept.keeps_same(offsets[index]);
    }
    known
}

// Shows on a terminal how many stretches were compared, after each `STEP` times.
fn show_compared<E: Pace>(so_far: &mut SoFar<'_, '_>, reports: &mut Reports<'_, '_, E>)
    ensures same { ShowTheSame so_far.old so_far.new }
    ensures waiting { so_far.new.waiting ≡ so_far.old.waiting }
    ensures changes { so_far.new.changes ≡ so_far.old.changes }
    ensures pairs { so_far.new.pairs ≡ so_far.old.pairs }
{
    so_far.times = so_far.times.saturating_add(1);
    if so_far.times % STEP == 0 {
        let compared = so_far.times.saturating_mul(MOST_WAITING as u64);
        reports
            .console
            .show_progress("networks", Passed::of(compared));
    }
}

// Compares each of the stretches that wait.
fn compare_each<'r, O: Write, E: Pace>(
    together: &Together<'r, Vec<u8>>,
    so_far: &mut SoFar<'_, 'r>,
    out: &mut O,
    reports: &mut Reports<'_, '_, E>,
) -> Result<(), ProgramError>
    ensures told { (left : List Coming)
        → AreCompared so_far.old.pairs.shown.sections together.now.databases left
        → AreSoFar left so_far.old
        → OnOk result (Tells so_far.old.pairs.layout.now so_far.old.pairs.shown (both_of left)
        (untold_by left so_far.old)
        (untold so_far.old.kinds so_far.old.pairs.shown (both_of left) so_far.new.changes [])
        (O.contents out.old) (O.contents out.new)) }
    ensures ready { (left : List Coming)
        → AreCompared so_far.old.pairs.shown.sections together.now.databases left
        → AreSoFar left so_far.old
        → OnOk result (IsReady (both_of left) so_far.new) }
    ensures same { ShowTheSame so_far.old so_far.new }
{
    let known = known_of(so_far);
    for index in 0..MOST_WAITING {
        if known[index] {
            so_far.keep_last(index);
            continue;
        }
        let Some((stretch, offsets)) = so_far.waiting.at(index) else {
            return Ok(());
        };
        compare_stretch(together, stretch, offsets, so_far, out, reports)?;
    }
    Ok(())
}

// Compares the stretches that wait.
fn compare_waiting<'r, O: Write, E: Pace>(
    together: &Together<'r, Vec<u8>>,
    so_far: &mut SoFar<'_, 'r>,
    out: &mut O,
    reports: &mut Reports<'_, '_, E>,
) -> Result<(), ProgramError>
    ensures goes_on { (left : List Coming)
        → AreCompared so_far.old.pairs.shown.sections together.now.databases left
        → AreSoFar left so_far.old → OnOk result (GoesOn left (untold_by left so_far.old)
        so_far.old so_far.new (O.contents out.old) (O.contents out.new)) }
    ensures same { ShowTheSame so_far.old so_far.new }
    ensures none { OnOk result (so_far.new.waiting.stretches.items ≡ []) }
{
    compare_each(together, so_far, out, reports)?;
    so_far.waiting.clear();
    show_compared(so_far, reports);
    Ok(())
}

// Takes the next stretch of two databases, unless it is among the last that both have the same in.
#[inline(always)]
fn take_stretch<'r, O: Write, E: Pace>(
    together: &Together<'r, Vec<u8>>,
    part: TogetherStretch,
    so_far: &mut SoFar<'_, 'r>,
    out: &mut O,
    reports: &mut Reports<'_, '_, E>,
) -> Result<(), ProgramError>
    ensures goes_on { (left : List Coming)
        → AreCompared so_far.old.pairs.shown.sections together.now.databases left
        → AreSoFar left so_far.old → length so_far.old.waiting.stretches.items < 64
        → IsTaken left part together.now.answers
        → OnOk result (GoesOn left (with_stretch part (untold_by left so_far.old))
        so_far.old so_far.new (O.contents out.old) (O.contents out.new)) }
    ensures same { ShowTheSame so_far.old so_far.new }
    ensures few { length so_far.old.waiting.stretches.items < 64
        → OnOk result (length so_far.new.waiting.stretches.items < 64) }
{
    let old = together.offset(Side::Old.place());
    let new = together.offset(Side::New.place());
    let offsets = Offsets::of(old, new);
    if so_far.pairs.kept.were_last_same(offsets) {
        return Ok(());
    }
    let presence = Presence {
        in_old: old.is_some(),
        in_new: new.is_some(),
    };
    if so_far.waiting.add(Stretch { part, presence }, offsets)? {
        return compare_waiting(together, so_far, out, reports);
    }
    Ok(())
}

// Reports why the next part of a database can't be read, after those before it.
#[inline(never)]
fn take_unread<'r, O: Write, E: Pace>(
    together: &mut Together<'r, Vec<u8>>,
    side: Side,
    so_far: &mut SoFar<'_, 'r>,
    out: &mut O,
    reports: &mut Reports<'_, '_, E>,
) -> Result<(), ProgramError>
    ensures goes_on { (left : List Coming)
        → AreCompared so_far.old.pairs.shown.sections together.old.databases left
        → AreSoFar left so_far.old → OnOk result (GoesOn left (untold_by left so_far.old)
        so_far.old so_far.new (O.contents out.old) (O.contents out.new)) }
    ensures same { ShowTheSame so_far.old so_far.new }
    ensures none { OnOk result (so_far.new.waiting.stretches.items ≡ []) }
    ensures together { together.exit.now ≡ together.entry.now }
{
    compare_waiting(together, so_far, out, reports)?;
    match together.take_unread(side.place()) {
        Some(leaf) => {
            let reported = report_leaf(side, &leaf, so_far, out, reports);
            drop(leaf);
            reported
        }
        None => Ok(()),
    }
}

// Takes the next part of two databases.
#[inline(always)]
fn take_part<'r, O: Write, E: Pace>(
    together: &mut Together<'r, Vec<u8>>,
    part: TogetherPart,
    so_far: &mut SoFar<'_, 'r>,
    out: &mut O,
    reports: &mut Reports<'_, '_, E>,
) -> Result<(), ProgramError>
    ensures goes_on { (left : List Coming)
        → AreCompared so_far.old.pairs.shown.sections together.old.databases left
        → AreSoFar left so_far.old → length so_far.old.waiting.stretches.items < 64
        → IsTakenPart left part together.old.answers
        → OnOk result (GoesOn left (with_part part (untold_by left so_far.old))
        so_far.old so_far.new (O.contents out.old) (O.contents out.new)) }
    ensures same { ShowTheSame so_far.old so_far.new }
    ensures few { length so_far.old.waiting.stretches.items < 64
        → OnOk result (length so_far.new.waiting.stretches.items < 64) }
    ensures together { together.exit.now ≡ together.entry.now }
{
    match part {
        TogetherPart::Stretch(stretch) => take_stretch(together, stretch, so_far, out, reports),
        TogetherPart::Unread(place) => take_unread(together, Side::at(place), so_far, out, reports),
    }
}

// Takes each part of two databases, and compares what still waits.
fn take_all<'r, O: Write, E: Pace>(
    together: &mut Together<'r, Vec<u8>>,
    so_far: &mut SoFar<'_, 'r>,
    out: &mut O,
    reports: &mut Reports<'_, '_, E>,
) -> Result<(), ProgramError>
    ensures told { let left = together.old.left in
        AreCompared so_far.old.pairs.shown.sections together.old.databases left
        → AreSoFar left so_far.old → length so_far.old.waiting.stretches.items < 64
        → together.old.at ≡ 0 → OnOk result (TellsAll so_far.old.pairs.layout.now
        so_far.old.pairs.shown (both_of left) (IsShownAt left) (untold_by left so_far.new)
        (O.contents out.old) (O.contents out.new)) }
    ensures so_far { let left = together.old.left in
        AreCompared so_far.old.pairs.shown.sections together.old.databases left
        → AreSoFar left so_far.old → length so_far.old.waiting.stretches.items < 64
        → together.old.at ≡ 0 → OnOk result (AreSoFar left so_far.new) }
    ensures same { ShowTheSame so_far.old so_far.new }
    ensures none { OnOk result (so_far.new.waiting.stretches.items ≡ []) }
{
    for _ in 0..u64::MAX {
        let Some(part) = together.next_part() else {
            return compare_waiting(together, so_far, out, reports);
        };
        take_part(together, part, so_far, out, reports)?;
    }
    Err(ProgramError::OutOfOrder)
}

// Compares two databases, and writes what differs.
#[inline(never)]
fn compare_all<'r, O: Write, E: Pace>(
    together: &mut Together<'r, Vec<u8>>,
    so_far: &mut SoFar<'_, 'r>,
    out: &mut O,
    reports: &mut Reports<'_, '_, E>,
) -> Result<(), ProgramError>
    requires compared { AreCompared so_far.old.pairs.shown.sections together.old.databases
        together.old.left }
    requires so_far { AreSoFar together.old.left so_far.old }
    requires few { length so_far.old.waiting.stretches.items < 64 }
    requires at { together.old.at ≡ 0 }
    // Each address of which it is known what both have, where one has a record, is in a true line, or left out.
    ensures told { let left = together.old.left in OnOk result (TellsAll so_far.old.pairs.layout.now
        so_far.old.pairs.shown (both_of left) (IsShownAt left)
        (IsLeftOut so_far.old.kinds so_far.old.pairs.shown (both_of left))
        (O.contents out.old) (O.contents out.new)) }
    ensures same { ShowTheSame so_far.old so_far.new }
{
    take_all(together, so_far, out, reports)?;
    let pairs = &mut so_far.pairs;
    so_far.changes.finish(pairs, out)
}

// Reports what was counted, after what was written, and answers the status.
fn report_counts<O: Write, E: Pace>(
    counts: ChangeCounts,
    faults: u64,
    exit_code: bool,
    console: &mut Console<'_, O, E>,
) -> Result<u8, ProgramError> {
    console.flush()?;
    let text = counts.text(console.alloc)?;
    console.note(Ok(text));
    if faults > 0 {
        console.note(format!(in console.alloc; "mmdb: {faults} networks could not be read\n"));
        Ok(FAILED)
    } else if exit_code && !counts.are_same() {
        Ok(DIFFERENT)
    } else {
        Ok(DONE)
    }
}

// All addresses of the wanted kinds that both databases have.
fn all_of(old: &Database, new: &Database, kinds: Kinds) -> Result<IpNetwork, MaxMindDbError> {
    let have_ipv6 = old.metadata().ip_version == 6 && new.metadata().ip_version == 6;
    let has_ipv6 = have_ipv6 && kinds.has(BlockKind::Ipv6);
    let first = if has_ipv6 {
        IpAddr::V6(Ipv6Addr::UNSPECIFIED)
    } else {
        IpAddr::V4(Ipv4Addr::UNSPECIFIED)
    };
    Ok(IpNetwork::new(first, 0)?)
}

// Compares two databases side by side with what is kept so far, and answers the status.
fn compare_with<'a, 'r, O: Write, E: Pace>(
    task: &'a DiffTask<'a>,
    together: &mut Together<'r, Vec<u8>>,
    so_far: &mut SoFar<'a, 'r>,
    console: &mut Console<'_, O, E>,
) -> Result<u8, ProgramError>
    requires compared { AreCompared so_far.old.pairs.shown.sections together.old.databases
        together.old.left }
    requires so_far { AreSoFar together.old.left so_far.old }
    requires few { length so_far.old.waiting.stretches.items < 64 }
    requires at { together.old.at ≡ 0 }
{
    put_names(console.alloc, &task.layout, console.out)?;
    let mut nowhere = io::sink();
    let (out, errors) = apart(console, &mut nowhere);
    let mut reports = Reports {
        task,
        console: errors,
    };
    let compared = compare_all(together, so_far, out, &mut reports);
    reports.console.clear_progress();
    drop(reports);
    compared?;
    so_far.pairs.let_go();
    report_counts(
        so_far.changes.counts,
        so_far.faults,
        task.exit_code,
        console,
    )
}

// Compares two databases side by side, and answers the status.
fn compare<'a, 'r, O: Write, E: Pace>(
    task: &'a DiffTask<'a>,
    databases: &'r TwoDatabases,
    together: &mut Together<'r, Vec<u8>>,
    console: &mut Console<'_, O, E>,
) -> Result<u8, ProgramError>
    requires compared { AreCompared (record {
      in_old = data_section databases.now.old;
      in_new = data_section (unwrap_or databases.now.other databases.now.old);
    }) together.old.databases together.old.left }
    requires at { together.old.at ≡ 0 }
{
    let mut so_far = SoFar::new(console.alloc, task, databases)?;
    let done = compare_with(task, together, &mut so_far, console);
    drop(so_far);
    done
}

// Looks at the records of a database for the fields that are shown, each once, until all are met, and answers whether there
// are any. An `Err` is of memory.
fn look_at(
    alloc: Global,
    networks: Networks<'_>,
    layout: &Layout<'_>,
    met: &mut FieldsMet,
) -> Result<bool, AllocError> {
    let mut offsets = HashSet::new(alloc);
    for item in networks {
        if met.are_all_met() {
            break;
        }
        if let Ok(found) = item {
            if offsets.insert(found.offset().unwrap_or(0))? {
                met.look(&found, layout.paths());
            }
        }
    }
    Ok(!offsets.is_empty())
}

// Looks at the records of a database in a range, if its networks can be walked.
fn look_in(
    alloc: Global,
    database: &Database,
    range: IpNetwork,
    layout: &Layout<'_>,
    met: &mut FieldsMet,
) -> Result<bool, AllocError> {
    match networks_in(alloc, database, Some(range)) {
        Ok(networks) => look_at(alloc, networks, layout, met),
        Err(_) => Ok(false),
    }
}

// Says of fields that no record of either database has in a range. What may be meant is looked for in the newer one, and in the
// old one where that has no record.
fn note_absent<O: Write, E: Pace>(
    task: &DiffTask<'_>,
    databases: &TwoDatabases,
    range: IpNetwork,
    console: &mut Console<'_, O, E>,
) -> Result<(), ProgramError> {
    let alloc = console.alloc;
    let layout = &task.layout;
    let mut met = FieldsMet::new(alloc, layout.paths().len())?;
    let has_newer = look_in(alloc, databases.newer(), range, layout, &mut met)?;
    let mut met_before = FieldsMet::new(alloc, layout.paths().len())?;
    met_before.join(&met);
    look_in(alloc, databases.old(), range, layout, &mut met_before)?;
    if !has_newer {
        let section = databases.old().data_section();
        return met_before.note_absent(layout.path_texts(), section, console);
    }
    met.join(&met_before);
    met.note_absent(
        layout.path_texts(),
        databases.newer().data_section(),
        console,
    )
}

// Compares two databases in a range, and answers the status.
fn compare_range<'a, O: Write, E: Pace>(
    databases: &TwoDatabases,
    range: IpNetwork,
    task: &'a DiffTask<'a>,
    console: &mut Console<'_, O, E>,
) -> Result<u8, ProgramError> {
    let both = [
        AskedDatabase {
            reader: databases.old(),
            range,
        },
        AskedDatabase {
            reader: databases.newer(),
            range,
        },
    ];
    match Together::new(console.alloc, &both) {
        Ok(mut together) => {
            let done = compare(task, databases, &mut together, console);
            drop(together);
            done
        }
        Err((place, error)) => {
            console.report(file_of(task, Side::at(place)), &error);
            drop(error);
            Ok(FAILED)
        }
    }
}

// Writes that nothing differs, and answers the status.
fn report_none<O: Write, E: Pace>(
    task: &DiffTask<'_>,
    console: &mut Console<'_, O, E>,
) -> Result<u8, ProgramError> {
    put_names(console.alloc, &task.layout, console.out)?;
    report_counts(ChangeCounts::new(), 0, task.exit_code, console)
}

// Compares two databases, and answers the status.
fn diff_databases<'a, O: Write, E: Pace>(
    databases: &TwoDatabases,
    task: &'a DiffTask<'a>,
    console: &mut Console<'_, O, E>,
) -> Result<u8, ProgramError> {
    let both = [databases.old(), databases.newer()];
    let range = match range_asked(&both, task.range, console)? {
        Some(range) => range,
        None => all_of(databases.old(), databases.newer(), task.kinds)?,
    };
    if !can_be_walked(databases.old(), task.old, Some(range), console)?
        || !can_be_walked(databases.newer(), task.new, Some(range), console)?
    {
        return Ok(FAILED);
    }
    note_absent(task, databases, range, console)?;
    if databases.have_same_bytes()
        && are_all_readable(console.alloc, databases.old(), range, &task.layout)
    {
        return report_none(task, console);
    }
    compare_range(databases, range, task, console)
}

// Opens two files and writes what changed between them, and answers the status.
fn diff_files<'a, R: Files + Env, O: Write, E: Pace>(
    rt: &R,
    task: &'a DiffTask<'a>,
    console: &mut Console<'_, O, E>,
) -> Result<u8, ProgramError> {
    match open_two(rt, task.old, task.new, console) {
        Some(databases) => {
            let done = diff_databases(&databases, task, console);
            drop(databases);
            done
        }
        None => Ok(FAILED),
    }
}

/// Writes what changed between two files, reports what of them can't be read, and answers the status. An `Err` where an
/// argument is not what is wanted in its place, before a file is opened; where standard output can't be written, the
/// networks of a database do not ascend, or out of memory.
pub fn diff<R: Files + Env, O: Write, E: Pace>(
    rt: &R,
    arguments: &DiffArguments<'_>,
    console: &mut Console<'_, O, E>,
) -> Result<u8, ProgramError> {
    let task = diff_task(console.alloc, arguments)?;
    note_range(task.range, console);
    let done = diff_files(rt, &task, console);
    drop(task);
    done
}
