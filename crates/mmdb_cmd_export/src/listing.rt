//! The list of the chosen networks of one database, written while they come.
ghost use Rattle.std.specs.Prelude.{◌≡◌, OnOk, IfErr};
ghost use Rattle.mmdb_blocks.specs.Lists.{Prints};
ghost use Rattle.mmdb_query.specs.Ascending.{ComeAscending};
ghost use Rattle.mmdb_query.specs.Parts.{ComesInPart};
ghost use Rattle.mmdb_cmd_export.specs.Listed.{listed_of, may_be_empty_of, IsListOf, IsListOfFewest, ListOfFewestFails, ComesOfDatabase, asked_of_database};

use crate::blocks::end_list;
use crate::gathering::Listed;
use crate::reports::{Reports, apart, report_faults};
use crate::rows::of_query;
use mmdb_blocks::Syntax;
use mmdb_console::{Console, Pace, ProgramError};
use mmdb_layout::{Database, networks_in};
use mmdb_query::laws::{ascending_list_is_of_fewest, networks_ascend};
use mmdb_query::{Faults, Listing, One, Part, Walk, list_part};
use mmdb_query_forms::AllOf;
use mmdb_reader::laws::range_walk;
use std::alloc::Global;
use std::io::{self, Write};

impl<'d> Listed<'_, 'd> {
    // Writes the list of the chosen networks of a walk, and what ends it. Where one can't be read, it is not whole.
    fn write_along<W: Walk + Drop, O: Write, F: Faults>(
        &self,
        alloc: Global,
        syntax: Syntax<'_>,
        part: &mut Part<W>,
        out: &mut O,
        faults: &mut F,
    ) -> Result<(), ProgramError>
        ensures written { OnOk result (Prints
            (IsListOf (ComesInPart part.old.kinds part.old.range (W.comes part.old.walk))
            (listed_of self.now.task.now.conditions.items (W.sections part.old.walk))
            syntax.entry self.now.task.now.kinds)
            (O.contents out.old) (O.contents out.new)) }
        ensures fewest { let comes = ComesInPart part.old.kinds part.old.range
            (W.comes part.old.walk) in
            let asked = listed_of self.now.task.now.conditions.items
            (W.sections part.old.walk) in
            OnOk result (ComeAscending comes → Prints (IsListOfFewest comes asked syntax.entry
            self.now.task.now.kinds (may_be_empty_of self.now.task.now))
            (O.contents out.old) (O.contents out.new)) }
        ensures failed { let comes = ComesInPart part.old.kinds part.old.range
            (W.comes part.old.walk) in
            let asked = listed_of self.now.task.now.conditions.items
            (W.sections part.old.walk) in
            IfErr result (λ e. ComeAscending comes → ListOfFewestFails comes asked
            self.now.task.now.kinds (may_be_empty_of self.now.task.now)
            (O.contents out.old) (O.contents out.new) e) }
    {
        let Ok(mut listing) = Listing::new(alloc, syntax, self.task.kinds) else {
            return Err(ProgramError::Memory);
        };
        let conditions = AllOf {
            conditions: self.task.conditions.as_slice(),
        };
        let unread = match list_part(alloc, part, &conditions, &mut listing, out, faults) {
            Ok(unread) => unread,
            Err(error) => return Err(of_query(error)),
        };
        ascending_list_is_of_fewest::<AllOf<'_>>();
        end_list(
            &mut listing.list,
            self.task.allow_empty || self.task.may_lack(),
            unread == 0,
            out,
        )
    }

    // Writes the list of the chosen networks of a database in the range, and what ends it.
    fn write_networks<O: Write, F: Faults>(
        &self,
        alloc: Global,
        database: &Database,
        syntax: Syntax<'_>,
        out: &mut O,
        faults: &mut F,
    ) -> Result<(), ProgramError>
        ensures written { OnOk result (Prints (IsListOfFewest
            (ComesOfDatabase database.now self.now.several.now.range self.now.kinds)
            (asked_of_database self.now.task.now.conditions.items database.now)
            syntax.entry self.now.task.now.kinds (may_be_empty_of self.now.task.now))
            (O.contents out.old) (O.contents out.new)) }
        ensures failed { IfErr result (ListOfFewestFails
            (ComesOfDatabase database.now self.now.several.now.range self.now.kinds)
            (asked_of_database self.now.task.now.conditions.items database.now)
            self.now.task.now.kinds (may_be_empty_of self.now.task.now)
            (O.contents out.old) (O.contents out.new)) }
    {
        networks_ascend();
        range_walk();
        let range = self.several.range();
        let networks = match networks_in(alloc, database, range) {
            Ok(networks) => networks,
            Err(error) => return Err(ProgramError::Database(error)),
        };
        let mut part = Part {
            walk: One::new(networks),
            kinds: self.kinds,
            range,
        };
        self.write_along(alloc, syntax, &mut part, out, faults)
    }

    /// Writes the list of the chosen networks of a database, reports each that can't be read, and answers the status.
    pub(crate) fn write_one<O: Write, E: Pace>(
        &self,
        database: &'d Database,
        syntax: Syntax<'_>,
        console: &mut Console<'_, O, E>,
    ) -> Result<u8, ProgramError> {
        let alloc = console.alloc;
        let mut nowhere = io::sink();
        let (out, errors) = apart(console, &mut nowhere);
        let mut reports = Reports::new(errors, self.several, self.asked())?;
        let written = self.write_networks(alloc, database, syntax, out, &mut reports);
        reports.clear_progress();
        let faults = reports.count;
        drop(reports);
        written?;
        report_faults(faults, console)
    }
}
