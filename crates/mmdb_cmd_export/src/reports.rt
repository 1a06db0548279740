//! Reports of networks that can't be written.
use crate::several::Several;
use mmdb_console::{Console, DONE, FAILED, Pace, Passed, ProgramError, Where};
use mmdb_layout::Condition;
use mmdb_query::{Answer, Fault, Faults, UnreadLeaf};
use mmdb_query_forms::{Column, ColumnSource};
use mmdb_reader::{IpNetwork, MaxMindDbError, PathElement};
use std::alloc::{AllocError, Global};
use std::io::{self, Write};
use std::net::{IpAddr, Ipv4Addr};

/// How many networks are named that can't be read. The others are counted.
pub(crate) const MOST_NAMED: u64 = 10;

/// What is asked of the records of a network, in this order.
#[derive(Clone, Copy)]
pub(crate) struct AskedOfRecords<'x> {
    pub(crate) conditions: &'x [Condition<'x>],
    pub(crate) columns: &'x [Column<'x>],
}

// The place of the first database whose record can't be read along a path, where the value there is asked of them in turn.
fn fault_along<A: Answer>(
    alloc: Global,
    answer: &A,
    count: usize,
    path: &[PathElement<'_>],
) -> Option<usize> {
    for place in 0..count {
        match answer.read_at(alloc, place, path) {
            Ok(None) => {}
            Ok(Some(_)) => return None,
            Err(_) => return Some(place),
        }
    }
    None
}

// The place of a database, if its record can't be read.
fn fault_at<A: Answer>(alloc: Global, answer: &A, place: usize) -> Option<usize> {
    match answer.read_at(alloc, place, &[]) {
        Ok(_) => None,
        Err(_) => Some(place),
    }
}

impl AskedOfRecords<'_> {
    // The place of the first of so many databases whose record can't be read as conditions ask.
    fn fault_in_conditions<A: Answer>(
        &self,
        alloc: Global,
        answer: &A,
        count: usize,
    ) -> Option<usize> {
        self.conditions.iter().find_map(|condition| fault_along(
            alloc,
            answer,
            count,
            condition.path.as_slice(),
        ))
    }

    // The same as columns ask.
    fn fault_in_columns<A: Answer>(
        &self,
        alloc: Global,
        answer: &A,
        count: usize,
    ) -> Option<usize> {
        self.columns
            .iter()
            .find_map(|column| match column.source() {
                ColumnSource::Path(path) => fault_along(alloc, answer, count, path.as_slice()),
                ColumnSource::Record(place) => fault_at(alloc, answer, *place),
            })
    }

    // The place of the first of so many databases whose record can't be read as is asked.
    fn fault_in<A: Answer>(&self, alloc: Global, answer: &A, count: usize) -> Option<usize> {
        self.fault_in_conditions(alloc, answer, count)
            .or_else(|| self.fault_in_columns(alloc, answer, count))
    }
}

/// The output of a console, and one for its errors alone, whose own output is nowhere.
pub(crate) fn apart<'c, O: Write, E: Pace>(
    console: &'c mut Console<'_, O, E>,
    nowhere: &'c mut io::Sink,
) -> (&'c mut O, Console<'c, io::Sink, E>) {
    let Console {
        alloc,
        terminals,
        out,
        errors,
        ..
    } = console;
    (
        &mut **out,
        Console::new(*alloc, *terminals, nowhere, &mut **errors),
    )
}

/// Reports of networks that can't be written, each once for each database.
#[derive(Drop)]
pub(crate) struct Reports<'x, 'd, 'c, E: Pace> {
    console: Console<'c, io::Sink, E>,
    several: &'x Several<'d>,
    asked: AskedOfRecords<'x>,
    /// The network of each database that was the last one of it that could not be read.
    faulty: Vec<Option<IpNetwork>>,
    /// How many networks could not be read.
    pub(crate) count: u64,
}

// The first address of a network: one of IPv4, where lookups of that find what a network of IPv6 has.
fn first_of(network: IpNetwork) -> IpAddr {
    match network.ip() {
        IpAddr::V6(ip) => match u32::try_from(u128::from(ip)) {
            Ok(bits) => IpAddr::V4(Ipv4Addr::from(bits)),
            Err(_) => IpAddr::V6(ip),
        },
        ip => ip,
    }
}

impl<'x, 'd, 'c, E: Pace> Reports<'x, 'd, 'c, E> {
    /// None yet. They go to the standard error of a console.
    pub(crate) fn new(
        console: Console<'c, io::Sink, E>,
        several: &'x Several<'d>,
        asked: AskedOfRecords<'x>,
    ) -> Result<Reports<'x, 'd, 'c, E>, AllocError> {
        let faulty = vec![in console.alloc; None; several.asked().len()]?;
        Ok(Reports {
            console,
            several,
            asked,
            faulty,
            count: 0,
        })
    }

    /// Takes away what is shown of how far it is.
    pub(crate) fn clear_progress(&mut self) {
        self.console.clear_progress();
    }

    // The network of the database at a place in which a network lies, as far as the database knows it.
    fn network_in(&self, place: usize, network: IpNetwork) -> IpNetwork {
        let Some(asked) = self.several.asked().get(place) else {
            return network;
        };
        match asked.reader.lookup(first_of(network)) {
            Ok(found) => found.network().unwrap_or(network),
            Err(_) => network,
        }
    }

    // Whether a network of the database at a place is the last that could not be read of it: one of a database is in as many rows
    // as the others have networks there.
    fn is_last(&self, place: usize, network: IpNetwork) -> bool {
        match self.faulty.get(place) {
            Some(last) => *last == Some(network),
            None => false,
        }
    }

    // Notes that.
    fn note_last(&mut self, place: usize, network: IpNetwork) {
        if let Some(last) = self.faulty.get_mut(place) {
            *last = Some(network);
        }
    }

    // What a report names: the file too, if there are several.
    fn name_of(&self, place: usize, what: Where) -> Result<String, AllocError> {
        let name = what.name(self.console.alloc)?;
        if !self.several.are_several() {
            return Ok(name);
        }
        let file = self.several.name_at(place);
        format!(in self.console.alloc; "{file}: {name}")
    }

    // Reports what can't be read of the database at a place, unless enough was named.
    fn report_at(
        &mut self,
        place: usize,
        what: Where,
        error: &MaxMindDbError,
    ) -> Result<(), AllocError> {
        if self.count < MOST_NAMED {
            let name = self.name_of(place, what);
            if let Err(ProgramError::Memory) = self.console.report_behind(name, error) {
                return Err(AllocError);
            }
        }
        self.count = self.count.saturating_add(1);
        Ok(())
    }

    // Reports a network of the one database that there is. Its whole is not looked for where enough are named.
    fn report_alone(
        &mut self,
        network: IpNetwork,
        error: &MaxMindDbError,
    ) -> Result<(), AllocError> {
        let whole = if self.count < MOST_NAMED {
            self.network_in(0, network)
        } else {
            network
        };
        self.report_at(0, Where::At(whole), error)
    }

    // Reports a network.
    fn report_network<A: Answer>(
        &mut self,
        answer: &A,
        error: &MaxMindDbError,
    ) -> Result<(), AllocError> {
        if !self.several.are_several() {
            return self.report_alone(answer.network(), error);
        }
        let count = self.several.asked().len();
        let asked = self.asked;
        let Some(place) = asked.fault_in(self.console.alloc, answer, count) else {
            return self.report_at(0, Where::At(answer.network()), error);
        };
        let network = self.network_in(place, answer.network());
        if self.is_last(place, network) {
            return Ok(());
        }
        self.report_at(place, Where::At(network), error)?;
        self.note_last(place, network);
        Ok(())
    }

    // Reports a leaf.
    fn report_leaf(&mut self, leaf: UnreadLeaf, error: &MaxMindDbError) -> Result<(), AllocError> {
        let what = match leaf.behind {
            Some(network) => Where::Behind(network),
            None => Where::First,
        };
        self.report_at(leaf.place, what, error)
    }
}

/// Reports how many networks could not be read, and answers the status.
pub(crate) fn report_faults<O: Write, E: Pace>(
    faults: u64,
    console: &mut Console<'_, O, E>,
) -> Result<u8, ProgramError> {
    if faults == 0 {
        return Ok(DONE);
    }
    let text: String = format!(in console.alloc; "mmdb: {faults} networks could not be read\n")?;
    console.note(Ok(text));
    Ok(FAILED)
}

impl<E: Pace> Faults for Reports<'_, '_, '_, E> {
    fn report<A: Answer>(
        &mut self,
        fault: &Fault<'_, A>,
        error: &MaxMindDbError,
    ) -> Result<(), AllocError> {
        match fault {
            Fault::Network(answer) => self.report_network(*answer, error),
            Fault::Leaf(leaf) => self.report_leaf(*leaf, error),
        }
    }

    fn passed(&mut self, networks: u64) {
        self.console.show_progress("networks", Passed::of(networks));
    }
}
