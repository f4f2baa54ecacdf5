//! Why a run ends that is not done, and what is printed of it.

ghost use Rattle.std.specs.Prelude.{decimal};
ghost use Rattle.pg_program.specs.Told.{WritesOut, behind_refused, line_refused, number_end, number_refused, refused_line};

use itoa::Buffer;
use pg_script::{RunFault, put_whole};
use pg_streams::Sink;

/// Why a run is not done.
#[derive(Clone, Copy, Debug, PartialEq, Eq)]
pub(crate) enum Fault {
    /// The run was refused, by the number of the fault.
    Run(u8),
    /// What was given was refused: a name, the script or its configuration.
    Given(u8),
    /// A line of the script was refused.
    Line { line: usize, number: u8 },
}

impl Fault {
    ghost use Rattle.std.specs.Prelude.{◌≡◌};
    ghost use Rattle.pg_program.specs.Faults.{status_number, fault_line};

    /// The status that the program ends with.
    pub(crate) fn status(self) -> u8
        ensures { result ≡ status_number self }
    {
        match self {
            Fault::Run(_) => 1,
            Fault::Given(_) | Fault::Line { .. } => 2,
        }
    }

    /// Writes the line that tells it.
    pub(crate) fn print<F: Sink>(self, faults: &mut F) -> Result<(), RunFault>
        ensures { WritesOut F.fails (F.contents faults.old) (F.contents faults.new) faults.new (fault_line self) result }
    {
        match self {
            Fault::Run(number) => print_refused(faults, number),
            Fault::Given(number) => print_refused(faults, number),
            Fault::Line { line, number } => print_line(faults, line, number),
        }
    }
}

/// `refused N`, and a line feed.
fn print_refused<F: Sink>(faults: &mut F, number: u8) -> Result<(), RunFault>
    ensures { WritesOut F.fails (F.contents faults.old) (F.contents faults.new) faults.new (refused_line number) result }
{
    match put(faults, b"refused ") {
        Ok(()) => print_end(faults, u64::from(number)),
        Err(fault) => Err(fault),
    }
}

/// `line L refused N`, and a line feed.
fn print_line<F: Sink>(faults: &mut F, line: usize, number: u8) -> Result<(), RunFault>
    ensures { WritesOut F.fails (F.contents faults.old) (F.contents faults.new) faults.new (line_refused line number) result }
{
    match put(faults, b"line ") {
        Ok(()) => print_line_number(faults, line, number),
        Err(fault) => Err(fault),
    }
}

/// `L refused N`, and a line feed.
fn print_line_number<F: Sink>(faults: &mut F, line: usize, number: u8) -> Result<(), RunFault>
    ensures { WritesOut F.fails (F.contents faults.old) (F.contents faults.new) faults.new (number_refused line number) result }
{
    match put_number(faults, line as u64) {
        Ok(()) => print_behind(faults, number),
        Err(fault) => Err(fault),
    }
}

/// ` refused N`, and a line feed.
fn print_behind<F: Sink>(faults: &mut F, number: u8) -> Result<(), RunFault>
    ensures { WritesOut F.fails (F.contents faults.old) (F.contents faults.new) faults.new (behind_refused number) result }
{
    match put(faults, b" ") {
        Ok(()) => print_refused(faults, number),
        Err(fault) => Err(fault),
    }
}

/// `N`, and a line feed.
fn print_end<F: Sink>(faults: &mut F, number: u64) -> Result<(), RunFault>
    ensures { WritesOut F.fails (F.contents faults.old) (F.contents faults.new) faults.new (number_end number) result }
{
    match put_number(faults, number) {
        Ok(()) => put(faults, b"\n"),
        Err(fault) => Err(fault),
    }
}

/// A number in decimal.
fn put_number<F: Sink>(faults: &mut F, number: u64) -> Result<(), RunFault>
    ensures { WritesOut F.fails (F.contents faults.old) (F.contents faults.new) faults.new (decimal number) result }
{
    let mut buffer = Buffer::new();
    put(faults, buffer.format(number).as_bytes())
}

/// These bytes.
fn put<F: Sink>(faults: &mut F, bytes: &[u8]) -> Result<(), RunFault>
    ensures { WritesOut F.fails (F.contents faults.old) (F.contents faults.new) faults.new bytes.now result }
{
    put_whole(faults, bytes)
}
