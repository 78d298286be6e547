//! What the program asks of the system that it runs on: files, streams, and words for its user.
ghost use Rattle.std.specs.Prelude.{◌≡◌, IfSome, IsFalse};
ghost use Rattle.run_system.specs.Sources.{Sources};

use cave_runs::RunFault;
use clap::Error;
use std::io::{Read, Write};

/// The files and streams of a run. The program has those of its host, of which no bytes are known, tests their own.
pub trait System {
    // What is known of its files and of standard input.
    ghost sources: { Self → Sources };

    /// A file that is read.
    type File: Read + Drop;

    /// Standard input.
    type Standard: Read + Drop;

    /// A file that is written.
    type Kept: Write + Drop;

    /// Opens a file to read it. None where that fails.
    fn open(&self, path: &str) -> Option<Self::File>
        ensures bytes { IfSome result (λ file. Self.File.remaining file ≡ (sources self.now).files path.now) }
        ensures there { IfSome result (λ file. IsFalse ((sources self.now).missing path.now)) };

    /// Standard input.
    fn standard(&self) -> Self::Standard
        ensures { Self.Standard.remaining result ≡ (sources self.now).input };

    /// Makes a file, or empties the one that is there. None where that fails.
    fn create(&self, path: &str) -> Option<Self::Kept>
        ensures { IfSome result (λ kept. Self.Kept.contents kept ≡ (sources self.now).made path.now) };

    /// Whether writing to the one file would write over the other. `-` is standard input.
    fn is_same(&self, path: &str, other: &str) -> bool
        ensures { IfSome ((sources self.now).same path.now other.now) (λ known. result ≡ known) };

    /// Whether writing to the file would write over standard output.
    fn is_output(&self, path: &str) -> bool
        ensures { IfSome ((sources self.now).over path.now) (λ known. result ≡ known) };

    /// Prints the help that was asked for on standard output, or the mistake in usage on standard error. False where
    /// that fails.
    fn print_help(&self, error: &Error) -> bool;

    /// Prints a mistake in usage on standard error.
    fn print_mistake(&self, mistake: &str);

    /// Prints the line of a fault on standard error.
    fn print_fault(&self, fault: &RunFault);

    /// A plan is made next, or dark cells are sought. Whether it was asked for that standard error tells of it.
    fn watch(&self, is_asked: bool);
}
