//! A file that shows a bound: it is loaded behind the files that it is about, and its bytes are answered, in one way for all commands.
ghost use Rattle.std.specs.Prelude.{◌≡◌, ◌≤◌};
ghost use Rattle.commands.specs.Decides.{Follows};
ghost use Rattle.commands.specs.Loads.{LoadsGive};
ghost use Rattle.bound_commands.specs.BoundFiles.{AnswersFile, kind_of as file_kind, with_file};

use crate::checking::answer_proof;
use crate::drawing::answer_claim;
use crate::trees::answer_tree;
use commands::{Accepted, Both, FileKind, Verdict, load_file};
use outside::Shelf;
use std::alloc::Global;

/// Such a file by its kind, with what it is about.
#[derive(Clone, Copy)]
pub enum BoundFile<'a> {
    /// A width tree, for a chip and its limits.
    Tree(&'a Both),
    /// A proof by cases on buses, for a chip and its limits.
    Proof(&'a Both),
    /// Such a proof, whose claim is drawn in the picture of a plan that is accepted.
    Claim(&'a Accepted),
}

/// The kind of the file.
fn kind_of(file: BoundFile<'_>) -> FileKind
    ensures { result ≡ file_kind file.entry }
{
    match file {
        BoundFile::Tree(_) => FileKind::Tree,
        BoundFile::Proof(_) => FileKind::Proof,
        BoundFile::Claim(_) => FileKind::Proof,
    }
}

/// What is answered of the bytes of the file.
fn answer_bytes(alloc: Global, file: BoundFile<'_>, bytes: &[u8]) -> Verdict
    ensures { AnswersFile file.entry bytes.now result }
{
    match file {
        BoundFile::Tree(both) => answer_tree(alloc, &both.soc, &both.limits, bytes),
        BoundFile::Proof(both) => answer_proof(alloc, both, bytes),
        BoundFile::Claim(all) => answer_claim(alloc, all, bytes),
    }
}

/// Loads the file of this name and answers its bytes, else how the command ends without them.
pub(crate) fn answer_bound_file<H: Shelf>(
    alloc: Global,
    file: BoundFile<'_>,
    name: &str,
    shelf: &mut H,
) -> Verdict
    ensures held_stays { H.held shelf.new ≡ H.held shelf.old }
    ensures faults_never_fall { H.faults shelf.old ≤ H.faults shelf.new }
    ensures follows { Follows (with_file file.entry name.now) (H.held shelf.old)
        (H.faults shelf.old) (H.faults shelf.new) result }
    ensures by_loads { LoadsGive H.is_load (with_file file.entry name.now)
        shelf.old result shelf.new }
{
    match load_file(alloc, kind_of(file), name, shelf) {
        Ok(bytes) => answer_bytes(alloc, file, bytes.as_slice()),
        Err(verdict) => verdict,
    }
}
