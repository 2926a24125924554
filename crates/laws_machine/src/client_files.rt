//! Laws of the files that clients have open.

ghost use Rattle.laws_machine.specs.ClientFiles.{ClientsFilesAreOpen};

/// The files of a client's descriptors, and of its open call, are open.
pub fn clients_files_are_open()
    ensures { ClientsFilesAreOpen }
{}
