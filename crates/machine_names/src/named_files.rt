//! Laws of the files' names in each run by names.

ghost use Rattle.machine_names.specs.NamedFiles.{FilesHaveOneName, HiddenFilesTellAMoment, NamedFilesAreThere};

/// A file that stands under a name was made and not collected, and stands under no other name.
pub fn files_have_one_name()
    ensures there { NamedFilesAreThere }
    ensures one { FilesHaveOneName }
{}

/// A file that stands right in the directory of deleted files has a hidden name.
pub fn hidden_files_tell_a_moment()
    ensures { HiddenFilesTellAMoment }
{}
