//! Laws of what a source tells. Each function does nothing, and its contract is the law.

ghost use Rattle.std.specs.Prelude.{List, ℕ};
ghost use Rattle.jv_host.specs.declared.host.HostFile.{HostFile};
ghost use Rattle.av_stops.specs.LibraryFolders.{IsLibraryIn};
ghost use Rattle.av_library.specs.Told.{library_in};

/// What is worked out from the files of a host is the library that the folder is.
pub fn told_files_are_the_library()
    ensures { (files : List HostFile) (app lib : List ℕ) → IsLibraryIn (record { files = files; app = app; lib = lib }) (library_in files lib) }
{}
