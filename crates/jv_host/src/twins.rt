ghost use Rattle.std.specs.Prelude.{◌≡◌, ◌↔◌, IsTrue};
ghost use Rattle.std.specs.List.{list_any};
ghost use Rattle.jv_host.specs.Files.{HasNoTwins, is_file};

use crate::host::HostFile;

/// Whether one of some files has the root and name of this one.
fn has_twin(file: &HostFile, others: &[HostFile]) -> bool
    ensures { result ≡ list_any (λ other. is_file other.root other.name file.now) others.now }
{
    others
        .iter()
        .any(|other| file.root == other.root && file.name == other.name)
}

/// Whether no two files share root and name.
pub fn has_no_twins(files: &[HostFile]) -> bool
    ensures { IsTrue result ↔ HasNoTwins files.now }
{
    let mut rest = files;
    while let Some((first, others)) = rest.split_first() {
        if has_twin(first, others) {
            return false;
        }
        rest = others;
    }
    true
}
