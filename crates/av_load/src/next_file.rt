ghost use Rattle.std.specs.Prelude.{◌≡◌, ◌↔◌, ⊤, ℕ, List, IfOk, IfErr, IsTrue};
ghost use Rattle.jv_types.specs.declared.rule.Rule.TheVariants as rules;
ghost use Rattle.jv_host.specs.declared.host.HostCall.TheVariants as calls;
ghost use Rattle.jv_class.specs.ClassTexts.{ClassText};
ghost use Rattle.av_app_files.specs.FileRules.{IsInBoth, IsNoClass};
ghost use Rattle.av_program.specs.Answering.{IfStop};
ghost use Rattle.av_program.specs.Reads.{HostView};
ghost use Rattle.av_app_files.specs.Reading.{IsOutside};
ghost use Rattle.av_load.specs.Answers.{InFolders, Reads};
ghost use Rattle.av_load.specs.Steps.Loading.{IsFileRefusal, IsJudged, IsLoadedFrom, IsRefusedFile};

use crate::app_class::AppClass;
use crate::class_rules::{has_other_name, has_reserved_name};
use av_app_files::{has_wrong_version, read_bytes};
use av_program::AcceptStop;
use jv_class::{BadClass, ClassFile, read_class, shape};
use jv_host::Host;
use jv_types::{Copied, Name, Refusal, Rule, RulePlace};
use std::alloc::Global;

/// The refusal of a file by a rule, unless memory is wanting to say so.
fn refused(rule: Rule, file: &Name) -> AcceptStop
    ensures { IsFileRefusal ⊤ rule file.now result }
{
    match file.copy() {
        Ok(name) => AcceptStop::Refused(Refusal {
            rule,
            place: RulePlace::File(name),
        }),
        Err(_) => AcceptStop::Memory,
    }
}

/// The class of which the bytes of a file are the text.
fn class_of(alloc: Global, file: &Name, bytes: &[u8]) -> Result<ClassFile, AcceptStop>
    ensures found { IfOk result (λ class. ClassText class bytes.now) }
    ensures refused { IfErr result (IsFileRefusal (IsNoClass bytes.now) rules.NotClass file.now) }
{
    match read_class(alloc, bytes) {
        Ok(class) => Ok(class),
        Err(BadClass::NotClass) => Err(refused(Rule::NotClass, file)),
        Err(BadClass::Memory) => Err(AcceptStop::Memory),
    }
}

/// Whether the library has a file of this name too. Nothing of it is read.
fn is_in_both<H: Host>(
    alloc: Global,
    host: &mut H,
    lib: &Name,
    file: &Name,
) -> Result<bool, AcceptStop>
    ensures exact { IfOk result (λ both. (app : List ℕ) → InFolders (H.files host.old) app lib.now (λ folders. IsTrue both ↔ IsInBoth folders file.now)) }
    ensures stopped { IfErr result (IsOutside file.now) }
    ensures reads { Reads (λ call. call ≡ calls.ReadFile lib.now file.now 0)
        (record { files = H.files host.old; written = H.written host.old; calls = H.calls host.old; failed = H.failed host.old; read_faults = H.read_faults host.old; write_faults = H.write_faults host.old })
        (record { files = H.files host.new; written = H.written host.new; calls = H.calls host.new; failed = H.failed host.new; read_faults = H.read_faults host.new; write_faults = H.write_faults host.new }) result }
{
    let found = read_bytes(alloc, host, lib, file, 0)?;
    Ok(found.is_some())
}

/// The first rule on a class and its file that fails, of those after the form of its bytes: that its version is an
/// accepted one, that the file is named after the class, that the library has no such file, and that the name isn't
/// reserved.
fn failed_rule<H: Host>(
    alloc: Global,
    host: &mut H,
    lib: &Name,
    file: &Name,
    class: &ClassFile,
) -> Result<Option<Rule>, AcceptStop>
    ensures judged { IfOk result (IsJudged (H.files host.old) lib.now file.now class.now) }
    ensures stopped { IfErr result (IsOutside file.now) }
    ensures reads { Reads (λ call. call ≡ calls.ReadFile lib.now file.now 0)
        (record { files = H.files host.old; written = H.written host.old; calls = H.calls host.old; failed = H.failed host.old; read_faults = H.read_faults host.old; write_faults = H.write_faults host.old })
        (record { files = H.files host.new; written = H.written host.new; calls = H.calls host.new; failed = H.failed host.new; read_faults = H.read_faults host.new; write_faults = H.write_faults host.new }) result }
{
    if has_wrong_version(class) {
        return Ok(Some(Rule::Version));
    }
    if has_other_name(class, file.as_slice()) {
        return Ok(Some(Rule::NameMismatch));
    }
    if is_in_both(alloc, host, lib, file)? {
        return Ok(Some(Rule::InBoth));
    }
    if has_reserved_name(class) {
        return Ok(Some(Rule::ReservedName));
    }
    Ok(None)
}

/// The class of a file of the application with these bytes, held against the rules on single files: that it is a
/// class file, and those on its class.
pub fn load_class<H: Host>(
    alloc: Global,
    host: &mut H,
    lib: &Name,
    file: &Name,
    bytes: &[u8],
) -> Result<AppClass, AcceptStop>
    ensures loaded { IfOk result (IsLoadedFrom (H.files host.old) lib.now file.now bytes.now) }
    ensures refused { IfErr result (λ stop. (app : List ℕ) → InFolders (H.files host.old) app lib.now
        (λ folders. IfStop (IsRefusedFile folders (record { name = file.now; bytes = bytes.now })) stop)) }
    ensures reads { Reads (λ call. call ≡ calls.ReadFile lib.now file.now 0)
        (record { files = H.files host.old; written = H.written host.old; calls = H.calls host.old; failed = H.failed host.old; read_faults = H.read_faults host.old; write_faults = H.write_faults host.old })
        (record { files = H.files host.new; written = H.written host.new; calls = H.calls host.new; failed = H.failed host.new; read_faults = H.read_faults host.new; write_faults = H.write_faults host.new }) result }
{
    let class = class_of(alloc, file, bytes)?;
    if let Some(rule) = failed_rule(alloc, host, lib, file, &class)? {
        return Err(refused(rule, file));
    }
    let shape = shape(alloc, &class, true)?;
    Ok(AppClass { file: class, shape })
}
