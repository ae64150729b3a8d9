ghost use Rattle.std.specs.Prelude.{◌≡◌, [], ◌∷◌, ◌++◌, Err, None, Contains, IfOk, map};
ghost use Rattle.std.specs.List.{AllZip};
ghost use Rattle.av_standin_of.specs.Files.{class_file, IsFileOf};
ghost use Rattle.av_standin_of.specs.Names.{file_name};
ghost use Rattle.av_standin_of.specs.Worlds.{coded_methods, IsBodyOf};
ghost use Rattle.av_sketches.specs.declared.sketch.Sketch.{Sketch as SketchValue};
ghost use Rattle.av_sketches.specs.Sketches.{made_class};
ghost use Rattle.av_class_files.specs.Filing.{IsThere, MayBeFiled};
ghost use Rattle.av_standin_files.specs.Filing.{HasNoRoom};
ghost use Rattle.av_standin_files.specs.Steps.{AddsFile};

use av_class_files::{FileRefusal, file_of};
use av_sketches::Sketch;
use av_standin_of::StandinFile;
use jv_types::{Copied, FramedBody, Name};
use jv_world::World;
use std::alloc::{AllocError, Global};

/// Class files of a stand-in, and the bodies of their methods that have code, with their frames, each in order.
#[derive(Debug, Drop)]
pub struct Files {
    pub files: Vec<StandinFile>,
    pub methods: Vec<FramedBody>,
}

/// The name of the file of a class. Only memory can be wanting.
pub fn file_name(class: &Name) -> Result<Name, AllocError>
    ensures { IfOk result (λ name. name ≡ file_name class.now) }
{
    let mut bytes = class.copy()?.into_vec();
    bytes.extend_from_slice(b".class".as_slice())?;
    Ok(Name::from_vec(bytes))
}

/// Files and bodies, and behind them one more file with its bodies. Only memory can be wanting.
fn joined(before: Files, file: StandinFile, bodies: Vec<FramedBody>) -> Result<Files, AllocError>
    ensures files { IfOk result (λ made. made.files.items ≡ before.files.items ++ file ∷ []) }
    ensures bodies { IfOk result (λ made. made.methods.items ≡ before.methods.items ++ bodies.items) }
{
    let mut files = before.files;
    let mut methods = before.methods;
    let mut more = bodies;
    files.push(file)?;
    methods.append(&mut more)?;
    Ok(Files { files, methods })
}

/// Files, and behind them that of a sketch.
fn with_file(
    alloc: Global,
    world: &World,
    dims: u8,
    before: Files,
    sketch: &Sketch,
) -> Result<Files, FileRefusal>
    requires there { IsThere world.now sketch.now }
    requires fits { MayBeFiled dims sketch.now }
    ensures added { IfOk result (AddsFile world.now (made_class dims sketch.now) before) }
    ensures full { result ≡ Err FileRefusal.PoolFull → class_file (made_class dims sketch.now) ≡ None }
{
    match file_of(alloc, world, dims, sketch) {
        Ok(filed) => {
            let name = file_name(&sketch.name)?;
            let class = filed.class;
            let files = joined(before, StandinFile { name, class }, filed.methods)?;
            Ok(files)
        }
        Err(e) => Err(e),
    }
}

/// The class files that sketches stand for, where arrays have up to so many dimensions, and the bodies of their methods that
/// have code. They are refused `PoolFull` only where what one of the classes names finds no room in a pool.
pub fn files_of(
    alloc: Global,
    world: &World,
    dims: u8,
    sketches: &[Sketch],
) -> Result<Files, FileRefusal>
    requires there { (sketch : SketchValue) → Contains sketches.now sketch → IsThere world.now sketch }
    requires fit { (sketch : SketchValue) → Contains sketches.now sketch → MayBeFiled dims sketch }
    ensures files { IfOk result (λ made. AllZip IsFileOf (map (made_class dims) sketches.now) made.files.items) }
    ensures bodies { IfOk result (λ made. AllZip (IsBodyOf world.now) (coded_methods (map (made_class dims) sketches.now)) made.methods.items) }
    ensures full { result ≡ Err FileRefusal.PoolFull → HasNoRoom dims sketches.now }
{
    let mut made = Files {
        files: Vec::new(alloc),
        methods: Vec::new(alloc),
    };
    for sketch in sketches {
        match with_file(alloc, world, dims, made, sketch) {
            Ok(more) => made = more,
            Err(e) => return Err(e),
        }
    }
    Ok(made)
}
