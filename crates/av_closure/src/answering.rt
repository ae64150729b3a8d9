ghost use Rattle.std.specs.Prelude.{map};
ghost use Rattle.av_collected.specs.Conditions.{AreGiven};
ghost use Rattle.av_collected.specs.Libraries.{IsLibrary};
ghost use Rattle.av_round.specs.Listing.{AreItems};
ghost use Rattle.av_asked.specs.Asking.{AreDistinct};
ghost use Rattle.av_refused.specs.Firsts.{file_name};
ghost use Rattle.av_closure.specs.Steps.{AnswersOver};

use crate::dimensions::greatest_dims;
use crate::shapes::shapes_of;
use av_collected::{CollectStop, Collected, MethodBody};
use av_refused::{first_missing, first_naming, first_unfit, names_of_classes, names_of_files};
use av_round::{ClassItems, ReadFile};
use jv_types::{Name, Seq, Shape};
use std::alloc::Global;

/// What is answered over the files of a library, of which these are the collected classes.
pub fn answer_over(
    alloc: Global,
    app: &[Shape],
    maps: &[Name],
    bodies: &[MethodBody],
    files: &[ReadFile],
    classes: &[ClassItems],
) -> Result<Collected, CollectStop>
    requires given { AreGiven (record { shapes = app.now; maps = maps.now; bodies = bodies.now }) }
    requires library { IsLibrary files.now }
    requires apart { AreDistinct (map file_name files.now) }
    requires items { AreItems (record { shapes = app.now; maps = maps.now; bodies = bodies.now }) files.now classes.now }
    ensures { AnswersOver (record { shapes = app.now; maps = maps.now; bodies = bodies.now }) files.now result }
{
    let names = names_of_files(alloc, files)?;
    if let Some(name) = first_unfit(classes, files, &names)? {
        return Err(CollectStop::LibraryForm(name));
    }
    if let Some(name) = first_missing(classes, files, &names)? {
        return Err(CollectStop::Missing(name));
    }
    let shapes = shapes_of(alloc, classes, files, &names)?;
    let own = names_of_classes(alloc, app)?;
    if let Some(name) = first_naming(alloc, &own, shapes.reduced.as_slice())? {
        return Err(CollectStop::NamesApplication(name));
    }
    let dims = greatest_dims(alloc, app, maps, bodies, shapes.reduced.as_slice())?;
    Ok(Collected {
        full: Seq::from_vec(shapes.full),
        shapes: Seq::from_vec(shapes.reduced),
        dims,
    })
}
