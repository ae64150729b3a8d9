ghost use Rattle.std.specs.Prelude.{◌≡◌};
ghost use Rattle.jv_types.specs.declared.refusal.RulePlace.TheVariants.{Class};
ghost use Rattle.av_stops.specs.FirstStops.{refused_at};
ghost use Rattle.av_stages.specs.Stages.{stop_of};

use av_app_files::passed;
use av_collected::CollectStop;
use av_program::AcceptStop;
use jv_types::{Name, Refusal, Rule, RulePlace};

/// The answer that a rule fails at the class of this name.
pub fn refused(rule: Rule, name: Name) -> AcceptStop
    ensures { result ≡ refused_at rule (Class name) }
{
    AcceptStop::Refused(Refusal {
        rule,
        place: RulePlace::Class(name),
    })
}

/// The answer to a stop of collection, where this is the file whose read failed. Where there is none, memory was wanting
/// to keep its name.
pub fn stop_of(stop: CollectStop, file: Option<Name>) -> AcceptStop
    ensures { result ≡ stop_of stop file }
{
    match stop {
        CollectStop::LibraryForm(name) => refused(Rule::LibraryForm, name),
        CollectStop::Missing(name) => refused(Rule::MissingClass, name),
        CollectStop::NamesApplication(name) => refused(Rule::LibraryNamesApplication, name),
        CollectStop::Limit(quantity) => passed(quantity),
        CollectStop::Failed => match file {
            Some(name) => AcceptStop::ReadFault(name),
            None => AcceptStop::Memory,
        },
        CollectStop::Memory => AcceptStop::Memory,
    }
}
