//! Which fault is reported, and where.

ghost use Rattle.std.specs.Prelude.{◌≡◌, None};
ghost use Rattle.std.specs.Option.{option_map};
ghost use Rattle.hz_check.specs.Faults.{Tells, IsReportedHere, fault_if_copied, fault_named, reported_of, wrong_of};
ghost use Rattle.hz_check_reservations.specs.Places.{site_of, reported};
ghost use Rattle.hz_description_model.specs.Check.FirstReported.{reported_at};

use crate::fault::{CheckFault, LimitName};
use crate::names::site::Site;
use hz_regexp::{Name, NoMemory};

/// What is wrong.
#[derive(Clone, Copy)]
pub(crate) enum Wrong {
    TwiceDefined,
    ReservedName,
    UnknownName,
    UnknownAutomaton,
    UnitNeedsAutomaton,
    CircularReservation,
    SelfExclusion,
    SetAcrossAutomata,
    Limit(LimitName),
    AlternationOfTwoAutomata,
    AlternationOfTwoLengths,
    BypassTwice,
    QueryUnderNdfa,
}

/// What is wrong, and where.
#[derive(Clone, Copy)]
pub(crate) struct Reported<'a> {
    pub wrong: Wrong,
    pub site: Site<'a>,
}

/// The fault at the site, if there is one.
pub(crate) fn at<'a>(wrong: Wrong, site: Option<Site<'a>>) -> Option<Reported<'a>>
    ensures { option_map reported_of result ≡ reported_at (wrong_of wrong) (reported site.entry) None }
{
    match site {
        Some(site) => Some(Reported { wrong, site }),
        None => None,
    }
}

/// The fault with a line and a name.
fn with_name(wrong: Wrong, line: u32, name: Name) -> CheckFault
    ensures { result ≡ fault_named wrong line name }
{
    match wrong {
        Wrong::TwiceDefined => CheckFault::TwiceDefined { line, name },
        Wrong::ReservedName => CheckFault::ReservedName { line, name },
        Wrong::UnknownName => CheckFault::UnknownName { line, name },
        Wrong::UnknownAutomaton => CheckFault::UnknownAutomaton { line, name },
        Wrong::UnitNeedsAutomaton => CheckFault::UnitNeedsAutomaton { line, name },
        Wrong::CircularReservation => CheckFault::CircularReservation { line, name },
        Wrong::SelfExclusion => CheckFault::SelfExclusion { line, name },
        Wrong::SetAcrossAutomata => CheckFault::SetAcrossAutomata { line, name },
        Wrong::Limit(what) => CheckFault::Limit { what, line, name },
        Wrong::AlternationOfTwoAutomata => CheckFault::AlternationOfTwoAutomata { line, name },
        Wrong::AlternationOfTwoLengths => CheckFault::AlternationOfTwoLengths { line, name },
        Wrong::BypassTwice => CheckFault::BypassTwice { line, name },
        Wrong::QueryUnderNdfa => CheckFault::QueryUnderNdfa { line, name },
    }
}

/// The fault with a line and the name that was copied; want of memory stays what it is.
fn fault_if_copied(wrong: Wrong, line: u32, copied: Result<Name, NoMemory>) -> CheckFault
    ensures { result ≡ fault_if_copied wrong line copied }
{
    match copied {
        Ok(name) => with_name(wrong, line, name),
        Err(_) => CheckFault::NoMemory,
    }
}

/// The fault with the line and the name of its site.
pub(crate) fn fault(reported: Reported<'_>) -> CheckFault
    ensures { Tells (IsReportedHere (reported_of reported.entry)) result }
{
    fault_if_copied(
        reported.wrong,
        reported.site.line,
        reported.site.name.copy(),
    )
}

/// What is wrong at this site, with its line and its name.
pub(crate) fn refused(wrong: Wrong, site: Site<'_>) -> CheckFault
    ensures { Tells (IsReportedHere (record { fault = wrong_of wrong; site = site_of site.entry })) result }
{
    fault(Reported { wrong, site })
}
