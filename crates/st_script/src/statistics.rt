//! The statistics of a method's call sites, as a reply.
ghost use Rattle.std.specs.Prelude.{◌≡◌, All, IfOk, map};
ghost use Rattle.st_image.specs.Stats.{HasFewSends};
ghost use Rattle.st_script.specs.SiteReports.{StatesNamed, StatesOf, site_report, state_shown};
ghost use Rattle.st_script.specs.CommandReplies.{States};

use crate::images::Image;
use crate::resolving::{find_selector, selector_text, text_of};
use st_classes::refusals::Refusal;
use st_classes::seq::Seq;
use st_classes::values::{ClassId, Selector};
use st_image::tallies::SiteStats;
use st_sites::site::SiteState;
use st_wire::replies::{Reply, SiteReport, SiteState as ShownState};
use std::alloc::{AllocError, Global};

/// The state of a site, as a reply names it.
fn shown_state(state: SiteState) -> ShownState
    ensures { result ≡ state_shown state }
{
    match state {
        SiteState::Empty => ShownState::Empty,
        SiteState::Mono => ShownState::Mono,
        SiteState::Poly => ShownState::Poly,
        SiteState::Mega => ShownState::Mega,
    }
}

/// The report of a site.
fn report(alloc: Global, image: &Image, stats: &SiteStats) -> Result<SiteReport, AllocError>
    requires { HasFewSends stats.now }
    ensures { IfOk result (λ r. r ≡ site_report image.now.names stats.now) }
{
    let selector = text_of(alloc, selector_text(image, stats.selector))?;
    let tally = stats.tally;
    Ok(SiteReport {
        global: tally.by_global,
        selector,
        sends: tally.sends(),
        site: tally.by_site,
        state: shown_state(tally.state),
        is_super: stats.is_super,
        walk: tally.by_walk,
    })
}

/// The reports of sites, in their order.
fn reports(alloc: Global, image: &Image, list: &[SiteStats]) -> Result<Vec<SiteReport>, AllocError>
    requires { All HasFewSends list.now }
    ensures { IfOk result (λ v. v.items ≡ map (site_report image.now.names) list.now) }
{
    let mut told = Vec::new(alloc);
    'sites: for stats in list {
        let one = report(alloc, image, stats)?;
        told.push(one)?;
    }
    Ok(told)
}

/// The reports of the sites of a class's own method for a selector.
fn sites_of(
    alloc: Global,
    image: &Image,
    class: ClassId,
    selector: Selector,
) -> Result<Seq<SiteReport>, Refusal>
    ensures { StatesOf image.now class selector result }
{
    let list = image.stats(alloc, class, selector)?;
    let told = reports(alloc, image, list.as_slice())?;
    Ok(Seq::from_vec(told))
}

/// The same, with the selector as a text.
fn sites_named(
    alloc: Global,
    image: &Image,
    class: ClassId,
    selector: &[u8],
) -> Result<Seq<SiteReport>, Refusal>
    ensures { StatesNamed image.now selector.now class result }
{
    match find_selector(image.names(), selector) {
        Ok(selector) => sites_of(alloc, image, class, selector),
        Err(refusal) => Err(refusal),
    }
}

/// The reply to a request for the statistics of a method.
pub(crate) fn stats(alloc: Global, image: &Image, class: &[u8], selector: &[u8]) -> Reply
    ensures { States image.now class.now selector.now result }
{
    let Some(class) = image.version().class_named(class) else {
        return Reply::Refused(Refusal::UnknownClass);
    };
    match sites_named(alloc, image, class, selector) {
        Ok(sites) => Reply::Sites(sites),
        Err(refusal) => Reply::Refused(refusal),
    }
}
