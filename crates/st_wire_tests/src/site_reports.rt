//! How reports of call sites are written.
use crate::replies::is_line;
use st_classes::seq::Seq;
use st_wire::replies::{Reply, SiteReport, SiteState};
use st_wire::text::Text;
use std::alloc::{AllocError, Global};
use std::test::*;

/// What is reported of a site, but for its selector and what the cache of a worker did.
struct Site {
    selector: &'static str,
    sends: u64,
    site: u64,
    state: SiteState,
    is_super: bool,
    walk: u64,
}

/// Sites, and the line that reports them: none, two, and one in each state.
const SITES: &[(&[Site], &str)] = &[
    (&[], r#"{"ok":{"sites":[]}}"#),
    (
        &[
            Site {
                selector: "+",
                sends: 2,
                site: 1,
                state: SiteState::Mono,
                is_super: false,
                walk: 1,
            },
            Site {
                selector: "a",
                sends: 0,
                site: 0,
                state: SiteState::Empty,
                is_super: true,
                walk: 1,
            },
        ],
        r#"{"ok":{"sites":[{"global":0,"selector":"+","sends":2,"site":1,"state":"mono","super":false,"walk":1},{"global":0,"selector":"a","sends":0,"site":0,"state":"empty","super":true,"walk":1}]}}"#,
    ),
    (
        &[Site {
            selector: "a",
            sends: 0,
            site: 0,
            state: SiteState::Empty,
            is_super: false,
            walk: 0,
        }],
        r#"{"ok":{"sites":[{"global":0,"selector":"a","sends":0,"site":0,"state":"empty","super":false,"walk":0}]}}"#,
    ),
    (
        &[Site {
            selector: "a",
            sends: 0,
            site: 0,
            state: SiteState::Mono,
            is_super: false,
            walk: 0,
        }],
        r#"{"ok":{"sites":[{"global":0,"selector":"a","sends":0,"site":0,"state":"mono","super":false,"walk":0}]}}"#,
    ),
    (
        &[Site {
            selector: "a",
            sends: 0,
            site: 0,
            state: SiteState::Poly,
            is_super: false,
            walk: 0,
        }],
        r#"{"ok":{"sites":[{"global":0,"selector":"a","sends":0,"site":0,"state":"poly","super":false,"walk":0}]}}"#,
    ),
    (
        &[Site {
            selector: "a",
            sends: 0,
            site: 0,
            state: SiteState::Mega,
            is_super: false,
            walk: 0,
        }],
        r#"{"ok":{"sites":[{"global":0,"selector":"a","sends":0,"site":0,"state":"mega","super":false,"walk":0}]}}"#,
    ),
];

/// The table behind a function without a contract, so that the proof of a test carries none of it.
fn sites() -> &'static [(&'static [Site], &'static str)] {
    SITES
}

/// The reply that reports sites.
fn reported(alloc: Global, sites: &[Site]) -> Result<Reply, AllocError> {
    let mut reports = Vec::new(alloc);
    for it in sites {
        reports.push(SiteReport {
            global: 0,
            selector: Text::new(alloc, it.selector)?,
            sends: it.sends,
            site: it.site,
            state: it.state,
            is_super: it.is_super,
            walk: it.walk,
        })?;
    }
    Ok(Reply::Sites(Seq::from_vec(reports)))
}

#[test]
fn sites_are_written(rt: HostRuntime) -> Result<(), Fail> {
    for (reports, line) in sites() {
        let reply = reported(rt.alloc(), reports)?;
        assert!(rt; is_line(rt.alloc(), &reply, line)?, "{line}");
    }
    Ok(())
}
