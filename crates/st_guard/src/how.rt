//! How a target was found.
use st_classes::kernel::Target;
use st_sites::site::SiteState;

/// How a target was found.
#[derive(Clone, Copy, PartialEq, Eq, Debug)]
pub enum How {
    /// The call site had it.
    Site,
    /// The lookup cache had it.
    Global,
    /// The rows of the class table were walked.
    Walk,
}

/// What a call site has for a receiver class.
#[derive(Clone, Copy, PartialEq, Eq, Debug)]
pub struct Hit {
    pub target: Target,
    /// The state of the site.
    pub state: SiteState,
}
