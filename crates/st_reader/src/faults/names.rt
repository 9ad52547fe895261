//! The arguments and temporaries read so far, and what is wrong with their names.
use crate::faults::checks::{Check, Faults};
use crate::faults::stop::Stop;
use crate::tokens::text;
use crate::trees::Span;
use st_classes::{limits, selectors};
use std::alloc::Global;

/// The arguments and temporaries read so far, by the spans of their names. Those over the limit are left out.
#[derive(Drop)]
pub struct Names {
    arguments: Vec<Span>,
    temporaries: Vec<Span>,
}

fn is_among(source: &[u8], name: Span, names: &[Span]) -> bool {
    names
        .iter()
        .any(|other| text(source, name) == text(source, *other))
}

impl Names {
    /// No names so far.
    pub fn new(alloc: Global) -> Self {
        Names {
            arguments: Vec::new(alloc),
            temporaries: Vec::new(alloc),
        }
    }

    pub fn has_all_arguments(&self) -> bool {
        self.arguments.len() >= limits::ARGUMENTS
    }

    fn is_full(&self) -> bool {
        self.arguments.len().saturating_add(self.temporaries.len()) >= limits::TEMPORARIES
    }

    fn is_taken(&self, source: &[u8], name: Span) -> bool {
        selectors::is_reserved(text(source, name))
            || is_among(source, name, &self.arguments)
            || is_among(source, name, &self.temporaries)
    }

    fn check(&self, source: &[u8], name: Span, faults: &mut Faults) {
        if self.is_full() {
            faults.note(Check::Sizes, name.start);
        }
        if self.is_taken(source, name) {
            faults.note(Check::Names, name.start);
        }
    }

    pub fn add_argument(
        &mut self,
        source: &[u8],
        name: Span,
        faults: &mut Faults,
    ) -> Result<(), Stop> {
        self.check(source, name, faults);
        if !self.is_full() {
            self.arguments.push(name)?;
        }
        Ok(())
    }

    pub fn add_temporary(
        &mut self,
        source: &[u8],
        name: Span,
        faults: &mut Faults,
    ) -> Result<(), Stop> {
        self.check(source, name, faults);
        if !self.is_full() {
            self.temporaries.push(name)?;
        }
        Ok(())
    }

    /// Notes an assignment to a name that cannot change: an argument, a reserved name or a class.
    pub fn assign(&self, source: &[u8], name: Span, faults: &mut Faults) {
        let written = text(source, name);
        if selectors::begins_upper(written)
            || selectors::is_reserved(written)
            || is_among(source, name, &self.arguments)
        {
            faults.note(Check::Assignments, name.start);
        }
    }
}
