//! How actors begin anew.
ghost use Rattle.std.specs.Prelude.{◌≡◌, map, IfOk};
ghost use Rattle.st_image.specs.ActorViews.{last_kept, view_anew};
ghost use Rattle.st_image.specs.NewestResults.{kept_in};

use crate::actor::Actor;
use crate::actors::Actors;
use crate::results::Results;
use st_mailbox::mailboxes::Mailbox;
use std::alloc::{AllocError, Global};

/// Each actor begins anew, with the results of its place.
fn begin_each<M: Mailbox>(actors: &mut Vec<Actor<M>>, mut results: Vec<Results>)
    requires { map kept_in results.items ≡ map last_kept actors.old.items }
    ensures { actors.new.items ≡ map view_anew actors.old.items }
{
    'left: while let Some(last) = results.pop() {
        let place = results.len();
        let actor = &mut actors[place];
        actor.begin_anew(last);
    }
}

impl<M: Mailbox> Actors<M> {
    /// The results with which the actors begin anew.
    pub(crate) fn last_results(&self, alloc: Global) -> Result<Vec<Results>, AllocError>
        ensures { IfOk result (λ all. map kept_in all.items ≡ map last_kept self.now.list) }
    {
        let mut all = Vec::new(alloc);
        for actor in &self.items {
            all.push(actor.last_results(alloc)?)?;
        }
        Ok(all)
    }

    /// All actors begin anew, with these results. The claims that are out stay out.
    pub(crate) fn begin_anew(&mut self, results: Vec<Results>)
        requires { map kept_in results.items ≡ map last_kept self.old.list }
        ensures { self.new ≡ record self.old { list = map view_anew self.old.list } }
    {
        begin_each(&mut self.items, results);
    }
}
