//! The clients of an image file.
ghost use Rattle.std.specs.Prelude.{◌≡◌, ℕ, Decides, IfOk};
ghost use Rattle.st_image.specs.Clients.{number_of};
ghost use Rattle.st_image.specs.WorldInvariant.{AreClientsFrom};
ghost use Rattle.st_image.specs.Worlds.{client_last};

use crate::clients::Clients;
use std::alloc::{AllocError, Global};

/// Whether clients rise, and each has sent a message.
pub(super) fn are_rising(clients: &[(u16, u64)]) -> bool
    ensures { Decides result (AreClientsFrom 0 clients.now) }
{
    let mut least = 0_u32;
    'clients: for place in 0..clients.len() {
        let (client, last) = clients[place];
        if u32::from(client) < least || last == 0 {
            return false;
        }
        least = u32::from(client) + 1;
    }
    true
}

/// The last numbers of clients, by the clients' numbers. If a client is in the list twice, the first one counts.
pub(crate) fn last_numbers(alloc: Global, clients: &[(u16, u64)]) -> Result<Clients, AllocError>
    ensures { IfOk result (λ lasts. (s : ℕ) → number_of lasts s ≡ client_last s clients.now) }
{
    let mut lasts = Clients::new(alloc);
    let mut left = clients.len();
    while left > 0 {
        left -= 1;
        let (client, last) = clients[left];
        lasts.make_room(client)?;
        lasts.set(client, last);
    }
    Ok(lasts)
}
