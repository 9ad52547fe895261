//! The last numbers of clients.
ghost use Rattle.std.specs.Prelude.{◌≡◌, ◌<◌, ◌≤◌, ◌==◌, ℕ, [], length, if◌then◌else◌, IfOk, OnOk};
ghost use Rattle.st_image.specs.Clients.{clients_from, number_of};
ghost use Rattle.st_image.specs.Worlds.{client_last};

use std::alloc::{AllocError, Global};
use std::marker::Model;

/// The clients of a list of last numbers, without those that have sent no message.
fn clients_of(alloc: Global, numbers: &[u64]) -> Result<Vec<(u16, u64)>, AllocError>
    requires { length numbers.now ≤ 65536 }
    ensures { IfOk result (λ clients. clients.items ≡ clients_from 0 numbers.now) }
{
    let mut clients = Vec::new(alloc);
    for (client, number) in numbers.iter().enumerate() {
        if *number > 0 {
            clients.push((client as u16, *number))?;
        }
    }
    Ok(clients)
}

/// The last number of each client, by the clients' numbers. Contracts see a list of numbers; a number past its end is 0.
#[derive(Drop)]
pub(crate) struct Clients {
    numbers: Vec<u64>,
}

impl Model for Clients {
    ghost use Rattle.std.specs.Prelude.{ℕ, ◌≤◌, List, length};

    ghost Value = { List ℕ };

    ghost view = { λ c. c.numbers.items };

    ghost invariant = { λ c. length c.numbers.items ≤ 65536 };
}

impl Clients {
    /// No client has sent a message.
    pub(crate) fn new(alloc: Global) -> Clients
        ensures { result ≡ [] }
    {
        Clients {
            numbers: Vec::new(alloc),
        }
    }

    /// These clients, each with its last number.
    pub(crate) fn from_pairs(alloc: Global, pairs: &[(u16, u64)]) -> Result<Clients, AllocError>
        ensures { IfOk result (λ c. (s : ℕ) → client_last s pairs.now ≡ number_of c s) }
    {
        let mut clients = Clients::new(alloc);
        let mut left = pairs.len();
        // From the last to the first, because the first of two numbers of a client counts.
        'pairs: while 0 < left {
            left -= 1;
            let (client, number) = pairs[left];
            clients.make_room(client)?;
            clients.set(client, number);
        }
        Ok(clients)
    }

    /// The last number of a client; 0 if it has sent no message.
    pub(crate) fn last(&self, client: u16) -> u64
        ensures { result ≡ number_of self.now client }
    {
        match self.numbers.get(usize::from(client)) {
            Some(number) => *number,
            None => 0,
        }
    }

    /// The clients that have sent a message, in rising order, each with its last number.
    pub(crate) fn list(&self, alloc: Global) -> Result<Vec<(u16, u64)>, AllocError>
        ensures { IfOk result (λ clients. clients.items ≡ clients_from 0 self.now) }
    {
        clients_of(alloc, self.numbers.as_slice())
    }

    /// Makes room for a client's number. No number changes.
    pub(crate) fn make_room(&mut self, client: u16) -> Result<(), AllocError>
        ensures same { (s : ℕ) → number_of self.new s ≡ number_of self.old s }
        ensures room { OnOk result (client < length self.new) }
    {
        let wanted = usize::from(client) + 1;
        if self.numbers.len() < wanted {
            self.numbers.resize(wanted, 0)?;
        }
        Ok(())
    }

    /// Sets the last number of a client.
    pub(crate) fn set(&mut self, client: u16, number: u64)
        requires { client < length self.old }
        ensures { (s : ℕ) → number_of self.new s ≡ (if s == client then number else number_of self.old s) }
    {
        self.numbers[usize::from(client)] = number;
    }
}
