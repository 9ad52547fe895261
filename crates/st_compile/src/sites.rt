//! Sites: the places of the sends of a code.
ghost use Rattle.std.specs.Prelude.{◌≡◌, ◌≤◌, length, IfOk};
ghost use Rattle.st_classes.specs.Methods.{send_places};
ghost use Rattle.st_compile.specs.Encodable.{is_send};

use st_classes::instructions::Instruction;
use std::alloc::{AllocError, Global};

fn is_send(instruction: Instruction) -> bool
    ensures { result ≡ is_send instruction }
{
    match instruction {
        Instruction::Send(..) | Instruction::SuperSend(..) => true,
        _ => false,
    }
}

/// The places of the sends, in code order.
#[tactic(auto, using(crate::proofs::SendPlaces::places_send, crate::proofs::SendPlaces::places_other))]
pub fn sites_of(alloc: Global, code: &[Instruction]) -> Result<Vec<u16>, AllocError>
    requires { length code.now ≤ 1024 }
    ensures { IfOk result (λ sites. sites.items ≡ send_places 0 code.now) }
{
    let mut sites = Vec::new(alloc);
    for (place, instruction) in code.iter().enumerate() {
        if is_send(*instruction) {
            sites.push(place as u16)?;
        }
    }
    Ok(sites)
}
