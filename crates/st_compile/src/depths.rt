//! The depths of code: the number of operands before each instruction.
ghost use Rattle.std.specs.Prelude.{◌≡◌, map, nat_le, true, IfOk};
ghost use Rattle.std.specs.List.{list_all};
ghost use Rattle.st_compile.specs.DraftViews.{line_of};

use crate::words::Line;
use std::alloc::{AllocError, Global};

/// The depths of the lines.
#[tactic(auto, using(crate::proofs::Mapped::depth_at))]
pub fn depths_of(alloc: Global, lines: &[Line<'_>]) -> Result<Vec<u8>, AllocError>
    requires { list_all (λ l. nat_le l.depth 64) (map line_of lines.now) ≡ true }
    ensures { IfOk result (λ depths. depths.items ≡ map (λ l. l.depth) (map line_of lines.now)) }
{
    let mut depths = Vec::new(alloc);
    for line in lines {
        depths.push(line.depth as u8)?;
    }
    Ok(depths)
}
