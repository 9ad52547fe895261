//! The arguments and temporaries of a method: their number, and one list of both.
ghost use Rattle.std.specs.Prelude.{◌≡◌, ◌≤◌, ◌++◌, ◌∷◌, [], length, OnOk, IfOk};
ghost use Rattle.st_compile.specs.Scopes.{named};
ghost use Rattle.st_reader.specs.Variables.{arguments_of, locals_of, temporaries_of};

use st_reader::trees::{MethodTree, Name, Pattern, Temporaries};
use std::alloc::{AllocError, Global};

/// The number of arguments of a pattern.
pub fn argument_count(pattern: &Pattern) -> u8
    requires { length (arguments_of pattern.now) ≤ 8 }
    ensures { result ≡ length (arguments_of pattern.now) }
{
    match pattern {
        Pattern::Unary(_) => 0,
        Pattern::Binary { .. } => 1,
        Pattern::Keyword(parameters) => parameters.len() as u8,
    }
}

/// The number of temporaries, 0 if none are declared.
pub fn temporary_count(temporaries: &Option<Temporaries>) -> u8
    requires { length (temporaries_of temporaries.now) ≤ 64 }
    ensures { result ≡ length (temporaries_of temporaries.now) }
{
    match temporaries {
        None => 0,
        Some(temporaries) => temporaries.names.len() as u8,
    }
}

fn add_name<'t>(names: &mut Vec<&'t Name>, name: &'t Name) -> Result<(), AllocError>
    ensures { OnOk result (named names.new.items ≡ named names.old.items ++ name.now ∷ []) }
{
    names.push(name)?;
    Ok(())
}

fn add_arguments<'t>(names: &mut Vec<&'t Name>, pattern: &'t Pattern) -> Result<(), AllocError>
    ensures { OnOk result (named names.new.items ≡ named names.old.items ++ arguments_of pattern.now) }
{
    match pattern {
        Pattern::Unary(_) => {}
        Pattern::Binary { argument, .. } => add_name(names, argument)?,
        Pattern::Keyword(parameters) => {
            for parameter in parameters.as_slice() {
                add_name(names, &parameter.argument)?;
            }
        }
    }
    Ok(())
}

fn add_temporaries<'t>(
    names: &mut Vec<&'t Name>,
    temporaries: &'t Option<Temporaries>,
) -> Result<(), AllocError>
    ensures { OnOk result (named names.new.items ≡ named names.old.items ++ temporaries_of temporaries.now) }
{
    let Some(temporaries) = temporaries else {
        return Ok(());
    };
    for name in temporaries.names.as_slice() {
        add_name(names, name)?;
    }
    Ok(())
}

/// The arguments of a method, then its temporaries.
pub fn locals_of(alloc: Global, tree: &MethodTree) -> Result<Vec<&Name>, AllocError>
    ensures { IfOk result (λ names. named names.items ≡ locals_of tree.now.syntax) }
{
    let mut names = Vec::new(alloc);
    add_arguments(&mut names, tree.pattern())?;
    add_temporaries(&mut names, tree.temporaries())?;
    Ok(names)
}
