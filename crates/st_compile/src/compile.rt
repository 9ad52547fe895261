//! From the tree of a method to the compiled method.
ghost use Rattle.std.specs.Prelude.{◌≡◌, ◌≤◌, true, Some, length, map, OnOk, IfOk, IfErr};
ghost use Rattle.st_classes.specs.declared.refusals.Refusal.{Refusal as Refused};
ghost use Rattle.st_classes.specs.Classes.{is_class};
ghost use Rattle.st_classes.specs.Refusals.{first_of, Answers};
ghost use Rattle.st_reader.specs.Variables.{locals_of};
ghost use Rattle.st_compile.specs.CompiledMethod.{IsCompiled, parts_of};
ghost use Rattle.st_compile.specs.DraftViews.{line_of};
ghost use Rattle.st_compile.specs.Equations.{method_code};
ghost use Rattle.st_compile.specs.NeededNames.{InternsFirst, IsFull, interned_all, needed_texts};
ghost use Rattle.st_compile.specs.CompileRules.{code_rules, is_small, method_rules};
ghost use Rattle.st_compile.specs.Scopes.{HasFew, scope_of, scope_seen};

use crate::depths::depths_of;
use crate::emit::Draft;
use crate::locals::{argument_count, temporary_count};
use crate::refusing::code_refusal;
use crate::resolve::resolve;
use crate::scope::Scope;
use crate::sites::sites_of;
use crate::words::Line;
use st_classes::code::Code;
use st_classes::instructions::Instruction;
use st_classes::methods::{Method, MethodParts};
use st_classes::names::Names;
use st_classes::refusals::Refusal;
use st_classes::seq::Seq;
use st_classes::values::{ClassId, Selector};
use st_classes::version::Version;
use st_reader::trees::MethodTree;
use std::alloc::{AllocError, Global};

/// The scope and the draft of a method in a class, or the first refusal of its code.
fn checked<'t>(
    alloc: Global,
    tree: &'t MethodTree,
    class: ClassId,
    version: &'t Version,
) -> Result<(Scope<'t>, Draft<'t>), Refusal>
    requires { is_class version.now class ≡ true }
    ensures answers { Answers (first_of (code_rules version.now class tree.now.syntax)) result
        (λ r. (scope_seen r.0 ≡ scope_of version.now class tree.now.syntax) ×
        (map line_of r.1.lines.items ≡ method_code tree.now.syntax)) }
    ensures few { IfOk result (λ r. HasFew (scope_seen r.0)) }
{
    let scope = Scope::of_method(alloc, tree, class, version)?;
    let draft = Draft::of_method(alloc, tree)?;
    if let Some(refusal) = code_refusal(&scope, draft.lines.as_slice()) {
        return Err(refusal);
    }
    Ok((scope, draft))
}

/// The parts of a method: the number of its selector, its instructions, and a copy of its source.
fn parts_of(
    alloc: Global,
    tree: &MethodTree,
    class: ClassId,
    lines: &[Line<'_>],
    selector: Selector,
    code: Vec<Instruction>,
) -> Result<MethodParts, AllocError>
    requires lines { map line_of lines.now ≡ method_code tree.now.syntax }
    requires small { is_small (method_code tree.now.syntax) ≡ true }
    requires short { length code.items ≤ 1024 }
    ensures { IfOk result (λ parts. parts ≡ parts_of class tree.now.syntax selector code.items tree.now.source) }
{
    tree.known();
    let depths = depths_of(alloc, lines)?;
    let sites = sites_of(alloc, code.as_slice())?;
    let source = Vec::from_slice(alloc, tree.source())?;
    Ok(MethodParts {
        holder: class,
        selector,
        arguments: argument_count(tree.pattern()),
        temporaries: temporary_count(tree.temporaries()),
        code: Code::new(alloc, code)?,
        depths: Seq::from_vec(depths),
        sites: Seq::from_vec(sites),
        source: Seq::from_vec(source),
    })
}

/// Compiles a tree in a class. The method holds a copy of the tree's source. Its selector and the selectors and symbols of its code
/// are interned, in this order.
///
/// `BadSource` says what is wrong and where, in this order: `UnknownName` at the first name that means nothing; `DuplicateName` at
/// the first argument or temporary that has the name of an instance variable; `TooLarge` at 0 if there are more than 1,024
/// instructions or more than 64 operands. After these no name has been interned. `TooMany` says that the table has no room for all
/// the names; those that fitted stay. If memory runs out, a prefix of the names stays: none, some or all.
pub fn compile(
    alloc: Global,
    tree: &MethodTree,
    class: ClassId,
    version: &Version,
    names: &mut Names,
) -> Result<Method, Refusal>
    requires { is_class version.now class ≡ true }
    ensures answers { Answers (first_of (method_rules names.old version.now class tree.now.syntax)) result
        (λ method. IsCompiled names.new version.now class tree.now.syntax tree.now.source method) }
    ensures names { OnOk result (names.new ≡ interned_all names.old (needed_texts tree.now.syntax)) }
    ensures some { InternsFirst names.old (needed_texts tree.now.syntax) names.new }
    ensures full { IfErr result (λ e. IsFull names.new e) }
    ensures untouched { (e : Refused) → first_of (code_rules version.now class tree.now.syntax) ≡ Some e →
        names.new ≡ names.old }
{
    tree.known();
    let (scope, draft) = checked(alloc, tree, class, version)?;
    let lines = draft.lines.as_slice();
    let (selector, code) = resolve(alloc, tree.pattern(), &scope, lines, names)?;
    let parts = parts_of(alloc, tree, class, lines, selector, code)?;
    Ok(Method::new(parts))
}
