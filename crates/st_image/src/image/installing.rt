//! Image::install: read, compile and install a method.
use crate::dropping::let_go;
use crate::image::Image;
use st_classes::edits::Edit;
use st_classes::kernel::kernel_at;
use st_classes::methods::Method;
use st_classes::refusals::Refusal;
use st_classes::values::ClassId;
use st_compile::compile::compile;
use st_compile::names::joined_pattern;
use st_mailbox::mailboxes::Mailbox;
use st_reader::reader::read_method;
use st_reader::trees::{MethodTree, Pattern};
use std::alloc::Global;

impl<M: Mailbox> Image<M> {
    ghost use Rattle.std.specs.Prelude.{◌≡◌, true, false, Some, OnOk, OnErr, IfOk, IfErr};
    ghost use Rattle.st_classes.specs.declared.refusals.Refusal.{Refusal as RefusalOf};
    ghost use Rattle.st_classes.specs.declared.refusals.Refusal.TheVariants.{NoMemory};
    ghost use Rattle.st_classes.specs.Refusals.{first_of, Answers};
    ghost use Rattle.st_classes.specs.Classes.{is_class};
    ghost use Rattle.st_reader.specs.Syntax.{Method as MethodOf};
    ghost use Rattle.st_compile.specs.CompiledMethod.{IsCompiled};
    ghost use Rattle.st_compile.specs.NeededNames.{InternsFirst, IsFull, interned_all, needed_texts};
    ghost use Rattle.st_compile.specs.CompileRules.{code_rules, method_rules};
    ghost use Rattle.st_compile.specs.Scopes.{pattern_selector};
    ghost use Rattle.st_image.specs.Images.{world};
    ghost use Rattle.st_image.specs.Installs.{AnswersInstall, Installs, LeavesNames, image_install_rules, is_kernel_text};

    /// Whether the kernel has a method of the class for the selector.
    fn has_kernel_method(&self, class: ClassId, selector: &[u8]) -> bool
        ensures { result ≡ is_kernel_text class selector.now }
    {
        match self.names.find(selector) {
            Some(selector) => kernel_at(class, selector).is_some(),
            None => false,
        }
    }

    /// The same for the selector of a pattern. The only refusal is `NoMemory`.
    fn has_kernel_pattern(
        &self,
        alloc: Global,
        class: ClassId,
        pattern: &Pattern,
    ) -> Result<bool, Refusal>
        ensures ok { IfOk result (λ found. found ≡ is_kernel_text class (pattern_selector pattern.now)) }
        ensures err { IfErr result (λ e. e ≡ NoMemory) }
    {
        Ok(match pattern {
            Pattern::Unary(name) => self.has_kernel_method(class, name.text.as_slice()),
            Pattern::Binary { selector, .. } => {
                self.has_kernel_method(class, selector.text.as_slice())
            }
            Pattern::Keyword(parameters) => {
                let selector = joined_pattern(alloc, parameters.as_slice())?;
                self.has_kernel_method(class, selector.as_slice())
            }
        })
    }

    /// Compiles the method of a tree in a class. Its selectors and symbols are interned.
    fn compiled(
        &mut self,
        alloc: Global,
        tree: &MethodTree,
        class: ClassId,
    ) -> Result<Method, Refusal>
        requires { is_class (world self.old).edits class ≡ true }
        ensures answers { Answers (first_of (method_rules self.old.names (world self.old).edits class tree.now.syntax)) result
            (λ m. IsCompiled self.new.names (world self.old).edits class tree.now.syntax tree.now.source m) }
        ensures names { OnOk result (self.new ≡ record self.old { names = interned_all self.old.names (needed_texts tree.now.syntax) }) }
        ensures some { InternsFirst self.old.names (needed_texts tree.now.syntax) self.new.names }
        ensures only { self.new ≡ record self.old { names = self.new.names } }
        ensures full { IfErr result (λ e. IsFull self.new.names e) }
        ensures untouched { (e : RefusalOf) → first_of (code_rules (world self.old).edits class tree.now.syntax) ≡ Some e → self.new ≡ self.old }
        ensures world { world self.new ≡ world self.old }
    {
        compile(alloc, tree, class, self.token.shown(), &mut self.names)
    }

    /// Installs the method of a tree, and answers the number of edits.
    fn install_tree(
        &mut self,
        alloc: Global,
        class: ClassId,
        tree: &MethodTree,
    ) -> Result<u32, Refusal>
        requires { is_class (world self.old).edits class ≡ true }
        ensures answers { Answers (first_of (image_install_rules self.old class tree.now.syntax)) result
            (λ n. Installs self.old class tree.now.syntax tree.now.source self.new n) }
        ensures refused { IfErr result (λ e. LeavesNames self.old class tree.now.source e self.new) }
        ensures world { OnErr result (world self.new ≡ world self.old) }
    {
        let is_kernels = self.has_kernel_pattern(alloc, class, tree.pattern())?;
        if is_kernels {
            return Err(Refusal::KernelMethod);
        }
        tree.known();
        let method = match self.compiled(alloc, tree, class) {
            Ok(method) => method,
            Err(refusal) => return Err(refusal),
        };
        self.known();
        self.edit(alloc, Edit::Install { class, method })
    }

    /// Installs a method in a class, in place of the class's own method for the selector, if it has one. The answer is the number of edits.
    ///
    /// Refusals, in this order: `UnknownClass`; `BadSource` if the source spells no method; `KernelMethod` if the kernel has a method of
    /// the class for the selector; `BadSource` if the tree has no code in the class; `TooMany` names or edits; `HistoryFull`. A refused
    /// install changes nothing but names. Of those that the method needs, these are added: the ones that fitted, if there are too many
    /// names; all, if the edit or the history is refused; none, the first ones or all, if memory ran out.
    pub fn install(&mut self, alloc: Global, class: ClassId, source: &[u8]) -> Result<u32, Refusal>
        ensures answers { AnswersInstall self.old class source.now self.new result }
        ensures refused { IfErr result (λ e. LeavesNames self.old class source.now e self.new) }
        ensures world { OnErr result (world self.new ≡ world self.old) }
    {
        if !self.version().is_class(class) {
            return Err(Refusal::UnknownClass);
        }
        let tree = read_method(alloc, source)?;
        let installed = self.install_tree(alloc, class, &tree);
        let_go(tree, installed)
    }
}
