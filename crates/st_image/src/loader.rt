//! The names and the class table of a file.
ghost use Rattle.std.specs.Prelude.{◌≡◌, IfOk};
ghost use Rattle.st_image.specs.Loading.{LeadsToOne, LoadsAll, LoadsEdit, LoadsName, TablesReload, edits_refusal, names_refusal};

mod finishing;

use crate::dropping::let_go;
use crate::edit_text::EditText;
use st_classes::edits::Edit;
use st_classes::methods::Method;
use st_classes::names::Names;
use st_classes::refusals::{ImagePlace, Refusal};
use st_classes::seq::Seq;
use st_classes::values::ClassId;
use st_classes::version::Version;
use st_compile::compile::compile;
use st_reader::reader::{one_reading, read_method};
use st_reader::trees::MethodTree;
use std::alloc::{AllocError, Global};
use std::marker::Model;

/// From a table, a name or an edit of a file leads to at most one table, and so do several, one after the other.
#[tactic(auto, using(crate::proofs::LoadedOnce::name_once, crate::proofs::LoadedOnce::edit_once, crate::proofs::LoadedOnce::all_once))]
pub fn leads_to_one()
    ensures name { LeadsToOne LoadsName }
    ensures edit { LeadsToOne LoadsEdit }
    ensures names { LeadsToOne (LoadsAll LoadsName) }
    ensures edits { LeadsToOne (LoadsAll LoadsEdit) }
{
    one_reading();
}

/// A class table whose methods are compiled from their sources loads again from the texts of its names and its edits. The tables of all
/// images and loaders are such.
pub fn reloads()
    ensures { TablesReload }
{}

const EDITS: Refusal = Refusal::BadImage {
    place: ImagePlace::Edits,
};

/// `NoMemory` stays as it is; any other refusal of an edit becomes that of the file's edits.
fn refused(refusal: Refusal) -> Refusal
    ensures { result ≡ edits_refusal refusal }
{
    match refusal {
        Refusal::NoMemory => Refusal::NoMemory,
        _ => EDITS,
    }
}

const NAMES: Refusal = Refusal::BadImage {
    place: ImagePlace::Names,
};

/// `NoMemory` stays as it is; any other refusal of a name becomes that of the file's names.
fn refused_name(refusal: Refusal) -> Refusal
    ensures { result ≡ names_refusal refusal }
{
    match refusal {
        Refusal::NoMemory => Refusal::NoMemory,
        _ => NAMES,
    }
}

/// Names and a class table. Those of a file are added one after the other.
#[derive(Drop)]
pub struct Loader {
    names: Names,
    version: Version,
}

impl Model for Loader {
    ghost use Rattle.st_image.specs.Loading.{HoldsLoader, LoaderView};

    ghost Value = { LoaderView };

    ghost view = { λ l. record { names = l.names; edits = l.version } };

    ghost invariant = { λ l. HoldsLoader l.names l.version };
}

impl Loader {
    ghost use Rattle.std.specs.Prelude.{◌≡◌, ◌++◌, ℕ, List, [], ◌∷◌, true, Some, IfOk, IfErr, OnOk, OnErr};
    ghost use Rattle.st_classes.specs.declared.refusals.Refusal.{Refusal as RefusalOf};
    ghost use Rattle.st_classes.specs.Classes.{class_named, is_class};
    ghost use Rattle.st_compile.specs.CompiledMethod.{IsCompiled};
    ghost use Rattle.st_compile.specs.CompileRules.{code_rules, method_rules};
    ghost use Rattle.st_compile.specs.NeededNames.{InternsFirst, IsFull, interned_all, needed_texts};
    ghost use Rattle.st_classes.specs.EditRules.{edit_rules};
    ghost use Rattle.st_classes.specs.MethodSuits.{edit_suits};
    ghost use Rattle.st_classes.specs.Refusals.{first_of, Answers};
    ghost use Rattle.st_image.specs.Loading.{AnswersEdit, AnswersName, AnswersTree, InstallsFrom, LeavesEdit, LeavesInstall, LoadsDefine, LoadsRemove, LoadsReparent, LoadsEdit};
    ghost use Rattle.st_classes.specs.Kernel.{kernel_selectors};
    ghost use Rattle.st_classes.specs.Names.{AreNames};
    ghost use Rattle.st_classes.specs.EditLists.{AllSuit, AllSound, AreLawful};
    ghost use Rattle.st_image.specs.CompiledEdits.{AllCompiled, IsCompiledEdit};

    /// The kernel's names and classes.
    pub fn new(alloc: Global) -> Result<Loader, AllocError>
        ensures { IfOk result (λ l. l ≡ record { names = kernel_selectors; edits = [] }) }
    {
        Ok(Loader {
            names: Names::kernel(alloc)?,
            version: Version::kernel(alloc)?,
        })
    }

    /// What holds of every loader: its names and its class table have their invariants, and the methods suit the names and are compiled
    /// from their sources.
    pub fn known(&self)
        ensures names { AreNames self.now.names }
        ensures lawful { AreLawful self.now.edits }
        ensures sound { AllSound self.now.edits }
        ensures suited { AllSuit self.now.names self.now.edits }
        ensures compiled { AllCompiled self.now.names self.now.edits }
    {
        self.names.known();
        self.version.known();
    }

    pub fn names(&self) -> &Names
        ensures { result.now ≡ self.now.names }
    {
        &self.names
    }

    pub fn version(&self) -> &Version
        ensures { result.now ≡ self.now.edits }
    {
        &self.version
    }

    /// Appends a name.
    ///
    /// `BadImage` at the names if the text is no selector, is a name already, or there are 8,192 names. The only other refusal is
    /// `NoMemory`. A refused name changes nothing.
    pub fn name(&mut self, alloc: Global, text: &[u8]) -> Result<(), Refusal>
        ensures { AnswersName self.old text.now self.new result }
    {
        if self.names.find(text).is_some() {
            return Err(NAMES);
        }
        if let Err(refusal) = self.names.intern(alloc, text) {
            return Err(refused_name(refusal));
        }
        Ok(())
    }

    /// Appends an edit. An install's source is read and compiled, and the names that its code needs are appended too.
    ///
    /// `BadImage` at the edits if an image would refuse the edit for another cause than the limits of a run or of the history. The only
    /// other refusal is `NoMemory`. A refused edit changes nothing, except that an install whose source has code in its class may add
    /// names that this code needs: those that fitted, if the names are too many; none, the first ones or all, if memory ran out; all, for
    /// any other cause.
    pub fn edit(&mut self, alloc: Global, edit: &EditText) -> Result<(), Refusal>
        ensures answers { AnswersEdit (LoadsEdit self.old edit.now) self.new result }
        ensures refused { IfErr result (λ e. LeavesEdit self.old edit.now e self.new) }
    {
        match edit {
            EditText::Define {
                name,
                parent,
                slots,
            } => self.define(alloc, name.as_slice(), parent.as_slice(), slots),
            EditText::Install { class, source } => {
                self.install(alloc, class.as_slice(), source.as_slice())
            }
            EditText::Remove { class, selector } => {
                self.remove(alloc, class.as_slice(), selector.as_slice())
            }
            EditText::Reparent { class, parent } => {
                self.reparent(alloc, class.as_slice(), parent.as_slice())
            }
        }
    }

    /// Appends an edit that suits, with a method that is compiled from its source, or answers why it is refused.
    fn accept(&mut self, alloc: Global, edit: Edit) -> Result<(), Refusal>
        requires suits { edit_suits self.old.names self.old.edits edit ≡ true }
        requires compiled { IsCompiledEdit self.old.names self.old.edits edit }
        ensures answers { Answers (first_of (edit_rules self.old.edits edit)) result (λ _. self.new ≡ record self.old { edits = self.old.edits ++ edit ∷ [] }) }
        ensures refused { OnErr result (self.new ≡ self.old) }
    {
        self.version.known();
        let version = self.version.with_edit(alloc, edit)?;
        self.version = version;
        Ok(())
    }

    fn define(
        &mut self,
        alloc: Global,
        name: &[u8],
        parent: &[u8],
        slots: &Seq<Seq<u8>>,
    ) -> Result<(), Refusal>
        ensures answers { AnswersEdit (LoadsDefine self.old name.now parent.now slots.now) self.new result }
        ensures refused { OnErr result (self.new ≡ self.old) }
    {
        let Some(parent) = self.version.class_named(parent) else {
            return Err(EDITS);
        };
        let name = name.to_vec(alloc)?;
        let slots = copied(alloc, slots.as_slice())?;
        let edit = Edit::Define {
            name: Seq::from_vec(name),
            parent,
            slots,
        };
        match self.accept(alloc, edit) {
            Ok(()) => Ok(()),
            Err(refusal) => Err(refused(refusal)),
        }
    }

    fn install(&mut self, alloc: Global, class: &[u8], source: &[u8]) -> Result<(), Refusal>
        ensures answers { AnswersEdit (InstallsFrom self.old class.now source.now) self.new result }
        ensures refused { IfErr result (λ e. LeavesInstall self.old class.now source.now e self.new) }
    {
        let Some(class) = self.version.class_named(class) else {
            return Err(EDITS);
        };
        let tree = match read_method(alloc, source) {
            Ok(tree) => tree,
            Err(refusal) => return Err(refused(refusal)),
        };
        let installed = self.install_tree(alloc, class, &tree);
        let_go(tree, installed)
    }

    /// Compiles the method of a tree in a class, and interns the names that it needs.
    fn compiled(
        &mut self,
        alloc: Global,
        tree: &MethodTree,
        class: ClassId,
    ) -> Result<Method, Refusal>
        requires { is_class self.old.edits class ≡ true }
        ensures answers { Answers (first_of (method_rules self.old.names self.old.edits class tree.now.syntax)) result
            (λ m. IsCompiled self.new.names self.old.edits class tree.now.syntax tree.now.source m) }
        ensures names { OnOk result (self.new.names ≡ interned_all self.old.names (needed_texts tree.now.syntax)) }
        ensures some { InternsFirst self.old.names (needed_texts tree.now.syntax) self.new.names }
        ensures only { self.new ≡ record self.old { names = self.new.names } }
        ensures full { IfErr result (λ e. IsFull self.new.names e) }
        ensures untouched { (e : RefusalOf) → first_of (code_rules self.old.edits class tree.now.syntax) ≡ Some e → self.new ≡ self.old }
    {
        compile(alloc, tree, class, &self.version, &mut self.names)
    }

    /// Installs the method of a tree.
    fn install_tree(
        &mut self,
        alloc: Global,
        class: ClassId,
        tree: &MethodTree,
    ) -> Result<(), Refusal>
        requires { is_class self.old.edits class ≡ true }
        ensures answers { AnswersTree self.old class tree.now.syntax tree.now.source self.new result }
        ensures refused { (name : List ℕ) → class_named self.old.edits name ≡ Some class → IfErr result (λ e. LeavesInstall self.old name tree.now.source e self.new) }
    {
        tree.known();
        let method = match self.compiled(alloc, tree, class) {
            Ok(method) => method,
            Err(refusal) => return Err(refused(refusal)),
        };
        match self.accept(alloc, Edit::Install { class, method }) {
            Ok(()) => Ok(()),
            Err(refusal) => Err(refused(refusal)),
        }
    }

    fn remove(&mut self, alloc: Global, class: &[u8], selector: &[u8]) -> Result<(), Refusal>
        ensures answers { AnswersEdit (LoadsRemove self.old class.now selector.now) self.new result }
        ensures refused { OnErr result (self.new ≡ self.old) }
    {
        let Some(class) = self.version.class_named(class) else {
            return Err(EDITS);
        };
        let Some(selector) = self.names.find(selector) else {
            return Err(EDITS);
        };
        match self.accept(alloc, Edit::Remove { class, selector }) {
            Ok(()) => Ok(()),
            Err(refusal) => Err(refused(refusal)),
        }
    }

    fn reparent(&mut self, alloc: Global, class: &[u8], parent: &[u8]) -> Result<(), Refusal>
        ensures answers { AnswersEdit (LoadsReparent self.old class.now parent.now) self.new result }
        ensures refused { OnErr result (self.new ≡ self.old) }
    {
        let Some(class) = self.version.class_named(class) else {
            return Err(EDITS);
        };
        let Some(parent) = self.version.class_named(parent) else {
            return Err(EDITS);
        };
        match self.accept(alloc, Edit::Reparent { class, parent }) {
            Ok(()) => Ok(()),
            Err(refusal) => Err(refused(refusal)),
        }
    }
}

fn copied(alloc: Global, texts: &[Seq<u8>]) -> Result<Seq<Seq<u8>>, AllocError>
    ensures { IfOk result (λ copy. copy ≡ texts.now) }
{
    let mut copy = Vec::with_capacity(alloc, texts.len())?;
    for text in texts {
        copy.push(Seq::from_vec(text.as_slice().to_vec(alloc)?))?;
    }
    Ok(Seq::from_vec(copy))
}
