//! Compiling: the code of methods, written down by hand from the equations.
mod codes;

use crate::compiling::codes::codes;
use crate::tables::{boxed, define, kernel_version};
use st_classes::methods::Method;
use st_classes::names::Names;
use st_classes::refusals::Refusal;
use st_classes::values::{ClassId, Selector};
use st_classes::version::Version;
use st_compile::compile::compile;
use st_reader::reader::read_method;
use st_reader::trees::MethodTree;
use std::alloc::{AllocError, Global};
use std::test::*;

/// The kernel's classes and Counter, which is number 8.
fn version(alloc: Global) -> Result<Box<Version>, Refusal> {
    let kernel = kernel_version(alloc)?;
    define(alloc, &kernel, b"Counter", ClassId(0), &[b"count"])
}

fn kernel_names(alloc: Global) -> Result<Names, AllocError> {
    Names::kernel(alloc)
}

/// The tree of a source, on the heap as class tables are.
fn read(alloc: Global, source: &str) -> Result<Box<MethodTree>, Refusal> {
    boxed(alloc, read_method(alloc, source.as_bytes())?)
}

/// What a tree in Counter is compiled to.
fn compiled_tree(
    alloc: Global,
    tree: &MethodTree,
    version: &Version,
    names: &mut Names,
) -> Result<Box<Method>, Refusal> {
    if !version.is_class(ClassId(8)) {
        return Err(Refusal::UnknownClass);
    }
    boxed(alloc, compile(alloc, tree, ClassId(8), version, names)?)
}

/// What a source in Counter is compiled to.
fn compiled(alloc: Global, source: &str, names: &mut Names) -> Result<Box<Method>, Refusal> {
    let version = version(alloc)?;
    let tree = read(alloc, source)?;
    compiled_tree(alloc, &tree, &version, names)
}

/// What a source in Counter is compiled to, the first that has other names than the kernel's.
fn compiled_first(alloc: Global, source: &str) -> Result<Box<Method>, Refusal> {
    let mut names = kernel_names(alloc)?;
    compiled(alloc, source, &mut names)
}

/// The depth and the instruction of each place of a method's code, a line each.
fn listing(alloc: Global, method: &Method) -> Result<String, AllocError> {
    let mut text = String::new(alloc);
    for (instruction, depth) in method.code().iter().zip(method.depths()) {
        let line = format!(in alloc; "{depth} {instruction:?}\n")?;
        text.push_str(&line)?;
    }
    Ok(text)
}

/// Whether the source in the first line of a sample is compiled to what the others list.
fn is_listed(alloc: Global, sample: &str) -> Result<bool, Refusal> {
    let Some((source, code)) = sample.split_once('\n') else {
        return Ok(false);
    };
    let method = compiled_first(alloc, source)?;
    let listed = listing(alloc, &method)?;
    Ok(listed.trim_end() == code)
}

#[test]
fn listings(rt: HostRuntime) -> Result<(), Fail> {
    for sample in codes().split("\n\n") {
        assert!(rt; is_listed(rt.alloc(), sample)?, "{sample}");
    }
    Ok(())
}

/// Whether the parts of the method of `at:put:` are these.
fn are_parts(method: &Method, source: &str) -> bool {
    method.holder() == ClassId(8)
        && method.selector() == Selector(22)
        && method.arguments() == 2
        && method.temporaries() == 1
        && method.sites() == [2, 7].as_slice()
        && method.source() == source.as_bytes()
}

/// Whether these are all the names, with those of the method of `at:put:` behind the kernel's.
fn has_its_names(names: &Names) -> bool {
    names.find(b"at:put:") == Some(Selector(22))
        && names.find(b"bar") == Some(Selector(23))
        && names.find(b"foo:") == Some(Selector(24))
        && names.len() == 25
}

fn source_with_parts() -> &'static str {
    "at: i put: x | t | t := self foo: #bar. ^t + i"
}

/// Whether the method of `at:put:` has its parts, and the table its names.
fn has_parts_and_names(alloc: Global) -> Result<(bool, bool), Refusal> {
    let mut names = kernel_names(alloc)?;
    let source = source_with_parts();
    let method = compiled(alloc, source, &mut names)?;
    Ok((are_parts(&method, source), has_its_names(&names)))
}

#[test]
fn parts(rt: HostRuntime) {
    assert!(rt; has_parts_and_names(rt.alloc()) == Ok((true, true)));
}
