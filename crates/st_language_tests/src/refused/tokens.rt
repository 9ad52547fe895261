//! Versions that are published, and tokens that are shared once more: where there is no memory for it no token comes of it, and the other
//! tokens show what they showed.
use crate::lookups::{next_edit, three_classes};
use st_classes::refusals::Refusal;
use st_classes::token::Token;
use st_classes::version::Version;
use std::alloc::{AllocError, Global};
use std::test::*;

/// A token of a version.
fn published(alloc: Global, version: &Version) -> Result<Token, AllocError> {
    let copy = version.again(alloc)?;
    Token::publish(alloc, copy)
}

/// Whether a token shows a version.
fn shows(token: &Token, version: &Version) -> bool {
    token.shown().begins(version) && version.begins(token.shown())
}

/// Whether a version gets a token, which is asked for again where there is no memory; another token shows its own version all the time.
fn publishes(
    alloc: Global,
    other: &Token,
    shown: &Version,
    version: &Version,
) -> Result<bool, AllocError> {
    let first = published(alloc, version);
    let stands = shows(other, shown);
    let token = match first {
        Ok(token) => token,
        Err(AllocError) => published(alloc, version)?,
    };
    Ok(stands && shows(&token, version) && shows(other, shown))
}

/// Whether a token is shared once more, which is asked for again where there is no memory; it shows its version all the time.
fn shares(token: &Token, shown: &Version) -> Result<bool, AllocError> {
    let first = token.again();
    let stands = shows(token, shown);
    let second = match first {
        Ok(second) => second,
        Err(AllocError) => token.again()?,
    };
    Ok(stands && shows(&second, shown) && shows(token, shown))
}

/// Whether both stand with a version, and with a later one beside it.
fn stand(alloc: Global) -> Result<bool, Refusal> {
    let version = three_classes(alloc)?;
    let later = next_edit(alloc, &version, 1)?;
    let token = published(alloc, &version)?;
    Ok(publishes(alloc, &token, &version, &later)? && shares(&token, &version)?)
}

#[test]
fn tokens_show_what_they_showed(rt: HostRuntime) -> Result<(), Fail> {
    assert!(rt; stand(rt.alloc())?);
    Ok(())
}
