//! The numbers of an image, and what is not there.
use crate::calls::*;
use st_classes::kernel::OBJECT;
use st_classes::refusals::Refusal;
use st_classes::values::{ClassId, Selector};
use st_image::settings::Settings;
use st_script::images::Image;
use st_script::settings::ScriptSettings;
use std::test::*;

#[test]
fn refuses_settings(rt: HostRuntime) -> Result<(), Fail> {
    let none = Settings {
        capacity: 0,
        history: 1,
    };
    assert!(rt; matches!(new_image(rt.alloc(), none), Err(Refusal::BadArguments)));
    assert!(rt; set(rt.alloc(), none) == Err(Refusal::BadArguments));
    Ok(())
}

#[test]
fn numbers_by_default(rt: HostRuntime) -> Result<(), Fail> {
    let wanted = Settings {
        capacity: 64,
        history: 1_000_000,
    };
    assert!(rt; Settings::DEFAULT == wanted);
    let wanted = ScriptSettings {
        quantum: 256,
        capacity: 64,
        history: 1_000_000,
        start: 0,
    };
    assert!(rt; ScriptSettings::DEFAULT == wanted);
    Ok(())
}

/// Whether nothing is known of the first actor.
fn has_no_actor(image: &Image) -> bool {
    image.class(FIRST).is_none()
        && image.body(FIRST).is_none()
        && image.mailbox(FIRST).is_none()
        && image.last_sent(FIRST).is_none()
}

/// A class that no line can name, an actor that is not there, and one that has nothing to do, also behind a turn.
#[test]
fn what_is_not_there(rt: HostRuntime) -> Result<(), Fail> {
    let alloc = rt.alloc();
    let class = ClassId(8);
    let mut image = new_image(alloc, Settings::DEFAULT)?;
    assert!(rt; create(alloc, &mut image, class) == Err(Refusal::UnknownClass));
    assert!(rt; remove(alloc, &mut image, class, Selector(3)) == Err(Refusal::UnknownClass));
    assert!(rt; has_no_actor(&image));
    create(alloc, &mut image, OBJECT)?;
    assert!(rt; advance(alloc, &mut image, 10) == Err(Refusal::NothingToDo));
    // `isNil`, whose turn is one step
    post(alloc, &mut image, Selector(3))?;
    assert!(rt; advance(alloc, &mut image, 10) == Ok(1));
    assert!(rt; advance(alloc, &mut image, 10) == Err(Refusal::NothingToDo));
    Ok(())
}
